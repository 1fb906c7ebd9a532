// What is said of each loop of a plan: its offset, its class, its ceiling, why it is not closed.
ghost use Rattle.std.specs.Prelude.{◌≡◌};
ghost use Rattle.planner.specs.Closing.{class_by};
ghost use Rattle.planner.specs.Reports.{class_in, reason_by, report_in, report_at};
ghost use Rattle.planner.specs.Reasons.{reason_at};
ghost use Rattle.reasons.specs.View.{found_in};

use crate::reason::reason_of;
use layout::PlanArrays;
use layout::facts::ceiling_at;
use layout::limits::{limit_at, ranked_at};
use layout::rows::{Role, loop_at, place_at, role_at};
use reasons::Reason;

#[derive(Clone, Copy, PartialEq, Eq)]
pub enum Class {
    Closed,
    Ranked,
    Walked,
}

#[derive(Clone, Copy, PartialEq, Eq)]
pub struct LoopReport {
    pub offset: u64,
    pub class: Class,
    pub ceiling: u64,
    pub reason: Option<Reason>,
}

// The class of a loop with this limit, by whether it is ranked.
#[tactic(auto, unfolding(crate::specs::Closing::class_by))]
fn class_by(limit: u64, ranked: bool) -> Class
    ensures { class_in result ≡ class_by limit ranked }
{
    match (limit, ranked) {
        (0, _) => Class::Walked,
        (_, true) => Class::Ranked,
        (_, false) => Class::Closed,
    }
}

// Why the loop with this record number and class is not closed. A closed one has no reason, so that none is searched for.
#[tactic(auto, unfolding(crate::specs::Reports::reason_by))]
fn reason_by(class: Class, arrays: &PlanArrays, number: usize) -> Option<Reason>
    ensures { found_in result ≡ reason_by (class_in class) (reason_at arrays.now.rows arrays.now.differences arrays.now.facts number) }
{
    match class {
        Class::Closed => None,
        Class::Ranked | Class::Walked => reason_of(arrays, number),
    }
}

// Of the record with this number: a loop's report; nothing of another record.
pub fn report_of(arrays: &PlanArrays, number: usize) -> Option<LoopReport>
    ensures { report_in result ≡ report_at arrays.now.rows arrays.now.differences arrays.now.facts arrays.now.limits number }
{
    if role_at(&arrays.rows, number) != Role::Loop {
        return None;
    }
    let of_loop = loop_at(&arrays.rows, number);
    let class = class_by(
        limit_at(&arrays.limits, of_loop),
        ranked_at(&arrays.limits, of_loop),
    );
    Some(LoopReport {
        offset: u64::from(place_at(&arrays.rows, number)),
        class,
        ceiling: ceiling_at(&arrays.facts, of_loop),
        reason: reason_by(class, arrays, number),
    })
}
