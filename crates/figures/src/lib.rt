// Figures: the library call.
#![tactic(auto)]

mod repeat;

ghost use Rattle.std.specs.Prelude.{◌≡◌, ◌&&◌, leb};
ghost use Rattle.meaning.specs.Limits.{budget_limit};
ghost use Rattle.meaning.specs.Answer.{answer, answer_by};
ghost use Rattle.meaning.specs.EarlierReaders.{short_read, UnlessTooLong};
ghost use Rattle.meaning.specs.EarlierVisits.{earlier_answer, OnlyVisitsFall};
ghost use Rattle.figures.specs.Answers.{answer_result};
ghost use Rattle.figures.specs.Demand.{Answered};

use crate::repeat::{figures_of, repeat_stages};
use form::Parameters;
use layout::PlanArrays;
use planner::plan;
use sheet::refusal::{Refusal, RefusalKind};

#[derive(Clone, Copy, PartialEq, Eq)]
pub struct Figures {
    pub least: u64,
    pub most: u64,
    pub visits: u64,
}

// The largest visit budget.
pub const MAX_BUDGET: u32 = 1_000_000;

// Whether the budget is not refused 7.
pub fn budget_allowed(budget: u32) -> bool
    ensures { result ≡ leb 1 budget && leb budget budget_limit }
{
    1 <= budget && budget <= MAX_BUDGET
}

// The library call. It goes over trips only by repeating the body of the stage, in place.
pub fn cycles(sheet: &[u8], parameters: Parameters, budget: u32) -> Result<Figures, Refusal>
    ensures answers { answer_result result ≡ answer sheet.now parameters budget }
    ensures demand3 { Answered sheet.now parameters (answer_result result) }
    ensures before { UnlessTooLong sheet.now (answer_result result ≡ answer_by short_read sheet.now parameters budget) }
    ensures fewer { OnlyVisitsFall (earlier_answer sheet.now parameters budget) (answer_result result) }
{
    if !budget_allowed(budget) {
        return Err(Refusal {
            kind: RefusalKind::BadBudget,
            offset: 0,
        });
    }
    let mut arrays = PlanArrays::blank();
    let count = plan(sheet, parameters, &mut arrays)?;
    let sums = repeat_stages(&arrays, count, budget);
    figures_of(sums, budget)
}
