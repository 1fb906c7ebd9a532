// Closed, ranked or walked: each loop against the loops inside it.
ghost use Rattle.std.specs.Prelude.{◌≡◌, List, ◌||◌, ℕ, ◌+◌, ◌-◌, ◌^◌, ◌<◌, ℤ, ltb, take, drop};
ghost use Rattle.std.proofs.Math.Option.{Option};
ghost use Rattle.layout.specs.Numbers.{stored_in};
ghost use Rattle.layout.specs.Loops.{choice_depth_at};
ghost use Rattle.layout.specs.Rows.{end_at, depth_at};
ghost use Rattle.meaning.specs.Limits.{index_factors};
ghost use Rattle.sheet.specs.Sheets.{records_of};
ghost use Rattle.loops.specs.Facts.{LoopFacts};
ghost use Rattle.planner.specs.Closing as C;
ghost use Rattle.planner.specs.Closing.{uneven_at, some_uneven, bars_ranking, number_among};
ghost use Rattle.loops.specs.Facts.{loops_in};
ghost use Rattle.planner.specs.Plan.{limits_stored, sheet_plans};
ghost use Rattle.planner.specs.Known.{KnownFacts, KnownInside, Surveyed};

use form::packed::INDEX_FACTORS;
use layout::PlanArrays;
use layout::differences::{Differences, push_at, stride_at};
use layout::facts::{Facts, choice_depth_at, enough_at, rank_depth_at};
use layout::limits::{begin_limits, limit_number, put_limit};
use layout::rows::{Role, depth_at, end_at, loop_at, role_at};

// How many loops can stand around a loop.
pub(crate) const MAX_AROUND: usize = INDEX_FACTORS;

// Whether the stride of loop K does not divide the push of the loop M around it that has m loops around it.
#[tactic(auto, unfolding(crate::specs::Closing::uneven_at))]
pub(crate) fn uneven_in(differences: &Differences, loop_number: usize, m: usize) -> bool
    requires { m < index_factors }
    ensures { result ≡ uneven_at differences.now loop_number m }
{
    let stride = stride_at(differences, loop_number);
    let push = push_at(differences, loop_number, m).cast_signed();
    stride != 0 && push.unsigned_abs() % stride != 0
}

// The same of some loop M around K, from the one with `depth` loops around it inward.
fn uneven(differences: &Differences, loop_number: usize, depth: usize) -> bool
    ensures { (facts : List ℕ) (f : LoopFacts) → KnownFacts differences.now facts loop_number f → result ≡ some_uneven f.stride (drop depth f.pushes) }
{
    (depth..MAX_AROUND).any(|m| uneven_in(differences, loop_number, m))
}

// Whether loop K keeps a loop with `depth` loops around it from being ranked, and so from being closed.
fn prevents(arrays: &PlanArrays, loop_number: usize, depth: usize) -> bool
    ensures { (f : LoopFacts) → KnownFacts arrays.now.differences arrays.now.facts loop_number f → result ≡ C.prevents (bars_ranking f) depth f }
{
    depth < rank_depth_at(&arrays.facts, loop_number)
        || !enough_at(&arrays.facts, loop_number)
        || uneven(&arrays.differences, loop_number, depth)
}

// Whether closing is barred to a loop with `depth` loops around it by a choice around K, or was barred before.
fn barred(before: bool, facts: &Facts, loop_number: usize, depth: usize) -> bool
    ensures { result ≡ before || ltb depth (choice_depth_at facts.now loop_number) }
{
    before || depth < choice_depth_at(facts, loop_number)
}

// The number that is stored of a loop: how many trips it visits at most, and whether it is ranked; 0 where it is walked. Stays a number, since the clause
// `limits` of `plan` promises it.
fn limit(arrays: &PlanArrays, number: usize) -> u16
    requires { number < 2 ^ 16 }
    ensures { (fs : List (Option LoopFacts)) → KnownInside arrays.now.rows arrays.now.differences arrays.now.facts number fs →
        result ≡ number_among (depth_at arrays.now.rows number) (take (end_at arrays.now.rows number - (number + 1)) (drop (number + 1) fs)) }
{
    let depth = depth_at(&arrays.rows, number);
    let end = end_at(&arrays.rows, number);
    let mut deepest = depth;
    let mut ranked = false;
    for i in number + 1..end {
        if role_at(&arrays.rows, i) != Role::Loop {
            continue;
        }
        let k = loop_at(&arrays.rows, i);
        if prevents(arrays, k, depth) {
            return 0;
        }
        ranked = barred(ranked, &arrays.facts, k, depth);
        deepest = deepest.max(depth_at(&arrays.rows, i));
    }
    limit_number(deepest - depth + 1, ranked)
}

// Stores the limits of all loops.
pub(crate) fn put_limits(count: usize, arrays: &mut PlanArrays)
    requires { count < 2 ^ 16 }
    ensures limits { (sheet : List ℕ) (parameters : List ℤ) → Surveyed sheet parameters count arrays.old.rows arrays.old.differences arrays.old.facts →
        arrays.new.limits ≡ stored_in arrays.old.limits (limits_stored (loops_in (sheet_plans parameters (records_of sheet)))) }
    ensures rows { arrays.new.rows ≡ arrays.old.rows }
    ensures differences { arrays.new.differences ≡ arrays.old.differences }
    ensures facts { arrays.new.facts ≡ arrays.old.facts }
{
    begin_limits(&mut arrays.limits);
    for number in 0..count {
        if role_at(&arrays.rows, number) != Role::Loop {
            continue;
        }
        let n = limit(arrays, number);
        put_limit(&mut arrays.limits, loop_at(&arrays.rows, number), n);
    }
}
