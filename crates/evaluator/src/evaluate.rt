// The body evaluator and the loop evaluator, which call each other up to the start of a visit or the sheet's end: the records that are left fall
// with each one passed that is no straight work, the nesting depth where a loop is left. They stay two functions that call each other, since a loop's
// time rests on its body's, and a body's on the loops in it (docs/ARCHITECTURE.md).
ghost use Rattle.std.specs.Prelude.{◌≡◌, ◌<◌, ◌≤◌};
ghost use Rattle.meaning.specs.Limits.{record_limit, depth_limit};
ghost use Rattle.evaluator.specs.Machine.{body_evaluator, loop_evaluator};

use layout::PlanArrays;
use passing::loops::pass_loop;
use passing::pass::{of_loop, pass_choice, pass_straight_work};
use state::State;

// The body evaluator: what follows one another, with at most `left` records that are no straight work.
#[cycle(evaluate_body_evaluate_loop)]
pub(crate) fn evaluate_body(
    arrays: &PlanArrays,
    count: usize,
    left: usize,
    depth: usize,
    state: &mut State,
)
    requires { (count ≤ record_limit) × (depth ≤ depth_limit) }
    ensures { (body_evaluator arrays.now.rows arrays.now.differences arrays.now.limits count left depth state.old).after ≡ state.new }
{
    pass_straight_work(&arrays.rows, count, state);
    if left == 0 || count <= state.at {
        return;
    }
    let rest = left - 1;
    if of_loop(&arrays.rows, state.at) {
        evaluate_loop(arrays, count, rest, depth, state);
        return;
    }
    pass_choice(arrays, state);
    state.at += 1;
    evaluate_body(arrays, count, rest, depth, state);
}

// The loop evaluator: a loop's record, or its end, and what follows unless a visit begins.
#[cycle(evaluate_body_evaluate_loop)]
fn evaluate_loop(arrays: &PlanArrays, count: usize, left: usize, depth: usize, state: &mut State)
    requires { (count ≤ record_limit) × ((depth ≤ depth_limit) × (state.old.at < record_limit)) }
    ensures { (loop_evaluator arrays.now.rows arrays.now.differences arrays.now.limits
        (body_evaluator arrays.now.rows arrays.now.differences arrays.now.limits count left) depth state.old).after ≡ state.new }
{
    let outcome = pass_loop(arrays, depth, state);
    if outcome.begun {
        return;
    }
    evaluate_body(arrays, count, left, outcome.depth, state);
}
