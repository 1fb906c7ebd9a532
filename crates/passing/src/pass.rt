// Passing straight work, and the records of choices.
ghost use Rattle.std.specs.Prelude.{◌≡◌};
ghost use Rattle.layout.specs.Rows.{opener_at, frame_at};
ghost use Rattle.passing.specs.Pass.{at_next, pass_straight_work, open_choice, keeps_arms_at, open_arm_kept, open_arm_joined, pass_choice, is_of_loop};

use form::MAX_DEPTH;
use layout::PlanArrays;
use layout::limits::{ranked_at, some_ranked};
use layout::rows::{
    Role, Rows, depth_at, enclosing_at, frame_at, least_at, loop_at, most_at, opener_at, role_at,
};
use state::State;
use state::bounds::Bounds;
use state::open::Open;
use trips::limit_within;

// Straight work, from where the state stands on, to the first record that is none.
pub fn pass_straight_work(rows: &Rows, count: usize, state: &mut State)
    ensures { pass_straight_work rows.now count state.old ≡ state.new }
{
    let mut at = state.at;
    let mut passed = state.sums.passed;
    // Stays a `while`, since the state stands where it stops.
    while at < count && role_at(rows, at) == Role::Straight {
        passed = passed.plus(Bounds {
            least: least_at(rows, at),
            most: most_at(rows, at),
        });
        at += 1;
    }
    state.at = at;
    state.sums.passed = passed;
}

// Whether a record is a loop or a loop's end.
pub fn of_loop(rows: &Rows, number: usize) -> bool
    ensures { result ≡ is_of_loop rows.now number }
{
    match role_at(rows, number) {
        Role::End => role_at(rows, opener_at(rows, number)) == Role::Loop,
        role => role == Role::Loop,
    }
}

// Whether the arms of a choice are kept: where it stands directly in a trip of a ranked loop, one of the first.
fn keeps_arms(arrays: &PlanArrays, choice: usize, opened: &Open) -> bool
    ensures { result ≡ keeps_arms_at arrays.now.rows arrays.now.limits choice opened.now }
{
    let rows = &arrays.rows;
    let around = opener_at(rows, choice);
    let number = loop_at(rows, around);
    let depth = depth_at(rows, around);
    if !ranked_at(&arrays.limits, number)
        || enclosing_at(rows, choice).is_none()
        || role_at(rows, around) != Role::Loop
        || MAX_DEPTH <= depth
    {
        return false;
    }
    opened.counter_at(depth) < limit_within(&arrays.limits, number, depth)
}

// The open arm of a choice is kept, where its arms are. Of most sheets no loop is ranked.
fn keep_open_arm(arrays: &PlanArrays, choice: usize, arm: Bounds, opened: &mut Open)
    ensures { opened.new ≡ open_arm_kept arrays.now.rows arrays.now.limits choice arm opened.old }
{
    if some_ranked(&arrays.limits) && keeps_arms(arrays, choice, opened) {
        opened.arms.keep(arm);
    }
}

// A choice opens its first arm.
#[tactic(auto, unfolding(crate::specs::Pass::open_choice))]
fn open_choice(rows: &Rows, state: &mut State)
    ensures stands { state.new.at ≡ state.old.at }
    ensures after { open_choice rows.now state.old ≡ at_next state.new }
{
    state
        .opened
        .open_frame(frame_at(rows, state.at), state.sums.passed);
    state.sums.reset();
}

// The open arm of a choice joins those passed of the choice's frame, and is kept where its arms are.
fn join_arm(arrays: &PlanArrays, state: &mut State) -> usize
    ensures value { result ≡ frame_at arrays.now.rows (opener_at arrays.now.rows state.old.at) }
    ensures after { state.new ≡ open_arm_joined arrays.now.rows arrays.now.limits state.old }
{
    let choice = opener_at(&arrays.rows, state.at);
    let frame = frame_at(&arrays.rows, choice);
    keep_open_arm(arrays, choice, state.sums.passed, &mut state.opened);
    state.opened.pass_arm(frame, state.sums.passed);
    frame
}

// A choice, a next arm or a choice's end: another arm opens, or what the arms passed goes to what is around the choice. The step past the record stays
// with `evaluate_body`, since here it would ask where the state stands, and this contract asks nothing of its callers.
pub fn pass_choice(arrays: &PlanArrays, state: &mut State)
    ensures stands { state.new.at ≡ state.old.at }
    ensures after { pass_choice arrays.now.rows arrays.now.limits state.old ≡ at_next state.new }
{
    match role_at(&arrays.rows, state.at) {
        Role::Choice => open_choice(&arrays.rows, state),
        role => {
            // One call for both, since the compiler puts it in line only so.
            let frame = join_arm(arrays, state);
            match role {
                Role::End => state.opened.close_frame(frame, &mut state.sums),
                _ => state.sums.reset(),
            }
        }
    }
}
