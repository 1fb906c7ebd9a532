// Passing a loop's record, or its end.
ghost use Rattle.std.specs.Prelude.{◌≡◌, suc, ◌+◌, ◌-◌, ◌<◌, ◌≤◌, true, if◌then◌else◌, ◌≢◌};
ghost use Rattle.meaning.specs.Limits.{record_limit, depth_limit, ceiling_limit};
ghost use Rattle.state.specs.Open.{counter_at};
ghost use Rattle.state.specs.Sums.{visit_begins};
ghost use Rattle.state.specs.States.{state_with};
ghost use Rattle.layout.specs.Rows.{opener_at, loop_at};
ghost use Rattle.layout.specs.Loops.{ranked_at};
ghost use Rattle.trips.specs.Trips.{limit_within};
ghost use Rattle.passing.specs.Pass.{trip_joined, summed_trips, left_parts, left_sums, kept_joined, kept_dropped};
ghost use Rattle.passing.specs.Pass.{goes_unsettled, arms_left, end_trip, end_trip_by, enter_loop, pass_loop};

use layout::PlanArrays;
use layout::limits::{Limits, ranked_at, some_ranked};
use layout::rows::{
    Role, Rows, after_end_at, entry_cost_at, frame_at, loop_at, opener_at, role_at, step_at,
};
use newton::{weighted_sum, weights_of};
use ranking::KeptArms;
use ranking::body::settled;
use state::State;
use state::bounds::Bounds;
use state::open::Open;
use trips::{further, limit_unless, limit_within, trips_at, visited_by};

// How many loops are open after a record, and whether a visit begins there. Stays a flag beside the depth, since the clause of `pass_loop` gives
// both in either case, as the definition's `Passage` does.
#[derive(Clone, Copy)]
pub struct Outcome {
    pub depth: usize,
    pub begun: bool,
}

// The open trip joins those visited before if the loop is walked; otherwise it is kept. A walked loop's limit stays 0, here and below, since that of
// `trips::limit_unless` is (docs/ARCHITECTURE.md).
fn join_trip(limit: u64, around: usize, frame: usize, counter: u64, trip: Bounds, opened: &mut Open)
    requires counter_value { counter ≡ counter_at opened.old around }
    requires counter_bound { (limit ≢ 0) → suc (around + counter) < depth_limit }
    ensures { opened.new ≡ trip_joined around frame trip opened.old limit }
{
    if limit == 0 {
        opened.pass_trip(frame, trip);
    } else {
        opened.keep(around, counter, trip);
    }
}

// The sum of so many trips, from the first ones: `held` kept ones and the open one.
fn sum_trips(opened: &Open, around: usize, held: u64, trips: u64, last: Bounds) -> Bounds
    requires { (around + held < depth_limit) × (trips ≤ ceiling_limit) }
    ensures { result ≡ summed_trips around last opened.now trips held }
{
    let weights = weights_of(trips, held + 1);
    let [first, second, third, fourth] = opened.first_trips(around, held, last);
    Bounds {
        least: weighted_sum(
            weights,
            [first.least, second.least, third.least, fourth.least],
        ),
        most: weighted_sum(weights, [first.most, second.most, third.most, fourth.most]),
    }
}

// A loop is left: the sum of its trips goes to what is around it.
fn leave_loop(limit: u64, around: usize, frame: usize, trips: u64, state: &mut State)
    requires { (around < depth_limit) × ((limit + around ≤ depth_limit) × (trips ≤ ceiling_limit)) }
    ensures { state.new
        ≡ state_with state.old.at (left_sums around frame state.old.sums.passed state.old.opened limit trips state.old.sums) (left_parts around frame state.old.sums.passed state.old.opened limit) }
{
    let counter = state.opened.counter_at(around);
    state.opened.put_counter(around, 0);
    let trip = state.sums.passed;
    if limit == 0 {
        state.opened.pass_trip(frame, trip);
        state.opened.close_frame(frame, &mut state.sums);
        return;
    }
    let held = counter.min(limit - 1);
    let summed = sum_trips(&state.opened, around, held, trips, trip);
    state.opened.forget(around, held);
    state.opened.add_around(frame, summed, &mut state.sums);
    state.opened.leave_frame(frame);
}

// Whether the choices of a ranked loop are unsettled after the trip that the counter counts, and some of its trips follow.
fn goes_unsettled(rows: &Rows, opener: usize, trips: u64, counter: u64, opened: &Open) -> bool
    ensures { result ≡ goes_unsettled rows.now true opener trips counter opened.now.arms }
{
    if !further(counter, trips) {
        return false;
    }
    let count = counter + 1;
    let kept = KeptArms {
        arms: &opened.arms.bounds,
        trips: count,
        per_trip: opened.arms.kept() / (count as usize),
    };
    !settled(rows, opener, kept)
}

// The kept trips of a loop join the open one, and their arms are dropped.
fn join_kept(around: usize, held: u64, state: &mut State)
    requires { around + held < depth_limit }
    ensures { state.new
        ≡ state_with state.old.at (kept_joined around held state.old.opened state.old.sums) (kept_dropped around held state.old.opened) }
{
    let kept = state.opened.kept_sum(around, held);
    state.sums.add(kept);
    state.opened.forget(around, held);
    state.opened.arms.clear();
}

// Whether the loop of which a trip ends is ranked and walked nevertheless: after its first trips, or in the last of them where its choices are found
// unsettled, when it turns to walking: the kept trips join the open one, and their arms are dropped. It is asked before all else, since of most sheets
// no loop is ranked: what follows is then quicker. What it reads of the loop stays read in `end_trip` too, since a struct
// of both, with a method and its clauses, takes more lines than it saves, and the trips are worked out after three tests only.
fn turn_to_walking(arrays: &PlanArrays, depth: usize, state: &mut State) -> bool
    requires { depth ≤ depth_limit }
    ensures stands { state.new.at ≡ state.old.at }
    ensures ends { end_trip arrays.now.rows arrays.now.differences arrays.now.limits depth state.old
        ≡ end_trip_by arrays.now.rows arrays.now.differences arrays.now.limits depth
        (if result then 0 else limit_within arrays.now.limits (loop_at arrays.now.rows (opener_at arrays.now.rows state.new.at)) (depth - 1)) state.new }
{
    let limits = &arrays.limits;
    if !some_ranked(limits) {
        return false;
    }
    let opener = opener_at(&arrays.rows, state.at);
    let number = loop_at(&arrays.rows, opener);
    if !ranked_at(limits, number) {
        return false;
    }
    let around = depth.saturating_sub(1);
    let counter = state.opened.counter_at(around);
    let limit = limit_within(limits, number, around);
    if limit <= counter {
        return true;
    }
    let trips = trips_at(&arrays.differences, &state.opened, number);
    if further(counter, visited_by(limit, trips)) {
        return false;
    }
    if !goes_unsettled(&arrays.rows, opener, trips, counter, &state.opened) {
        return false;
    }
    join_kept(around, counter, state);
    true
}

// The arms of a loop that is left are dropped, if it is ranked.
#[tactic(auto, unfolding(crate::specs::Pass::arms_left))]
fn leave_arms(limits: &Limits, number: usize, opened: &mut Open)
    ensures { opened.new ≡ arms_left (ranked_at limits.now number) opened.old }
{
    if ranked_at(limits, number) {
        opened.arms.clear();
    }
}

// A further trip of a loop opens.
fn open_trip(opener: usize, depth: usize, state: &mut State) -> Outcome
    requires { opener < record_limit }
    ensures after { state.new ≡ state_with (opener + 1) (visit_begins state.old.sums) state.old.opened }
    ensures value { result ≡ record { depth = depth; begun = true } }
{
    state.sums.begin_visit();
    state.at = opener + 1;
    Outcome { depth, begun: true }
}

// The end of a trip of the innermost open loop: a further trip opens, or the loop is left.
fn end_trip(arrays: &PlanArrays, depth: usize, state: &mut State) -> Outcome
    requires { (depth ≤ depth_limit) × (state.old.at < record_limit) }
    ensures { end_trip arrays.now.rows arrays.now.differences arrays.now.limits depth state.old
        ≡ record { begun = result.begun; depth = result.depth; after = state.new } }
{
    let walked = turn_to_walking(arrays, depth, state);
    let rows = &arrays.rows;
    let opener = opener_at(rows, state.at);
    let frame = frame_at(rows, opener);
    let number = loop_at(rows, opener);
    let around = depth.saturating_sub(1);
    let trips = trips_at(&arrays.differences, &state.opened, number);
    let step = Bounds::exactly(step_at(rows, opener));
    state.sums.add(step);
    let counter = state.opened.counter_at(around);
    let limit = limit_unless(walked, &arrays.limits, number, around);
    if further(counter, visited_by(limit, trips)) {
        join_trip(
            limit,
            around,
            frame,
            counter,
            state.sums.passed,
            &mut state.opened,
        );
        state.opened.put_counter(around, counter + 1);
        return open_trip(opener, depth, state);
    }
    leave_loop(limit, around, frame, trips, state);
    leave_arms(&arrays.limits, number, &mut state.opened);
    state.at += 1;
    Outcome {
        depth: around,
        begun: false,
    }
}

// A loop's record: with no trip the stage goes on after its end, otherwise the first trip opens. The depth and the place stay numbers with a bound in each
// `requires`, here and around: each is an index and nothing else, and a type with the bound would be taken apart at each use.
fn enter_loop(arrays: &PlanArrays, depth: usize, state: &mut State) -> Outcome
    requires { (depth ≤ depth_limit) × (state.old.at < record_limit) }
    ensures { enter_loop arrays.now.rows arrays.now.differences depth state.old
        ≡ record { begun = result.begun; depth = result.depth; after = state.new } }
{
    let rows = &arrays.rows;
    let at = state.at;
    let trips = trips_at(&arrays.differences, &state.opened, loop_at(rows, at));
    state
        .sums
        .add(Bounds::exactly(entry_cost_at(rows, at, trips)));
    if trips == 0 {
        state.at = after_end_at(rows, at);
        return Outcome {
            depth,
            begun: false,
        };
    }
    state
        .opened
        .open_frame(frame_at(rows, at), state.sums.passed);
    open_trip(at, depth + 1, state)
}

// A loop's record, or its end, where so many loops are open.
pub fn pass_loop(arrays: &PlanArrays, depth: usize, state: &mut State) -> Outcome
    requires { (depth ≤ depth_limit) × (state.old.at < record_limit) }
    ensures { pass_loop arrays.now.rows arrays.now.differences arrays.now.limits depth state.old
        ≡ record { begun = result.begun; depth = result.depth; after = state.new } }
{
    match role_at(&arrays.rows, state.at) {
        Role::Loop => enter_loop(arrays, depth, state),
        _ => end_trip(arrays, depth, state),
    }
}
