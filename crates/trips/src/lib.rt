// A loop's trips, from the counters of the loops around it, and how many of them are visited.
#![tactic(auto)]

ghost use Rattle.std.specs.Prelude.{◌≡◌, suc, ◌/◌, ◌≤◌, max, if◌then◌else◌, nat_lt};
ghost use Rattle.meaning.specs.Limits.{depth_limit};
ghost use Rattle.trips.specs.Trips as Trips;

use form::MAX_DEPTH;
use layout::differences::{Differences, NEGATIVE, base_at, push_at, stride_at};
use layout::limits::{Limits, limit_at};
use records::loops::Loop;
use state::open::Open;

// D of the loop with this number among the loops, in two's complement.
#[tactic(auto, unfolding(crate::specs::Trips::difference_word))]
fn difference_word(differences: &Differences, opened: &Open, number: usize) -> u64
    ensures { result ≡ Trips.difference_word differences.now opened.now.counters number }
{
    let outer = push_at(differences, number, 0).wrapping_mul(opened.counter_at(0));
    let middle = push_at(differences, number, 1).wrapping_mul(opened.counter_at(1));
    let inner = push_at(differences, number, 2).wrapping_mul(opened.counter_at(2));
    let pushed = outer.wrapping_add(middle.wrapping_add(inner));
    base_at(differences, number).wrapping_add(pushed)
}

// A stride 0 counts as 1. Stays a test before the division, since most strides are 1: dividing by `stride.max(1)` took 10 ns in place of 2, and a whole
// stage takes some 15 (bench/README.md).
fn quotient(d: u64, stride: u64) -> u64
    ensures { result ≡ d / max stride 1 }
{
    if stride <= 1 { d } else { d / stride }
}

// The trips of the loop with this number: none where D is negative, no more than a loop of an answered sheet makes.
#[tactic(auto, unfolding(crate::specs::Trips::trips_at, crate::specs::Trips::trips_over))]
pub fn trips_at(differences: &Differences, opened: &Open, number: usize) -> u64
    ensures { result ≡ Trips.trips_at differences.now opened.now.counters number }
{
    let d = difference_word(differences, opened, number);
    if NEGATIVE <= d {
        return 0;
    }
    let steps = quotient(d, stride_at(differences, number));
    Loop::MAX_CEILING.min(steps + 1)
}

// How many trips a closed or ranked loop with so many loops around it visits at most where the rest is summed; 0 where it is walked. Stays a number with
// that 0 in place of an Option, since the plan's arrays hold it so, and the smaller one of it and of the depths left is 0 there by itself.
#[tactic(auto, unfolding(crate::specs::Trips::limit_within))]
pub fn limit_within(limits: &Limits, number: usize, depth: usize) -> u64
    requires { depth ≤ depth_limit }
    ensures { result ≡ Trips.limit_within limits.now number depth }
{
    limit_at(limits, number).min((MAX_DEPTH - depth) as u64)
}

// The same where a ranked loop may be walked in this trip: then 0. Stays a number with that 0, as docs/ARCHITECTURE.md names it.
pub fn limit_unless(walked: bool, limits: &Limits, number: usize, depth: usize) -> u64
    requires { depth ≤ depth_limit }
    ensures { result ≡ (if walked then 0 else Trips.limit_within limits.now number depth) }
{
    if walked {
        0
    } else {
        limit_within(limits, number, depth)
    }
}

// How many of a loop's trips are visited: all of a walked loop's. Its limit stays 0, since that of `limit_unless` is (docs/ARCHITECTURE.md).
#[tactic(auto, unfolding(crate::specs::Trips::visited_by))]
pub fn visited_by(limit: u64, trips: u64) -> u64
    ensures { result ≡ Trips.visited_by limit trips }
{
    if limit == 0 { trips } else { trips.min(limit) }
}

// Whether a further trip is to be visited, after the one that the counter counts.
pub fn further(counter: u64, visited: u64) -> bool
    ensures { result ≡ nat_lt (suc counter) visited }
{
    counter < visited.saturating_sub(1)
}
