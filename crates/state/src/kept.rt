// The trips kept of the open closed loops, and of a ranked one in its first trips.
ghost use Rattle.std.specs.Prelude.{◌≡◌, suc, ◌+◌, ◌<◌, ◌≤◌};
ghost use Rattle.meaning.specs.Limits.{depth_limit};
ghost use Rattle.state.specs.Open.{kept_limit, with_kept};
ghost use Rattle.state.specs.Kept.{kept_room, kept_from, trip_kept, kept_sum, first_trips, forgotten};

use crate::bounds::Bounds;
use crate::open::Open;
use form::MAX_DEPTH;

// Where a trip of a loop with so many loops around it is kept, by its number from 0 on. Depth and number stay numbers with a bound in each `requires`, since
// each is an index and nothing else: a type with the bound would be taken apart at each use.
#[tactic(auto, unfolding(crate::specs::Kept::kept_from))]
fn kept_at(depth: usize, number: u64) -> usize
    requires { depth + number < depth_limit }
    ensures value { result ≡ kept_from depth + number }
    ensures within { result + kept_room (depth + number) ≤ kept_limit }
{
    depth * (2 * MAX_DEPTH - 1 - depth) / 2 + number as usize
}

impl Open {
    // The open trip is kept, `held` trips before it.
    #[tactic(auto, unfolding(crate::specs::Kept::trip_kept))]
    pub fn keep(&mut self, depth: usize, held: u64, trip: Bounds)
        requires { suc (depth + held) < depth_limit }
        ensures { self.new ≡ with_kept self.old (trip_kept self.old.kept depth held trip) }
    {
        self.kept[kept_at(depth, held)] = trip;
    }

    // The first trips: `held` kept ones, then the open one. Stays a case for each number of them: with a copy of the slice the sum of the trips took 12 ns in
    // place of 7, measured in plain Rust, since a copy of a length that is not known is a call, and a whole stage takes some 15 (bench/README.md).
    pub fn first_trips(&self, depth: usize, held: u64, last: Bounds) -> [Bounds; MAX_DEPTH]
        requires { depth + held < depth_limit }
        ensures { result ≡ first_trips self.now.kept depth held last }
    {
        let none = Bounds::exactly(0);
        match &self.kept[kept_at(depth, 0)..kept_at(depth, held)] {
            [] => [last, none, none, none],
            [first] => [*first, last, none, none],
            [first, second] => [*first, *second, last, none],
            [first, second, third, ..] => [*first, *second, *third, last],
        }
    }

    // All kept trips together.
    pub fn kept_sum(&self, depth: usize, held: u64) -> Bounds
        requires { depth + held < depth_limit }
        ensures { result ≡ kept_sum self.now.kept depth held }
    {
        let trips = self.first_trips(depth, held, Bounds::exactly(0));
        trips[0].plus(trips[1]).plus(trips[2])
    }

    // The kept trips of a loop that is left.
    pub fn forget(&mut self, depth: usize, held: u64)
        requires { depth + held < depth_limit }
        ensures { self.new ≡ with_kept self.old (forgotten self.old.kept depth held) }
    {
        self.kept[kept_at(depth, 0)..kept_at(depth, held)].fill(Bounds::exactly(0));
    }
}
