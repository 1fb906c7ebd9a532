// What is open: a counter for each open loop, a frame for each open record, the kept trips of each open closed or ranked loop, each outermost first,
// and the kept arms of the open ranked loop. What is not open is blank.
ghost use Rattle.std.specs.Prelude.{◌≡◌, ◌<◌};
ghost use Rattle.meaning.specs.Limits.{depth_limit};
ghost use Rattle.state.specs.Open.{nothing_passed, blank_frame, nothing_open, counter_at, with_counter};

use crate::bounds::Bounds;
use form::MAX_DEPTH;
use records::{MAX_OPEN, MAX_RECORDS};

// How many trips are kept at most: of a loop as many as there can be loops inside it.
pub const MAX_KEPT_TRIPS: usize = MAX_DEPTH * (MAX_DEPTH - 1) / 2;

// How many arms are kept at most: in as many trips as loops can be deep, all arms of a loop. A loop with a choice of m arms and with three loops
// nested inside it takes m + 9 records.
pub const MAX_KEPT_ARMS: usize = MAX_DEPTH * (MAX_RECORDS - 9);

// What an open record passed: its arms, or the trips visited before if it is a walked loop; and 0 where it passed no arm. That stays a number beside the
// bounds, since `stages::stage` promises the next state for every frame, also one that no stage gives.
#[derive(Clone, Copy, PartialEq, Eq)]
pub struct Passed {
    pub bounds: Bounds,
    pub arm: u64,
}

// Of an open record: what was passed around it, and what it passed itself.
#[derive(Clone, Copy, PartialEq, Eq)]
pub struct Frame {
    pub around: Bounds,
    pub passed: Passed,
}

// How many arms are kept, and each of them. Stays a length beside its buffer, since there is no heap, and the kit's ArrayVec
// is no Copy: `State` would lose its Copy, which callers of `stages::stage` may use.
#[derive(Clone, Copy, PartialEq, Eq)]
pub struct Arms {
    pub count: usize,
    pub bounds: [Bounds; MAX_KEPT_ARMS],
}

#[derive(Clone, Copy, PartialEq, Eq)]
pub struct Open {
    pub counters: [u64; MAX_DEPTH],
    pub frames: [Frame; MAX_OPEN],
    pub kept: [Bounds; MAX_KEPT_TRIPS],
    pub arms: Arms,
}

impl Passed {
    pub fn nothing() -> Passed
        ensures { result ≡ nothing_passed }
    {
        Passed {
            bounds: Bounds::exactly(0),
            arm: 0,
        }
    }
}

impl Frame {
    pub fn blank() -> Frame
        ensures { result ≡ blank_frame }
    {
        Frame {
            around: Bounds::exactly(0),
            passed: Passed::nothing(),
        }
    }
}

impl Open {
    pub fn nothing() -> Open
        ensures { result ≡ nothing_open }
    {
        let none = Bounds::exactly(0);
        Open {
            counters: [0; MAX_DEPTH],
            frames: [Frame::blank(); MAX_OPEN],
            kept: [none; MAX_KEPT_TRIPS],
            arms: Arms {
                count: 0,
                bounds: [none; MAX_KEPT_ARMS],
            },
        }
    }

    // The counter of the open loop that has so many loops around it.
    pub fn counter_at(&self, depth: usize) -> u64
        requires { depth < depth_limit }
        ensures { result ≡ counter_at self.now depth }
    {
        self.counters[depth]
    }

    pub fn put_counter(&mut self, depth: usize, counter: u64)
        requires { depth < depth_limit }
        ensures { self.new ≡ with_counter self.old depth counter }
    {
        self.counters[depth] = counter;
    }
}
