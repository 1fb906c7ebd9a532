// Why a loop is not closed (document 02, C-11): the reason, its line, and the reason read back from a line.
#![tactic(auto)]

pub mod line;
pub mod reading;

// Document 02: reason, with the offsets of choice C, loop K and loop M.
#[derive(Clone, Copy, PartialEq, Eq)]
pub enum Reason {
    // `choice C holds a loop`
    HoldsLoop(u16),
    // `loop K may fall below no trips`
    TooFewTrips(u16),
    // `loop K is uneven in loop M`
    UnevenIn(u16, u16),
}
