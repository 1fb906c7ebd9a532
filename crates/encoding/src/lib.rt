// Numbers in bytes and in decimal: read at an offset of a slice, and put into a buffer at a position.
#![tactic(auto)]

pub mod decimal;
pub mod number;
pub mod put;
