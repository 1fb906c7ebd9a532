// Passing one record in place, on a plan's arrays.
#![tactic(auto)]

pub mod loops;
pub mod pass;
