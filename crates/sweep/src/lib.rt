// Figures at every value of a range of one parameter; what is asked over a range is a function of them.
#![tactic(auto)]

pub mod extremes;
pub mod over;
pub mod values;
