// Stored cases of the library's calls: read from a file, their headers and numbers, and whether what a call answered and left is what a case
// stores.
#![tactic(auto)]

pub mod answers;
pub mod calls;
pub mod files;
pub mod headers;
pub mod numbers;
