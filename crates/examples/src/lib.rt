// Computed examples of what a sheet means (proofs/), from raw bytes and state by state; no code.
#![tactic(auto)]
