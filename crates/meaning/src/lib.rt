// What a sheet means (specs/) and the theorems about it (proofs/); no code.
#![tactic(auto)]
