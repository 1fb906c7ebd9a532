// What is asked over a range of one parameter (specs/) and the theorems about it (proofs/); no code.
#![tactic(auto)]
