// Whole numbers: sums, degrees, Newton's forward differences and residues. All of it is mathematics; there is no code.
#![tactic(auto)]
