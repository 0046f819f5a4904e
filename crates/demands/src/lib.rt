// The three demands over whole steps, scripts in parts, filled lists and ends: theorems alone, over crate lexer.
// In specs/: many steps, and a script fed in parts. In proofs/: what a refusal keeps, that a good session stays
// good, demand 3, cuts, records whose positions and ends never fall, and where the step ended that wrote each.
#![tactic(auto)]
