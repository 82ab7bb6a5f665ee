// Bounded tests over the natural numbers and over lists, with their laws. This crate has no code:
// all of it is in specs/, for the definitions and proofs of the crates above.
#![tactic(auto)]
