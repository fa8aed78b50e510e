#![tactic(auto)]

// The three demands about the gate and the form, as theorems (proofs/). This crate has no code.
