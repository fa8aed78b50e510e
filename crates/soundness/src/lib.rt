#![tactic(auto)]

// Which gates are sound, as one test that computes (specs/), and that it says what the rules say (proofs/).
// This crate has no code.
