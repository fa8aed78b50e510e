#![tactic(auto)]

// That a log's export and import undo each other (proofs/). This crate has no code.
