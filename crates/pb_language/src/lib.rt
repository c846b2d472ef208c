// The definitions of the language: books, runs and verdicts, and what holds of them.
#![tactic(auto)]

pub mod laws;
pub mod order;
