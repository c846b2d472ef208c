// The definitions that the contracts cite, and the laws that hold of them.
#![tactic(auto)]

pub mod laws;
