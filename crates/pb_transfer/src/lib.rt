// What a task makes of what is known of its host's variables.
#![tactic(auto)]

pub mod laws;
pub mod written;

pub use written::{Set, with_register, with_sets};
