// What the hosts of a run hold in numbered slots, where their variables can be read and set.
//
//     let mut facts = Facts::new(alloc, 2, 3)?; // two hosts, three slots
//     facts.set(1, 0, Value::Bool(true));
//     assert!(rt; facts.get(1, 0).is_some() && facts.get(0, 0).is_none());
#![tactic(auto)]

mod facts;
#[cfg(test)]
mod tests;
mod variables;

pub use facts::Facts;
pub use variables::slots_are_variables;
