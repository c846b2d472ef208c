// Kinds of variables: what is known of a value before a run.
//
//     let mut slots = Slots::new(alloc);
//     put_slot(&mut slots, String::from_str(alloc, "rc")?, Slot::always(Kind::Int))?;
//     let kind = Kind::of_slots(alloc, slots)?;
//     assert!(rt; keeps(&value, &kind));
//     let either = join(alloc, &kind, &Kind::Null)?; // the least kind above both
#![tactic(auto)]

mod adds;
pub mod below;
pub mod grow;
pub mod join;
pub mod keeps;
pub mod kind;
pub mod project;
pub mod same;

pub use grow::join_all;
pub use join::join_slots;
pub use kind::{Case, Kind, Presence, Shape, Slot, Slots, copy_slots, put_slot};
