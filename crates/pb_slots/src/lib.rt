// The variables of a book by numbers: each name has a slot, its place among the names.
//
//     let slots = Slots::of(alloc, &names)?; // of `env` and `port`
//     assert!(rt; slots.slot("port") == Some(1) && slots.name(1) == Some("port"));
//     let scope = InScope::nothing(alloc).with(alloc, &task.vars)?;
//     let seen = SlotsInScope { slots: &slots, scope: &scope }; // a name of `vars` has none
//     let condition = condition.bind(alloc, &seen)?;
#![tactic(auto)]

mod names;
mod scoped;
mod slots;

pub use scoped::SlotsInScope;
pub use slots::Slots;
