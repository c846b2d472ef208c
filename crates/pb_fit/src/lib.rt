// What is asked of the parts of a task where it stands: its loop, its conditions and what it does,
// and the names that it sets.
//
//     let loop_over = loop_of(alloc, &list, &known, &taught)?; // the kind of its items too
//     let held = conditions(alloc, &task.when, &known, taught)?;
//     let unfit = action_unfit(alloc, &task.work, &task.arguments, &known, &held.taught)?;
//     let sets = sets_of(alloc, &task.arguments, &known, &held.taught)?; // of a `set_fact`
//     let until = keyword_unfit(alloc, Some(&attempts.until), &known_at_its_end)?;
#![tactic(auto)]

pub mod action;
mod argument;
mod asked;
pub mod held;
pub mod laws;
pub mod looped;
pub mod sets;

pub use action::action_unfit;
pub use held::{Held, conditions, conditions_after, keyword_unfit};
pub use looped::loop_of;
pub use sets::{Set, sets_of};
