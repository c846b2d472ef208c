// What a task evaluates at its Start on a host: its passes, one for each item, and the calls that
// they make.
//
//     let passes = start(alloc, &prepared, &vars)?; // in the order of the items
//     let arguments = arguments_of(alloc, &passes)?; // of the calls that the job hands out
#![tactic(auto)]

mod action;
mod conditions;
mod local;
mod passes;
mod prepared;
mod record;
mod shared;

pub use conditions::{all_hold, is_so};
pub use local::Local;
pub use passes::{Entry, Pass, arguments_of, start};
pub use prepared::{Action, Prepared};
pub use record::{put_value, record_of};
