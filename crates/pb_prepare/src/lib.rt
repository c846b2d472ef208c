// A task of a book as it runs, prepared once for its place: its expressions look at the slots of
// their variables, and the names of `vars` that it reads stand in the order in which they are
// worked out.
//
//     let prepared = prepare(alloc, &station, &slots)?;
//     let passes = start(alloc, &prepared, &vars)?; // of pb_start
#![tactic(auto)]

mod bound;
mod item;
mod task;

pub use task::prepare;
