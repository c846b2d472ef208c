// The values of `vars` in scope at a task: their chains, and what expressions read through them.
//
//     let nothing = InScope::nothing(alloc);
//     let at_play = nothing.with(alloc, &play.vars)?;
//     let at_task = at_play.with(alloc, &task.vars)?; // hides the play's of the same names
//     if !at_task.has_long_chain(alloc)? {
//         let answers = at_task.answers(alloc, &IsOwn)?; // each name asked once a round
//         let own = at_task.holds(&IsOwn, &answers, &condition);
//         let names = at_task.in_order(alloc)?; // each behind those that it reads
//     }
#![tactic(auto)]

mod every;
pub mod in_scope;
pub mod laws;
mod merge;
mod names;
mod order;
pub mod read;
mod rounds;

pub use in_scope::{Answers, InScope};
pub use read::{IsOwn, Question, Read};
