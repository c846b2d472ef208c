// The plays of a book, with their blocks, tasks and handlers, read from the book's value.
//
//     let plays = read_plays(alloc, &registry, &value)?;
//     for play in &plays {
//         let line = play.line; // the first play is at line 1
//     }
#![tactic(auto)]

pub mod batch;
mod block;
pub mod fault;
mod form;
mod handler;
mod head;
pub mod play;
pub mod read;
mod serial;
mod steps;

pub use fault::{Offence, PlayFault};
pub use play::{Block, BlockHead, Cut, Handler, Play, Step, Strategy};
pub use read::read_plays;
