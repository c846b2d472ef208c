// The core of a run: where each host stands, batch by batch, and each event as one call.
//
//     let mut core = RunCore::open(alloc, plays, batches, hosts, forks)?;
//     while let Some(host) = core.ready() {
//         core.begin(host, passes, ticket, calls)?; // its task's, as they were evaluated
//         core.settle(host, outcome)?; // once its calls were answered; or `again`, or `leave`
//         if core.can_turn() {
//             core.turn_all()?;
//         }
//     }
#![tactic(auto)]

mod active;
pub mod batch;
mod entries;
mod entry;
mod events;
pub mod fault;
pub mod host;
pub mod index;
pub mod laws;
pub mod outcome;
mod place;
pub mod recap;
pub mod run;
pub mod turns;

pub use batch::{Batch, RunPlay, Schedule};
pub use fault::CoreFault;
pub use host::{HostState, Stage};
pub use outcome::{TaskOutcome, TaskStatus};
pub use recap::Recap;
pub use run::RunCore;
pub use turns::Turned;
