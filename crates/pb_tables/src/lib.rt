// What the ways of all hosts through all plays come to: the first fault, the budget, and what
// hosts' variables look like to others.
//
//     let scene = Scene::of(alloc, &inventory, &play, gathering.as_ref())?; // for each play
//     let outcome = outcome_of(alloc, &inventory, &scenes, names, Reads::Others)?;
//     if let Some(HostFault { host, fault }) = &outcome.fault {
//         // the host may meet `fault.unfit` at `fault.line`
//     }
#![tactic(auto)]

mod changed;
mod end;
mod ends;
mod host;
mod laters;
mod looks;
pub mod outcome;
mod round;
pub mod scene;
mod table;

pub use outcome::{HostFault, Outcome, Reads, outcome_of};
pub use scene::Scene;
