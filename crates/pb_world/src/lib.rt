// The world of a host's task in a run, by references to what the run keeps.
//
//     let constants = Constants::of(alloc, inventory)?; // once
//     let active = ActiveHosts::of(alloc, inventory.hosts(), members)?; // at each change of them
//     let play_batch = play_batch_of(alloc, &constants, active.members())?;
//     let failure = failure_of(alloc, depth, text)?; // of a task
//     let variables = Variables { inventory, slots: &plan.slots, facts: &facts };
//     let (constants, play_batch) = (&constants, &play_batch);
//     let run = RunWorld { variables, constants, active: &active, play_batch };
//     let world = run.of_host(host, failure.as_ref());
//     let passes = start(alloc, &prepared, &world)?; // of pb_start
//     if let Some(writes) = slots_of_writes(alloc, &plan.slots, outcome.writes)? {
//         write_all(&mut facts, host, writes);
//     }
#![tactic(auto)]

mod active;
mod always;
mod constants;
mod failure;
mod laws;
mod members;
mod run_world;
mod variables;
mod world;
mod writes;

pub use active::ActiveHosts;
pub use always::AlwaysThere;
pub use constants::{Constants, HostConstants, play_batch_of};
pub use failure::failure_of;
pub use laws::shows_the_world;
pub use run_world::RunWorld;
pub use variables::Variables;
pub use world::HostWorld;
pub use writes::{slots_of_writes, write_all};
