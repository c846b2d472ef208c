// The jobs of a run: which calls a host's task hands out as it starts, and what it comes to once
// they are answered, where the run stands.
//
//     let scene = RunScene { world, fixed, core, calls };
//     let begun = scene.start(alloc, host)?; // its passes, and the calls to hand out
//     let finished = scene.finish(alloc, host, &answers)?; // left, asked again, or ended
#![tactic(auto)]

pub mod active;
mod begin;
mod calls;
pub mod finish;
mod give;
mod host_task;
pub mod job;
pub mod machine;
mod open;
pub mod scene;
mod share;
pub mod start;
mod turn;

pub use active::ActiveBatch;
pub use finish::Finished;
pub use job::{Call, Job};
pub use machine::{Answered, Machine};
pub use scene::RunScene;
pub use start::Begun;
