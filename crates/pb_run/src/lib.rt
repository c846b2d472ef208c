// A run, whoever says that its steps go well: the machine of a run with the history of its events.
//
//     let mut run = RecordedMachine::open(alloc, inventory, slots, schedule, forks)?;
//     while let Taken::Job(job) = run.take()? {
//         let answers = answers_of(alloc, &mut runner, &job.calls)?; // whoever gives them
//         run.give(job, answers); // to `Given`, or the job and the answers come back
//     }
#![tactic(auto)]

pub mod event;
mod follow;
mod give;
mod look;
mod open;
pub mod recorded;
mod take;

pub use event::{Event, GiveFault, Given, Taken};
pub use recorded::RecordedMachine;
