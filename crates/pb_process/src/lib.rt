// Modules that are programs: what answers the calls of a run in the place of a file of answers.
//
//     let manner = Manner { by_input: false, timeout: None, watch: None };
//     let first = ProcessRunner::new(alloc, &rt, "modules")?; // the folder of the programs
//     let mut runner = first.share(manner)?; // for a worker
//     let answer = runner.call(&call); // runs modules/NAME HOST ARGUMENTS
#![tactic(auto)]

pub mod answer;
pub mod asked;
pub mod exchange;
pub mod program;
pub mod runner;
pub mod shown;
pub mod start;
pub mod told;
pub mod watchdog;

pub use asked::Manner;
pub use runner::ProcessRunner;
pub use shown::{Reason, Visible};
pub use watchdog::Watchdog;
