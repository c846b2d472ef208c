// Whatever answers the calls of modules, and answers from a file.
//
//     let mut runner = ScriptRunner::read(alloc, b"{\"web1\": [{\"ping\": \"pong\"}]}")?;
//     let answers = answers_of(alloc, &mut runner, &job.calls)?; // one for each call, in order
//     let made = runner.made(); // how many calls it was asked
#![tactic(auto)]

pub mod runner;
pub mod script;

pub use runner::{Runner, answers_of};
pub use script::{ANSWERS_LIMIT, ScriptFault, ScriptRunner};
