// The run of a book that was accepted: jobs are handed out, and answers are given back.
//
//     let mut run = Run::open(alloc, &checked, 5)?; // of what the verifier accepted
//     let mut runner = ScriptRunner::read(alloc, b"{\"web1\": [{\"ping\": \"pong\"}]}")?;
//     drive(&mut run, &mut runner)?; // job after job, to the end
//     for host in 0..run.hosts() {
//         let recap = run.recap(host); // seven counts
//     }
#![tactic(auto)]

pub mod drive;
pub mod fault;
pub mod replay;
mod run;

pub use fault::GiveError;
pub use run::Run;
