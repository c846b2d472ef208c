// What comes of the answers to a task's calls: asked again, or an outcome with its statuses and the
// variables that it writes.
//
//     let given = Given { passes: &passes, answers: &answers, tried: 0 };
//     match finish(alloc, &prepared, &fixed, &given, &vars)? {
//         Ending::Ended(outcome) => { .. } // statuses, writes, the text of the failure
//         Ending::Again => { .. } // `until` doesn't hold yet
//         Ending::Breached(breach) => { .. } // which call, and what is wrong with its answer
//         Ending::Unreached => { .. }
//     }
#![tactic(auto)]

mod admission;
mod answer;
mod assignments;
mod ending;
mod fixed;
mod gathered;
mod outcome;
mod statuses;

pub use answer::{Answer, AnswerFault, Breach, Why};
pub use ending::{Ending, Given, finish};
pub use fixed::Fixed;
pub use outcome::Outcome;
