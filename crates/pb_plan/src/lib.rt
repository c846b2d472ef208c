// The plans of a book that was accepted: for each play its steps, and where a host begins.
//
//     let plan = Plan::of(alloc, &checked)?;
//     let begin = &plan.plays[0].begin;
#![tactic(auto)]

pub mod plan;

pub use pb_steps::{PlaySteps, Step};
pub use plan::Plan;
