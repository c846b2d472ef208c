// The steps of a play's plan: what is kept of each node of its graph for a run, by numbers, and
// where a host begins.
//
//     let nodes = PlayNodes::of(alloc, &book.plays()[0], gathering)?;
//     let mut names = BTreeSet::new(alloc);
//     nodes.add_names(alloc, &mut names)?; // of all plays
//     let slots = Slots::of(alloc, &names)?;
//     let tasks = nodes.prepared(alloc, &slots)?;
//     let play = PlaySteps::of(alloc, nodes, &slots)?;
//     if let Some(first) = play.begin.to {
//         let step = &play.steps[first as usize - 1]; // nodes are counted from 1 on
//     }
#![tactic(auto)]

pub mod nodes;
pub mod step;
mod tasks;
mod uses;

pub use nodes::PlayNodes;
pub use step::{PlaySteps, Step};
