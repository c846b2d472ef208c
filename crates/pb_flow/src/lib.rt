// The paths of a play: a node for each task in each of its ways, and where a host goes from each.
//
//     if steps_of(&play) <= MOST_STEPS {
//         let graph = Graph::of(alloc, &play)?;
//         for node in 0..graph.nodes() {
//             let Exits { ok, failed } = graph.exits(node); // higher nodes
//         }
//     }
#![tactic(auto)]

mod build;
pub mod flow;
pub mod graph;
pub mod laws;
mod scene;
pub mod steps;
mod tail;

pub use flow::{Flow, Way};
pub use graph::{Around, Exits, Graph, Move, Node, Target, Visited};
pub use steps::{MOST_STEPS, steps_of};
