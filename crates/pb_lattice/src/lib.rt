// Lattices: an interface with its laws, kinds and environments, which keep it, and least solutions
// on graphs.
//
//     let number = Kind::bottom(&()).join(alloc, &Kind::Int, &mut ())?;
//     assert!(rt; number.le(&Kind::Any, &()));
//     let mut space = Environments::new(alloc, names)?;
//     let known = space.with(space.empty(), "a", Slot::always(number))?;
//     let none = space.empty();
//     let met = environment::join(alloc, &mut space, known, none)?; // `a` is perhaps there
#![tactic(auto)]

mod bulk;
pub mod environment;
pub mod flowing;
pub mod graph;
pub mod kind;
pub mod lattice;
pub mod solution;
pub mod transfer;
mod tree;

pub use environment::{Environment, Environments};
pub use flowing::{Flowing, Steps};
pub use graph::{Edge, FlowGraph};
pub use lattice::Lattice;
pub use solution::solve;
pub use transfer::Transfer;
