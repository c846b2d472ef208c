// From which places of a play on a host has its variables for certain, where that is known at the
// play's nodes.
//
//     let values = walk(alloc, &route, &seen, entry, &mut space)?;
//     let lasting = lasting_in(alloc, route.stations(), &values, &mut space)?;
#![tactic(auto)]

pub mod lasting;
mod nodes;

pub use lasting::lasting_in;
