// What is found on a host's way through a play, where that is known at its nodes: the first fault,
// what the host writes, and the most calls that it hands out.
//
//     let at = entry_of(alloc, &known, &mut space)?;
//     let values = walk(alloc, &route, &seen, at, &mut space)?;
//     let found = find_play(alloc, route.stations(), &seen, &values, &space, view, before)?;
//     let calls = calls_in(alloc, route.stations(), &seen, &values, &space)?;
#![tactic(auto)]

pub mod calls;
pub mod entry;
pub mod find;

pub use calls::calls_in;
pub use entry::entry_of;
pub use find::{FaultAt, Find, find_play};
