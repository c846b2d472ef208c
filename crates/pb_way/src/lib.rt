// The way of a host through a play: what is known of its variables at each node, by the least
// solution on the play's graph.
//
//     let route = Route::of(alloc, &play, gathering.as_ref())?;
//     let values = walk(alloc, &route, &outlook, entry, &mut space)?;
//     let end = values[values.len() - 1]; // where the next play begins
#![tactic(auto)]

mod moves;
mod tabled;
pub mod walks;

pub use walks::walk;
