// The route of a host through a play: at each node of the play's graph a task where it stands, with
// what is so of it on every host.
//
//     let (station, shared) = Station::of(alloc, &task, &around, place, &play.vars, shared)?;
//     let route = Route::of(alloc, &play, gathering.as_ref())?;
#![tactic(auto)]

mod gathered;
pub mod gathering;
pub mod laws;
pub mod places;
pub mod route;
pub mod station;

pub use gathering::gathering_task;
pub use route::{Route, stations_of};
pub use station::Station;
