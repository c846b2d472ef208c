// A task of a host in an environment: what is asked of it there, what it writes, and what is known
// after it.
//
//     let visit = Visit { station: &station, space: &space, at };
//     let unfit = fault(alloc, &visit, &outlook)?;
//     let writes = written(alloc, &visit, &outlook)?;
//     let after = led(alloc, &station, &outlook, Way::Goes, at, &mut space)?;
#![tactic(auto)]

mod asked;
pub mod faults;
mod footing;
pub mod lengths;
mod started;
pub mod transfer;
pub mod visit;
pub mod writes;

pub use faults::fault;
pub use lengths::length;
pub use transfer::led;
pub use visit::Visit;
pub use writes::{Writes, written};
