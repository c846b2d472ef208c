// The variables that a task reads, also through names of `vars`, and those that it writes; and the
// names of `vars` that have to be worked out for it.
//
//     let reads = reads_of(alloc, &station)?; // of any host, by name
//     let writes = writes_of(alloc, &station)?;
//     let roots = task_roots(alloc, station.task, &station.around)?;
//     let names = names_reached(alloc, &station.vars, &roots)?; // each behind those that it reads
#![tactic(auto)]

pub mod names;
pub mod needed;
pub mod roots;
pub mod task;
pub mod uses;

pub use names::names_read;
pub use needed::names_reached;
pub use roots::put_roots;
pub use task::task_roots;
pub use uses::{reads_of, writes_of};
