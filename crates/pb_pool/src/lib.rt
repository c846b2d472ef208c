// Workers that share one run: the board at which they meet, and the threads in which they work.
//
//     let (run, runners) = execute(&rt, alloc, &checked, 5, runners)?; // a worker for each runner
//     for host in 0..run.hosts() {
//         let recap = run.recap(host); // seven counts
//     }
#![tactic(auto)]

pub mod board;
pub mod execution;
pub mod fault;
pub mod pool;
pub mod rule;
pub mod seat;
mod shared;
mod threads;
mod worker;

pub use board::{Board, SeatsOut};
pub use execution::execute;
pub use fault::PoolFault;
pub use pool::run_pool;
pub use rule::Rule;
pub use seat::Seat;
