// With which results a task may go on and with which it may fail, and of which kind what it
// registers then is.
//
//     let (results, shared) = shared.results_of(alloc, &task.work, manner)?; // and those alike
//     if let Some(failing) = &results.ends.failing {
//         let registered = looped(alloc, failing, &items)?; // of a task with a `loop`
//     }
#![tactic(auto)]

mod answers;
pub mod ends;
pub mod laws;
pub mod own;
pub mod registered;
pub mod results;
mod shapes;
mod status;

pub use ends::{Ends, Manner, ends_of};
pub use own::{Own, own_of};
pub use registered::looped;
pub use results::{Results, SharedResults};
