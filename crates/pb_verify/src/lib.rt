// The verifier: follows each host through a book, and accepts it with a budget or refuses it.
//
//     match verify(alloc, book, inventory, registry) {
//         // no run is stuck, or makes more calls than that
//         Ok(checked) => { .. checked.budget() .. }
//         Err(VerifyFault::Refused(refusal)) => { .. refusal.code.text() .. refusal.line .. }
//         Err(VerifyFault::NoMemory) => { .. }
//     }
#![tactic(auto)]

pub mod checked;
mod names;
mod reads;
pub mod refusal;
pub mod scenes;
pub mod verify;

pub use checked::Checked;
pub use refusal::{Code, Refusal};
pub use scenes::{gathering_at, gathering_tasks};
pub use verify::VerifyFault;
