// The modules that a task can name: their parameters, the shapes of their answers, and the
// admission of answers.
//
//     let registry = Registry::builtin(alloc)?;
//     if let Some(command) = registry.find("command") {
//         match admit(alloc, command, &answer)? {
//             Admission::Ok(result) | Admission::Failed(result) => { .. }
//             Admission::Breach => { .. } // the answer isn't of the module's shapes
//         }
//     }
#![tactic(auto)]

pub mod admission;
pub mod builtin;
pub mod declared;
mod draft;
pub mod fault;
mod form;
pub mod names;
mod read;
pub mod read_back;
pub mod registry;
pub mod results;
pub mod rows;
pub mod signature;
mod table;

pub use admission::{Admission, admit};
pub use builtin::Builtin;
pub use declared::Declared;
pub use fault::SignatureFault;
pub use names::{is_one_of, is_variable, without_prefix};
pub use registry::{Known, Registry};
pub use results::{Results, case_of, ended_record, skipped_record};
pub use signature::{Module, Parameter, SIGNATURES_LIMIT, shared_name};
