// The rules of a book that need no flow of environments, judged on the whole book.
//
//     let plays = read_plays(alloc, &registry, &value)?;
//     if let Some(broken) = first_broken(alloc, &registry, &inventory, &plays)? {
//         let Broken { line, rule } = broken; // `Rule::Parameters` is V07
//     }
#![tactic(auto)]

pub mod broken;
mod denied;
mod expressions;
mod known;
pub mod laws;
pub mod name;
pub mod names;
pub mod notify;
pub mod others;
mod parameters;
mod pattern;
mod reads;
pub mod rules;
pub(crate) mod site;
mod sites;
mod steps;
pub mod theirs;

pub use broken::{Broken, Rule};
pub use name::reads_name;
pub use names::add_name;
pub use notify::is_named;
pub use others::reads_others;
pub use rules::first_broken;
pub use theirs::reads_theirs;
