// The words of the command line, read with `clap`.
//
//     match options(alloc, &["playcheck", "check", "site.json", "-i", "hosts.json"]) {
//         Ok(Options::Check(subject)) => { .. } // subject.book, subject.inventory
//         Ok(Options::Run { subject, forks, source, calling }) => { .. }
//         Err(fault) => { .. } // help or the version, or what is wrong with the words
//     }
#![tactic(auto)]

pub mod input;
pub mod options;
pub mod words;

pub use words::{Calling, Handover, LineFault, Options, Source, Subject};
