// Files of lines that a crash may cut off at any moment: each line is on the disk before it is
// acknowledged.
//
//     let mut reader = LineReader::new(alloc, Memory::new(alloc, Vec::new(alloc)));
//     while let Some(line) = reader.next_line(alloc)? { .. } // the lines that are there
//     let mut lines = reader.finish()?;
//     lines.append(alloc, b"{}")?; // from now on each crash leaves a file that has it
#![tactic(auto)]

mod device;
mod fault;
mod file;
mod lines;
mod memory;
mod reader;
mod record;

pub use device::Device;
pub use fault::LinesFault;
pub use file::{FileDevice, FileFault};
pub use lines::{Lines, MAX_LINE, is_line};
pub use memory::{Call, Memory};
pub use reader::LineReader;
