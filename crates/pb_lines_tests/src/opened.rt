// A file of lines with all of its lines, for tests.
ghost use Rattle.std.specs.Prelude.{IfOk};
ghost use Rattle.pb_lines.specs.Device.{Only};
ghost use Rattle.pb_lines.specs.Lines.{IsSettled};

use pb_lines::{Device, LineReader, Lines, LinesFault};
use std::alloc::Global;

pub type Files = Vec<Vec<u8>>;

/// The lines, and the file, ready for more.
pub fn opened<D: Device + Drop>(alloc: Global, device: D) -> Result<(Files, Lines<D>), LinesFault>
    requires { Only (D.seen device) (D.may_leave device) }
    ensures { IfOk result (λ r. IsSettled D.honest D.seen D.may_leave r.1) }
{
    let mut reader = LineReader::new(alloc, device);
    let mut found = Vec::new(alloc);
    for _ in 0..u64::MAX {
        let Some(line) = reader.next_line(alloc)? else {
            return match reader.finish() {
                Ok(lines) => Ok((found, lines)),
                Err((fault, _)) => Err(fault),
            };
        };
        found.push(line)?;
    }
    Err(LinesFault::Full)
}
