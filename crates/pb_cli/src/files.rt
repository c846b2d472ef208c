// Files of bounded length.
ghost use Rattle.std.specs.Prelude.{◌+◌, ◌≡◌, ◌≢◌, IfErr, IfOk, IfSome, take};
ghost use Rattle.std.specs.IoError.{error_kind};

use std::alloc::Global;
use std::io;
use std::io::{ErrorKind, Read};

/// The reader's bytes where there are at most `most`, else its first `most` and one more, which are
/// enough to see that they are too many. A read that gives few bytes isn't the end.
///
/// # Errors
/// The reader's, and want of memory.
pub fn read_bounded<R: Read + Drop>(alloc: Global, reader: R, most: u32) -> io::Result<Vec<u8>>
    ensures read { IfOk result (λ found. IfSome (R.remaining reader)
        (λ bytes. found.items ≡ take (most + 1) bytes)) }
    ensures retried { IfErr result (λ e. error_kind e ≢ ErrorKind.Interrupted) }
{
    let mut found = Vec::new(alloc);
    let mut bounded = reader.take(most as u64 + 1);
    bounded.read_to_end(&mut found)?;
    Ok(found)
}
