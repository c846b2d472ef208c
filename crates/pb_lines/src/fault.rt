// Why a file of lines isn't read or written.

use std::alloc::{AllocError, AllocFailed};

/// Why a file of lines isn't read or written.
#[derive(Clone, Copy, Debug, PartialEq, Eq)]
pub enum LinesFault {
    NoMemory,
    /// The file couldn't be read, written, cut or put on the disk.
    Failed,
    /// The file is as long as one may be.
    Full,
    /// A line of the file is longer than `MAX_LINE`.
    TooLong,
}

impl From<AllocError> for LinesFault {
    ghost use Rattle.std.specs.Prelude.{◌≡◌};
    ghost use Rattle.pb_lines.specs.declared.fault.LinesFault.TheVariants.{NoMemory};

    ghost from_gives = { λ _ e. e ≡ NoMemory };

    fn from(_: AllocError) -> LinesFault {
        LinesFault::NoMemory
    }
}

impl<T: Drop> From<AllocFailed<T>> for LinesFault {
    ghost use Rattle.std.specs.Prelude.{◌≡◌};
    ghost use Rattle.pb_lines.specs.declared.fault.LinesFault.TheVariants.{NoMemory};

    ghost from_gives = { λ _ e. e ≡ NoMemory };

    fn from(_: AllocFailed<T>) -> LinesFault {
        LinesFault::NoMemory
    }
}
