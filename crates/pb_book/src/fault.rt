// Why a file gives no book.
ghost use Rattle.pb_book.specs.Faults.{from_json, from_plays};

use pb_play::{Offence, PlayFault};
use pb_value::JsonFault;
use thiserror::Error;

/// Why a file gives no book.
#[derive(Debug, Drop, Error)]
pub enum BookFault {
    #[error("the book is not JSON")]
    NotJson,
    #[error("the book is refused")]
    Refused(Offence),
    #[error("want of memory")]
    NoMemory,
}

impl From<JsonFault> for BookFault {
    ghost use Rattle.std.specs.Prelude.{◌≡◌};

    ghost from_gives = { λ e f. f ≡ from_json e };

    fn from(fault: JsonFault) -> BookFault {
        match fault {
            JsonFault::NotJson => BookFault::NotJson,
            JsonFault::NoMemory => BookFault::NoMemory,
        }
    }
}

impl From<PlayFault> for BookFault {
    ghost use Rattle.std.specs.Prelude.{◌≡◌};

    ghost from_gives = { λ e f. f ≡ from_plays e };

    fn from(fault: PlayFault) -> BookFault {
        match fault {
            PlayFault::Refused(offence) => BookFault::Refused(offence),
            PlayFault::NoMemory => BookFault::NoMemory,
        }
    }
}
