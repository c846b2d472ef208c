// Why a value gives no plays.
ghost use Rattle.std.specs.Prelude.{◌≡◌};
ghost use Rattle.pb_play.specs.Faults.{from_task, from_template, refusal};

use pb_task::{Code, TaskFault};
use pb_template::TemplateFault;
use std::alloc::{AllocError, AllocFailed};
use thiserror::Error;

/// What is wrong with a book: the least line, and on it the least code that applies.
#[derive(Clone, Copy, PartialEq, Eq, Debug)]
pub struct Offence {
    /// 0 where the book is no list.
    pub line: u32,
    pub code: Code,
}

/// Why a value gives no plays.
#[derive(Debug, Drop, Error)]
pub enum PlayFault {
    #[error("the book is refused")]
    Refused(Offence),
    #[error("want of memory")]
    NoMemory,
}

impl PlayFault {
    pub(crate) fn at(line: u32, code: Code) -> PlayFault
        ensures { result ≡ refusal line code }
    {
        PlayFault::Refused(Offence { line, code })
    }

    // The fault of a task at that line.
    pub(crate) fn of_task(line: u32, fault: TaskFault) -> PlayFault
        ensures { result ≡ from_task line fault }
    {
        match fault {
            TaskFault::Refused(code) => PlayFault::at(line, code),
            TaskFault::NoMemory => PlayFault::NoMemory,
        }
    }

    // The fault of a text at that line.
    pub(crate) fn of_text(line: u32, fault: TemplateFault) -> PlayFault
        ensures { result ≡ from_template line fault }
    {
        match fault {
            TemplateFault::Unreadable => PlayFault::at(line, Code::Expression),
            TemplateFault::NoMemory => PlayFault::NoMemory,
        }
    }
}

impl From<AllocError> for PlayFault {
    ghost use Rattle.std.specs.Prelude.{◌≡◌};
    ghost use Rattle.pb_play.specs.declared.fault.PlayFault.TheVariants.{NoMemory};

    ghost from_gives = { λ _ e. e ≡ NoMemory };

    fn from(_: AllocError) -> PlayFault {
        PlayFault::NoMemory
    }
}

impl<T: Drop> From<AllocFailed<T>> for PlayFault {
    ghost use Rattle.std.specs.Prelude.{◌≡◌};
    ghost use Rattle.pb_play.specs.declared.fault.PlayFault.TheVariants.{NoMemory};

    ghost from_gives = { λ _ e. e ≡ NoMemory };

    fn from(_: AllocFailed<T>) -> PlayFault {
        PlayFault::NoMemory
    }
}
