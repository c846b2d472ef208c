// Why a part of a book is refused.
ghost use Rattle.pb_task.specs.Faults.{from_template};

use pb_template::TemplateFault;
use std::alloc::{AllocError, AllocFailed};
use thiserror::Error;

/// What is wrong on a line of a book, the first that applies.
#[derive(Clone, Copy, PartialEq, Eq, Debug)]
pub enum Code {
    /// P02: no record, or a play without hosts.
    Shape,
    /// P03: an unknown keyword, or one that is left out.
    Keyword,
    /// P04: a value of the wrong form.
    Value,
    /// P05: no module, or several.
    Work,
    /// P06: a module that isn't known.
    Module,
    /// P07: an expression that can't be read.
    Expression,
    /// P08: past a limit.
    Limit,
    /// P09: a second handler of a name.
    Name,
}

/// Why a value gives no task.
#[derive(Debug, Drop, Error)]
pub enum TaskFault {
    #[error("the task is refused")]
    Refused(Code),
    #[error("want of memory")]
    NoMemory,
}

impl From<AllocError> for TaskFault {
    ghost use Rattle.std.specs.Prelude.{◌≡◌};
    ghost use Rattle.pb_task.specs.declared.fault.TaskFault.TheVariants.{NoMemory};

    ghost from_gives = { λ _ e. e ≡ NoMemory };

    fn from(_: AllocError) -> TaskFault {
        TaskFault::NoMemory
    }
}

impl<T: Drop> From<AllocFailed<T>> for TaskFault {
    ghost use Rattle.std.specs.Prelude.{◌≡◌};
    ghost use Rattle.pb_task.specs.declared.fault.TaskFault.TheVariants.{NoMemory};

    ghost from_gives = { λ _ e. e ≡ NoMemory };

    fn from(_: AllocFailed<T>) -> TaskFault {
        TaskFault::NoMemory
    }
}

impl From<TemplateFault> for TaskFault {
    ghost use Rattle.std.specs.Prelude.{◌≡◌};

    ghost from_gives = { λ e f. f ≡ from_template e };

    fn from(fault: TemplateFault) -> TaskFault {
        match fault {
            TemplateFault::Unreadable => TaskFault::Refused(Code::Expression),
            TemplateFault::NoMemory => TaskFault::NoMemory,
        }
    }
}
