// Why a text isn't read as an expression.
use std::alloc::{AllocError, AllocFailed};
use thiserror::Error;

/// Why a text isn't read as an expression or a template.
#[derive(Debug, Drop, Error)]
pub enum ExprFault {
    /// The byte place of the first token that can't stand, or the length where the text ends too
    /// soon.
    #[error("unreadable at byte {at}")]
    Unreadable { at: usize },
    /// Parentheses, lists, `not` and what filters are given nest over 32, or a path has over 16
    /// steps.
    #[error("nested too deeply")]
    TooDeep,
    #[error("want of memory")]
    NoMemory,
}

impl From<AllocError> for ExprFault {
    ghost use Rattle.std.specs.Prelude.{◌≡◌};
    ghost use Rattle.pb_syntax.specs.declared.fault.ExprFault.TheVariants.{NoMemory};

    ghost from_gives = { λ _ e. e ≡ NoMemory };

    fn from(_: AllocError) -> ExprFault {
        ExprFault::NoMemory
    }
}

impl<T: Drop> From<AllocFailed<T>> for ExprFault {
    ghost use Rattle.std.specs.Prelude.{◌≡◌};
    ghost use Rattle.pb_syntax.specs.declared.fault.ExprFault.TheVariants.{NoMemory};

    ghost from_gives = { λ _ e. e ≡ NoMemory };

    fn from(_: AllocFailed<T>) -> ExprFault {
        ExprFault::NoMemory
    }
}
