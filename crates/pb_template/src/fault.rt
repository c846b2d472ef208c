// Why a value isn't read as an expression.
ghost use Rattle.pb_template.specs.Faults.{from_expr};

use pb_syntax::ExprFault;
use std::alloc::{AllocError, AllocFailed};
use thiserror::Error;

/// Why a value isn't read as an expression.
#[derive(Debug, Drop, Error)]
pub enum TemplateFault {
    /// A text in it is no template, or no condition, that can be read.
    #[error("an expression can't be read")]
    Unreadable,
    #[error("want of memory")]
    NoMemory,
}

impl From<AllocError> for TemplateFault {
    ghost use Rattle.std.specs.Prelude.{◌≡◌};
    ghost use Rattle.pb_template.specs.declared.fault.TemplateFault.TheVariants.{NoMemory};

    ghost from_gives = { λ _ e. e ≡ NoMemory };

    fn from(_: AllocError) -> TemplateFault {
        TemplateFault::NoMemory
    }
}

impl<T: Drop> From<AllocFailed<T>> for TemplateFault {
    ghost use Rattle.std.specs.Prelude.{◌≡◌};
    ghost use Rattle.pb_template.specs.declared.fault.TemplateFault.TheVariants.{NoMemory};

    ghost from_gives = { λ _ e. e ≡ NoMemory };

    fn from(_: AllocFailed<T>) -> TemplateFault {
        TemplateFault::NoMemory
    }
}

impl From<ExprFault> for TemplateFault {
    ghost use Rattle.std.specs.Prelude.{◌≡◌};

    ghost from_gives = { λ e f. f ≡ from_expr e };

    fn from(fault: ExprFault) -> TemplateFault {
        match fault {
            ExprFault::Unreadable { at: _ } | ExprFault::TooDeep => TemplateFault::Unreadable,
            ExprFault::NoMemory => TemplateFault::NoMemory,
        }
    }
}
