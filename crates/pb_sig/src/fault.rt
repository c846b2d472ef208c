// Why a file of signatures gives no modules.
ghost use Rattle.std.specs.Prelude.{◌≡◌};

use pb_value::JsonFault;
use std::alloc::{AllocError, AllocFailed};
use thiserror::Error;

/// Why a file of signatures gives no modules.
#[derive(Debug, Drop, Error)]
pub enum SignatureFault {
    #[error("the signatures are not JSON")]
    NotJson,
    /// Something isn't as a file of signatures has it.
    #[error("a signature is malformed")]
    Form,
    /// A shape breaks the laws of modules.
    #[error("a signature breaks a law of modules")]
    Law,
    /// A module has the name of an earlier one, or one that none can have.
    #[error("a module's name is taken")]
    Taken,
    #[error("the signatures pass a limit")]
    Limit,
    #[error("want of memory")]
    NoMemory,
}

impl From<AllocError> for SignatureFault {
    ghost use Rattle.std.specs.Prelude.{◌≡◌};
    ghost use Rattle.pb_sig.specs.declared.fault.SignatureFault.TheVariants.{NoMemory};

    ghost from_gives = { λ _ e. e ≡ NoMemory };

    fn from(_: AllocError) -> SignatureFault {
        SignatureFault::NoMemory
    }
}

impl<T: Drop> From<AllocFailed<T>> for SignatureFault {
    ghost use Rattle.std.specs.Prelude.{◌≡◌};
    ghost use Rattle.pb_sig.specs.declared.fault.SignatureFault.TheVariants.{NoMemory};

    ghost from_gives = { λ _ e. e ≡ NoMemory };

    fn from(_: AllocFailed<T>) -> SignatureFault {
        SignatureFault::NoMemory
    }
}

// Why a value isn't what is read of it.
#[derive(Debug, Drop)]
pub(crate) enum FormFault {
    Form,
    NoMemory,
}

impl From<AllocError> for FormFault {
    ghost use Rattle.std.specs.Prelude.{◌≡◌};
    ghost use Rattle.pb_sig.specs.declared.fault.FormFault.TheVariants.{NoMemory};

    ghost from_gives = { λ _ e. e ≡ NoMemory };

    fn from(_: AllocError) -> FormFault {
        FormFault::NoMemory
    }
}

impl<T: Drop> From<AllocFailed<T>> for FormFault {
    ghost use Rattle.std.specs.Prelude.{◌≡◌};
    ghost use Rattle.pb_sig.specs.declared.fault.FormFault.TheVariants.{NoMemory};

    ghost from_gives = { λ _ e. e ≡ NoMemory };

    fn from(_: AllocFailed<T>) -> FormFault {
        FormFault::NoMemory
    }
}

impl From<FormFault> for SignatureFault {
    ghost use Rattle.pb_sig.specs.Offences.{from_form};

    ghost from_gives = { λ e f. f ≡ from_form e };

    fn from(fault: FormFault) -> SignatureFault {
        match fault {
            FormFault::Form => SignatureFault::Form,
            FormFault::NoMemory => SignatureFault::NoMemory,
        }
    }
}

impl From<JsonFault> for SignatureFault {
    ghost use Rattle.pb_sig.specs.Offences.{from_json};

    ghost from_gives = { λ e f. f ≡ from_json e };

    fn from(fault: JsonFault) -> SignatureFault {
        match fault {
            JsonFault::NotJson => SignatureFault::NotJson,
            JsonFault::NoMemory => SignatureFault::NoMemory,
        }
    }
}
