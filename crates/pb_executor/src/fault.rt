// Why calls of a run are refused: of what its machine answers, want of memory alone is met.
ghost use Rattle.std.specs.Prelude.{◌≡◌};
ghost use Rattle.pb_executor.specs.Refusals.{IsMemory, IsNoFault, error_in};

use pb_core::CoreFault;
use pb_run::GiveFault;
use std::alloc::AllocError;

/// Why answers are refused.
#[derive(Clone, Copy, PartialEq, Eq, Debug)]
pub enum GiveError {
    Stopped,
    /// No job of that ticket and host is out.
    Stranger,
    NoMemory,
}

// The allocation that was refused, where a fault is that.
pub(crate) fn refused_by(fault: CoreFault) -> AllocError
    requires { IsMemory fault }
{
    match fault {
        CoreFault::Memory(refused) => refused,
        CoreFault::NotThere | CoreFault::Full => unreachable!(),
    }
}

// Why answers are refused, where what the machine answers is no fault but want of memory.
pub(crate) fn error_of(fault: GiveFault) -> GiveError
    requires { IsNoFault fault }
    ensures { result ≡ error_in fault }
{
    match fault {
        GiveFault::Stopped => GiveError::Stopped,
        GiveFault::Stranger => GiveError::Stranger,
        GiveFault::Core(fault) => {
            let _refused = refused_by(fault);
            GiveError::NoMemory
        }
    }
}
