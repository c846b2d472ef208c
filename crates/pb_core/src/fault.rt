// Why an event didn't happen.
use std::alloc::AllocError;

#[derive(Debug, Drop)]
pub enum CoreFault {
    /// Want of memory.
    Memory(AllocError),
    /// The event can't happen where the hosts stand.
    NotThere,
    /// A count would be past its type.
    Full,
}

impl From<AllocError> for CoreFault {
    ghost use Rattle.std.specs.Prelude.{◌≡◌};
    ghost use Rattle.pb_core.specs.declared.fault.CoreFault.TheVariants.{Memory};

    ghost from_gives = { λ e f. f ≡ Memory e };

    fn from(error: AllocError) -> CoreFault {
        CoreFault::Memory(error)
    }
}
