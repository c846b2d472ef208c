// Why a text gives no inventory, and why a pattern finds no hosts.
ghost use Rattle.std.specs.Prelude.{◌≡◌};

use pb_value::JsonFault;
use std::alloc::{AllocError, AllocFailed};
use thiserror::Error;

/// Why a text gives no inventory, the first that applies.
#[derive(Debug, Drop, Error)]
pub enum InventoryFault {
    #[error("the inventory is not JSON")]
    NotJson,
    /// A group or what is said of hosts isn't as an inventory has it.
    #[error("the inventory is malformed")]
    Form,
    /// A host has a name that none can have.
    #[error("the inventory names a host as none can be named")]
    HostName,
    /// A group is below itself, or `all` is below another.
    #[error("the inventory has a cycle of groups")]
    Cycle,
    #[error("the inventory passes a limit")]
    Limit,
    #[error("want of memory")]
    NoMemory,
}

impl From<AllocError> for InventoryFault {
    ghost use Rattle.std.specs.Prelude.{◌≡◌};
    ghost use Rattle.pb_inventory.specs.declared.fault.InventoryFault.TheVariants.{NoMemory};

    ghost from_gives = { λ _ e. e ≡ NoMemory };

    fn from(_: AllocError) -> InventoryFault {
        InventoryFault::NoMemory
    }
}

impl<T: Drop> From<AllocFailed<T>> for InventoryFault {
    ghost use Rattle.std.specs.Prelude.{◌≡◌};
    ghost use Rattle.pb_inventory.specs.declared.fault.InventoryFault.TheVariants.{NoMemory};

    ghost from_gives = { λ _ e. e ≡ NoMemory };

    fn from(_: AllocFailed<T>) -> InventoryFault {
        InventoryFault::NoMemory
    }
}

impl From<JsonFault> for InventoryFault {
    ghost use Rattle.std.specs.Prelude.{◌≡◌};
    ghost use Rattle.pb_inventory.specs.Offences.{from_json};

    ghost from_gives = { λ e f. f ≡ from_json e };

    fn from(fault: JsonFault) -> InventoryFault {
        match fault {
            JsonFault::NotJson => InventoryFault::NotJson,
            JsonFault::NoMemory => InventoryFault::NoMemory,
        }
    }
}

/// Why a pattern finds no hosts.
#[derive(Debug, Drop, Error)]
pub enum PatternFault {
    #[error("the pattern has a word that names no group and no host")]
    Unknown,
    #[error("want of memory")]
    NoMemory,
}

impl From<AllocError> for PatternFault {
    ghost use Rattle.std.specs.Prelude.{◌≡◌};
    ghost use Rattle.pb_inventory.specs.declared.fault.PatternFault.TheVariants.{NoMemory};

    ghost from_gives = { λ _ e. e ≡ NoMemory };

    fn from(_: AllocError) -> PatternFault {
        PatternFault::NoMemory
    }
}
