// The inventory that a JSON text is.
ghost use Rattle.std.specs.Prelude.{◌<◌, ◌≡◌, ◌≤◌, Err, Ok, false, length};
ghost use Rattle.std.specs.Str.{is_utf8};
ghost use Rattle.pb_semantics.specs.Words.{Gives, most_inventory_bytes};
ghost use Rattle.pb_inventory.specs.Offences.{inventory_in, offence_of};
ghost use Rattle.pb_inventory.specs.Inventory.{inventory_view};

use crate::build::inventory_of;
use crate::document::document_in;
use crate::fault::InventoryFault;
use crate::inventory::Inventory;
use pb_value::read_json;
use std::alloc::Global;

/// The most bytes of an inventory.
pub const INVENTORY_LIMIT: usize = 4_194_304;

impl Inventory {
    /// The inventory that the text is: what an inventory script prints, or `ansible-inventory
    /// --list`.
    ///
    /// # Errors
    /// `Limit` where there are more than 4,194,304 bytes; else `NotJson` where they aren't JSON;
    /// else the first of `Form`, `HostName`, `Cycle` and `Limit` that the value has. `NoMemory` for
    /// want of memory.
    pub fn read(alloc: Global, bytes: &[u8]) -> Result<Inventory, InventoryFault>
        ensures verdict { Gives (λ i. Ok (inventory_view i)) offence_of result
            (inventory_in bytes.now) }
        ensures large { most_inventory_bytes < length bytes.now
            → result ≡ Err InventoryFault.Limit }
        ensures no_text { is_utf8 bytes.now ≡ false → length bytes.now ≤ most_inventory_bytes
            → result ≡ Err InventoryFault.NotJson }
    {
        if bytes.len() > INVENTORY_LIMIT {
            return Err(InventoryFault::Limit);
        }
        let value = read_json(alloc, bytes)?;
        let document = document_in(alloc, &value)?;
        inventory_of(alloc, &document)
    }
}
