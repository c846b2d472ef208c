// The words of a play's pattern name hosts and groups (V06).
ghost use Rattle.std.specs.Prelude.{◌≡◌, IfOk, not};
ghost use Rattle.pb_language.specs.Rules.{words_known};
ghost use Rattle.pb_inventory.specs.Words.{inventory_view};
ghost use Rattle.pb_task.specs.Words.{names_view};
ghost use Rattle.pb_play.specs.Words.{words_in};

use pb_inventory::{Inventory, PatternFault};
use std::alloc::{AllocError, Global};
use std::sync::Arc;

// A word of the texts names no group and no host.
pub(crate) fn has_unknown_word(
    alloc: Global,
    inventory: &Inventory,
    texts: &[Arc<String>],
) -> Result<bool, AllocError>
    ensures { IfOk result (λ b. b
        ≡ not (words_known (inventory_view inventory.now) (words_in (names_view texts.now)))) }
{
    match inventory.hosts_of_each(alloc, texts) {
        Ok(_) => Ok(false),
        Err(PatternFault::Unknown) => Ok(true),
        Err(PatternFault::NoMemory) => Err(AllocError),
    }
}
