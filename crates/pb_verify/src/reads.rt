// What the texts of a book's plays read of hosts.
ghost use Rattle.std.specs.Prelude.{IfOk, map};
ghost use Rattle.pb_language.specs.Book.{Registry};
ghost use Rattle.pb_language.specs.Plays.{program_of};
ghost use Rattle.pb_inventory.specs.Words.{inventory_view};
ghost use Rattle.pb_play.specs.Words.{play_view};
ghost use Rattle.pb_tables.specs.Words.{ReadsNoMore};

use pb_alike::books_read_no_name;
use pb_inventory::Inventory;
use pb_others::books_read_theirs;
use pb_play::Play;
use pb_rules::{reads_name, reads_others};
use pb_tables::Reads;
use pb_walks::books_read_alone;
use std::alloc::{AllocError, Global};

/// What the texts of the plays read of hosts. Whether they read the host's name isn't looked for
/// where there is one host alone.
///
/// # Errors
///
/// Want of memory.
pub fn reads_of<'p>(
    alloc: Global,
    inventory: &Inventory,
    plays: &'p [Play],
) -> Result<Reads<'p>, AllocError>
    ensures { IfOk result (λ r. (ms : Registry) → ReadsNoMore r
        (program_of ms (inventory_view inventory.now) (map play_view plays.entry.now))) }
{
    books_read_alone();
    books_read_no_name();
    books_read_theirs();
    if reads_others(alloc, plays)? {
        return Ok(Reads::Others(plays));
    }
    if inventory.hosts() < 2 {
        return Ok(Reads::Own);
    }
    if reads_name(alloc, plays)? {
        return Ok(Reads::Own);
    }
    Ok(Reads::Nameless)
}
