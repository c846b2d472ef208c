// The batches of the plays of a book, one play after the other.
ghost use Rattle.std.specs.Prelude.{[], ◌++◌, ◌<◌, ◌≡◌, ◌≤◌, IfErr, IfOk, OnOk, false, length, map};
ghost use Rattle.std.specs.List.{All, sum};
ghost use Rattle.pb_language.specs.Book.{Registry};
ghost use Rattle.pb_language.specs.Plays.{pattern_hosts, program_of};
ghost use Rattle.pb_language.specs.Program.{all_batches};
ghost use Rattle.pb_inventory.specs.Words.{inventory_view, names_at};
ghost use Rattle.pb_play.specs.Words.{play_view};
ghost use Rattle.pb_batches.specs.Batches.{AreBatchesOf, are_known, batch_view, cut_by, is_known};

use pb_inventory::{Inventory, PatternFault};
use pb_play::Play;
use std::alloc::{AllocError, Global};

/// A batch of hosts that run a play.
#[derive(Drop)]
pub struct PlayBatch {
    /// The play's number in the book, from 0 on.
    pub play: usize,
    /// Their places in host order, in the order in which the play's pattern finds them.
    pub members: Vec<usize>,
}

/// The batches of all plays of a book, one play after the other.
///
/// # Errors
///
/// `Unknown` where a word of a pattern names no group and no host; `NoMemory` for want of memory.
pub fn batches_of(
    alloc: Global,
    inventory: &Inventory,
    plays: &[Play],
) -> Result<Vec<PlayBatch>, PatternFault>
    ensures batches { IfOk result (λ bs. (ms : Registry)
        → AreBatchesOf ms (inventory_view inventory.now) plays.now bs.items (all_batches
        (program_of ms (inventory_view inventory.now) (map play_view plays.now)))) }
    ensures hosts { IfOk result (λ bs.
        All (λ b. All (λ h. h < length (inventory_view inventory.now).hosts) b.members.items)
        bs.items) }
    ensures plays { IfOk result (λ bs. All (λ b. b.play < length plays.now) bs.items) }
    ensures unknown { IfErr result (λ e. e ≡ PatternFault.Unknown
        → are_known (inventory_view inventory.now) plays.now ≡ false) }
{
    let mut batches = Vec::new(alloc);
    for (number, play) in plays.iter().enumerate() {
        let places = places_of(alloc, inventory, play)?;
        let sizes = play.cuts(alloc, places.len())?;
        add_batches(alloc, number, &places, &sizes, &mut batches)?;
    }
    Ok(batches)
}

// The places of the hosts of a play.
fn places_of(alloc: Global, inventory: &Inventory, play: &Play) -> Result<Vec<usize>, PatternFault>
    ensures hosts { IfOk result (λ ps.
        names_at (map (λ h. h.name) (inventory_view inventory.now).hosts) ps.items
        ≡ pattern_hosts (inventory_view inventory.now) [] (play_view play.now).pattern) }
    ensures placed { IfOk result
        (λ ps. All (λ p. p < length (inventory_view inventory.now).hosts) ps.items) }
    ensures unknown { IfErr result (λ e. e ≡ PatternFault.Unknown
        → is_known (inventory_view inventory.now) play.now ≡ false) }
{
    let places = inventory.hosts_of_each(alloc, &play.pattern)?;
    Ok(places)
}

// Adds the batches of the play of that number, whose hosts are at these places.
fn add_batches(
    alloc: Global,
    play: usize,
    places: &[usize],
    sizes: &[usize],
    batches: &mut Vec<PlayBatch>,
) -> Result<(), AllocError>
    requires { sum sizes.now ≤ length places.now }
    ensures { OnOk result (map batch_view batches.new.items ≡ map batch_view batches.old.items
        ++ map (λ part. (play, part)) (cut_by sizes.now places.now)) }
{
    let mut left = places;
    for size in sizes {
        let mut members = Vec::new(alloc);
        members.extend_from_slice(&left[..*size])?;
        batches.push(PlayBatch { play, members })?;
        left = &left[*size..];
    }
    Ok(())
}
