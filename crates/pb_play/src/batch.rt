// The batches into which `serial` cuts the hosts of a play.
ghost use Rattle.std.specs.Prelude.{◌-◌, ◌<◌, ◌≡◌, ◌≤◌, IfOk, List, length, map, min, suc};
ghost use Rattle.pb_language.specs.Book.{percentage};
ghost use Rattle.pb_language.specs.Expression.{Name};
ghost use Rattle.pb_language.specs.Plays.{batches_for, cut_size, first_size, next_cuts};
ghost use Rattle.pb_play.specs.Batches.{sizes_left};
ghost use Rattle.pb_play.specs.Plays.{cut_view};

use crate::play::{Cut, Play};
use std::alloc::{AllocError, Global};

impl Play {
    /// How many hosts each batch of the play has, where it has so many in all. An entry of `serial`
    /// is a number or a percentage of all, rounded down, at least one; the last entry holds for all
    /// that are left. Without `serial` there is one batch, and of no hosts there is none.
    ///
    /// # Errors
    ///
    /// Want of memory.
    pub fn cuts(&self, alloc: Global, hosts: usize) -> Result<Vec<usize>, AllocError>
        ensures { IfOk result (λ sizes. (hs : List Name) → length hs ≡ hosts → sizes.items
            ≡ map length (batches_for (map cut_view self.now.serial.items) hs)) }
    {
        cuts_of(alloc, self.serial.as_slice(), hosts)
    }
}

fn cuts_of(alloc: Global, serial: &[Cut], hosts: usize) -> Result<Vec<usize>, AllocError>
    ensures { IfOk result (λ sizes. sizes.items
        ≡ sizes_left hosts hosts (map cut_view serial.now) hosts) }
{
    let mut sizes = Vec::new(alloc);
    let mut entries = serial;
    let mut left = hosts;
    'batches: while left > 0 {
        let size = batch_size(entries, hosts, left);
        sizes.push(size)?;
        left -= size;
        entries = without_first(entries);
    }
    Ok(sizes)
}

// The entries from the next batch on: the last stays.
fn without_first(entries: &[Cut]) -> &[Cut]
    ensures { map cut_view result.now ≡ next_cuts (map cut_view entries.now) }
{
    if entries.len() > 1 {
        &entries[1..]
    } else {
        entries
    }
}

// How many of the hosts that are left the next batch has.
fn batch_size(entries: &[Cut], hosts: usize, left: usize) -> usize
    requires { 0 < left }
    ensures size { result
        ≡ suc (min (first_size hosts (map cut_view entries.now) - 1) (left - 1)) }
    ensures within { result ≤ left }
{
    if entries.is_empty() {
        return size_within(hosts as u128, left);
    }
    size_within(cut_size(entries[0], hosts), left)
}

// At least one host, and at most those that are left.
fn size_within(size: u128, left: usize) -> usize
    requires { 0 < left }
    ensures size { result ≡ suc (min (size - 1) (left - 1)) }
    ensures within { result ≤ left }
{
    if size >= left as u128 {
        left
    } else if size == 0 {
        1
    } else {
        size as usize
    }
}

fn cut_size(cut: Cut, hosts: usize) -> u128
    ensures { result ≡ cut_size hosts (cut_view cut) }
{
    match cut {
        Cut::Hosts(count) => count as u128,
        Cut::Percentage(share) => percentage_of(share, hosts),
    }
}

fn percentage_of(share: u64, hosts: usize) -> u128
    ensures { result ≡ cut_size hosts (percentage share) }
{
    let size = share as u128 * hosts as u128 / 100;
    if size == 0 { 1 } else { size }
}
