// From which places of a play on a host has its variables for certain.
ghost use Rattle.std.specs.Prelude.{◌≡◌, ◌+◌, ◌<◌, All, IfOk, OnOk, length, suc};
ghost use Rattle.pb_language.specs.Setting.{Setting};
ghost use Rattle.pb_lattice.specs.Words.{IsKept, Stands, exit_of, lost_marks};
ghost use Rattle.pb_find.specs.Ways.{value_at, way_visits};
ghost use Rattle.pb_hosts.specs.Tables.{never_lasts};
ghost use Rattle.pb_lasting.specs.Lasts.{Lasts};
ghost use Rattle.pb_lasting.specs.Losses.{AreMarks};

use crate::nodes::{known_next, latest, nodes_by_place, past, past_all};
use pb_hosts::Lasting;
use pb_hosts::lasting::NEVER;
use pb_lattice::{Environment, Environments};
use pb_route::Station;
use std::alloc::{AllocError, Global};

/// From which places of a play on a host has its variables for certain, where that is known at its
/// nodes: those that it has at each of these places, and at the play's end. Where no way leads to
/// the end it has every name past the last place that one leads to.
///
/// # Errors
///
/// Want of memory, also where a name would last from a place that no mark can be.
pub fn lasting_in(
    alloc: Global,
    stations: &[Station<'_>],
    values: &[Environment],
    space: &mut Environments,
) -> Result<Lasting, AllocError>
    requires values { All (Stands space.old) values.now }
    requires number { length values.now ≡ length stations.now + 2 }
    ensures kept { IsKept space.old space.new }
    ensures beside { IfOk result (λ l. length l.from.items ≡ length space.old.names) }
    ensures lasts { IfOk result (λ l. (st : Setting) → Lasts space.old.names l
        (way_visits st stations.now space.old values.now)
        (value_at space.old values.now (length stations.now + 1))) }
{
    let end = values[stations.len() + 1];
    if end.is_dead() {
        let every = Some(past_all(stations, values)?);
        let last = latest(stations, values, space);
        let from = marks_before(alloc, stations, values, space, last)?;
        Ok(Lasting { from, every })
    } else {
        let from = marks_before(alloc, stations, values, space, end)?;
        Ok(Lasting { from, every: None })
    }
}

// From which place on each name lasts, if that is known at the end: past the last node at which it
// isn't certain. Each node is compared with one that comes after it, and only where the two differ.
fn marks_before(
    alloc: Global,
    stations: &[Station<'_>],
    values: &[Environment],
    space: &Environments,
    end: Environment,
) -> Result<Vec<u32>, AllocError>
    requires values { All (Stands space.now) values.now }
    requires number { length stations.now < length values.now }
    requires stands { Stands space.now end }
    ensures beside { IfOk result (λ v. length v.items ≡ length space.now.names) }
    ensures marks { IfOk result (λ v. (st : Setting) → AreMarks space.now.names
        (exit_of space.now end) (way_visits st stations.now space.now values.now) v.items) }
{
    let mut from = vec![in alloc; NEVER; space.names().len()]?;
    space.mark_lost(end, space.empty(), 0, from.as_mut_slice());
    let nodes = nodes_by_place(alloc, stations, values)?;
    for index in 0..nodes.len() {
        let (place, node) = nodes[index];
        let next = known_next(stations, values, nodes.as_slice(), index, end);
        mark_between(space, place, values[node], next, from.as_mut_slice())?;
    }
    Ok(from)
}

// Marks the names that are certain at the next node and not at this one, which is at that place,
// and takes the mark from each that is certain at this one and not at the next.
fn mark_between(
    space: &Environments,
    place: u32,
    at: Environment,
    next: Environment,
    from: &mut [u32],
) -> Result<(), AllocError>
    requires at { Stands space.now at }
    requires next { Stands space.now next }
    requires beside { length from.old ≡ length space.now.names }
    ensures small { OnOk result (suc place < never_lasts) }
    ensures marks { OnOk result (from.new
        ≡ lost_marks never_lasts (exit_of space.now at) (exit_of space.now next) space.now.names
        (lost_marks (suc place) (exit_of space.now next) (exit_of space.now at) space.now.names
        from.old)) }
{
    let mark = past(place)?;
    space.mark_lost(next, at, mark, from);
    space.mark_lost(at, next, NEVER, from);
    Ok(())
}
