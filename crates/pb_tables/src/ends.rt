// What is found on the ways of all hosts; hosts that look alike share what is found of the first.
ghost use Rattle.std.specs.Prelude.{◌≡◌, ◌<◌, IfOk, None, Some, length, option_map, slice_get, ℕ};
ghost use Rattle.pb_language.specs.Program.{Program};
ghost use Rattle.pb_language.specs.World.{HostVariables};
ghost use Rattle.pb_lattice.specs.Words.{names_of};
ghost use Rattle.pb_inventory.specs.Words.{inventory_view};
ghost use Rattle.pb_hosts.specs.Words.{views_view};
ghost use Rattle.pb_tables.specs.Ends.{AreEnds, AreShared, found_in};
ghost use Rattle.pb_tables.specs.Found.{HostFinds};
ghost use Rattle.pb_tables.specs.Scenes.{AreScenes};
ghost use Rattle.pb_tables.specs.Tabled.{AreTables, laters_in};
ghost use Rattle.pb_tables.specs.declared.end.HostEnd.{HostEnd};

use crate::end::HostEnd;
use crate::host::host_found;
use crate::table::{Stage, Tables};
use pb_lattice::Environments;
use std::alloc::{AllocError, Global};

/// What is found of each host on its way through all plays, where a host that another stands for
/// isn't followed: at its place among `firsts` stands that of an earlier host. The environments are
/// made anew for each host that is followed.
///
/// # Errors
///
/// Want of memory, as of `host_found`.
pub fn ends_of(
    alloc: Global,
    stage: &Stage<'_, '_>,
    tables: &Tables<'_>,
    firsts: &[usize],
    space: Environments,
) -> Result<(Vec<HostEnd>, Environments), AllocError>
    requires tables { AreTables stage.now tables.now }
    requires names { space.names ≡ names_of stage.now.names.now }
    ensures names { IfOk result (λ r. r.1.names ≡ space.names) }
    ensures each { IfOk result
        (λ r. length r.0.items ≡ length (inventory_view stage.now.inventory.now).hosts) }
    ensures ends { IfOk result (λ r. (ps : Program)
        → AreScenes stage.now.inventory.now ps stage.now.scenes.now
        → AreShared (inventory_view stage.now.inventory.now) ps (views_view tables.now.views)
        (laters_in stage.now tables.now.laters.items) firsts.now
        → AreEnds (inventory_view stage.now.inventory.now) ps (views_view tables.now.views)
        (laters_in stage.now tables.now.laters.items) r.0.items) }
{
    let mut space = space;
    let mut ends: Vec<HostEnd> = Vec::with_capacity(alloc, stage.inventory.hosts())?;
    for host in 0..stage.inventory.hosts() {
        let first = end_of_first(firsts, &ends, host);
        let (end, emptied) = end_of(alloc, stage, tables, first, host, space)?;
        ends.push(end)?;
        space = emptied;
    }
    Ok((ends, space))
}

// What was found of the host that stands for the one at that place, where it was followed.
fn end_of_first<'e>(firsts: &[usize], ends: &'e [HostEnd], host: usize) -> Option<&'e HostEnd>
    ensures { (e : HostEnd) → option_map (λ r. r.now) result ≡ Some e
        → (f : ℕ) × (slice_get firsts.now host ≡ Some f) × (slice_get ends.now f ≡ Some e) }
{
    match firsts.get(host) {
        Some(first) => ends.get(*first),
        None => None,
    }
}

// What is found of the host at that place: what was found of the one that stands for it, or on its
// own way.
fn end_of(
    alloc: Global,
    stage: &Stage<'_, '_>,
    tables: &Tables<'_>,
    first: Option<&HostEnd>,
    host: usize,
    space: Environments,
) -> Result<(HostEnd, Environments), AllocError>
    requires tables { AreTables stage.now tables.now }
    requires host { host < length (inventory_view stage.now.inventory.now).hosts }
    requires names { space.names ≡ names_of stage.now.names.now }
    ensures names { IfOk result (λ r. r.1.names ≡ space.names) }
    ensures shared { IfOk result (λ r. (e : HostEnd) → option_map (λ f. f.now) first.entry ≡ Some e
        → found_in r.0 ≡ found_in e) }
    ensures walked { IfOk result (λ r. option_map (λ f. f.now) first.entry ≡ None
        → (ps : Program) (x : HostVariables)
        → AreScenes stage.now.inventory.now ps stage.now.scenes.now
        → slice_get (inventory_view stage.now.inventory.now).hosts host ≡ Some x
        → HostFinds (inventory_view stage.now.inventory.now) ps (views_view tables.now.views)
        (laters_in stage.now tables.now.laters.items) x (found_in r.0)) }
{
    if let Some(end) = first {
        return Ok((end.share()?, space));
    }
    let mut space = space;
    let found = host_found(alloc, stage, tables, host, &mut space)?;
    let space = space.emptied(alloc)?;
    Ok((HostEnd::of(alloc, found)?, space))
}
