// What each host has at its later places in each play, by a first pass in which others see of hosts
// what the inventory says.
ghost use Rattle.std.specs.Prelude.{◌≡◌, All, IfOk, OnOk, length, map};
ghost use Rattle.pb_language.specs.Program.{Program};
ghost use Rattle.pb_language.specs.Verdict.{found_laters};
ghost use Rattle.pb_lattice.specs.Words.{names_of};
ghost use Rattle.pb_inventory.specs.Words.{inventory_view};
ghost use Rattle.pb_walks.specs.Words.{LatersAgree};
ghost use Rattle.pb_tables.specs.Listed.{lasting_lists, lasting_there, nobody_yet, put_at};
ghost use Rattle.pb_tables.specs.Listed.{put_each, put_last};
ghost use Rattle.pb_tables.specs.Scenes.{AreScenes};
ghost use Rattle.pb_tables.specs.Tabled.{AreBeside, laters_in};

use crate::host::host_lasting;
use crate::scene::Scene;
use crate::table::{PlayLaters, Stage};
use pb_hosts::Lasting;
use pb_lattice::Environments;
use pb_play::Strategy;
use std::alloc::{AllocError, Global};
use std::sync::Arc;

/// What each host has at its later places in each play.
///
/// # Errors
///
/// Want of memory, as of `host_lasting`.
pub fn laters_of(
    alloc: Global,
    stage: &Stage<'_, '_>,
    space: Environments,
) -> Result<(PlayLaters, Environments), AllocError>
    requires names { space.names ≡ names_of stage.now.names.now }
    ensures names { IfOk result (λ r. r.1.names ≡ space.names) }
    ensures beside { IfOk result
        (λ r. All (AreBeside (length stage.now.names.now)) r.0.items) }
    ensures laters { IfOk result (λ r. (ps : Program)
        → AreScenes stage.now.inventory.now ps stage.now.scenes.now
        → LatersAgree (laters_in stage.now r.0.items)
        (found_laters ps (inventory_view stage.now.inventory.now))) }
{
    let mut space = space;
    let mut laters = nobody_lasting(alloc, stage.scenes)?;
    for host in 0..stage.inventory.hosts() {
        let lasting = host_lasting(alloc, stage, host, &mut space)?;
        laters = with_lasting(alloc, laters, lasting)?;
        space = space.emptied(alloc)?;
    }
    Ok((laters, space))
}

// Of no host yet.
fn nobody_lasting(alloc: Global, scenes: &[Scene<'_>]) -> Result<PlayLaters, AllocError>
    ensures { IfOk result (λ v. lasting_lists v.items ≡ map nobody_yet scenes.now) }
{
    let mut laters = Vec::with_capacity(alloc, scenes.len())?;
    for scene in scenes {
        laters.push(match scene.cast.play.strategy {
            Strategy::Linear => Some(Vec::new(alloc)),
            Strategy::Free => None,
        })?;
    }
    Ok(laters)
}

// With what one host more has in each play.
fn with_lasting(
    alloc: Global,
    before: PlayLaters,
    lasting: Vec<Lasting>,
) -> Result<PlayLaters, AllocError>
    ensures { IfOk result (λ v. lasting_lists v.items
        ≡ put_each (lasting_lists before.items) lasting.items) }
{
    let mut laters = before;
    let mut left = lasting;
    while let Some(last) = left.pop() {
        put(alloc, &mut laters, left.len(), last)?;
    }
    Ok(laters)
}

// Puts what a host has in the play of that number behind that of the hosts before it.
fn put(
    alloc: Global,
    laters: &mut PlayLaters,
    play: usize,
    lasting: Lasting,
) -> Result<(), AllocError>
    ensures { OnOk result (lasting_lists laters.new.items
        ≡ put_at play lasting (lasting_lists laters.old.items)) }
{
    match laters.get_mut(play) {
        Some(hosts) => push_last(alloc, hosts, lasting),
        None => Ok(()),
    }
}

// Behind those of the hosts before it; nothing under `free`.
fn push_last(
    alloc: Global,
    hosts: &mut Option<Vec<Arc<Lasting>>>,
    lasting: Lasting,
) -> Result<(), AllocError>
    ensures { OnOk result (lasting_there hosts.new ≡ put_last lasting (lasting_there hosts.old)) }
{
    if let Some(hosts) = hosts {
        hosts.push(Arc::new(alloc, lasting)?)?;
    }
    Ok(())
}
