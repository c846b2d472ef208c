// How the hosts of a batch begin their play, and how they stand again where they stood.
ghost use Rattle.std.specs.Prelude.{◌+◌, ◌<◌, ◌≡◌, ◌≤◌, ℕ, IfOk, IfSome, OnOk, length, slice_get};
ghost use Rattle.std.specs.Prelude.{vec_capacity};
ghost use Rattle.pb_core.specs.Entries.{AddsEntry, AreEntries, IsEntry};
ghost use Rattle.pb_core.specs.Entries.{entered, found};
ghost use Rattle.pb_core.specs.Entries.{found_one, waits_in, with_entry};
ghost use Rattle.pb_core.specs.Formers.{before_all, before_one};
ghost use Rattle.pb_core.specs.Indexes.{HoldsOnly};

use crate::active::is_here;
use crate::batch::RunPlay;
use crate::entry::{Entry, Former};
use crate::host::HostState;
use crate::index::ReadyIndex;
use crate::place::place_at;
use std::alloc::{AllocError, Global};
use std::mem;

// Where the host begins the play, or nothing where it left.
fn entry_of<P>(
    alloc: Global,
    hosts: &[HostState<P>],
    play: &RunPlay,
    host: usize,
) -> Result<Option<Entry>, AllocError>
    ensures entry { IfOk result (IsEntry play.now hosts.now host) }
    ensures host { IfOk result (λ o. IfSome o (λ e. e.host ≡ host)) }
{
    if host >= hosts.len() {
        return Ok(None);
    }
    if !is_here(hosts, host) {
        return Ok(None);
    }
    let plan = &play.plan;
    let position = hosts[host]
        .position
        .begin(alloc, &plan.steps, &plan.begin, plan.handlers)?;
    let place = place_at(&position, &plan.steps);
    Ok(Some(Entry {
        host,
        position,
        handlers: plan.handlers,
        place,
    }))
}

/// Where each of these hosts begins the play, unless it left.
///
/// # Errors
///
/// Want of memory.
pub fn entries_of<P>(
    alloc: Global,
    hosts: &[HostState<P>],
    play: &RunPlay,
    members: &[usize],
) -> Result<Vec<Entry>, AllocError>
    ensures { IfOk result (λ es. AreEntries play.now members.now hosts.now es.items) }
{
    let mut entries = Vec::new(alloc);
    for member in members {
        let entry = entry_of(alloc, hosts, play, *member)?;
        add_entry(&mut entries, entry)?;
    }
    Ok(entries)
}

fn add_entry(entries: &mut Vec<Entry>, entry: Option<Entry>) -> Result<(), AllocError>
    ensures { OnOk result (entries.new.items ≡ with_entry entries.old.items entry) }
{
    let Some(entry) = entry else {
        return Ok(());
    };
    entries.reserve(1)?;
    entries.push_reserved(entry);
    Ok(())
}

/// The index of hosts that begin so, while all others are idle.
///
/// # Errors
///
/// Want of memory.
pub fn index_of(alloc: Global, entries: &[Entry]) -> Result<ReadyIndex, AllocError>
    ensures { IfOk result (HoldsOnly (λ place host. waits_in place host entries.now)) }
{
    let mut index = ReadyIndex::new(alloc);
    for entry in entries {
        add_waiting(&mut index, entry)?;
    }
    Ok(index)
}

fn add_waiting(index: &mut ReadyIndex, entry: &Entry) -> Result<(), AllocError>
    ensures { OnOk result (AddsEntry entry.now index.old index.new) }
{
    match entry.place {
        Some(place) => {
            index.wait(entry.host, place)?;
            Ok(())
        }
        None => Ok(()),
    }
}

// The host begins, no job of which is out; where it stood is kept behind the others.
fn enter_one<P: Drop>(hosts: &mut Vec<HostState<P>>, entry: Entry, formers: &mut Vec<Former>)
    requires room { length formers.old.items < vec_capacity formers.old }
    ensures entered { (k : ℕ) → slice_get hosts.new.items k
        ≡ entered (found_one k entry) (slice_get hosts.old.items k) }
    ensures back { before_all formers.new.items hosts.new ≡ before_all formers.old.items hosts.old }
    ensures more { length formers.new.items ≤ length formers.old.items + 1 }
    ensures capacity { vec_capacity formers.new ≡ vec_capacity formers.old }
{
    let Entry {
        host,
        position,
        handlers,
        ..
    } = entry;
    if host >= hosts.len() {
        return;
    }
    let state = &mut hosts[host];
    let former = Former {
        host,
        position: mem::replace(&mut state.position, position),
        handlers: mem::replace(&mut state.handlers, handlers),
    };
    formers.push_reserved(former);
}

/// The hosts begin, each where its first entry says; where they stood is kept behind the others.
pub fn enter<P: Drop>(hosts: &mut Vec<HostState<P>>, entries: Vec<Entry>, formers: &mut Vec<Former>)
    requires room { length formers.old.items + length entries.items ≤ vec_capacity formers.old }
    ensures entered { (k : ℕ) → slice_get hosts.new.items k
        ≡ entered (found k entries.items) (slice_get hosts.old.items k) }
    ensures back { before_all formers.new.items hosts.new ≡ before_all formers.old.items hosts.old }
{
    let mut entries = entries;
    while let Some(entry) = entries.pop() {
        enter_one(hosts, entry, formers);
    }
}

fn restore_one<P: Drop>(hosts: &mut Vec<HostState<P>>, former: Former)
    ensures { hosts.new ≡ before_one former hosts.old }
{
    let Former {
        host,
        position,
        handlers,
    } = former;
    if host >= hosts.len() {
        return;
    }
    let state = &mut hosts[host];
    state.position = position;
    state.handlers = handlers;
}

/// The hosts stand where they stood, the last that began first.
pub fn restore<P: Drop>(hosts: &mut Vec<HostState<P>>, formers: Vec<Former>)
    ensures { hosts.new ≡ before_all formers.items hosts.old }
{
    let mut formers = formers;
    while let Some(former) = formers.pop() {
        restore_one(hosts, former);
    }
}
