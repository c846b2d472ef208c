// What is known, and taught, of variables of other hosts.
ghost use Rattle.std.specs.Prelude.{◌≡◌, IfOk, OnOk, cond, string_bytes, true};
ghost use Rattle.pb_semantics.specs.Join.{join_spot};
ghost use Rattle.pb_semantics.specs.Words.{never, no_slots, slot_at, spot};
ghost use Rattle.pb_language.specs.Scope.{each_spot, has_view, host_spot, put_view, sure};
ghost use Rattle.pb_language.specs.Scope.{view_of, view_spot, with_slot};
ghost use Rattle.pb_kind.specs.Words.{is_always, kind_view, slot_given, slots_view, spot_view};
ghost use Rattle.pb_syntax.specs.ExprView.{names_of};
ghost use Rattle.pb_taught.specs.Joined.{spots_onto};
ghost use Rattle.pb_taught.specs.TaughtView.{scope_view, views_view};

use crate::both::{both_presences, put_slots};
use crate::known::Known;
use crate::scope::{Taught, has_name};
use indexmap::IndexMap;
use pb_kind::below::find;
use pb_kind::join::join;
use pb_kind::{Kind, Slot, Slots};
use std::alloc::{AllocError, Global};
use std::collections::{BTreeMap, BTreeSet};

/// What is known of a variable of the host of that name, with what tests taught of it; the flag
/// says that the host is known to be active.
///
/// # Errors
///
/// Want of memory.
pub fn host_slot<K: Known>(
    known: &K,
    taught: &Taught,
    is_active: bool,
    name: &str,
    host: &str,
) -> Result<Option<Slot<Kind>>, AllocError>
    ensures { IfOk result (λ s. slot_given s
        ≡ host_spot (scope_view (K.before known.now) taught.now) is_active name.now host.now) }
{
    let found = view_slot(known, taught, name, host);
    if (is_active || has_name(&taught.active, host)) && known.lasts(host, name) {
        certain(found)
    } else {
        copied(found)
    }
}

// What is known of a variable of the host of that name, whether it is active or not.
fn view_slot<'s, K: Known>(
    known: &'s K,
    taught: &'s Taught,
    name: &str,
    host: &str,
) -> Option<&'s Slot<Kind>>
    ensures { spot_view result
        ≡ view_spot (scope_view (K.before known.now) taught.now) name.now host.now }
{
    match taught_slot(&taught.views, name, host) {
        Some(slot) => Some(slot),
        None => known.other(host, name),
    }
}

fn taught_slot<'s>(
    views: &'s IndexMap<String, Slots>,
    name: &str,
    host: &str,
) -> Option<&'s Slot<Kind>>
    ensures { spot_view result
        ≡ slot_at name.now (view_of host.now (views_view views.now.entries)) }
{
    match views.get(host) {
        Some(slots) => find(slots, name),
        None => None,
    }
}

// A variable that is there: of one that isn't known, nothing is known but that.
fn certain(slot: Option<&Slot<Kind>>) -> Result<Option<Slot<Kind>>, AllocError>
    ensures { IfOk result (λ s. slot_given s ≡ sure (spot_view slot.entry)) }
{
    let kind = match slot {
        Some(slot) => slot.kind.clone()?,
        None => Kind::Never,
    };
    Ok(Some(Slot::always(kind)))
}

/// A copy that shares what lies inside.
///
/// # Errors
///
/// Want of memory.
pub fn copied(slot: Option<&Slot<Kind>>) -> Result<Option<Slot<Kind>>, AllocError>
    ensures { IfOk result (λ s. slot_given s ≡ spot_view slot.entry) }
{
    match slot {
        Some(slot) => Ok(Some(slot_copied(slot)?)),
        None => Ok(None),
    }
}

/// What is known of a variable of whichever of these hosts is meant; the flag says that each is
/// known to be active.
///
/// # Errors
///
/// Want of memory.
pub fn each_slot<K: Known>(
    alloc: Global,
    known: &K,
    taught: &Taught,
    is_active: bool,
    name: &str,
    hosts: &BTreeSet<String>,
) -> Result<Option<Slot<Kind>>, AllocError>
    ensures { IfOk result (λ s. slot_given s
        ≡ each_spot (scope_view (K.before known.now) taught.now) is_active name.now
        (names_of hosts.now.keys)) }
{
    let mut slots = Vec::new(alloc);
    for host in hosts.iter() {
        slots.push(host_slot(known, taught, is_active, name, host.as_str())?)?;
    }
    joined_slots(alloc, &slots)
}

// What is known of a variable of which one of these is meant.
fn joined_slots(
    alloc: Global,
    slots: &[Option<Slot<Kind>>],
) -> Result<Option<Slot<Kind>>, AllocError>
    ensures { IfOk result (λ s. slot_given s ≡ spots_onto slots.now (spot true never)) }
{
    let mut joined = Some(Slot::always(Kind::Never));
    for index in (0..slots.len()).rev() {
        joined = joined_slot(alloc, &slots[index], joined)?;
    }
    Ok(joined)
}

fn joined_slot(
    alloc: Global,
    one: &Option<Slot<Kind>>,
    other: Option<Slot<Kind>>,
) -> Result<Option<Slot<Kind>>, AllocError>
    ensures { IfOk result (λ s. slot_given s ≡ join_spot (slot_given one.now) (slot_given other)) }
{
    match (one, other) {
        (None, None) => Ok(None),
        (None, Some(other)) => Ok(Some(Slot::maybe(other.kind))),
        (Some(one), None) => Ok(Some(Slot::maybe(one.kind.clone()?))),
        (Some(one), Some(other)) => {
            let kind = join(alloc, &one.kind, &other.kind)?;
            let presence = both_presences(one.presence, other.presence);
            Ok(Some(Slot { presence, kind }))
        }
    }
}

/// What is taught of a variable of the host of that name, in place of what was taught of it before;
/// nothing is where there is no such host.
///
/// # Errors
///
/// Want of memory.
pub fn teach_host<K: Known>(
    alloc: Global,
    known: &K,
    taught: Taught,
    host: &str,
    name: &str,
    slot: Slot<Kind>,
) -> Result<Taught, AllocError>
    ensures { let c = scope_view (K.before known.now) taught in
        IfOk result (λ t. scope_view (K.before known.now) t ≡ cond (has_view host.now c.table)
        (record c {
          views = put_view host.now (with_slot name.now (is_always slot.presence)
              (kind_view slot.kind) (view_of host.now c.views)) c.views;
        }) c) }
{
    if !known.has_host(host) {
        return Ok(taught);
    }
    let mut taught = taught;
    teach_view(alloc, &mut taught.views, host, name, slot)?;
    Ok(taught)
}

// Puts the slot in place of what was taught of the host's variable.
fn teach_view(
    alloc: Global,
    views: &mut IndexMap<String, Slots>,
    host: &str,
    name: &str,
    slot: Slot<Kind>,
) -> Result<(), AllocError>
    ensures { let vs = views_view views.old.entries in
        OnOk result (views_view views.new.entries ≡ put_view host.now (with_slot name.now
        (is_always slot.presence) (kind_view slot.kind) (view_of host.now vs)) vs) }
{
    let key = String::from_str(alloc, host)?;
    let mut slots = take_slots(alloc, views, key.clone()?)?;
    place_slot(alloc, &mut slots, name, slot)?;
    put_slots(views, key, slots)
}

// Takes what was taught of the host's variables, and leaves none there.
fn take_slots(
    alloc: Global,
    views: &mut IndexMap<String, Slots>,
    host: String,
) -> Result<Slots, AllocError>
    ensures taken { IfOk result (λ s. slots_view s.entries
        ≡ view_of (string_bytes host) (views_view views.old.entries)) }
    ensures left { OnOk result (views_view views.new.entries
        ≡ put_view (string_bytes host) no_slots (views_view views.old.entries)) }
{
    match views.insert(host, BTreeMap::new(alloc))? {
        Some(slots) => Ok(slots),
        None => Ok(BTreeMap::new(alloc)),
    }
}

/// Puts the slot in place of any other of its name.
///
/// # Errors
///
/// Want of memory.
pub fn place_slot(
    alloc: Global,
    slots: &mut Slots,
    name: &str,
    slot: Slot<Kind>,
) -> Result<(), AllocError>
    ensures { OnOk result (slots_view slots.new.entries ≡ with_slot name.now
        (is_always slot.presence) (kind_view slot.kind) (slots_view slots.old.entries)) }
{
    let name = String::from_str(alloc, name)?;
    drop(slots.insert(name, slot)?);
    Ok(())
}

// A copy of a slot that shares what lies inside.
fn slot_copied(slot: &Slot<Kind>) -> Result<Slot<Kind>, AllocError>
    ensures presence { IfOk result (λ s. s.presence ≡ slot.now.presence) }
    ensures kind { IfOk result (λ s. kind_view s.kind ≡ kind_view slot.now.kind) }
{
    Ok(Slot {
        presence: slot.presence,
        kind: slot.kind.clone()?,
    })
}
