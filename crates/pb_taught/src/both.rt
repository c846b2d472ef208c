// What two ways both teach of variables, where one of them was taken.
ghost use Rattle.std.specs.Prelude.{◌&&◌, ◌≡◌, IfOk, OnOk, string_bytes};
ghost use Rattle.pb_semantics.specs.Words.{join as join_of, put_slot as put_slot_of};
ghost use Rattle.pb_language.specs.Scope.{both_slots as both_taught, both_views as both_seen};
ghost use Rattle.pb_language.specs.Scope.{put_view, view_of};
ghost use Rattle.pb_kind.specs.Words.{is_always, kind_view, slots_view};
ghost use Rattle.pb_taught.specs.TaughtView.{views_view};

use indexmap::IndexMap;
use pb_kind::below::find;
use pb_kind::join::join;
use pb_kind::{Kind, Presence, Slot, Slots, copy_slots, put_slot};
use std::alloc::{AllocError, Global};
use std::collections::BTreeMap;

// Of the variables that both have, what both say; each is certain where both say so.
pub(crate) fn both_slots(alloc: Global, one: &Slots, other: &Slots) -> Result<Slots, AllocError>
    ensures { IfOk result (λ s. slots_view s.entries
        ≡ both_taught (slots_view one.now.entries) (slots_view other.now.entries)) }
{
    let mut all = BTreeMap::new(alloc);
    for (name, slot) in one.iter() {
        if let Some(found) = find(other, name.as_str()) {
            put_both(alloc, &mut all, name, slot, found)?;
        }
    }
    Ok(all)
}

// Puts what both slots say of the variable.
fn put_both(
    alloc: Global,
    slots: &mut Slots,
    name: &String,
    one: &Slot<Kind>,
    other: &Slot<Kind>,
) -> Result<(), AllocError>
    ensures { OnOk result (slots_view slots.new.entries ≡ put_slot_of (string_bytes name.now)
        (is_always one.now.presence && is_always other.now.presence)
        (join_of (kind_view one.now.kind) (kind_view other.now.kind))
        (slots_view slots.old.entries)) }
{
    let kind = join(alloc, &one.kind, &other.kind)?;
    let presence = both_presences(one.presence, other.presence);
    put_slot(slots, name.clone()?, Slot { presence, kind })
}

// Certain where both are.
pub(crate) fn both_presences(one: Presence, other: Presence) -> Presence
    ensures { is_always result ≡ (is_always one && is_always other) }
{
    if one.is_always() {
        other
    } else {
        Presence::Maybe
    }
}

// Of the hosts of the first, what both say of their variables.
pub(crate) fn both_views(
    alloc: Global,
    one: &IndexMap<String, Slots>,
    other: &IndexMap<String, Slots>,
) -> Result<IndexMap<String, Slots>, AllocError>
    ensures { IfOk result (λ v. views_view v.entries
        ≡ both_seen (views_view one.now.entries) (views_view other.now.entries)) }
{
    let mut all = IndexMap::new(alloc);
    for (host, slots) in one.iter() {
        let met = both_at(alloc, slots, other, host.as_str())?;
        put_slots(&mut all, host.clone()?, met)?;
    }
    Ok(all)
}

// What the slots and those that were taught of the host both say.
fn both_at(
    alloc: Global,
    slots: &Slots,
    views: &IndexMap<String, Slots>,
    host: &str,
) -> Result<Slots, AllocError>
    ensures { IfOk result (λ s. slots_view s.entries ≡ both_taught
        (slots_view slots.now.entries) (view_of host.now (views_view views.now.entries))) }
{
    match views.get(host) {
        Some(others) => both_slots(alloc, slots, others),
        None => Ok(BTreeMap::new(alloc)),
    }
}

// Puts the slots in place of what was there of the host.
pub(crate) fn put_slots(
    views: &mut IndexMap<String, Slots>,
    host: String,
    slots: Slots,
) -> Result<(), AllocError>
    ensures { OnOk result (views_view views.new.entries ≡ put_view (string_bytes host)
        (slots_view slots.entries) (views_view views.old.entries)) }
{
    drop(views.insert(host, slots)?);
    Ok(())
}

// A copy that shares what lies inside.
pub(crate) fn views_copied(
    alloc: Global,
    views: &IndexMap<String, Slots>,
) -> Result<IndexMap<String, Slots>, AllocError>
    ensures { IfOk result (λ v. views_view v.entries ≡ views_view views.now.entries) }
{
    let mut all = IndexMap::new(alloc);
    for (host, slots) in views.iter() {
        let copy = copy_slots(slots)?;
        put_slots(&mut all, host.clone()?, copy)?;
    }
    Ok(all)
}
