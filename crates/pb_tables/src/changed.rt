// The variables that a round changes of what hosts see of each other.
ghost use Rattle.std.specs.Prelude.{◌≡◌, IfOk, OnOk, false, true};
ghost use Rattle.pb_semantics.specs.Words.{is_among, is_listed, slot_at, spot};
ghost use Rattle.pb_language.specs.Words.{Name};
ghost use Rattle.pb_kind.specs.Words.{is_always as is_certain, kind_view, slots_view, spot_view};
ghost use Rattle.pb_others.specs.Words.{DifferIn};
ghost use Rattle.pb_rules.specs.Words.{names_in};
ghost use Rattle.pb_hosts.specs.Words.{views_view};

use pb_hosts::Views;
use pb_kind::below::{find, has_field};
use pb_kind::same::is_same;
use pb_kind::{Kind, Slot, Slots};
use pb_rules::add_name;
use std::alloc::{AllocError, Global};
use std::collections::BTreeSet;

// The names of the variables of which two tables of the same hosts don't say the same of some host.
pub(crate) fn changed_names<'v>(
    alloc: Global,
    before: &'v Views<'_>,
    after: &'v Views<'_>,
) -> Result<BTreeSet<&'v str>, AllocError>
    requires { after.now.inventory ≡ before.now.inventory }
    ensures { IfOk result (λ s. DifferIn (names_in s)
        (views_view before.entry.now) (views_view after.entry.now)) }
{
    let mut names = BTreeSet::new(alloc);
    for host in 0..before.inventory.hosts() {
        add_changed(before.slots(host), after.slots(host), &mut names)?;
    }
    Ok(names)
}

// Adds the names of which the two don't say the same.
fn add_changed<'v>(
    before: &'v Slots,
    after: &'v Slots,
    names: &mut BTreeSet<&'v str>,
) -> Result<(), AllocError>
    ensures kept { OnOk result ((x : Name) → is_among x (names_in names.old) ≡ true
        → is_among x (names_in names.new) ≡ true) }
    ensures told { OnOk result ((x : Name) → is_among x (names_in names.new) ≡ false
        → slot_at x (slots_view before.now.entries) ≡ slot_at x (slots_view after.now.entries)) }
{
    add_unlike(before, after, names)?;
    add_gone(before, after, names)?;
    Ok(())
}

// Adds the names of the second of which the first doesn't say the same.
fn add_unlike<'v>(
    before: &Slots,
    after: &'v Slots,
    names: &mut BTreeSet<&'v str>,
) -> Result<(), AllocError>
    ensures kept { OnOk result ((x : Name) → is_among x (names_in names.old) ≡ true
        → is_among x (names_in names.new) ≡ true) }
    ensures told { OnOk result ((x : Name) → is_among x (names_in names.new) ≡ false
        → is_listed x (slots_view after.now.entries) ≡ true
        → slot_at x (slots_view before.now.entries) ≡ slot_at x (slots_view after.now.entries)) }
{
    for (name, slot) in after.iter() {
        if says_same(find(before, name.as_str()), slot) {
            continue;
        }
        add_name(names, name.as_str())?;
    }
    Ok(())
}

// Adds the names of the first that the second doesn't have.
fn add_gone<'v>(
    before: &'v Slots,
    after: &Slots,
    names: &mut BTreeSet<&'v str>,
) -> Result<(), AllocError>
    ensures kept { OnOk result ((x : Name) → is_among x (names_in names.old) ≡ true
        → is_among x (names_in names.new) ≡ true) }
    ensures told { OnOk result ((x : Name) → is_among x (names_in names.new) ≡ false
        → is_listed x (slots_view before.now.entries) ≡ true
        → is_listed x (slots_view after.now.entries) ≡ true) }
{
    for (name, _) in before.iter() {
        if has_field(after, name.as_str()) {
            continue;
        }
        add_name(names, name.as_str())?;
    }
    Ok(())
}

// Where it holds, what is found says the same as the slot; it isn't asked of results.
fn says_same(found: Option<&Slot<Kind>>, slot: &Slot<Kind>) -> bool
    ensures { result ≡ true → spot_view found.entry
        ≡ spot (is_certain slot.now.presence) (kind_view slot.now.kind) }
{
    match found {
        Some(other) => {
            other.presence.is_always() == slot.presence.is_always()
                && is_same(&other.kind, &slot.kind)
        }
        None => false,
    }
}
