// Kinds of names of hosts, and of lists of them.
ghost use Rattle.std.specs.Prelude.{◌≡◌, ◌<◌, ◌∷◌, [], IfOk, OnOk, Some, length, option_map};
ghost use Rattle.std.specs.Prelude.{slice_get, true};
ghost use Rattle.std.specs.List.{All};
ghost use Rattle.pb_semantics.specs.Words.{hosts, lists, put_slot, recs, texts};
ghost use Rattle.pb_language.specs.Setting.{group_slots, host_list};
ghost use Rattle.pb_inventory.specs.Words.{inventory_view, names_at};
ghost use Rattle.pb_kind.specs.Words.{kind_view, slots_view};
ghost use Rattle.pb_hosts.specs.Tables.{host_names};

use pb_inventory::Inventory;
use pb_kind::{Kind, Slot, Slots, put_slot};
use std::alloc::{AllocError, Global};
use std::collections::BTreeSet;
use std::sync::Arc;

// A text that is just that name.
pub(crate) fn one_host(alloc: Global, name: &str) -> Result<Kind, AllocError>
    ensures { IfOk result (λ k. kind_view k ≡ hosts (name.now ∷ [])) }
{
    let mut names = BTreeSet::new(alloc);
    names.insert(String::from_str(alloc, name)?)?;
    Ok(Kind::Host(Arc::new(alloc, names)?))
}

// A list of those hosts.
pub(crate) fn hosts_list(
    alloc: Global,
    inventory: &Inventory,
    places: &[usize],
) -> Result<Kind, AllocError>
    requires placed { All (λ p. p < length (inventory_view inventory.now).hosts) places.now }
    ensures { IfOk result (λ k. kind_view k
        ≡ host_list (names_at (host_names (inventory_view inventory.now)) places.now)) }
{
    let mut names = BTreeSet::new(alloc);
    for place in places {
        names.insert(String::from_str(alloc, inventory.host_name(*place))?)?;
    }
    Kind::of_item(alloc, Kind::Host(Arc::new(alloc, names)?), places.len())
}

// The record of all groups, each a list of its hosts.
pub(crate) fn groups_record(alloc: Global, inventory: &Inventory) -> Result<Kind, AllocError>
    ensures { IfOk result (λ k. kind_view k
        ≡ recs (group_slots (inventory_view inventory.now).groups)) }
{
    let mut slots = Slots::new(alloc);
    // from the last to the first: of two groups of one name the first would count
    for group in (0..inventory.groups().len()).rev() {
        put_group(alloc, inventory, group, &mut slots)?;
    }
    Kind::of_slots(alloc, slots)
}

// Puts the group at that place.
fn put_group(
    alloc: Global,
    inventory: &Inventory,
    group: usize,
    slots: &mut Slots,
) -> Result<(), AllocError>
    requires { group < length (inventory_view inventory.now).groups }
    ensures { OnOk result (option_map
        (λ g. put_slot g.name true (host_list g.hosts) (slots_view slots.old.entries))
        (slice_get (inventory_view inventory.now).groups group)
        ≡ Some (slots_view slots.new.entries)) }
{
    match inventory.groups().get_index(group) {
        Some((name, places)) => {
            let kind = hosts_list(alloc, inventory, places)?;
            put_slot(slots, name.clone()?, Slot::always(kind))
        }
        None => unreachable!(),
    }
}

// A list of so many texts.
pub(crate) fn texts_list(alloc: Global, count: usize) -> Result<Kind, AllocError>
    ensures { IfOk result (λ k. kind_view k ≡ lists texts count) }
{
    Kind::of_item(alloc, Kind::Text, count)
}
