// The members of all groups.
ghost use Rattle.std.specs.Prelude.{◌<◌, ◌≡◌, IfOk, ℕ, [], get_or, length, map};
ghost use Rattle.std.specs.List.{range_with_len};
ghost use Rattle.pb_language.specs.Families.{members};
ghost use Rattle.pb_inventory.specs.Documents.{key_names, written_view};
ghost use Rattle.pb_inventory.specs.Families.{AreBelow, lists_of};
ghost use Rattle.pb_inventory.specs.Graph.{IsOrder};
ghost use Rattle.pb_inventory.specs.Numbered.{AreNumbered, name_of, named};

use crate::document::Written;
use crate::family::members_of;
use crate::numbers::{ALL, Families, UNGROUPED, place_of};
use crate::ungrouped::ungrouped_hosts;
use indexmap::IndexSet;
use std::alloc::{AllocError, Global};

// The places of each group's hosts, by the groups' numbers.
pub(crate) fn group_members(
    alloc: Global,
    groups: &[Written],
    hosts: &IndexSet<String>,
    names: &IndexSet<String>,
    families: &Families,
    order: &[usize],
) -> Result<Vec<Vec<usize>>, AllocError>
    requires numbered { AreNumbered (map written_view groups.now)
        (key_names hosts.now.keys) (key_names names.now.keys)
        (lists_of families.now.own.items) (lists_of families.now.children.items) }
    requires order { IsOrder (lists_of families.now.children.items) order.now }
    ensures count { IfOk result (λ m. length m.items ≡ length names.now.keys) }
    ensures placed { IfOk result (λ m. AreBelow (length hosts.now.keys) m.items) }
    ensures members { IfOk result (λ m. (i : ℕ) → i < length names.now.keys
        → named (key_names hosts.now.keys) (get_or (lists_of m.items) i [])
        ≡ members (map written_view groups.now) (name_of (key_names names.now.keys) i)) }
{
    let own = families.own.as_slice();
    let children = families.children.as_slice();
    let mut members = members_of(alloc, own, children, order, hosts.len())?;
    let everywhere = place_of(names, ALL);
    members[everywhere] = all_places(alloc, hosts.len())?;
    let nowhere = place_of(names, UNGROUPED);
    members[nowhere] = ungrouped_hosts(alloc, groups, hosts)?;
    Ok(members)
}

// The places of so many hosts.
fn all_places(alloc: Global, hosts: usize) -> Result<Vec<usize>, AllocError>
    ensures { IfOk result (λ ps. ps.items ≡ range_with_len 0 hosts) }
{
    let mut places = Vec::with_capacity(alloc, hosts)?;
    for place in 0..hosts {
        places.push(place)?;
    }
    Ok(places)
}
