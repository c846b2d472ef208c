// The inventory that is written down, put together, or why it is refused.
ghost use Rattle.std.specs.Prelude.{◌≡◌, IfOk, IfSome, MatchOption, Ok, false, length, map, true};
ghost use Rattle.std.specs.List.{list_any};
ghost use Rattle.pb_semantics.specs.Words.{Gives, is_among};
ghost use Rattle.pb_language.specs.Families.{has_cycle, host_order};
ghost use Rattle.pb_language.specs.Inventories.{inventory_of as inventory_meant, judged_document};
ghost use Rattle.pb_language.specs.Written.{all_group, is_well_formed};
ghost use Rattle.pb_inventory.specs.Documents.{document_view, key_names, written_view};
ghost use Rattle.pb_inventory.specs.Families.{AreBelow, lists_of};
ghost use Rattle.pb_inventory.specs.Graph.{IsOrder};
ghost use Rattle.pb_inventory.specs.Inventory.{inventory_view};
ghost use Rattle.pb_inventory.specs.Numbered.{AreNumbered, are_apart, written_names};
ghost use Rattle.pb_inventory.specs.Offences.{of_file, offence_of};
ghost use Rattle.pb_inventory.specs.Tables.{HaveMembers};
ghost use Rattle.pb_inventory.specs.Views.{are_placed};

use crate::assembly::{known_hosts, table_of};
use crate::document::{Document, Written};
use crate::family::depths_of;
use crate::fault::InventoryFault;
use crate::form::{are_host_names, are_hostvars, are_well_named, has_all_below};
use crate::graph::parents_first;
use crate::group_layers::group_layers;
use crate::hosts::host_order;
use crate::inventory::Inventory;
use crate::limits::is_document_within;
use crate::numbers::{ALL, Families, group_names, numbered, place_of};
use crate::placing::group_members;
use indexmap::{IndexMap, IndexSet};
use std::alloc::{AllocError, Global};

// The inventory that the document is.
pub(crate) fn inventory_of(alloc: Global, document: &Document) -> Result<Inventory, InventoryFault>
    requires { are_apart (written_names (document_view document.now).groups) ≡ true }
    ensures { Gives (λ i. Ok (inventory_view i)) offence_of result
        (of_file (judged_document (document_view document.now))) }
{
    let groups = document.groups.as_slice();
    let hosts = host_order(alloc, groups)?;
    if !is_well_formed(document, &hosts) {
        return Err(InventoryFault::Form);
    }
    if !are_host_names(&hosts) {
        return Err(InventoryFault::HostName);
    }
    let names = group_names(alloc, groups)?;
    let families = numbered(alloc, groups, &hosts, &names)?;
    let Some(order) = order_of(alloc, groups, &hosts, &names, &families)? else {
        return Err(InventoryFault::Cycle);
    };
    if !is_document_within(document, &hosts, &names) {
        return Err(InventoryFault::Limit);
    }
    Ok(put_together(alloc, document, &hosts, &names, &families, order.as_slice())?)
}

fn is_well_formed(document: &Document, hosts: &IndexSet<String>) -> bool
    requires { key_names hosts.now.keys ≡ host_order (document_view document.now).groups }
    ensures { result ≡ is_well_formed (document_view document.now) }
{
    are_well_named(document.groups.as_slice()) && are_hostvars(hosts, &document.hostvars)
}

// The groups in an order, parents first, or none where there is a cycle.
fn order_of(
    alloc: Global,
    groups: &[Written],
    hosts: &IndexSet<String>,
    names: &IndexSet<String>,
    families: &Families,
) -> Result<Option<Vec<usize>>, AllocError>
    requires { AreNumbered (map written_view groups.now)
        (key_names hosts.now.keys) (key_names names.now.keys)
        (lists_of families.now.own.items) (lists_of families.now.children.items) }
    ensures cycle { IfOk result (λ o. MatchOption o
        (has_cycle (map written_view groups.now) ≡ true)
        (λ order. has_cycle (map written_view groups.now) ≡ false)) }
    ensures order { IfOk result (λ o. IfSome o
        (λ order. IsOrder (lists_of families.now.children.items) order.items)) }
    ensures root { IfOk result (λ o. IfSome o
        (λ order. list_any (λ w. is_among all_group w.children) (map written_view groups.now)
        ≡ false)) }
{
    if has_all_below(groups) {
        return Ok(None);
    }
    parents_first(alloc, families.children.as_slice())
}

// The inventory of groups that stand in that order.
fn put_together(
    alloc: Global,
    document: &Document,
    hosts: &IndexSet<String>,
    names: &IndexSet<String>,
    families: &Families,
    order: &[usize],
) -> Result<Inventory, AllocError>
    requires numbered { AreNumbered (document_view document.now).groups
        (key_names hosts.now.keys) (key_names names.now.keys)
        (lists_of families.now.own.items) (lists_of families.now.children.items) }
    requires order { IsOrder (lists_of families.now.children.items) order.now }
    requires root { list_any (λ w. is_among all_group w.children)
        (document_view document.now).groups ≡ false }
    ensures { IfOk result (λ i. inventory_view i ≡ inventory_meant (document_view document.now)) }
{
    let groups = document.groups.as_slice();
    let members = group_members(alloc, groups, hosts, names, families, order)?;
    let root = place_of(names, ALL);
    let depths = depths_of(alloc, families.children.as_slice(), order, root)?;
    let layers = group_layers(alloc, groups, names)?;
    let given = members.as_slice();
    let table = table_of(alloc, names, layers, given, depths.as_slice(), hosts.len())?;
    let (known, bases) = known_hosts(alloc, document, hosts, &table)?;
    let placed = placed_groups(alloc, names, hosts, members)?;
    Ok(Inventory::of_parts(known, placed, bases))
}

// The members of each group by its name.
fn placed_groups(
    alloc: Global,
    names: &IndexSet<String>,
    hosts: &IndexSet<String>,
    members: Vec<Vec<usize>>,
) -> Result<IndexMap<String, Vec<usize>>, AllocError>
    requires apart { are_apart (key_names names.now.keys) ≡ true }
    requires count { length members.items ≡ length names.now.keys }
    requires placed { AreBelow (length hosts.now.keys) members.items }
    ensures placed { IfOk result
        (λ gs. are_placed (length hosts.now.keys) gs.entries ≡ true) }
    ensures groups { IfOk result (λ gs. HaveMembers (key_names names.now.keys)
        (lists_of members.items) gs.entries) }
{
    let mut groups = IndexMap::with_capacity(alloc, members.len())?;
    let names = names.as_slice();
    for list in members {
        let name = names[groups.len()].clone()?;
        drop(groups.insert(name, list)?);
    }
    Ok(groups)
}
