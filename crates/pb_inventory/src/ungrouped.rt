// The hosts that stand in no group of their own.
ghost use Rattle.std.specs.Prelude.{◌<◌, ◌≡◌, ◌||◌, IfOk, ℕ, false, get_or, length, map, true};
ghost use Rattle.std.specs.List.{All, list_all};
ghost use Rattle.pb_semantics.specs.Words.{is_among};
ghost use Rattle.pb_language.specs.Families.{host_order, is_grouped, is_grouping, members};
ghost use Rattle.pb_language.specs.Written.{ungrouped_group};
ghost use Rattle.pb_inventory.specs.Documents.{key_names, names_view, written_view};
ghost use Rattle.pb_inventory.specs.Numbered.{are_apart, name_of, named};

use crate::document::Written;
use crate::form::is_named;
use crate::numbers::{ALL, UNGROUPED, place_of};
use indexmap::IndexSet;
use std::alloc::{AllocError, Global};
use std::sync::Arc;

// The places of the hosts that no group lists but `all` and `ungrouped`.
pub(crate) fn ungrouped_hosts(
    alloc: Global,
    groups: &[Written],
    hosts: &IndexSet<String>,
) -> Result<Vec<usize>, AllocError>
    requires hosts { key_names hosts.now.keys ≡ host_order (map written_view groups.now) }
    ensures within { IfOk result (λ ps. All (λ p. p < length hosts.now.keys) ps.items) }
    ensures named { IfOk result (λ ps. named (key_names hosts.now.keys) ps.items
        ≡ members (map written_view groups.now) ungrouped_group) }
{
    let grouped = grouped_hosts(alloc, groups, hosts)?;
    let mut places = Vec::new(alloc);
    for place in 0..grouped.len() {
        if grouped[place] {
            continue;
        }
        places.push(place)?;
    }
    Ok(places)
}

// Of each host, whether some group lists it but `all` and `ungrouped`.
fn grouped_hosts(
    alloc: Global,
    groups: &[Written],
    hosts: &IndexSet<String>,
) -> Result<Vec<bool>, AllocError>
    requires hosts { key_names hosts.now.keys ≡ host_order (map written_view groups.now) }
    ensures count { IfOk result (λ fs. length fs.items ≡ length hosts.now.keys) }
    ensures grouped { IfOk result (λ fs. (i : ℕ) → i < length hosts.now.keys
        → get_or fs.items i false
        ≡ is_grouped (map written_view groups.now) (name_of (key_names hosts.now.keys) i)) }
{
    let mut grouped = vec![in alloc; false; hosts.len()]?;
    for group in groups {
        if !is_grouping(group) {
            continue;
        }
        mark(grouped.as_mut_slice(), hosts, group.hosts.as_slice());
    }
    Ok(grouped)
}

fn is_grouping(group: &Written) -> bool
    ensures { result ≡ is_grouping (written_view group.now) }
{
    !(is_named(group, ALL) || is_named(group, UNGROUPED))
}

// Marks the hosts of these names.
fn mark(marks: &mut [bool], hosts: &IndexSet<String>, names: &[Arc<String>])
    requires count { length marks.old ≡ length hosts.now.keys }
    requires apart { are_apart (key_names hosts.now.keys) ≡ true }
    requires known { list_all (λ n. is_among n (key_names hosts.now.keys)) (names_view names.now)
        ≡ true }
    ensures { (i : ℕ) → i < length hosts.now.keys → get_or marks.new i false
        ≡ get_or marks.old i false
        || is_among (name_of (key_names hosts.now.keys) i) (names_view names.now) }
{
    for name in names {
        marks[place_of(hosts, name.as_str())] = true;
    }
}
