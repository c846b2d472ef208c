// What is wrong with an inventory's groups and hosts, before they are put together.
ghost use Rattle.std.specs.Prelude.{◌≡◌, map};
ghost use Rattle.std.specs.List.{list_all, list_any};
ghost use Rattle.std.specs.Str.{bytes_eq};
ghost use Rattle.pb_semantics.specs.Words.{is_among};
ghost use Rattle.pb_language.specs.Written.{all_group, are_hostvars, is_empty, is_group_name};
ghost use Rattle.pb_language.specs.Written.{is_host_name, is_record, is_well_named};
ghost use Rattle.pb_language.specs.Written.{leaves_ungrouped};
ghost use Rattle.pb_value.specs.Words.{fields_view, view};
ghost use Rattle.pb_inventory.specs.Documents.{key_names, names_view, variables_view, written_view};

use crate::document::Written;
use crate::names::{is_group, is_host};
use crate::numbers::{ALL, UNGROUPED};
use indexmap::IndexSet;
use pb_value::{Fields, Value, Weighed};
use std::sync::Arc;

// Whether the children have names of groups, and `ungrouped` has its place.
pub(crate) fn are_well_named(groups: &[Written]) -> bool
    ensures { result ≡ list_all is_well_named (map written_view groups.now) }
{
    for group in groups {
        if !is_well_named(group) {
            return false;
        }
    }
    true
}

fn is_well_named(group: &Written) -> bool
    ensures { result ≡ is_well_named (written_view group.now) }
{
    are_group_names(group.children.as_slice()) && leaves_ungrouped(group)
}

fn are_group_names(names: &[Arc<String>]) -> bool
    ensures { result ≡ list_all is_group_name (names_view names.now) }
{
    for name in names {
        if !is_group(name.as_str()) {
            return false;
        }
    }
    true
}

// Whether `ungrouped` has no children, and is a child of no group but `all`.
fn leaves_ungrouped(group: &Written) -> bool
    ensures { result ≡ leaves_ungrouped (written_view group.now) }
{
    let children = group.children.as_slice();
    if is_named(group, UNGROUPED) {
        return children.is_empty();
    }
    is_named(group, ALL) || !has_name(children, UNGROUPED)
}

pub(crate) fn is_named(group: &Written, name: &str) -> bool
    ensures { result ≡ bytes_eq (written_view group.now).name name.now }
{
    group.name.as_str() == name
}

fn has_name(names: &[Arc<String>], name: &str) -> bool
    ensures { result ≡ is_among name.now (names_view names.now) }
{
    for known in names {
        if name == known.as_str() {
            return true;
        }
    }
    false
}

// Whether some group has the one of all hosts as a child.
pub(crate) fn has_all_below(groups: &[Written]) -> bool
    ensures { result ≡ list_any (λ w. is_among all_group w.children)
        (map written_view groups.now) }
{
    for group in groups {
        if has_name(group.children.as_slice(), ALL) {
            return true;
        }
    }
    false
}

pub(crate) fn are_host_names(hosts: &IndexSet<String>) -> bool
    ensures { result ≡ list_all is_host_name (key_names hosts.now.keys) }
{
    for name in hosts.as_slice() {
        if !is_host(name.as_str()) {
            return false;
        }
    }
    true
}

// Whether what is said of these hosts are records; what is said of others is passed over.
pub(crate) fn are_hostvars(
    hosts: &IndexSet<String>,
    hostvars: &Option<Arc<Weighed<Fields>>>,
) -> bool
    ensures { result ≡ are_hostvars (key_names hosts.now.keys) (variables_view hostvars.now) }
{
    match hostvars {
        None => true,
        Some(fields) => are_records(hosts, fields),
    }
}

fn are_records(hosts: &IndexSet<String>, fields: &Fields) -> bool
    ensures { result ≡ are_hostvars (key_names hosts.now.keys)
        (fields_view fields.now.entries) }
{
    for (name, value) in fields.iter() {
        if is_known(hosts, name.as_str()) && !is_record(value) {
            return false;
        }
    }
    true
}

fn is_known(hosts: &IndexSet<String>, name: &str) -> bool
    ensures { result ≡ is_among name.now (key_names hosts.now.keys) }
{
    hosts.contains(name)
}

fn is_record(value: &Value) -> bool
    ensures { result ≡ is_record (view value.now) }
{
    matches!(value, Value::Rec(_))
}
