// Whether what is written down is within the limits.
ghost use Rattle.std.specs.Prelude.{◌≡◌, map};
ghost use Rattle.std.specs.List.{list_all};
ghost use Rattle.pb_semantics.specs.Words.{field_value};
ghost use Rattle.pb_language.specs.Families.{group_names, host_order};
ghost use Rattle.pb_language.specs.Inventories.{are_variables_within, is_document_within};
ghost use Rattle.pb_language.specs.Inventories.{is_group_within, record_fields};
ghost use Rattle.pb_inventory.specs.Documents.{document_view, key_names, own_view, variables_view};
ghost use Rattle.pb_inventory.specs.Documents.{written_view};

use crate::document::{Document, Written};
use crate::group_layers::hostvars_of;
use crate::variables::are_variables_within;
use indexmap::IndexSet;
use pb_value::{Fields, Weighed};
use std::sync::Arc;

// The most hosts.
const MOST_HOSTS: usize = 1_024;

// The most groups, `all` and `ungrouped` among them.
const MOST_GROUPS: usize = 1_024;

// The most items of a list of hosts or of children.
const MOST_ITEMS: usize = 65_536;

pub(crate) fn is_document_within(
    document: &Document,
    hosts: &IndexSet<String>,
    names: &IndexSet<String>,
) -> bool
    requires hosts { key_names hosts.now.keys ≡ host_order (document_view document.now).groups }
    requires names { key_names names.now.keys ≡ group_names (document_view document.now).groups }
    ensures { result ≡ is_document_within (document_view document.now) }
{
    hosts.len() <= MOST_HOSTS
        && names.len() <= MOST_GROUPS
        && are_groups_within(document.groups.as_slice())
        && are_hostvars_within(hosts, &document.hostvars)
}

fn are_groups_within(groups: &[Written]) -> bool
    ensures { result ≡ list_all is_group_within (map written_view groups.now) }
{
    for group in groups {
        if !is_group_within(group) {
            return false;
        }
    }
    true
}

fn is_group_within(group: &Written) -> bool
    ensures { result ≡ is_group_within (written_view group.now) }
{
    group.hosts.len() <= MOST_ITEMS
        && group.children.len() <= MOST_ITEMS
        && are_written_within(&group.variables)
}

fn are_written_within(variables: &Option<Arc<Weighed<Fields>>>) -> bool
    ensures { result ≡ are_variables_within (variables_view variables.now) }
{
    match variables {
        None => true,
        Some(fields) => are_variables_within(fields),
    }
}

// Whether what is said of each of these hosts is within the limits.
fn are_hostvars_within(hosts: &IndexSet<String>, hostvars: &Option<Arc<Weighed<Fields>>>) -> bool
    ensures { result ≡ list_all (λ h. are_variables_within (record_fields
        (field_value h (variables_view hostvars.now)))) (key_names hosts.now.keys) }
{
    for name in hosts.as_slice() {
        if !are_own_within(hostvars_of(hostvars, name.as_str())) {
            return false;
        }
    }
    true
}

fn are_own_within(own: Option<&Fields>) -> bool
    ensures { result ≡ are_variables_within (own_view own.entry) }
{
    match own {
        None => true,
        Some(fields) => are_variables_within(fields),
    }
}
