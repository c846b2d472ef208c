// The variables that groups and hosts give.
ghost use Rattle.std.specs.Prelude.{◌<◌, ◌≡◌, IfOk, Some, ℕ, get_or, length, map, replicate, true};
ghost use Rattle.pb_semantics.specs.Data.{Fields as DataFields};
ghost use Rattle.pb_semantics.specs.Words.{field_value, no_fields};
ghost use Rattle.pb_language.specs.Families.{group_names, own_variables};
ghost use Rattle.pb_language.specs.Inventories.{overlaid, record_fields};
ghost use Rattle.pb_value.specs.Words.{fields_view, view};
ghost use Rattle.pb_inventory.specs.Documents.{key_names, own_view, variables_view, written_view};
ghost use Rattle.pb_inventory.specs.HostGroups.{layer_views};
ghost use Rattle.pb_inventory.specs.Numbered.{are_apart, name_of, written_names};
ghost use Rattle.pb_inventory.specs.Views.{laid};

use crate::document::Written;
use crate::numbers::place_of;
use crate::variables::layer_of;
use indexmap::IndexSet;
use pb_value::{Fields, Value, Weighed, field_of};
use std::alloc::{AllocError, Global};
use std::sync::Arc;

// The layer of variables that each group gives, by the groups' numbers.
pub(crate) fn group_layers(
    alloc: Global,
    groups: &[Written],
    names: &IndexSet<String>,
) -> Result<Vec<Arc<Fields>>, AllocError>
    requires names { key_names names.now.keys ≡ group_names (map written_view groups.now) }
    requires apart { are_apart (written_names (map written_view groups.now)) ≡ true }
    ensures count { IfOk result (λ ls. length ls.items ≡ length names.now.keys) }
    ensures layers { IfOk result (λ ls. (i : ℕ) → i < length names.now.keys → (vs : DataFields)
        → laid vs (get_or (layer_views ls.items) i no_fields)
        ≡ overlaid vs (own_variables (name_of (key_names names.now.keys) i)
        (map written_view groups.now))) }
{
    let mut layers = empty_layers(alloc, names.len())?;
    for group in groups {
        let number = place_of(names, group.name.as_str());
        layers[number] = layer_in(alloc, &group.variables)?;
    }
    Ok(layers)
}

fn empty_layers(alloc: Global, count: usize) -> Result<Vec<Arc<Fields>>, AllocError>
    ensures { IfOk result (λ ls. layer_views ls.items ≡ replicate count no_fields) }
{
    let empty = Arc::new(alloc, Fields::new(alloc))?;
    let mut layers = Vec::with_capacity(alloc, count)?;
    for _ in 0..count {
        layers.push(empty.clone()?)?;
    }
    Ok(layers)
}

// The layer of variables that are written down.
fn layer_in(
    alloc: Global,
    variables: &Option<Arc<Weighed<Fields>>>,
) -> Result<Arc<Fields>, AllocError>
    ensures { IfOk result (λ layer. (vs : DataFields)
        → laid vs (fields_view layer.value.entries) ≡ overlaid vs (variables_view variables.now)) }
{
    match variables {
        None => Ok(Arc::new(alloc, Fields::new(alloc))?),
        Some(fields) => Ok(Arc::new(alloc, layer_of(alloc, fields)?)?),
    }
}

// What is said of the host of that name.
pub(crate) fn hostvars_of<'d>(
    hostvars: &'d Option<Arc<Weighed<Fields>>>,
    name: &str,
) -> Option<&'d Fields>
    ensures { own_view result ≡ record_fields (field_value name.now (variables_view hostvars.now)) }
{
    match hostvars {
        None => None,
        Some(fields) => record_at(fields, name),
    }
}

// The record at that name.
fn record_at<'f>(fields: &'f Fields, name: &str) -> Option<&'f Fields>
    ensures { own_view result
        ≡ record_fields (field_value name.now (fields_view fields.now.entries)) }
{
    match field_of(fields, name) {
        Some(value) => record_of(value),
        None => None,
    }
}

fn record_of(value: &Value) -> Option<&Fields>
    ensures { own_view result ≡ record_fields (Some (view value.now)) }
{
    match value {
        Value::Rec(fields) => Some(fields),
        _ => None,
    }
}
