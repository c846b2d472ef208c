// A value without the fields that its kind doesn't name.
ghost use Rattle.std.specs.Prelude.{◌≡◌, IfOk, Some, option_map};
ghost use Rattle.pb_semantics.specs.Words.{list, projected, projected_fields, projected_items, rec};
ghost use Rattle.pb_kind.specs.KindView.{kind_view, slots_view};
ghost use Rattle.pb_value.specs.View.{fields_view, items_view, view};

use crate::below::has_name;
use crate::kind::{Kind, Slots};
use pb_value::value::{Fields, Value, field_of, put_field};
use std::alloc::{AllocError, Global};

/// The value without the fields, at every depth, that the kind doesn't name; none exactly where the
/// rest doesn't keep the kind. A result's kind has no projection.
pub fn project(alloc: Global, value: &Value, kind: &Kind) -> Result<Option<Value>, AllocError>
    ensures { IfOk result (λ o. option_map view o
        ≡ projected (view value.now) (kind_view kind.now)) }
{
    project_onto(alloc, kind, value)
}

// The kind goes first, since the recursion goes down it.
#[cycle(project)]
fn project_onto(alloc: Global, kind: &Kind, value: &Value) -> Result<Option<Value>, AllocError>
    ensures { IfOk result (λ o. option_map view o
        ≡ projected (view value.now) (kind_view kind.now)) }
{
    match (kind, value) {
        (Kind::Any, _)
        | (Kind::Null, Value::Null)
        | (Kind::Bool, Value::Bool(_))
        | (Kind::Int, Value::Int(_))
        | (Kind::Text, Value::Text(_)) => whole(value),
        (Kind::Host(names), Value::Text(text)) => {
            if has_name(names, text.as_str()) {
                whole(value)
            } else {
                Ok(None)
            }
        }
        (Kind::List(item, most), Value::List(items)) => {
            if items.len() > *most {
                return Ok(None);
            }
            let kept = project_each(alloc, item, items)?;
            list_of(alloc, kept)
        }
        (Kind::Rec(slots), Value::Rec(fields)) => {
            let kept = project_fields(alloc, slots, fields)?;
            record_of(alloc, kept)
        }
        _ => Ok(None),
    }
}

fn whole(value: &Value) -> Result<Option<Value>, AllocError>
    ensures { IfOk result (λ o. option_map view o ≡ Some (view value.now)) }
{
    Ok(Some(value.clone()?))
}

fn list_of(alloc: Global, kept: Option<Vec<Value>>) -> Result<Option<Value>, AllocError>
    ensures { IfOk result (λ o. option_map view o
        ≡ option_map list (option_map (λ v. items_view v.items) kept)) }
{
    match kept {
        Some(items) => Ok(Some(Value::of_items(alloc, items)?)),
        None => Ok(None),
    }
}

fn record_of(alloc: Global, kept: Option<Fields>) -> Result<Option<Value>, AllocError>
    ensures { IfOk result (λ o. option_map view o
        ≡ option_map rec (option_map (λ m. fields_view m.entries) kept)) }
{
    match kept {
        Some(fields) => Ok(Some(Value::of_fields(alloc, fields)?)),
        None => Ok(None),
    }
}

#[cycle(project)]
fn project_each(
    alloc: Global,
    kind: &Kind,
    items: &[Value],
) -> Result<Option<Vec<Value>>, AllocError>
    ensures { IfOk result (λ o. option_map (λ v. items_view v.items) o
        ≡ projected_items (λ d. projected d (kind_view kind.now)) (items_view items.now)) }
{
    let mut found = Vec::with_capacity(alloc, items.len())?;
    for item in items {
        match project_onto(alloc, kind, item)? {
            Some(item) => found.push(item)?,
            None => return Ok(None),
        }
    }
    Ok(Some(found))
}

#[cycle(project)]
fn project_fields(
    alloc: Global,
    slots: &Slots,
    fields: &Fields,
) -> Result<Option<Fields>, AllocError>
    ensures { IfOk result (λ o. option_map (λ m. fields_view m.entries) o
        ≡ projected_fields (fields_view fields.now.entries) (slots_view slots.now.entries)) }
{
    let mut found = Fields::new(alloc);
    for (name, slot) in slots.iter() {
        match field_of(fields, name.as_str()) {
            Some(value) => match project_onto(alloc, &slot.kind, value)? {
                Some(value) => put_field(&mut found, name.clone()?, value)?,
                None => return Ok(None),
            },
            None => {
                if slot.presence.is_always() {
                    return Ok(None);
                }
            }
        }
    }
    Ok(Some(found))
}
