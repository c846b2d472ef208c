// Which values a kind has.
ghost use Rattle.std.specs.Prelude.{◌≡◌};
ghost use Rattle.pb_semantics.specs.Words.{all_items, all_listed, cases_kept, field_value, flag_is};
ghost use Rattle.pb_semantics.specs.Words.{has_status, keeps as is_kept, rec, slots_kept};
ghost use Rattle.pb_kind.specs.KindView.{cases_view, kind_view, shape_view, slots_view};
ghost use Rattle.pb_value.specs.View.{fields_view, items_view, view};

use crate::below::{has_field, has_name};
use crate::kind::{Case, Kind, Shape, Slots};
use pb_value::value::{Fields, Value, field_of};

/// Whether the value is one of the kind.
pub fn keeps(value: &Value, kind: &Kind) -> bool
    ensures { result ≡ is_kept (view value.now) (kind_view kind.now) }
{
    has(kind, value)
}

// The kind goes first, since the recursion goes down it.
#[cycle(has)]
fn has(kind: &Kind, value: &Value) -> bool
    ensures { result ≡ is_kept (view value.now) (kind_view kind.now) }
{
    match (kind, value) {
        (Kind::Any, _) => true,
        (Kind::Null, Value::Null) => true,
        (Kind::Bool, Value::Bool(_)) => true,
        (Kind::Int, Value::Int(_)) => true,
        (Kind::Text, Value::Text(_)) => true,
        (Kind::Host(names), Value::Text(text)) => has_name(names, text.as_str()),
        (Kind::List(item, most), Value::List(items)) => {
            items.len() <= *most && has_each(item, items)
        }
        (Kind::Rec(slots), Value::Rec(fields)) => {
            has_fields(slots, fields) && are_listed(fields, slots)
        }
        (Kind::Result(cases, _), Value::Rec(fields)) => has_case(cases, value, fields),
        _ => false,
    }
}

#[cycle(has)]
fn has_each(kind: &Kind, items: &[Value]) -> bool
    ensures { result ≡ all_items (λ d. is_kept d (kind_view kind.now))
        (items_view items.now) }
{
    for item in items {
        if !has(kind, item) {
            return false;
        }
    }
    true
}

#[cycle(has)]
fn has_fields(slots: &Slots, fields: &Fields) -> bool
    ensures { result ≡ slots_kept (fields_view fields.now.entries) (slots_view slots.now.entries) }
{
    for (name, slot) in slots.iter() {
        if let Some(value) = field_of(fields, name.as_str()) {
            if !has(&slot.kind, value) {
                return false;
            }
        } else if slot.presence.is_always() {
            return false;
        }
    }
    true
}

#[cycle(has)]
fn has_case(cases: &[Case<Kind>], value: &Value, fields: &Fields) -> bool
    requires { view value.now ≡ rec (fields_view fields.now.entries) }
    ensures { result ≡ cases_kept (fields_view fields.now.entries) (cases_view cases.now) }
{
    for case in cases {
        if has_status_of(case.shape, case.failed, fields) && has(&case.fields, value) {
            return true;
        }
    }
    false
}

fn has_status_of(shape: Shape, failed: bool, fields: &Fields) -> bool
    ensures { result ≡ has_status (shape_view shape) failed (fields_view fields.now.entries) }
{
    match shape {
        Shape::Ok | Shape::Failure => is_flag(fields, "failed", failed),
        Shape::Skipped => {
            is_flag(fields, "failed", failed)
                && is_flag(fields, "skipped", true)
                && is_flag(fields, "changed", false)
        }
    }
}

fn is_flag(fields: &Fields, name: &str, flag: bool) -> bool
    ensures { result ≡ flag_is flag (field_value name.now (fields_view fields.now.entries)) }
{
    match field_of(fields, name) {
        Some(Value::Bool(there)) => *there == flag,
        _ => false,
    }
}

// No field is outside the slots.
fn are_listed(fields: &Fields, slots: &Slots) -> bool
    ensures { result ≡ all_listed (fields_view fields.now.entries) (slots_view slots.now.entries) }
{
    for (name, _) in fields.iter() {
        if !has_field(slots, name.as_str()) {
            return false;
        }
    }
    true
}
