// Equality of values, and what it is for one to be in another.
ghost use Rattle.std.specs.Prelude.{[], ◌≡◌};
ghost use Rattle.pb_semantics.specs.Words.{boolean, data_eq, fields_eq, int, is_item, items_eq};
ghost use Rattle.pb_semantics.specs.Words.{null, text};
ghost use Rattle.pb_language.specs.Words.{any_field_opaque, any_item_opaque};
ghost use Rattle.pb_language.specs.Words.{holds_opaque as has_opaque};
ghost use Rattle.pb_value.specs.Words.{fields_view, items_view, view};

use pb_value::{Fields, Value};

/// Whether two values are equal in structure; values of different sorts aren't.
#[cycle(equal)]
pub fn equal(left: &Value, right: &Value) -> bool
    ensures { result ≡ data_eq (view left.now) (view right.now) }
{
    match left {
        Value::Null => is_null(right),
        Value::Bool(one) => is_bool(right, *one),
        Value::Int(one) => is_int(right, *one),
        Value::Text(one) => is_text(right, one.as_str()),
        Value::List(ones) => match right {
            Value::List(others) => items_equal(ones, others),
            _ => false,
        },
        Value::Rec(ones) => match right {
            Value::Rec(others) => fields_equal(ones, others),
            _ => false,
        },
        Value::Opaque => false,
    }
}

fn is_null(value: &Value) -> bool
    ensures { result ≡ data_eq null (view value.now) }
{
    match value {
        Value::Null => true,
        _ => false,
    }
}

fn is_bool(value: &Value, one: bool) -> bool
    ensures { result ≡ data_eq (boolean one) (view value.now) }
{
    match value {
        Value::Bool(other) => one == *other,
        _ => false,
    }
}

fn is_int(value: &Value, one: i64) -> bool
    ensures { result ≡ data_eq (int one) (view value.now) }
{
    match value {
        Value::Int(other) => one == *other,
        _ => false,
    }
}

fn is_text(value: &Value, one: &str) -> bool
    ensures { result ≡ data_eq (text one.now) (view value.now) }
{
    match value {
        Value::Text(other) => one == other.as_str(),
        _ => false,
    }
}

#[cycle(equal)]
fn items_equal(left: &[Value], right: &[Value]) -> bool
    ensures { result ≡ items_eq (items_view left.now) (items_view right.now) }
{
    if left.len() != right.len() {
        return false;
    }
    for (index, item) in left.iter().enumerate() {
        if !equal(item, &right[index]) {
            return false;
        }
    }
    true
}

#[cycle(equal)]
fn fields_equal(left: &Fields, right: &Fields) -> bool
    ensures { result ≡ fields_eq (fields_view left.now.entries) (fields_view right.now.entries) }
{
    let mut others = right.iter();
    for (name, value) in left.iter() {
        match others.next() {
            Some((other, there)) => {
                if name.as_str() != other.as_str() || !equal(value, there) {
                    return false;
                }
            }
            None => return false,
        }
    }
    others.next().is_none()
}

/// Whether an item of the list is equal to the value.
pub fn has_item(items: &[Value], value: &Value) -> bool
    ensures { result ≡ is_item (view value.now) (items_view items.now) }
{
    for item in items {
        if equal(value, item) {
            return true;
        }
    }
    false
}

/// Whether what may not be read lies in the value, at any depth.
#[cycle(holds_opaque)]
pub fn holds_opaque(value: &Value) -> bool
    ensures { result ≡ has_opaque (view value.now) }
{
    match value {
        Value::Opaque => true,
        Value::List(items) => items_hold_opaque(items),
        Value::Rec(fields) => fields_hold_opaque(fields),
        Value::Null | Value::Bool(_) | Value::Int(_) | Value::Text(_) => false,
    }
}

/// Whether an item of the list holds what may not be read.
#[cycle(holds_opaque)]
pub fn items_hold_opaque(items: &[Value]) -> bool
    ensures { result ≡ any_item_opaque (items_view items.now) }
{
    for item in items {
        if holds_opaque(item) {
            return true;
        }
    }
    false
}

#[cycle(holds_opaque)]
fn fields_hold_opaque(fields: &Fields) -> bool
    ensures { result ≡ any_field_opaque [] (fields_view fields.now.entries) }
{
    for (_, value) in fields.iter() {
        if holds_opaque(value) {
            return true;
        }
    }
    false
}
