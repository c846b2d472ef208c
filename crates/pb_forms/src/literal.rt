// The kind of a value that is known.
ghost use Rattle.std.specs.Prelude.{◌≡◌, IfOk, OnOk, string_bytes, true};
ghost use Rattle.pb_semantics.specs.Words.{count_of, lists, put_slot, recs};
ghost use Rattle.pb_language.specs.Words.{known_items, known_kind, known_slots};
ghost use Rattle.pb_kind.specs.Words.{kind_view, slots_view};
ghost use Rattle.pb_value.specs.Words.{fields_view, items_view, view};

use pb_kind::grow::{Growing, close, grow};
use pb_kind::{Kind, Slot, Slots, put_slot};
use pb_value::{Fields, Value};
use std::alloc::{AllocError, Global};
use std::collections::BTreeMap;

/// The kind of a value that is known.
///
/// # Errors
///
/// Want of memory.
#[cycle(literal_kind)]
pub fn literal_kind(alloc: Global, known: &Value) -> Result<Kind, AllocError>
    ensures { IfOk result (λ k. kind_view k ≡ known_kind (view known.now)) }
{
    match known {
        Value::Null => Ok(Kind::Null),
        Value::Bool(_) => Ok(Kind::Bool),
        Value::Int(_) => Ok(Kind::Int),
        Value::Text(_) => Ok(Kind::Text),
        Value::List(items) => literal_items(alloc, items),
        Value::Rec(fields) => literal_fields(alloc, fields),
        Value::Opaque => Ok(Kind::Any),
    }
}

#[cycle(literal_kind)]
fn literal_items(alloc: Global, items: &[Value]) -> Result<Kind, AllocError>
    ensures { IfOk result (λ k. kind_view k
        ≡ lists (known_items (items_view items.now))
        (count_of (items_view items.now))) }
{
    // from the last to the first, so that the kinds of no two items are held at once
    let mut joined = Growing::Whole(Kind::Never, 0);
    for index in (0..items.len()).rev() {
        let kind = literal_kind(alloc, &items[index])?;
        joined = grow(alloc, &kind, true, joined)?;
    }
    let joined = close(alloc, &joined)?;
    Kind::of_item(alloc, joined, items.len())
}

#[cycle(literal_kind)]
fn literal_fields(alloc: Global, fields: &Fields) -> Result<Kind, AllocError>
    ensures { IfOk result (λ k. kind_view k ≡ recs (known_slots (fields_view fields.now.entries))) }
{
    let mut kinds = BTreeMap::new(alloc);
    for (name, field) in fields.iter() {
        let kind = literal_kind(alloc, field)?;
        put_certain(&mut kinds, name, kind)?;
    }
    Kind::of_slots(alloc, kinds)
}

/// The field certainly has that kind.
///
/// # Errors
///
/// Want of memory.
pub fn put_certain(kinds: &mut Slots, name: &String, kind: Kind) -> Result<(), AllocError>
    ensures { OnOk result (slots_view kinds.new.entries
        ≡ put_slot (string_bytes name.now) true (kind_view kind) (slots_view kinds.old.entries)) }
{
    put_slot(kinds, name.clone()?, Slot::always(kind))
}
