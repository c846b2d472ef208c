// What is put into records.
ghost use Rattle.std.specs.Prelude.{◌≡◌, IfOk, OnOk, string_bytes};
ghost use Rattle.pb_semantics.specs.Words.{list, no_fields, put_field, rec, text};
ghost use Rattle.pb_value.specs.Words.{fields_view, items_view, view};
ghost use Rattle.pb_inventory.specs.Views.{laid};

use pb_value::{Fields, Value, put_field};
use std::alloc::{AllocError, Global};

/// The record of that one word.
pub fn said(alloc: Global, name: &str, word: &str) -> Result<Fields, AllocError>
    ensures { IfOk result (λ fs. fields_view fs.entries
        ≡ put_field name.now (text word.now) no_fields) }
{
    let mut fields = Fields::new(alloc);
    put_text(alloc, &mut fields, name, word)?;
    Ok(fields)
}

/// Puts the text under that name.
pub fn put_text(
    alloc: Global,
    fields: &mut Fields,
    name: &str,
    word: &str,
) -> Result<(), AllocError>
    ensures { OnOk result (fields_view fields.new.entries
        ≡ put_field name.now (text word.now) (fields_view fields.old.entries)) }
{
    let word = Value::of_text(alloc, String::from_str(alloc, word)?)?;
    put(alloc, fields, name, word)
}

/// Puts the list under that name.
pub fn put_list(
    alloc: Global,
    fields: &mut Fields,
    name: &str,
    items: Vec<Value>,
) -> Result<(), AllocError>
    ensures { OnOk result (fields_view fields.new.entries
        ≡ put_field name.now (list (items_view items.items)) (fields_view fields.old.entries)) }
{
    put(alloc, fields, name, Value::of_items(alloc, items)?)
}

/// Puts the record under that name.
pub fn put_record(
    alloc: Global,
    fields: &mut Fields,
    name: &str,
    inner: Fields,
) -> Result<(), AllocError>
    ensures { OnOk result (fields_view fields.new.entries
        ≡ put_field name.now (rec (fields_view inner.entries)) (fields_view fields.old.entries)) }
{
    put(alloc, fields, name, Value::of_fields(alloc, inner)?)
}

/// Puts the value under that name.
pub fn put(alloc: Global, fields: &mut Fields, name: &str, value: Value) -> Result<(), AllocError>
    ensures { OnOk result (fields_view fields.new.entries
        ≡ put_field name.now (view value) (fields_view fields.old.entries)) }
{
    put_field(fields, String::from_str(alloc, name)?, value)
}

/// Lays the others over them: of a name that is in both, theirs stays.
pub fn lay(fields: &mut Fields, others: &Fields) -> Result<(), AllocError>
    ensures { OnOk result (fields_view fields.new.entries
        ≡ laid (fields_view fields.old.entries) (fields_view others.now.entries)) }
{
    for (name, value) in others.iter() {
        put_copy(fields, name, value)?;
    }
    Ok(())
}

// Puts a copy of the value under that name.
fn put_copy(fields: &mut Fields, name: &String, value: &Value) -> Result<(), AllocError>
    ensures { OnOk result (fields_view fields.new.entries
        ≡ put_field (string_bytes name.now) (view value.now) (fields_view fields.old.entries)) }
{
    put_field(fields, name.clone()?, value.clone()?)
}
