// A value as compact JSON.
ghost use Rattle.std.specs.Prelude.{◌≡◌, IfOk, OnOk, string_bytes};
ghost use Rattle.serde_json.specs.Data.{no_members, put};
ghost use Rattle.serde_json.specs.View.{items_view as json_items_view, members_view};
ghost use Rattle.serde_json.specs.View.{view as json_view};
ghost use Rattle.serde_json.specs.Written.{compact_text};
ghost use Rattle.pb_value.specs.Words.{fields_view, items_view, view};
ghost use Rattle.pb_json.specs.Json.{items_json, json_of, members_onto};

use pb_value::{Fields, Value};
use serde_json::value::Map;
use serde_json::{Number, Value as Json};
use std::alloc::{AllocError, Global};

/// The value as JSON without blanks, the fields in the order of their names' bytes. What may stand
/// and may not be read is null.
///
/// # Errors
///
/// Want of memory.
pub fn write_json(alloc: Global, value: &Value) -> Result<String, AllocError>
    ensures { IfOk result (λ text. string_bytes text ≡ compact_text (json_of (view value.now))) }
{
    let json = json_value(alloc, value)?;
    let text = json.to_string(alloc)?;
    Ok(text)
}

#[cycle(json_value)]
fn json_value(alloc: Global, value: &Value) -> Result<Json, AllocError>
    ensures { IfOk result (λ j. json_view j ≡ json_of (view value.now)) }
{
    match value {
        Value::Null => Ok(Json::Null),
        Value::Bool(holds) => Ok(Json::Bool(*holds)),
        Value::Int(number) => Ok(Json::Number(Number::from(*number))),
        Value::Text(letters) => Ok(Json::String(String::from_str(alloc, letters.as_str())?)),
        Value::List(items) => Ok(Json::Array(json_items(alloc, items)?)),
        Value::Rec(fields) => Ok(Json::Object(json_fields(alloc, fields)?)),
        Value::Opaque => Ok(Json::Null),
    }
}

#[cycle(json_value)]
fn json_items(alloc: Global, items: &[Value]) -> Result<Vec<Json>, AllocError>
    ensures { IfOk result (λ js. json_items_view js.items ≡ items_json (items_view items.now)) }
{
    let mut found = Vec::with_capacity(alloc, items.len())?;
    for item in items {
        found.push(json_value(alloc, item)?)?;
    }
    Ok(found)
}

#[cycle(json_value)]
fn json_fields(alloc: Global, fields: &Fields) -> Result<Map<String, Json>, AllocError>
    ensures { IfOk result (λ js. members_view js.entries
        ≡ members_onto (fields_view fields.now.entries) no_members) }
{
    let mut found = Map::new(alloc);
    for (name, field) in fields.iter() {
        let name = String::from_str(alloc, name.as_str())?;
        let member = json_value(alloc, field)?;
        put_member(&mut found, name, member)?;
    }
    Ok(found)
}

fn put_member(members: &mut Map<String, Json>, name: String, member: Json) -> Result<(), AllocError>
    ensures { OnOk result (members_view members.new.entries
        ≡ put (string_bytes name) (json_view member) (members_view members.old.entries)) }
{
    drop(members.insert(name, member)?);
    Ok(())
}
