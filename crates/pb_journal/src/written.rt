// A value as JSON that reads back as that value.
ghost use Rattle.std.specs.Prelude.{◌≡◌, ◌≤◌, IfOk, OnOk, Some, string_bytes};
ghost use Rattle.serde_json.specs.Data.{depth, items_depth, members_depth, put};
ghost use Rattle.serde_json.specs.View.{items_view as json_items_view, members_view};
ghost use Rattle.serde_json.specs.View.{view as json_view};
ghost use Rattle.pb_value.specs.FromJson.{data_of, fields_from, items_from, json_data};
ghost use Rattle.pb_value.specs.View.{fields_view, items_view, view};

use pb_value::{Fields, Value};
use serde_json::value::Map;
use serde_json::{Number, Value as Json};
use std::alloc::{AllocError, AllocFailed, Global};

// How deep lists and records nest at most, where they are read.
const MOST_LEVELS: usize = 127;

// No `i64`, so that it reads as what may stand and may not be read.
const OPAQUE: u64 = 1 << 63;

/// Why something isn't written.
#[derive(Debug, Drop)]
pub enum WriteFault {
    /// Want of memory.
    NoMemory,
    /// Lists and records nest too deep for it to be read back.
    TooDeep,
    /// The place of a host is no `i64`.
    TooLarge,
}

impl From<AllocError> for WriteFault {
    fn from(_: AllocError) -> WriteFault {
        WriteFault::NoMemory
    }
}

impl<T: Drop> From<AllocFailed<T>> for WriteFault {
    fn from(_: AllocFailed<T>) -> WriteFault {
        WriteFault::NoMemory
    }
}

/// The value as JSON without blanks. What reads it finds that value, and where it may not be read
/// what may not be read.
///
/// # Errors
///
/// Want of memory, or lists and records that nest too deep to be read back.
pub fn write_value(alloc: Global, value: &Value) -> Result<String, WriteFault>
    ensures { IfOk result (λ text. json_data (string_bytes text) ≡ Some (view value.now)) }
{
    let json = json_value(alloc, value, MOST_LEVELS)?;
    let text = json.to_string(alloc)?;
    // It is UTF-8.
    let _letters = text.as_str();
    Ok(text)
}

#[cycle(json_value)]
fn json_value(alloc: Global, value: &Value, levels: usize) -> Result<Json, WriteFault>
    ensures back { IfOk result (λ j. data_of (json_view j) ≡ view value.now) }
    ensures deep { IfOk result (λ j. depth (json_view j) ≤ levels) }
{
    match value {
        Value::Null => Ok(Json::Null),
        Value::Bool(holds) => Ok(Json::Bool(*holds)),
        Value::Int(number) => Ok(Json::Number(Number::from(*number))),
        Value::Text(letters) => Ok(Json::String(String::from_str(alloc, letters.as_str())?)),
        Value::List(items) => {
            if levels == 0 {
                return Err(WriteFault::TooDeep);
            }
            Ok(Json::Array(json_items(alloc, items, levels - 1)?))
        }
        Value::Rec(fields) => {
            if levels == 0 {
                return Err(WriteFault::TooDeep);
            }
            Ok(Json::Object(json_fields(alloc, fields, levels - 1)?))
        }
        Value::Opaque => Ok(Json::Number(Number::from(OPAQUE))),
    }
}

#[cycle(json_value)]
fn json_items(alloc: Global, items: &[Value], levels: usize) -> Result<Vec<Json>, WriteFault>
    ensures back { IfOk result
        (λ js. items_from (json_items_view js.items) ≡ items_view items.now) }
    ensures deep { IfOk result (λ js. items_depth (json_items_view js.items) ≤ levels) }
{
    let mut found = Vec::with_capacity(alloc, items.len())?;
    for item in items {
        found.push(json_value(alloc, item, levels)?)?;
    }
    Ok(found)
}

#[cycle(json_value)]
fn json_fields(
    alloc: Global,
    fields: &Fields,
    levels: usize,
) -> Result<Map<String, Json>, WriteFault>
    ensures back { IfOk result
        (λ js. fields_from (members_view js.entries) ≡ fields_view fields.now.entries) }
    ensures deep { IfOk result (λ js. members_depth (members_view js.entries) ≤ levels) }
{
    let mut found = Map::new(alloc);
    for (name, field) in fields.iter() {
        let name = String::from_str(alloc, name.as_str())?;
        let member = json_value(alloc, field, levels)?;
        put_member(&mut found, name, member)?;
    }
    Ok(found)
}

fn put_member(members: &mut Map<String, Json>, name: String, member: Json) -> Result<(), AllocError>
    ensures { OnOk result (members_view members.new.entries
        ≡ put (string_bytes name) (json_view member) (members_view members.old.entries)) }
{
    drop(members.insert(name, member)?);
    Ok(())
}
