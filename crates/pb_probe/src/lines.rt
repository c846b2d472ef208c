// Values as JSON.
use pb_value::{Fields, Value};
use std::alloc::{AllocError, Global};

/// The line of JSON, without its end, for a record of those fields. What may not be read is
/// `{"opaque":true}`.
pub fn line_for(alloc: Global, fields: &Fields) -> Result<String, AllocError> {
    let mut line = String::new(alloc);
    write_fields(alloc, &mut line, fields)?;
    Ok(line)
}

#[cycle(write)]
fn write(alloc: Global, line: &mut String, value: &Value) -> Result<(), AllocError> {
    match value {
        Value::Null => line.push_str("null"),
        Value::Opaque => line.push_str("{\"opaque\":true}"),
        Value::Bool(true) => line.push_str("true"),
        Value::Bool(false) => line.push_str("false"),
        Value::Int(number) => write_number(alloc, line, *number),
        Value::Text(text) => write_text(alloc, line, text.as_str()),
        Value::List(items) => write_items(alloc, line, items),
        Value::Rec(fields) => write_fields(alloc, line, fields),
    }
}

#[cycle(write)]
fn write_items(alloc: Global, line: &mut String, items: &[Value]) -> Result<(), AllocError> {
    line.push('[')?;
    let mut is_first = true;
    for item in items {
        if !is_first {
            line.push(',')?;
        }
        write(alloc, line, item)?;
        is_first = false;
    }
    line.push(']')
}

#[cycle(write)]
fn write_fields(alloc: Global, line: &mut String, fields: &Fields) -> Result<(), AllocError> {
    line.push('{')?;
    let mut is_first = true;
    for (name, field) in fields.iter() {
        write_name(alloc, line, name.as_str(), is_first)?;
        write(alloc, line, field)?;
        is_first = false;
    }
    line.push('}')
}

// The name of a field, and before it what parts it from the one before.
fn write_name(
    alloc: Global,
    line: &mut String,
    name: &str,
    is_first: bool,
) -> Result<(), AllocError> {
    if !is_first {
        line.push(',')?;
    }
    write_text(alloc, line, name)?;
    line.push(':')
}

fn write_number(alloc: Global, line: &mut String, number: i64) -> Result<(), AllocError> {
    let digits = number.to_string(alloc)?;
    line.push_str(digits.as_str())
}

fn write_text(alloc: Global, line: &mut String, text: &str) -> Result<(), AllocError> {
    line.push('"')?;
    for letter in text.chars() {
        write_letter(alloc, line, letter)?;
    }
    line.push('"')
}

fn write_letter(alloc: Global, line: &mut String, letter: char) -> Result<(), AllocError> {
    match letter {
        '"' => line.push_str("\\\""),
        '\\' => line.push_str("\\\\"),
        letter if letter < ' ' => {
            let escape = format!(in alloc; "\\u{:04x}", letter as u32)?;
            line.push_str(escape.as_str())
        }
        letter => line.push(letter),
    }
}
