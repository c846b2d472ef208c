// The failure as a variable.
ghost use Rattle.std.specs.Prelude.{◌≡◌, IfOk, [], option_map};
ghost use Rattle.std.specs.Prelude.{string_bytes};
ghost use Rattle.pb_semantics.specs.Words.{text};
ghost use Rattle.pb_value.specs.Words.{view};
ghost use Rattle.pb_world.specs.Failure.{text_of};
ghost use Rattle.pb_world.specs.World.{failure_value};

use pb_value::{Fields, Value, put_field};
use std::alloc::{AllocError, Global};
use std::sync::Arc;

/// `ansible_failed_result` inside so many `rescue` parts, where this is the failure's text; none is
/// the empty text.
///
/// # Errors
///
/// Want of memory.
pub fn failure_of(
    alloc: Global,
    depth: usize,
    message: Option<&Arc<String>>,
) -> Result<Option<Value>, AllocError>
    ensures { IfOk result (λ v. option_map view v
        ≡ failure_value depth (text_of (option_map (λ t. t.now) message.entry))) }
{
    if depth == 0 {
        return Ok(None);
    }
    let mut fields = Fields::new(alloc);
    put_field(
        &mut fields,
        String::from_str(alloc, "msg")?,
        text_value(alloc, message)?,
    )?;
    Ok(Some(Value::of_fields(alloc, fields)?))
}

fn text_value(alloc: Global, message: Option<&Arc<String>>) -> Result<Value, AllocError>
    ensures { IfOk result (λ v. view v ≡ text (text_of (option_map (λ t. t.now) message.entry))) }
{
    match message {
        Some(shared) => Ok(Value::Text(shared.clone()?)),
        None => Value::of_text(alloc, String::new(alloc)),
    }
}
