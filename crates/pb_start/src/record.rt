// Records that are made of their fields.
ghost use Rattle.std.specs.Prelude.{◌≡◌, IfOk, OnOk};
ghost use Rattle.pb_semantics.specs.Words.{put_field};
ghost use Rattle.pb_value.specs.Words.{fields_view, view};
ghost use Rattle.pb_start.specs.Words.{block_fields};

use pb_value::{Fields, Value, Weighed, put_field};
use std::alloc::{AllocError, Global};
use std::sync::Arc;

/// Puts the value under the name, in place of what stood there.
///
/// # Errors
///
/// Want of memory.
pub fn put_value(
    alloc: Global,
    fields: &mut Fields,
    name: &str,
    value: Value,
) -> Result<(), AllocError>
    ensures { OnOk result (fields_view fields.new.entries
        ≡ put_field name.now (view value) (fields_view fields.old.entries)) }
{
    put_field(fields, String::from_str(alloc, name)?, value)
}

/// The fields, in a block that their copies share.
///
/// # Errors
///
/// Want of memory, also where they would weigh too much or nest too deep for a value.
pub fn record_of(alloc: Global, fields: Fields) -> Result<Arc<Weighed<Fields>>, AllocError>
    ensures { IfOk result (λ r. block_fields r ≡ fields_view fields.entries) }
{
    match Value::of_fields(alloc, fields)? {
        Value::Rec(fields) => Ok(fields),
        _ => Err(AllocError),
    }
}
