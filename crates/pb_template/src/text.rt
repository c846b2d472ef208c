// Templates in texts.
ghost use Rattle.std.specs.Prelude.{◌≡◌};
ghost use Rattle.pb_language.specs.Inventories.{has_opening};
ghost use Rattle.pb_language.specs.TaskForm.{is_template};

use crate::nesting::Test;
use pb_syntax::{closing_of, opening_of};
use pb_value::Value;

/// Whether a template, a statement or a comment begins in the text.
pub fn has_opening(text: &str) -> bool
    ensures { result ≡ has_opening text.now }
{
    let bytes = text.as_bytes();
    opening_of(bytes, 0) < bytes.len()
}

/// Whether the text is one template from its first byte to its last.
pub fn is_template(text: &str) -> bool
    ensures { result ≡ is_template text.now }
{
    let bytes = text.as_bytes();
    if bytes.len() < 2 || bytes[0] != b'{' || bytes[1] != b'{' {
        return false;
    }
    match closing_of(bytes, 2) {
        None => false,
        Some(end) => end + 2 == bytes.len(),
    }
}

/// A text that may have a template.
pub struct Opening;

impl Test for Opening {
    ghost use Rattle.pb_language.specs.Texts.{opens};

    ghost meaning = { opens };

    fn passes(value: &Value) -> bool {
        match value {
            Value::Text(text) => has_opening(text.as_str()),
            _ => false,
        }
    }
}
