// How long the texts and expressions of values may be, and how deep lists and records may stand.
ghost use Rattle.std.specs.Prelude.{◌≡◌, option_map};
ghost use Rattle.pb_semantics.specs.Words.{most_levels};
ghost use Rattle.pb_language.specs.Nesting.{are_fields_within, are_items_within, is_within};
ghost use Rattle.pb_language.specs.Texts.{are_list_within, are_values_within, has_short_braces};
ghost use Rattle.pb_language.specs.Texts.{is_text_within};
ghost use Rattle.pb_value.specs.Words.{fields_view, items_view, view};
ghost use Rattle.pb_template.specs.Entries.{but};

use crate::entry::is_one;
use crate::nesting::Test;
use pb_syntax::{closing_of, opening_of};
use pb_value::{Fields, Value};

/// The most bytes of a text.
pub const MOST_TEXT_BYTES: usize = 65_536;

/// The most bytes of an expression.
pub const MOST_EXPRESSION_BYTES: usize = 4_096;

// How many lists and records of one value may stand inside one another.
const MOST_LEVELS: usize = 32;

/// A text that is too long.
pub struct LongText;

impl Test for LongText {
    ghost use Rattle.pb_language.specs.Texts.{is_long_text};

    ghost meaning = { is_long_text };

    fn passes(value: &Value) -> bool {
        match value {
            Value::Text(text) => text.len() > MOST_TEXT_BYTES,
            _ => false,
        }
    }
}

/// Whether no expression between braces in the text is too long.
pub fn is_text_within(text: &str) -> bool
    ensures { result ≡ is_text_within text.now }
{
    let bytes = text.as_bytes();
    let mut opening = opening_of(bytes, 0);
    'expressions: while opening + 1 < bytes.len() {
        if bytes[opening + 1] != b'{' {
            return true;
        }
        let Some(end) = closing_of(bytes, opening + 2) else {
            return true;
        };
        if end - (opening + 2) > MOST_EXPRESSION_BYTES {
            return false;
        }
        opening = opening_of(bytes, end + 2);
    }
    true
}

/// Whether each value of the record, but for that one, is within the limits of levels and of
/// expressions.
pub fn are_values_within(fields: &Fields, left_out: Option<&str>) -> bool
    ensures { result ≡ are_values_within
        (but (option_map (λ n. n.now) left_out.entry) (fields_view fields.now.entries)) }
{
    for (name, value) in fields.iter() {
        if !is_one(name.as_str(), left_out) && !is_within(value, MOST_LEVELS) {
            return false;
        }
    }
    true
}

/// Whether each item is within the limits of levels and of expressions.
pub fn is_list_within(items: &[Value]) -> bool
    ensures { result ≡ are_list_within (items_view items.now) }
{
    are_items_within(items, MOST_LEVELS)
}

#[cycle(within)]
fn is_within(value: &Value, levels: usize) -> bool
    ensures { result ≡ is_within has_short_braces levels (view value.now) }
{
    match value {
        Value::Text(text) => is_text_within(text.as_str()),
        Value::List(items) => levels > 0 && are_items_within(items, levels - 1),
        Value::Rec(fields) => levels > 0 && are_fields_within(fields, levels - 1),
        Value::Null | Value::Bool(_) | Value::Int(_) | Value::Opaque => true,
    }
}

#[cycle(within)]
fn are_items_within(items: &[Value], levels: usize) -> bool
    ensures { result ≡ are_items_within has_short_braces levels (items_view items.now) }
{
    for item in items {
        if !is_within(item, levels) {
            return false;
        }
    }
    true
}

#[cycle(within)]
fn are_fields_within(fields: &Fields, levels: usize) -> bool
    ensures { result
        ≡ are_fields_within has_short_braces levels (fields_view fields.now.entries) }
{
    for (_, value) in fields.iter() {
        if !is_within(value, levels) {
            return false;
        }
    }
    true
}
