// The values of comparisons, tests of a result and filters, of operands that have values.
ghost use Rattle.std.specs.Prelude.{◌++◌, ◌<◌, ◌^◌, ◌≡◌, ◌≤◌, IfOk, OnOk, length, pos};
ghost use Rattle.std.specs.Prelude.{string_bytes, true};
ghost use Rattle.pb_semantics.specs.Words.{count_of, field_value, flag_is, int};
ghost use Rattle.pb_semantics.specs.Words.{is_plain as is_plain_value, rec, rendered};
ghost use Rattle.pb_language.specs.Words.{at_most, character_count, compared, counted};
ghost use Rattle.pb_language.specs.Words.{equal_values, field_count};
ghost use Rattle.pb_language.specs.Words.{has_statuses as has_statuses_found, is_truth};
ghost use Rattle.pb_language.specs.Words.{joined as joined_values, joined_items, less};
ghost use Rattle.pb_language.specs.Words.{may_be_truth as may_be_told, negated, status_name};
ghost use Rattle.pb_language.specs.Words.{status_of as status_found};
ghost use Rattle.pb_value.specs.Words.{fields_view, items_view, view};
ghost use Rattle.pb_syntax.specs.ExprView.{comparison_view, status_view};
ghost use Rattle.pb_eval.specs.OwnWorld.{shown};

use crate::equal::{equal, holds_opaque};
use pb_syntax::{Comparison, Status};
use pb_value::render::render;
use pb_value::{Fields, Value, field_of};
use std::alloc::{AllocError, Global};

// How many bytes a text that is made of others may have: those of the heaviest value.
const MOST_BYTES: usize = 1_073_741_824;

pub(crate) fn negation_of(operand: Value) -> Value
    ensures { view result ≡ shown (negated (view operand)) }
{
    match operand {
        Value::Bool(holds) => Value::Bool(!holds),
        _ => Value::Opaque,
    }
}

pub(crate) fn comparison_of(comparison: Comparison, operands: (Value, Value)) -> Value
    ensures { view result
        ≡ shown (compared (comparison_view comparison) (view operands.0) (view operands.1)) }
{
    let (left, right) = operands;
    match comparison {
        Comparison::Equal => equality_of(&left, &right),
        Comparison::Less => is_less(&left, &right),
        Comparison::AtMost => is_at_most(&left, &right),
        Comparison::More => is_less(&right, &left),
        Comparison::AtLeast => is_at_most(&right, &left),
    }
}

fn equality_of(left: &Value, right: &Value) -> Value
    ensures { view result ≡ shown (equal_values (view left.now) (view right.now)) }
{
    if holds_opaque(left) || holds_opaque(right) {
        return Value::Opaque;
    }
    Value::Bool(equal(left, right))
}

fn is_less(left: &Value, right: &Value) -> Value
    ensures { view result ≡ shown (compared less (view left.now) (view right.now)) }
{
    match (left, right) {
        (Value::Int(left), Value::Int(right)) => Value::Bool(*left < *right),
        _ => Value::Opaque,
    }
}

fn is_at_most(left: &Value, right: &Value) -> Value
    ensures { view result ≡ shown (compared at_most (view left.now) (view right.now)) }
{
    match (left, right) {
        (Value::Int(left), Value::Int(right)) => Value::Bool(*left <= *right),
        _ => Value::Opaque,
    }
}

pub(crate) fn status_of(status: Status, of: &Value) -> Value
    ensures { view result ≡ shown (status_found (status_view status) (view of.now)) }
{
    match of {
        Value::Rec(fields) => status_in(status, fields),
        _ => Value::Opaque,
    }
}

fn status_in(status: Status, fields: &Fields) -> Value
    ensures { view result
        ≡ shown (status_found (status_view status) (rec (fields_view fields.now.entries))) }
{
    if has_statuses(fields) {
        Value::Bool(is_true(fields, name_of(status)))
    } else {
        Value::Opaque
    }
}

fn has_statuses(fields: &Fields) -> bool
    ensures { result ≡ has_statuses_found (fields_view fields.now.entries) }
{
    has_truth(fields, "changed") && has_truth(fields, "failed") && may_be_truth(fields, "skipped")
}

fn has_truth(fields: &Fields, name: &str) -> bool
    ensures { result ≡ is_truth (field_value name.now (fields_view fields.now.entries)) }
{
    match field_of(fields, name) {
        Some(Value::Bool(_)) => true,
        _ => false,
    }
}

fn may_be_truth(fields: &Fields, name: &str) -> bool
    ensures { result
        ≡ may_be_told (field_value name.now (fields_view fields.now.entries)) }
{
    match field_of(fields, name) {
        Some(Value::Bool(_)) | None => true,
        Some(_) => false,
    }
}

fn is_true(fields: &Fields, name: &str) -> bool
    ensures { result ≡ flag_is true (field_value name.now (fields_view fields.now.entries)) }
{
    match field_of(fields, name) {
        Some(Value::Bool(holds)) => *holds,
        _ => false,
    }
}

fn name_of(status: Status) -> &'static str
    ensures { result.now ≡ status_name (status_view status) }
{
    match status {
        Status::Failed => "failed",
        Status::Changed => "changed",
        Status::Skipped => "skipped",
    }
}

// How many items, characters or fields the value has.
pub(crate) fn length_of(value: &Value) -> Value
    ensures { view result ≡ shown (counted (view value.now)) }
{
    match value {
        Value::List(items) => items_counted(items),
        Value::Text(text) => number(characters(text.as_bytes())),
        Value::Rec(fields) => fields_counted(fields),
        _ => Value::Opaque,
    }
}

fn number(count: usize) -> Value
    requires { count < 2 ^ 63 }
    ensures { view result ≡ int (pos count) }
{
    Value::Int(count as i64)
}

fn items_counted(items: &[Value]) -> Value
    ensures { view result ≡ int (pos (count_of (items_view items.now))) }
{
    number(items.len())
}

fn fields_counted(fields: &Fields) -> Value
    ensures { view result ≡ int (pos (field_count (fields_view fields.now.entries))) }
{
    number(fields.len())
}

// How many bytes begin a character.
fn characters(text: &[u8]) -> usize
    ensures count { result ≡ character_count text.now }
    ensures few { result ≤ length text.now }
{
    let mut count = 0;
    for byte in text {
        if *byte < 128 || *byte >= 192 {
            count += 1;
        }
    }
    count
}

// Whether the value can stand in a text: a text, a whole number or a truth value.
pub(crate) fn is_plain(value: &Value) -> bool
    ensures { result ≡ is_plain_value (view value.now) }
{
    match value {
        Value::Text(_) | Value::Int(_) | Value::Bool(_) => true,
        _ => false,
    }
}

// Puts the value's text behind the text.
pub(crate) fn append(alloc: Global, text: &mut String, value: &Value) -> Result<(), AllocError>
    requires { is_plain_value (view value.now) ≡ true }
    ensures { OnOk result
        (string_bytes text.new ≡ string_bytes text.old ++ rendered (view value.now)) }
{
    match value {
        Value::Text(letters) => append_letters(text, letters.as_str()),
        _ => append_letters(text, render(alloc, value)?.as_str()),
    }
}

fn append_letters(text: &mut String, letters: &str) -> Result<(), AllocError>
    ensures { OnOk result (string_bytes text.new ≡ string_bytes text.old ++ letters.now) }
{
    if text.len() > MOST_BYTES || letters.len() > MOST_BYTES - text.len() {
        return Err(AllocError);
    }
    text.push_str(letters)
}

// The texts of a list's items with a text between them.
pub(crate) fn joined(alloc: Global, operands: (Value, Value)) -> Result<Value, AllocError>
    ensures { IfOk result
        (λ v. view v ≡ shown (joined_values (view operands.0) (view operands.1))) }
{
    match (&operands.0, &operands.1) {
        (Value::List(items), Value::Text(between)) => items_joined(alloc, items, between.as_str()),
        _ => Ok(Value::Opaque),
    }
}

fn items_joined(alloc: Global, items: &[Value], between: &str) -> Result<Value, AllocError>
    ensures { IfOk result (λ v. view v
        ≡ shown (joined_items between.now (items_view items.now))) }
{
    let mut text = String::new(alloc);
    let mut before = "";
    for item in items {
        if !is_plain(item) {
            return Ok(Value::Opaque);
        }
        append_letters(&mut text, before)?;
        append(alloc, &mut text, item)?;
        before = between;
    }
    Value::of_text(alloc, text)
}
