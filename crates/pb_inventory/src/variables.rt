// The variables that groups and hosts give, as they may be read.
ghost use Rattle.std.specs.Prelude.{◌&&◌, ◌≡◌, IfOk, map};
ghost use Rattle.pb_semantics.specs.Words.{Fields as DataFields, is_among, list};
ghost use Rattle.pb_language.specs.Inventories.{are_variables_within, fields_of, has_opening};
ghost use Rattle.pb_language.specs.Inventories.{is_short_list, items_of, overlaid, variable_of};
ghost use Rattle.pb_language.specs.Nesting.{are_fields_within, are_items_within, holds, is_within};
ghost use Rattle.pb_language.specs.Nesting.{some_field_holds, some_item_holds};
ghost use Rattle.pb_language.specs.Texts.{opens};
ghost use Rattle.pb_language.specs.Words.{is_mark, reserved_names};
ghost use Rattle.pb_value.specs.Words.{fields_view, items_view, view};
ghost use Rattle.pb_inventory.specs.Views.{laid};

use pb_value::{Fields, Value, put_field};
use std::alloc::{AllocError, Global};

// How many items a list has at most.
const MOST_ITEMS: usize = 65_536;

// How many lists and records of one variable may stand inside one another.
const MOST_LEVELS: usize = 32;

// The names that no variable can have.
const RESERVED: [&str; 27] = [
    "inventory_hostname",
    "groups",
    "group_names",
    "hostvars",
    "ansible_play_batch",
    "item",
    "ansible_failed_result",
    "ansible_facts",
    "ansible_hostname",
    "ansible_system",
    "ansible_os_family",
    "ansible_distribution",
    "ansible_processor_vcpus",
    "ansible_memtotal_mb",
    "and",
    "or",
    "not",
    "in",
    "is",
    "true",
    "false",
    "True",
    "False",
    "none",
    "None",
    "if",
    "else",
];

/// Whether no variable can have that name.
pub fn is_reserved(name: &str) -> bool
    ensures { result ≡ is_among name.now reserved_names }
{
    is_one_of(name, &RESERVED)
}

fn is_one_of(name: &str, words: &[&str]) -> bool
    ensures { result ≡ is_among name.now (map (λ w. w.now) words.now) }
{
    for word in words {
        if name == *word {
            return true;
        }
    }
    false
}

/// Whether the variables are within the limits, but for those with reserved names.
pub fn are_variables_within(fields: &Fields) -> bool
    ensures { result ≡ are_variables_within (fields_view fields.now.entries) }
{
    for (name, value) in fields.iter() {
        if !is_reserved(name.as_str()) && !is_within(value, MOST_LEVELS) {
            return false;
        }
    }
    true
}

// Whether lists and records stand at most so many in one another, and no list is too long.
#[cycle(within)]
fn is_within(value: &Value, levels: usize) -> bool
    ensures { result ≡ is_within is_short_list levels (view value.now) }
{
    match value {
        Value::List(items) => levels > 0 && is_list_within(items, levels - 1),
        Value::Rec(fields) => levels > 0 && are_fields_within(fields, levels - 1),
        Value::Null | Value::Bool(_) | Value::Int(_) | Value::Text(_) | Value::Opaque => true,
    }
}

// Whether the list isn't too long, and its items stand within so many levels.
#[cycle(within)]
fn is_list_within(items: &[Value], levels: usize) -> bool
    ensures { result ≡ (is_short_list (list (items_view items.now))
        && are_items_within is_short_list levels (items_view items.now)) }
{
    is_short(items) && are_items_within(items, levels)
}

fn is_short(items: &[Value]) -> bool
    ensures { result ≡ is_short_list (list (items_view items.now)) }
{
    items.len() <= MOST_ITEMS
}

#[cycle(within)]
fn are_items_within(items: &[Value], levels: usize) -> bool
    ensures { result ≡ are_items_within is_short_list levels (items_view items.now) }
{
    for item in items {
        if !is_within(item, levels) {
            return false;
        }
    }
    true
}

#[cycle(within)]
fn are_fields_within(fields: &Fields, levels: usize) -> bool
    ensures { result
        ≡ are_fields_within is_short_list levels (fields_view fields.now.entries) }
{
    for (_, value) in fields.iter() {
        if !is_within(value, levels) {
            return false;
        }
    }
    true
}

// Whether a template, a statement or a comment begins in the text.
fn has_opening(text: &str) -> bool
    ensures { result ≡ has_opening text.now }
{
    let mut after_brace = false;
    for byte in text.as_bytes() {
        if after_brace && is_mark(*byte) {
            return true;
        }
        after_brace = *byte == b'{';
    }
    false
}

fn is_mark(byte: u8) -> bool
    ensures { result ≡ is_mark byte }
{
    matches!(byte, b'{' | b'%' | b'#')
}

// Whether some text in the value may have a template.
#[cycle(opening)]
fn holds_opening(value: &Value) -> bool
    ensures { result ≡ holds opens (view value.now) }
{
    match value {
        Value::Text(text) => has_opening(text.as_str()),
        Value::List(items) => some_item_holds(items),
        Value::Rec(fields) => some_field_holds(fields),
        Value::Null | Value::Bool(_) | Value::Int(_) | Value::Opaque => false,
    }
}

#[cycle(opening)]
fn some_item_holds(items: &[Value]) -> bool
    ensures { result ≡ some_item_holds opens (items_view items.now) }
{
    for item in items {
        if holds_opening(item) {
            return true;
        }
    }
    false
}

#[cycle(opening)]
fn some_field_holds(fields: &Fields) -> bool
    ensures { result ≡ some_field_holds opens (fields_view fields.now.entries) }
{
    for (_, value) in fields.iter() {
        if holds_opening(value) {
            return true;
        }
    }
    false
}

// The value as it may be read: each text in it that may have a template is opaque. What holds none
// is shared.
#[cycle(variable)]
fn variable_of(alloc: Global, value: &Value) -> Result<Value, AllocError>
    ensures { IfOk result (λ v. view v ≡ variable_of (view value.now)) }
{
    if !holds_opening(value) {
        return Ok(value.clone()?);
    }
    match value {
        Value::Text(_) => Ok(Value::Opaque),
        Value::List(items) => Ok(Value::of_items(alloc, items_of(alloc, items)?)?),
        Value::Rec(fields) => Ok(Value::of_fields(alloc, fields_of(alloc, fields)?)?),
        _ => Ok(value.clone()?),
    }
}

#[cycle(variable)]
fn items_of(alloc: Global, items: &[Value]) -> Result<Vec<Value>, AllocError>
    ensures { IfOk result (λ found. items_view found.items ≡ items_of (items_view items.now)) }
{
    let mut found = Vec::with_capacity(alloc, items.len())?;
    for item in items {
        found.push(variable_of(alloc, item)?)?;
    }
    Ok(found)
}

#[cycle(variable)]
fn fields_of(alloc: Global, fields: &Fields) -> Result<Fields, AllocError>
    ensures { IfOk result (λ found. fields_view found.entries
        ≡ fields_of (fields_view fields.now.entries)) }
{
    let mut found = Fields::new(alloc);
    for (name, value) in fields.iter() {
        put_field(&mut found, name.clone()?, variable_of(alloc, value)?)?;
    }
    Ok(found)
}

/// The variables as they may be read, without those that have reserved names.
///
/// # Errors
///
/// Want of memory.
pub fn layer_of(alloc: Global, fields: &Fields) -> Result<Fields, AllocError>
    ensures { IfOk result (λ layer. (vs : DataFields) → laid vs (fields_view layer.entries)
        ≡ overlaid vs (fields_view fields.now.entries)) }
{
    let mut layer = Fields::new(alloc);
    for (name, value) in fields.iter() {
        if !is_reserved(name.as_str()) {
            put_field(&mut layer, name.clone()?, variable_of(alloc, value)?)?;
        }
    }
    Ok(layer)
}
