// A value of a variable, its inner parts shared.
ghost use Rattle.std.specs.Prelude.{◌≡◌, IfOk, OnOk, option_map, string_bytes};
ghost use Rattle.pb_semantics.specs.Words.{field_value, list, most_value_weight, put_field, rec};
ghost use Rattle.pb_semantics.specs.Words.{text};
ghost use Rattle.pb_value.specs.ValueWeight.{fields_onto, items_onto, weight_of};
ghost use Rattle.pb_value.specs.View.{fields_view, items_view, truth, view};
ghost use Rattle.pb_value.specs.Weights.{IsWithin, above, nothing};

use crate::weight::{Weighed, Weight};
use std::alloc::{AllocError, Global};
use std::collections::BTreeMap;
use std::sync::Arc;

/// What a value weighs at most.
pub const MOST_VALUE: u64 = 16_777_216;

/// The fields of a record, in the order of their names' bytes.
pub type Fields = BTreeMap<String, Value>;

/// Any value that a variable can hold. A copy shares what lies inside.
#[derive(Drop)]
pub enum Value {
    Null,
    Bool(bool),
    Int(i64),
    Text(Arc<String>),
    List(Arc<Weighed<Vec<Value>>>),
    Rec(Arc<Weighed<Fields>>),
    /// What may stand and may not be read, as a number that is no `i64`.
    Opaque,
}

/// The field of that name, or none where there is none.
pub fn field_of<'f>(fields: &'f Fields, name: &str) -> Option<&'f Value>
    ensures { option_map (λ v. view v.now) result
        ≡ field_value name.now (fields_view fields.now.entries) }
{
    fields.get(name)
}

/// Puts the value under that name, in place of what stood there.
///
/// # Errors
///
/// Want of memory.
pub fn put_field(fields: &mut Fields, name: String, value: Value) -> Result<(), AllocError>
    ensures { OnOk result (fields_view fields.new.entries
        ≡ put_field (string_bytes name) (view value) (fields_view fields.old.entries)) }
{
    drop(fields.insert(name, value)?);
    Ok(())
}

/// The items, out of the block that their copies share.
///
/// # Errors
///
/// Want of memory.
pub fn own_items(items: Arc<Weighed<Vec<Value>>>) -> Result<Vec<Value>, AllocError>
    ensures { IfOk result (λ own. items_view own.items ≡ items_view items.value.parts.items) }
{
    Ok(Arc::unwrap_or_clone(items)?.into_parts())
}

/// The fields, out of the block that their copies share.
///
/// # Errors
///
/// Want of memory.
pub fn own_fields(fields: Arc<Weighed<Fields>>) -> Result<Fields, AllocError>
    ensures { IfOk result (λ own. fields_view own.entries
        ≡ fields_view fields.value.parts.entries) }
{
    Ok(Arc::unwrap_or_clone(fields)?.into_parts())
}

impl Clone for Value {
    ghost is_clone = { λ v w. view w ≡ view v };

    fn clone(&self) -> Result<Value, AllocError> {
        match self {
            Value::Null => Ok(Value::Null),
            Value::Bool(b) => Ok(Value::Bool(*b)),
            Value::Int(n) => Ok(Value::Int(*n)),
            Value::Text(text) => Ok(Value::Text(text.clone()?)),
            Value::List(items) => Ok(Value::List(items.clone()?)),
            Value::Rec(fields) => Ok(Value::Rec(fields.clone()?)),
            Value::Opaque => Ok(Value::Opaque),
        }
    }
}

impl Value {
    /// A text, in a block that its copies share.
    pub fn of_text(alloc: Global, letters: String) -> Result<Value, AllocError>
        ensures { IfOk result (λ v. view v ≡ text (string_bytes letters)) }
    {
        Ok(Value::Text(Arc::new(alloc, letters)?))
    }

    /// A list, in a block that its copies share.
    ///
    /// # Errors
    ///
    /// Want of memory, also where it would weigh more than `MOST_VALUE` or nest too deep.
    pub fn of_items(alloc: Global, items: Vec<Value>) -> Result<Value, AllocError>
        ensures { IfOk result (λ v. view v ≡ list (items_view items.items)) }
    {
        Ok(Value::List(Arc::new(alloc, weighed_items(items)?)?))
    }

    /// A record, in a block that its copies share.
    ///
    /// # Errors
    ///
    /// Want of memory, also where it would weigh more than `MOST_VALUE` or nest too deep.
    pub fn of_fields(alloc: Global, fields: Fields) -> Result<Value, AllocError>
        ensures { IfOk result (λ v. view v ≡ rec (fields_view fields.entries)) }
    {
        Ok(Value::Rec(Arc::new(alloc, weighed_fields(fields)?)?))
    }

    /// The truth value, where it is one.
    pub fn as_bool(&self) -> Option<bool>
        ensures { result ≡ truth (view self.now) }
    {
        match self {
            Value::Bool(holds) => Some(*holds),
            _ => None,
        }
    }
}

// What is read off it: nothing below it is looked at.
fn weight(value: &Value) -> Weight
    ensures { result ≡ weight_of value.now }
{
    match value {
        Value::Text(text) => Weight::of_text(text.len()),
        Value::List(items) => items.weight(),
        Value::Rec(fields) => fields.weight(),
        _ => Weight::leaf(),
    }
}

fn weighed_items(items: Vec<Value>) -> Result<Weighed<Vec<Value>>, AllocError>
    ensures parts { IfOk result (λ w. w.parts ≡ items) }
    ensures weighs { IfOk result (λ w. w.weight ≡ above (items_onto nothing items.items)) }
    ensures within { IfOk result (λ w. IsWithin most_value_weight w.weight) }
{
    let weight = items_weight(&items)?.nest(MOST_VALUE)?;
    Ok(Weighed::new(weight, items))
}

fn items_weight(items: &[Value]) -> Result<Weight, AllocError>
    ensures { IfOk result (λ w. w ≡ items_onto nothing items.now) }
{
    let mut total = Weight::nothing();
    for item in items {
        total = total.with(weight(item), MOST_VALUE)?;
    }
    Ok(total)
}

fn weighed_fields(fields: Fields) -> Result<Weighed<Fields>, AllocError>
    ensures parts { IfOk result (λ w. w.parts ≡ fields) }
    ensures weighs { IfOk result (λ w. w.weight ≡ above (fields_onto nothing fields.entries)) }
    ensures within { IfOk result (λ w. IsWithin most_value_weight w.weight) }
{
    let weight = fields_weight(&fields)?.nest(MOST_VALUE)?;
    Ok(Weighed::new(weight, fields))
}

fn fields_weight(fields: &Fields) -> Result<Weight, AllocError>
    ensures { IfOk result (λ w. w ≡ fields_onto nothing fields.now.entries) }
{
    let mut total = Weight::nothing();
    for (name, value) in fields.iter() {
        let named = total.with(Weight::of_text(name.len()), MOST_VALUE)?;
        total = named.with(weight(value), MOST_VALUE)?;
    }
    Ok(total)
}
