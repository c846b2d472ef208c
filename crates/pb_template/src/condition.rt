// Conditions: truth values, texts that are expressions, and lists of these.
ghost use Rattle.std.specs.Prelude.{◌≡◌, Some};
ghost use Rattle.pb_language.specs.Expression.{no_expressions};
ghost use Rattle.pb_semantics.specs.Words.{Gives};
ghost use Rattle.pb_language.specs.Texts.{are_conditions, are_short_conditions, condition_in};
ghost use Rattle.pb_language.specs.Texts.{conditions_in, each_condition, has_conditions};
ghost use Rattle.pb_language.specs.Texts.{has_short_conditions, is_condition, is_short_condition};
ghost use Rattle.pb_language.specs.Texts.{with_item};
ghost use Rattle.pb_value.specs.Words.{items_view, view};
ghost use Rattle.pb_syntax.specs.Words.{expr_view, exprs_view};
ghost use Rattle.pb_template.specs.Faults.{refused};

use crate::fault::TemplateFault;
use crate::limits::MOST_EXPRESSION_BYTES;
use pb_syntax::{Expr, parse_expr};
use pb_value::Value;
use std::alloc::Global;

/// Whether the value has the form of conditions, whatever its texts say: a truth value, a text, or
/// a list of these.
pub fn are_conditions(value: &Value) -> bool
    ensures { result ≡ has_conditions (view value.now) }
{
    match value {
        Value::List(items) => is_each_condition(items),
        _ => is_condition(value),
    }
}

fn is_each_condition(items: &[Value]) -> bool
    ensures { result ≡ are_conditions (items_view items.now) }
{
    for item in items {
        if !is_condition(item) {
            return false;
        }
    }
    true
}

fn is_condition(value: &Value) -> bool
    ensures { result ≡ is_condition (view value.now) }
{
    matches!(value, Value::Bool(_) | Value::Text(_))
}

/// Whether none of the conditions is too long.
pub fn are_short_conditions(value: &Value) -> bool
    ensures { result ≡ has_short_conditions (view value.now) }
{
    match value {
        Value::List(items) => is_each_short(items),
        _ => is_short_condition(value),
    }
}

fn is_each_short(items: &[Value]) -> bool
    ensures { result ≡ are_short_conditions (items_view items.now) }
{
    for item in items {
        if !is_short_condition(item) {
            return false;
        }
    }
    true
}

fn is_short_condition(value: &Value) -> bool
    ensures { result ≡ is_short_condition (view value.now) }
{
    match value {
        Value::Text(text) => text.len() <= MOST_EXPRESSION_BYTES,
        _ => true,
    }
}

/// The conditions that a value lists, or is.
///
/// # Errors
///
/// Another value, a text that can't be read, or want of memory.
pub fn conditions_in(alloc: Global, value: &Value) -> Result<Vec<Expr>, TemplateFault>
    ensures { Gives (λ es. Some (exprs_view es.items)) refused result
        (conditions_in (view value.now)) }
{
    match value {
        Value::List(items) => each_condition(alloc, items),
        _ => lone_condition(alloc, value),
    }
}

fn lone_condition(alloc: Global, value: &Value) -> Result<Vec<Expr>, TemplateFault>
    ensures { Gives (λ es. Some (exprs_view es.items)) refused result
        (with_item (condition_in (view value.now)) (Some no_expressions)) }
{
    let condition = condition_in(alloc, value)?;
    Ok(vec![in alloc; condition]?)
}

fn each_condition(alloc: Global, items: &[Value]) -> Result<Vec<Expr>, TemplateFault>
    ensures { Gives (λ es. Some (exprs_view es.items)) refused result
        (each_condition (items_view items.now)) }
{
    let mut conditions = Vec::with_capacity(alloc, items.len())?;
    for item in items {
        conditions.push(condition_in(alloc, item)?)?;
    }
    Ok(conditions)
}

fn condition_in(alloc: Global, value: &Value) -> Result<Expr, TemplateFault>
    ensures { Gives (λ e. Some (expr_view e)) refused result (condition_in (view value.now)) }
{
    match value {
        Value::Bool(holds) => Ok(Expr::Literal(Value::Bool(*holds))),
        Value::Text(text) => Ok(parse_expr(alloc, text.as_str())?),
        _ => Err(TemplateFault::Unreadable),
    }
}
