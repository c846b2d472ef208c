// The value of an expression.
ghost use Rattle.std.specs.Prelude.{[], ◌≡◌, IfOk, MatchOption, false, is_some, true};
ghost use Rattle.pb_semantics.specs.Words.{field_value, is_part, list};
ghost use Rattle.pb_language.specs.Evaluation.{is_there as there_found, look, then_go};
ghost use Rattle.pb_language.specs.Expansion.{all_expanded, expanded, expanded_root};
ghost use Rattle.pb_language.specs.Expansion.{parts_expanded};
ghost use Rattle.pb_language.specs.Expression.{defined, path_status};
ghost use Rattle.pb_language.specs.Words.{eval as outcome_of, eval_all, eval_any, eval_items};
ghost use Rattle.pb_language.specs.Words.{eval_parts, eval_text, found_in, is_unreadable, path_or};
ghost use Rattle.pb_language.specs.Words.{read, status_of as status_found};
ghost use Rattle.pb_value.specs.Words.{fields_view, items_view, view};
ghost use Rattle.pb_syntax.specs.ExprView.{expr_view, exprs_view, names_of, parts_view};
ghost use Rattle.pb_syntax.specs.ExprView.{root_view, status_view};
ghost use Rattle.pb_eval.specs.OwnWorld.{look_view, shown};

use crate::equal::{has_item, holds_opaque, items_hold_opaque};
use crate::filter::{append, comparison_of, is_plain, joined, length_of, negation_of, status_of};
use crate::look::{Look, activity_of, look_at};
use crate::vars::Vars;
use pb_syntax::{Expr, Path, Status};
use pb_value::{Fields, Value, field_of, put_field};
use std::alloc::{AllocError, Global};
use std::collections::BTreeMap;

/// The value of an expression, which shares what it can with the variables and the expression.
///
/// It is to be asked of a fit expression. One that has no value, as one that reads a name that
/// holds nothing, is `Opaque`, which is what may not be read. A name of `vars` stands for what its
/// tree is worth.
#[cycle(eval)]
pub fn eval<V: Vars>(alloc: Global, expr: &Expr, vars: &V) -> Result<Value, AllocError>
    ensures { IfOk result (λ v. view v ≡ shown (outcome_of (V.world vars.now)
        (expanded (V.trees vars.now) (expr_view expr.now)))) }
{
    match expr {
        Expr::Literal(known) => known.clone(),
        Expr::Path(path) => value_of_path(alloc, path, vars),
        Expr::Hostvars(_) => Ok(Value::Opaque),
        Expr::Not(operand) => Ok(negation_of(eval(alloc, operand, vars)?)),
        Expr::And(operands) => all_of(alloc, operands, vars),
        Expr::Or(operands) => any_of(alloc, operands, vars),
        Expr::Compare(comparison, left, right) => {
            let left = eval(alloc, left, vars)?;
            Ok(comparison_of(*comparison, pair_of(alloc, right, vars, left)?))
        }
        Expr::In(part, whole) => {
            let part = eval(alloc, part, vars)?;
            Ok(membership_of(pair_of(alloc, whole, vars, part)?))
        }
        Expr::InBatch(host) => Ok(activity_of(host, vars)),
        Expr::Defined(path) => is_defined(alloc, path, vars),
        Expr::Undefinable(_) => Ok(Value::Opaque),
        Expr::PathStatus(status, path) => status_at(alloc, *status, path, vars),
        Expr::Status(status, of) => Ok(status_of(*status, &eval(alloc, of, vars)?)),
        Expr::PathOr(path, other) => value_or(alloc, path, other, vars),
        Expr::ValueOr(value, _) => eval(alloc, value, vars),
        Expr::Length(of) => Ok(length_of(&eval(alloc, of, vars)?)),
        Expr::Join(items, between) => {
            let items = eval(alloc, items, vars)?;
            joined(alloc, pair_of(alloc, between, vars, items)?)
        }
        Expr::Concat(parts) => text_of(alloc, parts, vars),
        Expr::List(items) => list_of(alloc, items, vars),
        Expr::Record(fields) => record_of(alloc, fields, vars),
    }
}

// The left operand's value, and the right one's.
#[cycle(eval)]
fn pair_of<V: Vars>(
    alloc: Global,
    right: &Expr,
    vars: &V,
    left: Value,
) -> Result<(Value, Value), AllocError>
    ensures left { IfOk result (λ v. v.0 ≡ left) }
    ensures right { IfOk result
        (λ v. view v.1 ≡ shown (outcome_of (V.world vars.now)
        (expanded (V.trees vars.now) (expr_view right.now)))) }
{
    let right = eval(alloc, right, vars)?;
    Ok((left, right))
}

#[cycle(eval)]
fn all_of<V: Vars>(alloc: Global, operands: &[Expr], vars: &V) -> Result<Value, AllocError>
    ensures { IfOk result (λ v. view v
        ≡ shown (eval_all (V.world vars.now)
        (all_expanded (V.trees vars.now) (exprs_view operands.now)))) }
{
    for operand in operands {
        let found = eval(alloc, operand, vars)?;
        match found.as_bool() {
            Some(true) => {}
            Some(false) => return Ok(Value::Bool(false)),
            None => return Ok(Value::Opaque),
        }
    }
    Ok(Value::Bool(true))
}

#[cycle(eval)]
fn any_of<V: Vars>(alloc: Global, operands: &[Expr], vars: &V) -> Result<Value, AllocError>
    ensures { IfOk result (λ v. view v
        ≡ shown (eval_any (V.world vars.now)
        (all_expanded (V.trees vars.now) (exprs_view operands.now)))) }
{
    for operand in operands {
        let found = eval(alloc, operand, vars)?;
        match found.as_bool() {
            Some(false) => {}
            Some(true) => return Ok(Value::Bool(true)),
            None => return Ok(Value::Opaque),
        }
    }
    Ok(Value::Bool(false))
}

#[cycle(eval)]
fn list_of<V: Vars>(alloc: Global, items: &[Expr], vars: &V) -> Result<Value, AllocError>
    ensures { IfOk result (λ v. view v
        ≡ shown (eval_items (V.world vars.now)
        (all_expanded (V.trees vars.now) (exprs_view items.now)))) }
{
    let mut values = Vec::new(alloc);
    for item in items {
        let found = eval(alloc, item, vars)?;
        match readable(found) {
            Some(found) => values.push(found)?,
            None => return Ok(Value::Opaque),
        }
    }
    Value::of_items(alloc, values)
}

/// The record of the expressions' values, by their names; opaque where one of them may not be read.
///
/// # Errors
///
/// Want of memory.
#[cycle(eval)]
pub fn record_of<V: Vars>(
    alloc: Global,
    fields: &BTreeMap<String, Expr>,
    vars: &V,
) -> Result<Value, AllocError>
    ensures { IfOk result (λ v. view v
        ≡ shown (eval_parts (V.world vars.now)
        (parts_expanded (V.trees vars.now) (parts_view fields.now.entries)))) }
{
    let mut values = BTreeMap::new(alloc);
    for (name, field) in fields.iter() {
        let found = eval(alloc, field, vars)?;
        match readable(found) {
            Some(found) => put_field(&mut values, name.clone()?, found)?,
            None => return Ok(Value::Opaque),
        }
    }
    Value::of_fields(alloc, values)
}

// The value at the end of the path, else that of the other.
#[cycle(eval)]
fn value_or<V: Vars>(
    alloc: Global,
    path: &Path,
    other: &Expr,
    vars: &V,
) -> Result<Value, AllocError>
    ensures { IfOk result (λ v. view v ≡ shown (outcome_of (V.world vars.now)
        (expanded (V.trees vars.now) (path_or (root_view path.now.root)
        (names_of path.now.steps.items) (expr_view other.now))))) }
{
    match look_at(alloc, path, vars)? {
        Look::There(value) => Ok(value),
        Look::Absent => eval(alloc, other, vars),
        Look::Failing => Ok(Value::Opaque),
    }
}

// The text of all parts.
#[cycle(eval)]
fn text_of<V: Vars>(alloc: Global, parts: &[Expr], vars: &V) -> Result<Value, AllocError>
    ensures { IfOk result (λ v. view v
        ≡ shown (eval_text (V.world vars.now)
        (all_expanded (V.trees vars.now) (exprs_view parts.now)))) }
{
    let mut text = String::new(alloc);
    for part in parts {
        let found = eval(alloc, part, vars)?;
        if !is_plain(&found) {
            return Ok(Value::Opaque);
        }
        append(alloc, &mut text, &found)?;
    }
    Value::of_text(alloc, text)
}

fn value_of_path<V: Vars>(alloc: Global, path: &Path, vars: &V) -> Result<Value, AllocError>
    ensures { IfOk result (λ v. view v ≡ shown (read (names_of path.now.steps.items)
        (look (V.world vars.now)
        (expanded_root (V.trees vars.now) (root_view path.now.root))))) }
{
    Ok(value_there(look_at(alloc, path, vars)?))
}

fn value_there(end: Look) -> Value
    ensures { view result ≡ shown (read [] (look_view end)) }
{
    match end {
        Look::There(value) => value,
        Look::Absent | Look::Failing => Value::Opaque,
    }
}

// Whether a value stands at the end of the path.
fn is_defined<V: Vars>(alloc: Global, path: &Path, vars: &V) -> Result<Value, AllocError>
    ensures { IfOk result (λ v. view v ≡ shown (outcome_of (V.world vars.now)
        (expanded (V.trees vars.now)
        (defined (root_view path.now.root) (names_of path.now.steps.items))))) }
{
    Ok(is_there(&look_at(alloc, path, vars)?))
}

fn is_there(end: &Look) -> Value
    ensures { view result ≡ shown (there_found [] (look_view end.now)) }
{
    match end {
        Look::There(_) => Value::Bool(true),
        Look::Absent => Value::Bool(false),
        Look::Failing => Value::Opaque,
    }
}

// What the test says of the value at the end of the path.
fn status_at<V: Vars>(
    alloc: Global,
    status: Status,
    path: &Path,
    vars: &V,
) -> Result<Value, AllocError>
    ensures { IfOk result (λ v. view v ≡ shown (outcome_of (V.world vars.now)
        (expanded (V.trees vars.now) (path_status (status_view status)
        (root_view path.now.root) (names_of path.now.steps.items))))) }
{
    Ok(status_there(status, &look_at(alloc, path, vars)?))
}

fn status_there(status: Status, end: &Look) -> Value
    ensures { view result
        ≡ shown (then_go (read [] (look_view end.now)) (status_found (status_view status))) }
{
    match end {
        Look::There(value) => status_of(status, value),
        Look::Absent | Look::Failing => Value::Opaque,
    }
}

// A value that may be read.
fn readable(found: Value) -> Option<Value>
    ensures { MatchOption result
        (is_unreadable (view found) ≡ true)
        (λ v. (view v ≡ view found) × (is_unreadable (view v) ≡ false)) }
{
    match found {
        Value::Opaque => None,
        found => Some(found),
    }
}

fn membership_of(operands: (Value, Value)) -> Value
    ensures { view result ≡ shown (found_in (view operands.0) (view operands.1)) }
{
    membership(&operands.0, &operands.1)
}

// Whether the first value is in the second: an equal item, a part of the text or a field there.
fn membership(part: &Value, whole: &Value) -> Value
    ensures { view result ≡ shown (found_in (view part.now) (view whole.now)) }
{
    match (part, whole) {
        (_, Value::List(items)) => membership_in(part, items),
        (Value::Text(part), Value::Text(text)) => Value::Bool(has_part(
            text.as_str(),
            part.as_str(),
        )),
        (Value::Text(name), Value::Rec(fields)) => Value::Bool(has_field(fields, name.as_str())),
        _ => Value::Opaque,
    }
}

fn membership_in(part: &Value, items: &[Value]) -> Value
    ensures { view result ≡ shown (found_in (view part.now) (list (items_view items.now))) }
{
    if holds_opaque(part) || items_hold_opaque(items) {
        return Value::Opaque;
    }
    Value::Bool(has_item(items, part))
}

fn has_part(text: &str, part: &str) -> bool
    ensures { result ≡ is_part part.now text.now }
{
    text.contains(part)
}

fn has_field(fields: &Fields, name: &str) -> bool
    ensures { result ≡ is_some (field_value name.now (fields_view fields.now.entries)) }
{
    field_of(fields, name).is_some()
}
