// The results of a task's items with their final statuses.
ghost use Rattle.std.specs.Prelude.{◌≡◌, IfOk, Some, map, option_map, string_bytes, true};
ghost use Rattle.pb_semantics.specs.Words.{boolean, field_value, flag_is, put_field};
ghost use Rattle.pb_semantics.specs.Kind.{is_skipped};
ghost use Rattle.pb_language.specs.Expansion.{all_expanded};
ghost use Rattle.pb_language.specs.Give.{end_all, end_own, ended_with, judged_world, keyword_of};
ghost use Rattle.pb_language.specs.Give.{own_world, result_world, until_of, with_ended};
ghost use Rattle.pb_language.specs.Give.{with_own_field, with_status, with_statuses};
ghost use Rattle.pb_language.specs.Plays.{expanded_list};
ghost use Rattle.pb_language.specs.Task.{Task};
ghost use Rattle.pb_language.specs.Words.{World, eval_all};
ghost use Rattle.pb_kind.specs.Words.{shape_view};
ghost use Rattle.pb_value.specs.Words.{fields_view, view};
ghost use Rattle.pb_syntax.specs.Words.{exprs_view};
ghost use Rattle.pb_start.specs.Words.{Prepares, block_fields, trees_of, world_with};
ghost use Rattle.pb_finish.specs.Endings.{AreEnded, IsEnded, IsFlag, final_view};
ghost use Rattle.pb_finish.specs.Results.{result_view};

use crate::admission::ItemResult;
use crate::assignments::Assignments;
use pb_eval::{Vars, values_of};
use pb_kind::Shape;
use pb_start::{Local, Prepared, all_hold, is_so, put_value, record_of};
use pb_syntax::Expr;
use pb_value::{Fields, Value, Weighed, field_of};
use std::alloc::{AllocError, Global};
use std::sync::Arc;

/// The result of an item with its final statuses.
#[derive(Drop)]
pub struct FinalResult {
    pub shape: Shape,
    pub fields: Arc<Weighed<Fields>>,
    pub assigns: Assignments,
    pub changed: bool,
    pub failed: bool,
    /// What `until` says of it.
    pub holds: bool,
}

// The results with what `changed_when`, `failed_when` and `until` say of each that wasn't
// skipped, in the world of the Start.
//
// # Errors
//
// Want of memory.
pub(crate) fn end_results<V: Vars>(
    alloc: Global,
    prepared: &Prepared,
    results: Vec<ItemResult>,
    vars: &V,
) -> Result<Vec<FinalResult>, AllocError>
    ensures { IfOk result (λ es. (t : Task) → Prepares prepared.now t
        → AreEnded es.items (end_all (V.world vars.now) t (map result_view results.items))) }
{
    let mut all = Vec::with_capacity(alloc, results.len())?;
    for item in results {
        let ended = end_result(alloc, prepared, item, vars)?;
        all.push(ended)?;
    }
    Ok(all)
}

fn end_result<V: Vars>(
    alloc: Global,
    prepared: &Prepared,
    item: ItemResult,
    vars: &V,
) -> Result<FinalResult, AllocError>
    ensures { IfOk result (λ e. (t : Task) → Prepares prepared.now t
        → IsEnded e (end_own (V.world vars.now) t (result_view item))) }
{
    if is_skipped(item.shape) {
        return end_with(alloc, item, false, false, true);
    }
    let changed = keyword_says(
        alloc,
        prepared,
        &prepared.changed_when,
        &item,
        "changed",
        vars,
    )?;
    let failed = keyword_says(
        alloc,
        prepared,
        &prepared.failed_when,
        &item,
        "failed",
        vars,
    )?;
    ask_until(alloc, prepared, item, changed, failed, vars)
}

// With what `until` says of the result, which it sees with its statuses.
fn ask_until<V: Vars>(
    alloc: Global,
    prepared: &Prepared,
    item: ItemResult,
    changed: bool,
    failed: bool,
    vars: &V,
) -> Result<FinalResult, AllocError>
    ensures { IfOk result (λ e. (t : Task) → Prepares prepared.now t
        → IsEnded e (λ rs. with_status
        (until_of (judged_world (V.world vars.now) t (result_view item) changed failed) t.attempts)
        (λ u. with_ended (ended_with (result_view item) changed failed u) rs))) }
{
    match &prepared.attempts {
        None => end_with(alloc, item, changed, failed, true),
        Some(attempts) => {
            let fields = with_statuses(alloc, changed, failed, &item.fields)?;
            let holds = conditions_hold(
                alloc,
                prepared,
                &attempts.until,
                &item.item,
                &fields,
                vars,
            )?;
            Ok(FinalResult {
                shape: item.shape,
                fields,
                assigns: item.assigns,
                changed,
                failed,
                holds,
            })
        }
    }
}

// What the keyword says of the result, or without it the field.
fn keyword_says<V: Vars>(
    alloc: Global,
    prepared: &Prepared,
    keyword: &Option<Vec<Expr>>,
    item: &ItemResult,
    name: &str,
    vars: &V,
) -> Result<bool, AllocError>
    ensures { IfOk result (λ b. (t : Task) → Prepares prepared.now t
        → IsFlag b (keyword_of (own_world (V.world vars.now) t (result_view item.now))
        (expanded_list (trees_of prepared.now)
        (option_map (λ es. exprs_view es.items) keyword.now))
        (flag_is true (field_value name.now (block_fields item.now.fields))))) }
{
    match keyword {
        Some(conditions) => {
            conditions_hold(alloc, prepared, conditions, &item.item, &item.fields, vars)
        }
        None => Ok(is_true(field_of(&item.fields, name))),
    }
}

fn is_true(flag: Option<&Value>) -> bool
    ensures { result ≡ flag_is true (option_map (λ v. view v.now) flag.entry) }
{
    is_flag(flag, true)
}

// Whether the conditions hold where the item's own result stands under the name that the task
// registers.
fn conditions_hold<V: Vars>(
    alloc: Global,
    prepared: &Prepared,
    conditions: &[Expr],
    item: &Option<Value>,
    fields: &Arc<Weighed<Fields>>,
    vars: &V,
) -> Result<bool, AllocError>
    ensures { IfOk result (λ b. (t : Task) → Prepares prepared.now t
        → IsFlag b (eval_all (result_world (V.world vars.now) t
        (option_map view item.now) (block_fields fields.now))
        (all_expanded (trees_of prepared.now) (exprs_view conditions.now)))) }
{
    let result = Value::Rec(fields.clone()?);
    let local = Local {
        vars,
        name: "item",
        value: item.as_ref(),
    };
    let own = with_register(&local, &prepared.register, &result);
    let known = values_of(alloc, &prepared.names, &own)?;
    let found = all_hold(alloc, conditions, &known)?;
    Ok(is_so(found))
}

// The world in which the result stands under the name that is registered, where there is one.
fn with_register<'v, W: Vars>(
    vars: &'v W,
    register: &'v Option<Arc<String>>,
    own: &'v Value,
) -> Local<'v, W>
    ensures world { result.vars ≡ vars.entry }
    ensures value { (w : World) → world_with result.name.now
        (option_map (λ v. view v.now) result.value) w
        ≡ record w {
          mine = with_own_field (option_map (λ n. string_bytes n.value) register.now)
              (view own.now) w.mine;
        } }
{
    match register {
        Some(name) => Local {
            vars,
            name: name.as_str(),
            value: Some(own),
        },
        None => Local {
            vars,
            name: "",
            value: None,
        },
    }
}

fn end_with(
    alloc: Global,
    item: ItemResult,
    changed: bool,
    failed: bool,
    holds: bool,
) -> Result<FinalResult, AllocError>
    ensures { IfOk result (λ e. final_view e
        ≡ ended_with (result_view item) changed failed holds) }
{
    let fields = with_statuses(alloc, changed, failed, &item.fields)?;
    Ok(FinalResult {
        shape: item.shape,
        fields,
        assigns: item.assigns,
        changed,
        failed,
        holds,
    })
}

// The fields with these statuses; where they say so already, the same block.
//
// # Errors
//
// Want of memory.
pub(crate) fn with_statuses(
    alloc: Global,
    changed: bool,
    failed: bool,
    fields: &Arc<Weighed<Fields>>,
) -> Result<Arc<Weighed<Fields>>, AllocError>
    ensures { IfOk result (λ r. block_fields r
        ≡ with_statuses changed failed (block_fields fields.now)) }
{
    if has_flag(fields, "changed", changed) && has_flag(fields, "failed", failed) {
        return fields.clone();
    }
    let mut fields = copy_fields(fields)?;
    put_value(alloc, &mut fields, "changed", Value::Bool(changed))?;
    put_value(alloc, &mut fields, "failed", Value::Bool(failed))?;
    record_of(alloc, fields)
}

fn copy_fields(fields: &Fields) -> Result<Fields, AllocError>
    ensures { IfOk result (λ m. fields_view m.entries ≡ fields_view fields.now.entries) }
{
    Ok(fields.clone()?)
}

// Whether that flag stands there, so that it may as well be put in.
fn has_flag(fields: &Fields, name: &str, flag: bool) -> bool
    ensures { result ≡ true → put_field name.now (boolean flag) (fields_view fields.now.entries)
        ≡ fields_view fields.now.entries }
{
    // only for the order of the names
    let _ = fields.iter();
    is_flag(field_of(fields, name), flag)
}

fn is_flag(value: Option<&Value>, flag: bool) -> bool
    ensures { result ≡ flag_is flag (option_map (λ v. view v.now) value.entry) }
{
    match value {
        Some(Value::Bool(there)) => *there == flag,
        _ => false,
    }
}

// Whether a condition was false.
pub(crate) fn is_skipped(shape: Shape) -> bool
    ensures { result ≡ is_skipped (shape_view shape) }
{
    match shape {
        Shape::Ok | Shape::Failure => false,
        Shape::Skipped => true,
    }
}
