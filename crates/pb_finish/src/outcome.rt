// How a task ended: its statuses, the variables that it writes, and the text of its failure.
ghost use Rattle.std.specs.Prelude.{◌&&◌, ◌≡◌, IfOk, None, OnOk, Option, Some, codes, cond};
ghost use Rattle.std.specs.Prelude.{is_some, map, not, option_map, string_bytes};
ghost use Rattle.pb_semantics.specs.Words.{Fields as FieldsData, field_value, list, put_all, rec};
ghost use Rattle.pb_language.specs.Give.{all_hold, all_skipped, any_changed, any_failed};
ghost use Rattle.pb_language.specs.Give.{first_fields, looped_fields, message_of};
ghost use Rattle.pb_language.specs.Give.{registered_fields, result_items, with_all_sets};
ghost use Rattle.pb_language.specs.Give.{with_change, with_changes};
ghost use Rattle.pb_language.specs.Task.{Task};
ghost use Rattle.pb_language.specs.Words.{Expression, all_changes};
ghost use Rattle.pb_value.specs.Words.{fields_view, view};
ghost use Rattle.pb_start.specs.Words.{Prepares};
ghost use Rattle.pb_finish.specs.Endings.{IsOutcome, final_view, text_in, written};
ghost use Rattle.pb_finish.specs.Results.{assignments_view, changes_view};

use crate::assignments::{Assignment, Assignments};
use crate::statuses::{FinalResult, is_skipped};
use pb_start::{Prepared, put_value};
use pb_value::{Fields, Value, field_of};
use std::alloc::{AllocError, Global};
use std::sync::Arc;

/// How a task ended.
#[derive(Drop)]
pub struct Outcome {
    pub changed: bool,
    pub failed: bool,
    /// Every item was skipped.
    pub skipped: bool,
    /// The variables that it writes, one after the other, the registered one first.
    pub writes: Vec<(String, Value)>,
    /// The text of its failure, where that isn't ignored.
    pub failure: Option<Arc<String>>,
}

// How the task ended with these results.
//
// # Errors
//
// Want of memory.
pub(crate) fn outcome_of(
    alloc: Global,
    prepared: &Prepared,
    results: &[FinalResult],
) -> Result<Outcome, AllocError>
    ensures { IfOk result (λ o. (t : Task) → Prepares prepared.now t
        → IsOutcome o t (map final_view results.now)) }
{
    let changed = any_changed(results);
    let failed = any_failed(results);
    let skipped = all_skipped(results);
    let fails = is_failing(prepared, failed);
    let writes = writes_of(alloc, prepared, results, fails)?;
    let failure = failure_of(alloc, prepared, results, fails)?;
    Ok(Outcome {
        changed,
        failed,
        skipped,
        writes,
        failure,
    })
}

fn is_failing(prepared: &Prepared, failed: bool) -> bool
    ensures { result ≡ (failed && not prepared.now.ignores) }
{
    failed && !prepared.ignores
}

// Whether `until` holds of each result.
pub(crate) fn until_holds(results: &[FinalResult]) -> bool
    ensures { result ≡ all_hold (map final_view results.now) }
{
    for item in results {
        if !item.holds {
            return false;
        }
    }
    true
}

fn any_changed(results: &[FinalResult]) -> bool
    ensures { result ≡ any_changed (map final_view results.now) }
{
    for item in results {
        if item.changed {
            return true;
        }
    }
    false
}

fn any_failed(results: &[FinalResult]) -> bool
    ensures { result ≡ any_failed (map final_view results.now) }
{
    for item in results {
        if item.failed {
            return true;
        }
    }
    false
}

fn all_skipped(results: &[FinalResult]) -> bool
    ensures { result ≡ all_skipped (map final_view results.now) }
{
    for item in results {
        if !is_skipped(item.shape) {
            return false;
        }
    }
    true
}

// The result under the name that the task registers, and where it doesn't fail what it sets.
fn writes_of(
    alloc: Global,
    prepared: &Prepared,
    results: &[FinalResult],
    fails: bool,
) -> Result<Vec<(String, Value)>, AllocError>
    ensures { IfOk result (λ ws. (l : Option Expression) (vars : FieldsData)
        → is_some l ≡ is_some prepared.now.loop_over → put_all (fields_view ws.items) vars
        ≡ written (option_map (λ n. string_bytes n.value) prepared.now.register) l fails
        (map final_view results.now) vars) }
{
    let mut writes = Vec::new(alloc);
    if let Some(register) = &prepared.register {
        let name = register.as_ref().clone()?;
        let value = registered(alloc, prepared.loop_over.is_some(), results)?;
        writes.push((name, value))?;
    }
    if !fails {
        add_results(&mut writes, results)?;
    }
    Ok(writes)
}

fn add_results(writes: &mut Vec<(String, Value)>, results: &[FinalResult]) -> Result<(), AllocError>
    ensures { OnOk result ((vars : FieldsData) → put_all (fields_view writes.new.items) vars
        ≡ with_all_sets (map final_view results.now)
        (put_all (fields_view writes.old.items) vars)) }
{
    for item in results {
        add_assignments(writes, &item.assigns)?;
    }
    Ok(())
}

fn add_assignments(
    writes: &mut Vec<(String, Value)>,
    assigns: &Assignments,
) -> Result<(), AllocError>
    ensures { OnOk result ((vars : FieldsData) → put_all (fields_view writes.new.items) vars
        ≡ with_changes (assignments_view assigns.now)
        (put_all (fields_view writes.old.items) vars)) }
{
    match assigns {
        Assignments::Nothing => Ok(()),
        Assignments::Facts(facts) => add_facts(writes, facts),
        Assignments::Gathered(facts) => add_gathered(writes, facts),
    }
}

// With those that have a value.
fn add_gathered(writes: &mut Vec<(String, Value)>, facts: &[Assignment]) -> Result<(), AllocError>
    ensures { OnOk result ((vars : FieldsData) → put_all (fields_view writes.new.items) vars
        ≡ with_changes (changes_view facts.now) (put_all (fields_view writes.old.items) vars)) }
{
    for fact in facts {
        add_assignment(writes, fact)?;
    }
    Ok(())
}

fn add_assignment(
    writes: &mut Vec<(String, Value)>,
    assigned: &Assignment,
) -> Result<(), AllocError>
    ensures { OnOk result ((vars : FieldsData) → put_all (fields_view writes.new.items) vars
        ≡ with_change (string_bytes assigned.now.name) (option_map view assigned.now.value)
        (put_all (fields_view writes.old.items) vars)) }
{
    match &assigned.value {
        Some(value) => {
            let name = assigned.name.clone()?;
            let copy = value.clone()?;
            writes.push((name, copy))?;
            Ok(())
        }
        None => Ok(()),
    }
}

fn add_facts(writes: &mut Vec<(String, Value)>, facts: &Fields) -> Result<(), AllocError>
    ensures { OnOk result ((vars : FieldsData) → put_all (fields_view writes.new.items) vars
        ≡ with_changes (all_changes (fields_view facts.now.entries))
        (put_all (fields_view writes.old.items) vars)) }
{
    for (name, value) in facts.iter() {
        writes.push((name.clone()?, value.clone()?))?;
    }
    Ok(())
}

// What the task registers: the result, or of a loop a record of all results.
fn registered(alloc: Global, looped: bool, results: &[FinalResult]) -> Result<Value, AllocError>
    ensures { IfOk result (λ v. (l : Option Expression) → is_some l ≡ looped
        → view v ≡ rec (registered_fields l (map final_view results.now))) }
{
    if looped {
        return looped_result(alloc, results);
    }
    match results.first() {
        Some(item) => Ok(Value::Rec(item.fields.clone()?)),
        None => Value::of_fields(alloc, Fields::new(alloc)),
    }
}

fn looped_result(alloc: Global, results: &[FinalResult]) -> Result<Value, AllocError>
    ensures { IfOk result (λ v. view v ≡ rec (looped_fields (map final_view results.now))) }
{
    let items = items_of(alloc, results)?;
    let mut fields = Fields::new(alloc);
    put_value(
        alloc,
        &mut fields,
        "changed",
        Value::Bool(any_changed(results)),
    )?;
    put_value(
        alloc,
        &mut fields,
        "failed",
        Value::Bool(any_failed(results)),
    )?;
    put_value(alloc, &mut fields, "results", items)?;
    put_value(
        alloc,
        &mut fields,
        "skipped",
        Value::Bool(all_skipped(results)),
    )?;
    Value::of_fields(alloc, fields)
}

fn items_of(alloc: Global, results: &[FinalResult]) -> Result<Value, AllocError>
    ensures { IfOk result (λ v. view v ≡ list (result_items (map final_view results.now))) }
{
    let mut items = Vec::with_capacity(alloc, results.len())?;
    for item in results {
        items.push(Value::Rec(item.fields.clone()?))?;
    }
    Value::of_items(alloc, items)
}

// The text of the failure, where the task fails.
fn failure_of(
    alloc: Global,
    prepared: &Prepared,
    results: &[FinalResult],
    fails: bool,
) -> Result<Option<Arc<String>>, AllocError>
    ensures { IfOk result (λ s. (l : Option Expression)
        → is_some l ≡ is_some prepared.now.loop_over → option_map (λ m. string_bytes m.value) s
        ≡ cond fails (Some (message_of l (map final_view results.now))) None) }
{
    if !fails {
        return Ok(None);
    }
    if prepared.loop_over.is_some() {
        let all = shared_text(alloc, "One or more items failed")?;
        return Ok(Some(all));
    }
    let message = message_of(alloc, results)?;
    Ok(Some(message))
}

// The text of the failure of a task without a loop.
fn message_of(alloc: Global, results: &[FinalResult]) -> Result<Arc<String>, AllocError>
    ensures { IfOk result (λ m. string_bytes m.value
        ≡ message_of None (map final_view results.now)) }
{
    match message_in(results) {
        Some(message) => message.clone(),
        None => shared_text(alloc, reason_of(until_holds(results))),
    }
}

// Why a task without a message failed.
fn reason_of(held: bool) -> &'static str
    ensures { result.now ≡ cond held (codes "failed_when condition was true")
        (codes "until condition was not met") }
{
    if held {
        "failed_when condition was true"
    } else {
        "until condition was not met"
    }
}

// The text of the first result's message, where it has one.
fn message_in(results: &[FinalResult]) -> Option<&Arc<String>>
    ensures { option_map (λ m. string_bytes m.now.value) result
        ≡ text_in (field_value (codes "msg") (first_fields (map final_view results.now))) }
{
    match results.first() {
        Some(item) => message_among(&item.fields),
        None => None,
    }
}

fn message_among(fields: &Fields) -> Option<&Arc<String>>
    ensures { option_map (λ m. string_bytes m.now.value) result
        ≡ text_in (field_value (codes "msg") (fields_view fields.now.entries)) }
{
    as_text(field_of(fields, "msg"))
}

fn as_text(value: Option<&Value>) -> Option<&Arc<String>>
    ensures { option_map (λ m. string_bytes m.now.value) result
        ≡ text_in (option_map (λ v. view v.now) value.entry) }
{
    match value {
        Some(Value::Text(letters)) => Some(letters),
        _ => None,
    }
}

fn shared_text(alloc: Global, letters: &str) -> Result<Arc<String>, AllocError>
    ensures { IfOk result (λ m. string_bytes m.value ≡ letters.now) }
{
    Ok(Arc::new(alloc, String::from_str(alloc, letters)?)?)
}
