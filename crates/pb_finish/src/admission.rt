// The results of a task's items, as their answers are admitted.
ghost use Rattle.std.specs.Prelude.{◌≡◌, IfOk, Some, cond, drop, map, option_map};
ghost use Rattle.pb_semantics.specs.Words.{ModuleData, admission, ok_shape};
ghost use Rattle.pb_semantics.specs.Admission.{failed, taken};
ghost use Rattle.pb_language.specs.Give.{Admitted as AdmittedData, acted, admit_passes, own_of};
ghost use Rattle.pb_language.specs.Give.{set_by_answer, with_own};
ghost use Rattle.pb_language.specs.Start.{no_changes, unchanged_with};
ghost use Rattle.pb_kind.specs.Words.{shape_view};
ghost use Rattle.pb_value.specs.Words.{fields_view, view};
ghost use Rattle.pb_syntax.specs.Words.{Trees};
ghost use Rattle.pb_sig.specs.Words.{known_view};
ghost use Rattle.pb_start.specs.Words.{action_view, block_fields, entry_view, pass_view};
ghost use Rattle.pb_start.specs.Words.{shape_of};
ghost use Rattle.pb_finish.specs.Answers.{answer_data, first_of};
ghost use Rattle.pb_finish.specs.Results.{AllExplained, Explains, IsAdmitted, IsCallAdmitted};
ghost use Rattle.pb_finish.specs.Results.{admitted_view, assignments_view, is_call_entry};
ghost use Rattle.pb_finish.specs.Results.{own_with, put_item, put_result, result_view};

use crate::answer::{Answer, AnswerFault, Breach};
use crate::assignments::Assignments;
use crate::fixed::{Fixed, status_fields};
use crate::gathered::{gather_facts, record_in};
use pb_kind::Shape;
use pb_sig::{Admission, Known, admit};
use pb_start::{Action, Entry, Pass, put_value, record_of};
use pb_value::{Fields, Value, Weighed};
use std::alloc::{AllocError, Global};
use std::sync::Arc;

/// The result of an item, and what it sets.
#[derive(Drop)]
pub struct ItemResult {
    pub item: Option<Value>,
    pub shape: Shape,
    pub fields: Arc<Weighed<Fields>>,
    pub assigns: Assignments,
}

// What is made of the answers to a task's calls.
#[derive(Drop)]
pub(crate) enum Admitted {
    /// The result of each item.
    Results(Vec<ItemResult>),
    Breached(Breach),
    Unreached,
}

// What is made of one item and its answer.
#[derive(Drop)]
pub(crate) enum AdmittedItem {
    Result(ItemResult),
    Breached(AnswerFault),
    Unreached,
}

// What is made of the answers to the calls of these passes, in their order: the first breach or
// unreachable answer decides, and a missing answer is a breach. Those past the calls are never
// looked at.
pub(crate) fn admit_answers(
    alloc: Global,
    action: &Action,
    passes: &[Pass],
    answers: &[Answer],
    fixed: &Fixed,
) -> Result<Admitted, AllocError>
    ensures admits { IfOk result (λ a. (f : Trees) → admitted_view a ≡ admit_passes
        (action_view f action.now) (map pass_view passes.now) (map answer_data answers.now)) }
    ensures explains { IfOk result (λ a. (f : Trees) → AllExplained a
        (action_view f action.now) (map pass_view passes.now) answers.now) }
{
    let mut results = Vec::with_capacity(alloc, passes.len())?;
    let mut next = 0;
    for pass in passes {
        let admitted = admit_pass(alloc, action, pass, answer_at(answers, next), fixed)?;
        match admitted {
            AdmittedItem::Result(result) => results.push(result)?,
            AdmittedItem::Breached(fault) => {
                return Ok(Admitted::Breached(Breach { call: next, fault }));
            }
            AdmittedItem::Unreached => return Ok(Admitted::Unreached),
        }
        next += calls_of(pass);
    }
    Ok(Admitted::Results(results))
}

fn answer_at(answers: &[Answer], place: usize) -> Option<&Answer>
    ensures { option_map (λ a. a.now) result ≡ first_of (drop place answers.now) }
{
    if place < answers.len() {
        return Some(&answers[place]);
    }
    None
}

// How many answers are looked at: one of a call.
fn calls_of(pass: &Pass) -> usize
    ensures { result ≡ cond (is_call_entry (entry_view pass.now.entry)) 1 0 }
{
    match pass.entry {
        Entry::Calls(_) => 1,
        _ => 0,
    }
}

// What is made of a pass and the next answer.
fn admit_pass(
    alloc: Global,
    action: &Action,
    pass: &Pass,
    answer: Option<&Answer>,
    fixed: &Fixed,
) -> Result<AdmittedItem, AllocError>
    ensures admits { IfOk result (λ k. (f : Trees) → IsAdmitted k (action_view f action.now)
        (pass_view pass.now) (option_map (λ a. answer_data a.now) answer.entry)) }
    ensures explains { IfOk result (λ k. Explains k (option_map (λ a. a.now) answer.entry)) }
{
    match &pass.entry {
        Entry::Skips => Ok(AdmittedItem::Result(result_with(
            pass,
            Shape::Skipped,
            fixed.skipped(),
            Assignments::Nothing,
        )?)),
        Entry::Calls(_) => admit_call(alloc, action, pass, answer),
        Entry::Shows => Ok(AdmittedItem::Result(result_with(
            pass,
            Shape::Ok,
            fixed.acted(),
            Assignments::Nothing,
        )?)),
        Entry::Sets(facts) => Ok(AdmittedItem::Result(result_with(
            pass,
            Shape::Ok,
            fixed.acted(),
            Assignments::Facts(facts.clone()?),
        )?)),
        Entry::Says { failed, message } => Ok(AdmittedItem::Result(result_of_message(
            alloc, pass, *failed, message,
        )?)),
    }
}

fn result_with(
    pass: &Pass,
    shape: Shape,
    fields: &Arc<Weighed<Fields>>,
    assigns: Assignments,
) -> Result<ItemResult, AllocError>
    ensures { IfOk result (λ o. result_view o
        ≡ own_with (option_map view pass.now.item) (shape_view shape) (block_fields fields.now)
        (assignments_view assigns)) }
{
    Ok(ItemResult {
        item: pass.item.clone()?,
        shape,
        fields: fields.clone()?,
        assigns,
    })
}

// The result of an assertion or a failure.
fn result_of_message(
    alloc: Global,
    pass: &Pass,
    failed: bool,
    message: &Value,
) -> Result<ItemResult, AllocError>
    ensures { IfOk result (λ o. result_view o
        ≡ acted (option_map view pass.now.item) (shape_of failed)
        (unchanged_with (view message.now)) no_changes) }
{
    let mut fields = status_fields(alloc, failed)?;
    put_value(alloc, &mut fields, "msg", message.clone()?)?;
    let fields = record_of(alloc, fields)?;
    result_with(pass, shape_of_status(failed), &fields, Assignments::Nothing)
}

fn shape_of_status(failed: bool) -> Shape
    ensures { shape_view result ≡ shape_of failed }
{
    if failed { Shape::Failure } else { Shape::Ok }
}

// What is made of a call and its answer.
fn admit_call(
    alloc: Global,
    action: &Action,
    pass: &Pass,
    answer: Option<&Answer>,
) -> Result<AdmittedItem, AllocError>
    ensures admits { IfOk result (λ k. (f : Trees) → IsCallAdmitted k (action_view f action.now)
        (option_map view pass.now.item) (option_map (λ a. answer_data a.now) answer.entry)) }
    ensures explains { IfOk result (λ k. Explains k (option_map (λ a. a.now) answer.entry)) }
{
    match answer {
        Some(answer) => admit_answer(alloc, action, pass, answer),
        None => Ok(AdmittedItem::Breached(AnswerFault::Missing)),
    }
}

fn admit_answer(
    alloc: Global,
    action: &Action,
    pass: &Pass,
    answer: &Answer,
) -> Result<AdmittedItem, AllocError>
    ensures admits { IfOk result (λ k. (f : Trees) → IsCallAdmitted k (action_view f action.now)
        (option_map view pass.now.item) (Some (answer_data answer.now))) }
    ensures explains { IfOk result (λ k. Explains k (Some answer.now)) }
{
    match answer {
        Answer::Object(value) => match action {
            Action::Call { module, .. } => admit_object(alloc, module, pass, value),
            _ => Ok(AdmittedItem::Breached(AnswerFault::WrongKind)),
        },
        Answer::Unreachable => Ok(AdmittedItem::Unreached),
        Answer::Broken(why) => Ok(AdmittedItem::Breached(AnswerFault::Broken(*why))),
    }
}

// What is made of an answer that can be read.
fn admit_object(
    alloc: Global,
    module: &Known,
    pass: &Pass,
    answer: &Value,
) -> Result<AdmittedItem, AllocError>
    ensures admits { IfOk result (λ k. (r : AdmittedData) → own_of (option_map view pass.now.item)
        (known_view «module».now) (admission (known_view «module».now).ok
        (known_view «module».now).failure (view answer.now)) (λ own. with_own own r)
        ≡ put_item k r) }
    ensures explains { IfOk result (λ k. Explains k (Some (Answer.Object answer.now))) }
{
    let kept = result_of_answer(alloc, module, pass, answer)?;
    match kept {
        Some(result) => Ok(AdmittedItem::Result(result)),
        None => Ok(AdmittedItem::Breached(AnswerFault::WrongKind)),
    }
}

// The result of an answer, where it is of its module's shapes.
fn result_of_answer(
    alloc: Global,
    module: &Known,
    pass: &Pass,
    answer: &Value,
) -> Result<Option<ItemResult>, AllocError>
    ensures { IfOk result (λ k. (r : AdmittedData) → own_of (option_map view pass.now.item)
        (known_view «module».now) (admission (known_view «module».now).ok
        (known_view «module».now).failure (view answer.now)) (λ own. with_own own r)
        ≡ put_result k r) }
{
    let admission = admit(alloc, module, answer)?;
    match admission {
        Admission::Ok(value) => result_of_ok(alloc, module, pass, &value),
        Admission::Failed(value) => result_of_failure(pass, &value),
        Admission::Breach => Ok(None),
    }
}

// The result of an answer that isn't failed.
fn result_of_ok(
    alloc: Global,
    module: &Known,
    pass: &Pass,
    value: &Value,
) -> Result<Option<ItemResult>, AllocError>
    ensures { IfOk result (λ k. (r : AdmittedData) → own_of (option_map view pass.now.item)
        (known_view «module».now) (taken (view value.now)) (λ own. with_own own r)
        ≡ put_result k r) }
{
    match record_in(Some(value)) {
        Some(fields) => {
            let result = result_of_fields(alloc, module, pass, fields)?;
            Ok(Some(result))
        }
        None => Ok(None),
    }
}

fn result_of_fields(
    alloc: Global,
    module: &Known,
    pass: &Pass,
    fields: &Arc<Weighed<Fields>>,
) -> Result<ItemResult, AllocError>
    ensures { IfOk result (λ o. result_view o
        ≡ own_with (option_map view pass.now.item) ok_shape (block_fields fields.now)
        (set_by_answer (known_view «module».now) (block_fields fields.now))) }
{
    let assigns = assignments_of(alloc, module, fields)?;
    result_with(pass, Shape::Ok, fields, assigns)
}

// What an answer that isn't failed sets.
fn assignments_of(alloc: Global, module: &Known, fields: &Fields) -> Result<Assignments, AllocError>
    ensures { IfOk result (λ s. assignments_view s
        ≡ set_by_answer (known_view «module».now) (fields_view fields.now.entries)) }
{
    if module.gathers_facts() {
        let facts = gather_facts(alloc, module, fields)?;
        return Ok(Assignments::Gathered(facts));
    }
    Ok(Assignments::Nothing)
}

// The result of a failed answer.
fn result_of_failure(pass: &Pass, value: &Value) -> Result<Option<ItemResult>, AllocError>
    ensures { IfOk result (λ k. (r : AdmittedData) (m : ModuleData) → own_of
        (option_map view pass.now.item) m (failed (view value.now)) (λ own. with_own own r)
        ≡ put_result k r) }
{
    match value {
        Value::Rec(fields) => {
            let result = result_with(pass, Shape::Failure, fields, Assignments::Nothing)?;
            Ok(Some(result))
        }
        _ => Ok(None),
    }
}
