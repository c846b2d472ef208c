// What the answer of a status's test teaches of a kind, and of the kind at the end of a path.
ghost use Rattle.std.specs.Prelude.{[], ◌∷◌, ◌≡◌, IfOk, codes, string_bytes};
ghost use Rattle.pb_semantics.specs.Kind.{is_skipped as is_skip};
ghost use Rattle.pb_semantics.specs.Words.{no_cases, one, recs};
ghost use Rattle.pb_language.specs.Narrow.{answers, cases_changed, cases_with, changed_at};
ghost use Rattle.pb_language.specs.Narrow.{has_slot, least_record, on_results, with_change};
ghost use Rattle.pb_language.specs.Scope.{with_slot};
ghost use Rattle.pb_language.specs.Words.{results_of};
ghost use Rattle.pb_kind.specs.Words.{cases_view, is_always, kind_view, shape_view, slots_view};
ghost use Rattle.pb_syntax.specs.ExprView.{names_of, status_view};

use pb_kind::below::{find, has_field};
use pb_kind::{Case, Kind, Shape, Slot, Slots, copy_slots, join_all};
use pb_syntax::Status;
use std::alloc::{AllocError, Global};

/// The kind of what a test of that status had that answer of: a result keeps the cases that may
/// give it, any other kind stays.
///
/// # Errors
///
/// Want of memory.
pub fn answered(
    alloc: Global,
    kind: &Kind,
    status: Status,
    answer: bool,
) -> Result<Kind, AllocError>
    ensures { IfOk result (λ k. kind_view k
        ≡ on_results (cases_with (answers (status_view status) answer)) (kind_view kind.now)) }
{
    match kind {
        Kind::Result(cases, _) => result_of(alloc, cases_answered(alloc, cases, status, answer)?),
        _ => kind.clone(),
    }
}

// A result of one of these cases.
pub(crate) fn result_of(alloc: Global, cases: Vec<Case<Kind>>) -> Result<Kind, AllocError>
    ensures { IfOk result (λ k. kind_view k ≡ results_of (cases_view cases.items)) }
{
    let record = record_above(alloc, &cases)?;
    Kind::of_cases(alloc, cases, record)
}

// The least record above the cases.
fn record_above(alloc: Global, cases: &[Case<Kind>]) -> Result<Kind, AllocError>
    ensures { IfOk result (λ k. kind_view k ≡ least_record (cases_view cases.now)) }
{
    let mut records = Vec::new(alloc);
    for case in cases {
        let record = case.fields.clone()?;
        records.push(record)?;
    }
    join_all(alloc, &records)
}

fn cases_answered(
    alloc: Global,
    cases: &[Case<Kind>],
    status: Status,
    answer: bool,
) -> Result<Vec<Case<Kind>>, AllocError>
    ensures { IfOk result (λ kept. cases_view kept.items
        ≡ cases_with (answers (status_view status) answer) (cases_view cases.now)) }
{
    let mut kept = Vec::new(alloc);
    for case in cases {
        if may_answer(case, status, answer) {
            let copy = case_shared(case)?;
            kept.push(copy)?;
        }
    }
    Ok(kept)
}

fn case_shared(case: &Case<Kind>) -> Result<Case<Kind>, AllocError>
    ensures { IfOk result (λ c. cases_view (c ∷ []) ≡ cases_view (case.now ∷ [])) }
{
    case_with(case, case.fields.clone()?)
}

// The case with that record in place of its own.
pub(crate) fn case_with(case: &Case<Kind>, fields: Kind) -> Result<Case<Kind>, AllocError>
    ensures { IfOk result (λ c. cases_view (c ∷ [])
        ≡ one (string_bytes case.now.action.value) (shape_view case.now.shape) case.now.failed
        (kind_view fields) no_cases) }
{
    let action = case.action.clone()?;
    Ok(Case {
        action,
        shape: case.shape,
        failed: case.failed,
        fields,
    })
}

// Whether a test of that status may have that answer in the case.
fn may_answer(case: &Case<Kind>, status: Status, answer: bool) -> bool
    ensures { result ≡ answers (status_view status) answer (shape_view case.now.shape)
        case.now.failed (kind_view case.now.fields) }
{
    let is_skipped = is_skipped(case.shape);
    match status {
        Status::Failed => answer == case.failed,
        Status::Changed => !answer || !is_skipped,
        Status::Skipped if answer => is_skipped || tells_skipped(&case.fields),
        Status::Skipped => !is_skipped,
    }
}

fn is_skipped(shape: Shape) -> bool
    ensures { result ≡ is_skip (shape_view shape) }
{
    match shape {
        Shape::Skipped => true,
        Shape::Ok | Shape::Failure => false,
    }
}

fn tells_skipped(record: &Kind) -> bool
    ensures { result ≡ has_slot (codes "skipped") (kind_view record.now) }
{
    match record {
        Kind::Rec(slots) => has_field(slots, "skipped"),
        _ => false,
    }
}

/// The kind in which a test of that status at the end of the steps had that answer: each record or
/// result on the way is that with the field so changed.
///
/// # Errors
///
/// Want of memory, also where it would weigh more than `MOST_KIND` or nest too deep.
#[cycle(answered_at)]
pub fn answered_at(
    alloc: Global,
    kind: &Kind,
    steps: &[String],
    status: Status,
    answer: bool,
) -> Result<Kind, AllocError>
    ensures { IfOk result (λ k. kind_view k ≡ changed_at (names_of steps.now)
        (on_results (cases_with (answers (status_view status) answer))) (kind_view kind.now)) }
{
    let Some((name, rest)) = steps.split_first() else {
        return answered(alloc, kind, status, answer);
    };
    match kind {
        Kind::Result(cases, _) => {
            let changed = cases_answered_below(alloc, cases, name, rest, status, answer)?;
            result_of(alloc, changed)
        }
        _ => answered_below(alloc, kind, name, rest, status, answer),
    }
}

// The cases, each with its record so changed.
#[cycle(answered_at)]
fn cases_answered_below(
    alloc: Global,
    cases: &[Case<Kind>],
    name: &String,
    steps: &[String],
    status: Status,
    answer: bool,
) -> Result<Vec<Case<Kind>>, AllocError>
    ensures { let changed = changed_at (names_of steps.now)
        (on_results (cases_with (answers (status_view status) answer))) in
        IfOk result (λ all. cases_view all.items
        ≡ cases_changed (with_change (string_bytes name.now) changed) (cases_view cases.now)) }
{
    let mut all = Vec::new(alloc);
    for case in cases {
        let fields = answered_below(alloc, &case.fields, name, steps, status, answer)?;
        let changed = case_with(case, fields)?;
        all.push(changed)?;
    }
    Ok(all)
}

// A record with the field of that name so changed, where it has one; any other kind stays.
#[cycle(answered_at)]
fn answered_below(
    alloc: Global,
    kind: &Kind,
    name: &String,
    steps: &[String],
    status: Status,
    answer: bool,
) -> Result<Kind, AllocError>
    ensures { let changed = changed_at (names_of steps.now)
        (on_results (cases_with (answers (status_view status) answer))) in
        IfOk result (λ k. kind_view k
        ≡ with_change (string_bytes name.now) changed (kind_view kind.now)) }
{
    let Kind::Rec(slots) = kind else {
        return kind.clone();
    };
    let Some(slot) = find(slots, name.as_str()) else {
        return kind.clone();
    };
    let changed = Slot {
        presence: slot.presence,
        kind: answered_at(alloc, &slot.kind, steps, status, answer)?,
    };
    record_with(alloc, slots, name, changed)
}

// A record of the slots with that one in place of any other of its name.
pub(crate) fn record_with(
    alloc: Global,
    slots: &Slots,
    name: &String,
    slot: Slot<Kind>,
) -> Result<Kind, AllocError>
    ensures { IfOk result (λ k. kind_view k ≡ recs (with_slot (string_bytes name.now)
        (is_always slot.presence) (kind_view slot.kind) (slots_view slots.now.entries))) }
{
    let mut all = copy_slots(slots)?;
    drop(all.insert(name.clone()?, slot)?);
    Kind::of_slots(alloc, all)
}
