// The kinds of what a task of a module or an action registers.
ghost use Rattle.std.specs.Prelude.{[], ◌∷◌, ◌≡◌, IfOk, codes, false, string_bytes, true};
ghost use Rattle.pb_semantics.specs.Words.{booleans, is_listed, join, no_cases, ok_shape, one};
ghost use Rattle.pb_semantics.specs.Words.{put_slot, recs, results, skipped_shape};
ghost use Rattle.pb_language.specs.Words.{ended_kind, results_of, skipped_slots};
ghost use Rattle.pb_kind.specs.Words.{cases_view, kind_view, shape_view, slots_view};
ghost use Rattle.pb_sig.specs.Results.{result_cases, result_kind};

use crate::rows::{must, shape_of};
use crate::signature::shared_name;
use pb_kind::join::join;
use pb_kind::{Case, Kind, Shape, Slot, Slots, put_slot};
use std::alloc::{AllocError, Global};
use std::sync::Arc;

/// The kinds of the results of one module or action.
#[derive(Drop)]
pub struct Results {
    /// Of a task that always runs.
    ran: Kind,
    /// Of a task that may be skipped.
    perhaps_skipped: Kind,
}

impl Results {
    /// Those of a module or an action of that name with these fields in its ok shape, which has no
    /// `failed`.
    pub fn of(alloc: Global, action: &str, ok: &Slots) -> Result<Results, AllocError>
        requires { is_listed (codes "failed") (slots_view ok.now.entries) ≡ false }
        ensures ran { IfOk result (λ r. result_kind r false
            ≡ results_of (result_cases false action.now (slots_view ok.now.entries))) }
        ensures skipped { IfOk result (λ r. result_kind r true
            ≡ results_of (result_cases true action.now (slots_view ok.now.entries))) }
    {
        let action = shared_name(alloc, action)?;
        let ended = ended_record(alloc, ok)?;
        let ran = ran_kind(alloc, &action, &ended)?;
        let perhaps_skipped = perhaps_skipped_kind(alloc, &action, &ended)?;
        Ok(Results {
            ran,
            perhaps_skipped,
        })
    }

    /// The kind of the result of a task that may be skipped or not.
    pub fn kind(&self, may_skip: bool) -> &Kind
        ensures { kind_view result.now ≡ result_kind self.now may_skip }
    {
        if may_skip {
            &self.perhaps_skipped
        } else {
            &self.ran
        }
    }
}

// The result of a task that always runs and ends with that record.
fn ran_kind(alloc: Global, action: &Arc<String>, ended: &Kind) -> Result<Kind, AllocError>
    ensures { IfOk result (λ k. kind_view k
        ≡ results (one (string_bytes action.now.value) ok_shape false (kind_view ended.now)
        no_cases) (kind_view ended.now)) }
{
    let ran = case_of(action, Shape::Ok, false, ended)?;
    result_of_case(alloc, ran)
}

// The result of a task that is skipped, or ends with that record.
fn perhaps_skipped_kind(
    alloc: Global,
    action: &Arc<String>,
    ended: &Kind,
) -> Result<Kind, AllocError>
    ensures { IfOk result (λ k. kind_view k
        ≡ results (one (string_bytes action.now.value) skipped_shape false (recs skipped_slots)
        (one (string_bytes action.now.value) ok_shape false (kind_view ended.now) no_cases))
        (join (recs skipped_slots) (kind_view ended.now))) }
{
    let skipped = skipped_case(alloc, action)?;
    let known = join(alloc, &skipped.fields, ended)?;
    let ran = case_of(action, Shape::Ok, false, ended)?;
    let cases = vec![in alloc; skipped, ran]?;
    Kind::of_cases(alloc, cases, known)
}

fn skipped_case(alloc: Global, action: &Arc<String>) -> Result<Case<Kind>, AllocError>
    ensures case { IfOk result (λ c. cases_view (c ∷ [])
        ≡ one (string_bytes action.now.value) skipped_shape false (recs skipped_slots) no_cases) }
    ensures fields { IfOk result (λ c. kind_view c.fields ≡ recs skipped_slots) }
{
    let fields = skipped_record(alloc)?;
    Ok(Case {
        action: action.clone()?,
        shape: Shape::Skipped,
        failed: false,
        fields,
    })
}

fn result_of_case(alloc: Global, case: Case<Kind>) -> Result<Kind, AllocError>
    ensures { IfOk result (λ k. kind_view k
        ≡ results (cases_view (case ∷ [])) (kind_view case.fields)) }
{
    let known = case.fields.clone()?;
    let cases = vec![in alloc; case]?;
    Kind::of_cases(alloc, cases, known)
}

/// A case of a result: of an action of that name, with that shape, that final status and these
/// fields. It shares the name and the fields.
///
/// # Errors
///
/// Want of memory.
pub fn case_of(
    action: &Arc<String>,
    shape: Shape,
    failed: bool,
    fields: &Kind,
) -> Result<Case<Kind>, AllocError>
    ensures case { IfOk result (λ c. cases_view (c ∷ [])
        ≡ one (string_bytes action.now.value) (shape_view shape) failed (kind_view fields.now)
        no_cases) }
    ensures fields { IfOk result (λ c. kind_view c.fields ≡ kind_view fields.now) }
{
    Ok(Case {
        action: action.clone()?,
        shape,
        failed,
        fields: fields.clone()?,
    })
}

/// The record of a shape's fields with the final status. The shape has no `failed` of its own.
///
/// # Errors
///
/// Want of memory.
pub fn ended_record(alloc: Global, shape: &Slots) -> Result<Kind, AllocError>
    requires { is_listed (codes "failed") (slots_view shape.now.entries) ≡ false }
    ensures { IfOk result (λ k. kind_view k ≡ ended_kind (slots_view shape.now.entries)) }
{
    let slots = ended_slots(alloc, shape)?;
    Kind::of_slots(alloc, slots)
}

// The fields of a shape with the final status.
fn ended_slots(alloc: Global, shape: &Slots) -> Result<Slots, AllocError>
    ensures { IfOk result (λ s. slots_view s.entries
        ≡ put_slot (codes "failed") true booleans (slots_view shape.now.entries)) }
{
    let mut slots = shape.clone()?;
    let name = String::from_str(alloc, "failed")?;
    put_slot(&mut slots, name, Slot::always(Kind::Bool))?;
    Ok(slots)
}

/// The record of a result that is skipped: `changed`, `failed`, `skip_reason` and `skipped`.
///
/// # Errors
///
/// Want of memory.
pub fn skipped_record(alloc: Global) -> Result<Kind, AllocError>
    ensures { IfOk result (λ k. kind_view k ≡ recs skipped_slots) }
{
    let rows = [
        must("changed", Kind::Bool),
        must("failed", Kind::Bool),
        must("skipped", Kind::Bool),
        must("skip_reason", Kind::Text),
    ];
    shape_of(alloc, &rows)
}
