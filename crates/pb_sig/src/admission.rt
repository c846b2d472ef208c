// Which answers of a module are admitted, and as what.
ghost use Rattle.std.specs.Prelude.{◌≡◌, IfOk, Some, codes, cond, option_map};
ghost use Rattle.pb_semantics.specs.Words.{admission, boolean, changed_fields, ended, failed_of};
ghost use Rattle.pb_semantics.specs.Words.{field_value, projected, put_field, rec};
ghost use Rattle.pb_kind.specs.Words.{kind_view};
ghost use Rattle.pb_value.specs.Words.{fields_view, view};
ghost use Rattle.pb_sig.specs.AdmissionView.{admission_view};

use crate::signature::Module;
use pb_kind::Kind;
use pb_kind::project::project;
use pb_value::{Fields, Value, Weighed, field_of, own_fields, put_field};
use std::alloc::{AllocError, Global};
use std::sync::Arc;

/// What is made of an answer.
#[derive(Drop)]
pub enum Admission {
    /// The kept fields of an answer that isn't failed, with `changed` and `failed`.
    Ok(Value),
    /// The kept fields of a failed answer, with `changed` and `failed`.
    Failed(Value),
    /// The answer isn't what the module may give.
    Breach,
}

/// Admits an answer. `failed`, false where it is absent, has to be a truth value, and says which
/// shape counts; `changed` is false where it is absent. Fields that the shape doesn't name are
/// dropped at every depth, and the rest has to keep the shape.
pub fn admit<M: Module>(alloc: Global, source: &M, answer: &Value) -> Result<Admission, AllocError>
    ensures { IfOk result (λ a. admission_view a
        ≡ admission (M.meaning source.now).ok (M.meaning source.now).failure (view answer.now)) }
{
    let Value::Rec(fields) = answer else {
        return Ok(Admission::Breach);
    };
    match failed_in(fields) {
        Some(true) => ended_in(alloc, true, fields, source.fail_shape()),
        Some(false) => ended_in(alloc, false, fields, source.ok_shape()),
        None => Ok(Admission::Breach),
    }
}

// The answer of these fields with what that shape keeps of it.
fn ended_in(
    alloc: Global,
    failed: bool,
    fields: &Arc<Weighed<Fields>>,
    shape: &Kind,
) -> Result<Admission, AllocError>
    ensures { IfOk result (λ a. admission_view a ≡ ended failed
        (projected (rec (changed_fields (fields_view fields.now.value.parts.entries)))
        (kind_view shape.now))) }
{
    let whole = with_changed(alloc, fields)?;
    ended_as(alloc, failed, project(alloc, &whole, shape)?)
}

// The field `failed`, false where it is absent; none where it is no truth value.
fn failed_in(fields: &Fields) -> Option<bool>
    ensures { result ≡ failed_of (field_value (codes "failed") (fields_view fields.now.entries)) }
{
    match field_of(fields, "failed") {
        None => Some(false),
        Some(flag) => flag.as_bool(),
    }
}

// The record with `changed`, false where it was absent.
fn with_changed(alloc: Global, fields: &Arc<Weighed<Fields>>) -> Result<Value, AllocError>
    ensures { IfOk result (λ v. view v
        ≡ rec (changed_fields (fields_view fields.now.value.parts.entries))) }
{
    if field_of(fields, "changed").is_some() {
        return Ok(Value::Rec(fields.clone()?));
    }
    let unchanged = put(alloc, copy_of(fields)?, "changed", false)?;
    Value::of_fields(alloc, unchanged)
}

// The answer with what is kept of it.
fn ended_as(alloc: Global, failed: bool, kept: Option<Value>) -> Result<Admission, AllocError>
    ensures { IfOk result (λ a. admission_view a ≡ ended failed (option_map view kept)) }
{
    match kept {
        Some(value) => kept_as(alloc, failed, value),
        None => Ok(Admission::Breach),
    }
}

fn kept_as(alloc: Global, failed: bool, kept: Value) -> Result<Admission, AllocError>
    ensures { IfOk result (λ a. admission_view a ≡ ended failed (Some (view kept))) }
{
    match kept {
        Value::Rec(fields) => {
            let value = Value::of_fields(
                alloc,
                put(alloc, own_fields(fields)?, "failed", failed)?,
            )?;
            Ok(admitted(failed, value))
        }
        _ => Ok(Admission::Breach),
    }
}

fn admitted(failed: bool, value: Value) -> Admission
    ensures { result ≡ cond failed (Admission.Failed value) (Admission.Ok value) }
{
    if failed {
        Admission::Failed(value)
    } else {
        Admission::Ok(value)
    }
}

// The fields with that flag.
fn put(alloc: Global, fields: Fields, name: &str, flag: bool) -> Result<Fields, AllocError>
    ensures { IfOk result (λ m. fields_view m.entries
        ≡ put_field name.now (boolean flag) (fields_view fields.entries)) }
{
    let mut fields = fields;
    put_field(
        &mut fields,
        String::from_str(alloc, name)?,
        Value::Bool(flag),
    )?;
    Ok(fields)
}

fn copy_of(fields: &Fields) -> Result<Fields, AllocError>
    ensures { IfOk result (λ m. fields_view m.entries ≡ fields_view fields.now.entries) }
{
    Ok(fields.clone()?)
}
