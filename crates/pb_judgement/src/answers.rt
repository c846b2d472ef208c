// What a module or an action answers, and its result where it is skipped.
ghost use Rattle.std.specs.Prelude.{◌≡◌, IfOk, cond, false, string_bytes, true};
ghost use Rattle.pb_semantics.specs.Words.{no_cases, ok_shape, one, recs, skipped_shape};
ghost use Rattle.pb_semantics.specs.Kind.{failure_shape};
ghost use Rattle.pb_language.specs.Cases.{action_name, answered_cases, skipped_slots};
ghost use Rattle.pb_language.specs.Expression.{no_parts};
ghost use Rattle.pb_language.specs.Task.{call_of};
ghost use Rattle.pb_kind.specs.Words.{cases_view, kind_view, shape_view};
ghost use Rattle.pb_sig.specs.Words.{known_view};
ghost use Rattle.pb_judgement.specs.Ends.{doing};

use crate::shapes::{changed_record, ended_shape, message_record};
use pb_kind::{Case, Kind, Shape};
use pb_sig::{Known, Module, case_of, shared_name, skipped_record};
use pb_task::Work;
use std::alloc::{AllocError, Global};
use std::sync::Arc;

// The name of the module or the action, in a block that its copies share.
pub(crate) fn name_of(alloc: Global, work: &Work) -> Result<Arc<String>, AllocError>
    ensures { IfOk result (λ n. string_bytes n.value ≡ action_name (doing work.now)) }
{
    match work {
        Work::Module(called) => called.shared_name().clone(),
        Work::Debug => shared_name(alloc, "debug"),
        Work::SetFact => shared_name(alloc, "set_fact"),
        Work::Assert(_) => shared_name(alloc, "assert"),
        Work::Fail => shared_name(alloc, "fail"),
    }
}

// What the module or the action answers: ok and not failed, or a failure.
pub(crate) fn answered_cases(
    alloc: Global,
    action: &Arc<String>,
    work: &Work,
) -> Result<Vec<Case<Kind>>, AllocError>
    requires { string_bytes action.now.value ≡ action_name (doing work.now) }
    ensures { IfOk result (λ v. cases_view v.items ≡ answered_cases (doing work.now)) }
{
    match work {
        Work::Module(called) => module_cases(alloc, action, called),
        Work::Debug => {
            let ended = changed_record(alloc)?;
            lone_case(alloc, action, Shape::Ok, false, &ended)
        }
        Work::SetFact => {
            let ended = changed_record(alloc)?;
            lone_case(alloc, action, Shape::Ok, false, &ended)
        }
        Work::Assert(_) => {
            let ended = message_record(alloc)?;
            both_cases(alloc, action, &ended, &ended)
        }
        Work::Fail => {
            let ended = message_record(alloc)?;
            lone_case(alloc, action, Shape::Failure, true, &ended)
        }
    }
}

fn module_cases(
    alloc: Global,
    action: &Arc<String>,
    called: &Known,
) -> Result<Vec<Case<Kind>>, AllocError>
    requires { string_bytes action.now.value ≡ (known_view called.now).name }
    ensures { IfOk result (λ v. cases_view v.items
        ≡ answered_cases (call_of (known_view called.now) no_parts)) }
{
    let ok = ended_shape(alloc, called.ok_shape())?;
    let failure = ended_shape(alloc, called.fail_shape())?;
    both_cases(alloc, action, &ok, &failure)
}

// The result of what is skipped, where it may be.
pub(crate) fn skipped_cases(
    alloc: Global,
    action: &Arc<String>,
    may_skip: bool,
) -> Result<Vec<Case<Kind>>, AllocError>
    ensures { IfOk result (λ v. cases_view v.items ≡ cond may_skip
        (one (string_bytes action.now.value) skipped_shape false (recs skipped_slots) no_cases)
        no_cases) }
{
    if may_skip {
        let fields = skipped_record(alloc)?;
        lone_case(alloc, action, Shape::Skipped, false, &fields)
    } else {
        Ok(Vec::new(alloc))
    }
}

// Ok and not failed, or a failure.
fn both_cases(
    alloc: Global,
    action: &Arc<String>,
    ok: &Kind,
    failure: &Kind,
) -> Result<Vec<Case<Kind>>, AllocError>
    ensures { IfOk result (λ v. cases_view v.items
        ≡ one (string_bytes action.now.value) ok_shape false (kind_view ok.now)
        (one (string_bytes action.now.value) failure_shape true (kind_view failure.now)
        no_cases)) }
{
    let ended = case_of(action, Shape::Ok, false, ok)?;
    let failed = case_of(action, Shape::Failure, true, failure)?;
    Ok(vec![in alloc; ended, failed]?)
}

// The one case.
fn lone_case(
    alloc: Global,
    action: &Arc<String>,
    shape: Shape,
    failed: bool,
    fields: &Kind,
) -> Result<Vec<Case<Kind>>, AllocError>
    ensures { IfOk result (λ v. cases_view v.items
        ≡ one (string_bytes action.now.value) (shape_view shape) failed (kind_view fields.now)
        no_cases) }
{
    let case = case_of(action, shape, failed, fields)?;
    Ok(vec![in alloc; case]?)
}
