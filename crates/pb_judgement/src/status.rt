// The cases of a result with other statuses, and those of one status.
ghost use Rattle.std.specs.Prelude.{[], ◌∷◌, ◌≡◌, IfOk, OnOk, cond, not, string_bytes};
ghost use Rattle.pb_semantics.specs.Words.{append_cases, no_cases, one};
ghost use Rattle.pb_language.specs.Cases.{either_status, perhaps_failed};
ghost use Rattle.pb_language.specs.Narrow.{cases_with};
ghost use Rattle.pb_kind.specs.Words.{cases_view, kind_view, shape_view};

use pb_kind::{Case, Kind};
use std::alloc::{AllocError, Global};

// Each case with either status.
pub(crate) fn either_status(
    alloc: Global,
    cases: &[Case<Kind>],
) -> Result<Vec<Case<Kind>>, AllocError>
    ensures { IfOk result (λ v. cases_view v.items ≡ either_status (cases_view cases.now)) }
{
    let mut all = Vec::new(alloc);
    for case in cases {
        add_either(&mut all, case)?;
    }
    Ok(all)
}

fn add_either(all: &mut Vec<Case<Kind>>, case: &Case<Kind>) -> Result<(), AllocError>
    ensures { OnOk result (cases_view all.new.items ≡ append_cases (cases_view all.old.items)
        (either_status (cases_view (case.now ∷ [])))) }
{
    add(all, case, false)?;
    add(all, case, true)?;
    Ok(())
}

// Each case, and beside it the failed one.
pub(crate) fn perhaps_failed(
    alloc: Global,
    cases: &[Case<Kind>],
) -> Result<Vec<Case<Kind>>, AllocError>
    ensures { IfOk result (λ v. cases_view v.items ≡ perhaps_failed (cases_view cases.now)) }
{
    let mut all = Vec::new(alloc);
    for case in cases {
        add_perhaps(&mut all, case)?;
    }
    Ok(all)
}

fn add_perhaps(all: &mut Vec<Case<Kind>>, case: &Case<Kind>) -> Result<(), AllocError>
    ensures { OnOk result (cases_view all.new.items ≡ append_cases (cases_view all.old.items)
        (perhaps_failed (cases_view (case.now ∷ [])))) }
{
    if case.failed {
        add(all, case, true)
    } else {
        add_either(all, case)
    }
}

// The cases of that status.
pub(crate) fn cases_of_status(
    alloc: Global,
    cases: &[Case<Kind>],
    failed: bool,
) -> Result<Vec<Case<Kind>>, AllocError>
    ensures { IfOk result (λ v. cases_view v.items
        ≡ cases_with (λ sh fl k. cond failed fl (not fl)) (cases_view cases.now)) }
{
    let mut all = Vec::new(alloc);
    for case in cases {
        add_of_status(&mut all, case, failed)?;
    }
    Ok(all)
}

fn add_of_status(
    all: &mut Vec<Case<Kind>>,
    case: &Case<Kind>,
    failed: bool,
) -> Result<(), AllocError>
    ensures { OnOk result (cases_view all.new.items ≡ append_cases (cases_view all.old.items)
        (cases_with (λ sh fl k. cond failed fl (not fl)) (cases_view (case.now ∷ [])))) }
{
    if is_of_status(case, failed) {
        add(all, case, case.failed)
    } else {
        Ok(())
    }
}

fn is_of_status(case: &Case<Kind>, failed: bool) -> bool
    ensures { result ≡ cond failed case.now.failed (not case.now.failed) }
{
    case.failed == failed
}

// The same cases.
pub(crate) fn copies(alloc: Global, cases: &[Case<Kind>]) -> Result<Vec<Case<Kind>>, AllocError>
    ensures { IfOk result (λ v. cases_view v.items ≡ cases_view cases.now) }
{
    let mut all = Vec::new(alloc);
    for case in cases {
        add(&mut all, case, case.failed)?;
    }
    Ok(all)
}

// Adds the case with that status. It shares its action and its fields.
fn add(all: &mut Vec<Case<Kind>>, case: &Case<Kind>, failed: bool) -> Result<(), AllocError>
    ensures { OnOk result (cases_view all.new.items ≡ append_cases (cases_view all.old.items)
        (one (string_bytes case.now.action.value) (shape_view case.now.shape) failed
        (kind_view case.now.fields) no_cases)) }
{
    let case = with_status(case, failed)?;
    all.push(case)?;
    Ok(())
}

fn with_status(case: &Case<Kind>, failed: bool) -> Result<Case<Kind>, AllocError>
    ensures { IfOk result (λ c. cases_view (c ∷ [])
        ≡ one (string_bytes case.now.action.value) (shape_view case.now.shape) failed
        (kind_view case.now.fields) no_cases) }
{
    let action = case.action.clone()?;
    let fields = case.fields.clone()?;
    Ok(Case {
        action,
        shape: case.shape,
        failed,
        fields,
    })
}
