// The results with which a task may go on or fail, and their kinds.
ghost use Rattle.std.specs.Prelude.{◌≡◌, IfOk, option_map};
ghost use Rattle.pb_language.specs.Cases.{all_results, failing_cases, going_cases};
ghost use Rattle.pb_language.specs.Narrow.{least_record, results_of};
ghost use Rattle.pb_language.specs.Task.{Task};
ghost use Rattle.pb_kind.specs.Words.{cases_view, kind_view};
ghost use Rattle.pb_judgement.specs.Ends.{Does, IsJudgedIn, case_kind, doing, ended_in};
ghost use Rattle.pb_judgement.specs.Ends.{failing_in, going_in, judged_in, results_in};

use crate::answers::{answered_cases, name_of, skipped_cases};
use crate::status::{cases_of_status, copies, either_status, perhaps_failed};
use pb_kind::join::join;
use pb_kind::{Case, Kind};
use pb_task::Work;
use std::alloc::{AllocError, Global};

/// How a task's results are judged.
#[derive(Clone, Copy, PartialEq, Eq, Debug)]
pub struct Manner {
    /// It stands under a condition.
    pub may_skip: bool,
    /// `failed_when` is given.
    pub asks_failed: bool,
    /// `until` is given.
    pub repeats: bool,
    /// Errors are ignored.
    pub ignores: bool,
}

/// The results with which a task may end: of which kind one is where it goes on, and where it
/// fails; none where it never does.
#[derive(Drop)]
pub struct Ends {
    pub going: Option<Kind>,
    pub failing: Option<Kind>,
    /// Of any of its results.
    pub all: Kind,
}

/// The results with which a task may end that does this work, in that manner.
///
/// # Errors
///
/// Want of memory.
pub fn ends_of(alloc: Global, work: &Work, manner: Manner) -> Result<Ends, AllocError>
    ensures going { IfOk result (λ e. (t : Task) → Does work.now t → IsJudgedIn manner t
        → option_map kind_view e.going ≡ case_kind (going_cases t)) }
    ensures failing { IfOk result (λ e. (t : Task) → Does work.now t → IsJudgedIn manner t
        → option_map kind_view e.failing ≡ case_kind (failing_cases t)) }
    ensures all { IfOk result (λ e. (t : Task) → Does work.now t → IsJudgedIn manner t
        → kind_view e.all ≡ results_of (all_results t)) }
{
    let cases = results_in(alloc, work, manner)?;
    let going_on = going_in(alloc, manner, &cases)?;
    let going = case_kind(alloc, going_on)?;
    let failed = failing_in(alloc, manner, &cases)?;
    let failing = case_kind(alloc, failed)?;
    let all = result_of(alloc, cases)?;
    Ok(Ends {
        going,
        failing,
        all,
    })
}

// Every result of the work.
fn results_in(alloc: Global, work: &Work, manner: Manner) -> Result<Vec<Case<Kind>>, AllocError>
    ensures { IfOk result (λ v. cases_view v.items ≡ results_in manner (doing work.now)) }
{
    let action = name_of(alloc, work)?;
    let answered = answered_cases(alloc, &action, work)?;
    let judged = judged_in(alloc, manner, answered)?;
    let mut ended = ended_in(alloc, manner, judged)?;
    let mut all = skipped_cases(alloc, &action, manner.may_skip)?;
    all.append(&mut ended)?;
    Ok(all)
}

// `failed_when` may give each case either status.
pub(crate) fn judged_in(
    alloc: Global,
    manner: Manner,
    cases: Vec<Case<Kind>>,
) -> Result<Vec<Case<Kind>>, AllocError>
    ensures { IfOk result (λ v. cases_view v.items ≡ judged_in manner (cases_view cases.items)) }
{
    if manner.asks_failed {
        either_status(alloc, &cases)
    } else {
        Ok(cases)
    }
}

// Each case may be that of a last attempt, which is failed.
fn ended_in(
    alloc: Global,
    manner: Manner,
    cases: Vec<Case<Kind>>,
) -> Result<Vec<Case<Kind>>, AllocError>
    ensures { IfOk result (λ v. cases_view v.items ≡ ended_in manner (cases_view cases.items)) }
{
    if manner.repeats {
        perhaps_failed(alloc, &cases)
    } else {
        Ok(cases)
    }
}

// Those with which it goes on: all where errors are ignored.
fn going_in(
    alloc: Global,
    manner: Manner,
    cases: &[Case<Kind>],
) -> Result<Vec<Case<Kind>>, AllocError>
    ensures { IfOk result (λ v. cases_view v.items ≡ going_in manner (cases_view cases.now)) }
{
    if manner.ignores {
        copies(alloc, cases)
    } else {
        cases_of_status(alloc, cases, false)
    }
}

// Those with which it fails: none where errors are ignored.
fn failing_in(
    alloc: Global,
    manner: Manner,
    cases: &[Case<Kind>],
) -> Result<Vec<Case<Kind>>, AllocError>
    ensures { IfOk result (λ v. cases_view v.items ≡ failing_in manner (cases_view cases.now)) }
{
    if manner.ignores {
        Ok(Vec::new(alloc))
    } else {
        cases_of_status(alloc, cases, true)
    }
}

// The kind of a result of one of the cases, where there is one.
fn case_kind(alloc: Global, cases: Vec<Case<Kind>>) -> Result<Option<Kind>, AllocError>
    ensures { IfOk result (λ o. option_map kind_view o ≡ case_kind (cases_view cases.items)) }
{
    if cases.is_empty() {
        Ok(None)
    } else {
        let kind = result_of(alloc, cases)?;
        Ok(Some(kind))
    }
}

// What a result of one of the cases is.
pub(crate) fn result_of(alloc: Global, cases: Vec<Case<Kind>>) -> Result<Kind, AllocError>
    ensures { IfOk result (λ k. kind_view k ≡ results_of (cases_view cases.items)) }
{
    let known = least_record(alloc, &cases)?;
    Kind::of_cases(alloc, cases, known)
}

// The least record above the cases.
fn least_record(alloc: Global, cases: &[Case<Kind>]) -> Result<Kind, AllocError>
    ensures { IfOk result (λ k. kind_view k ≡ least_record (cases_view cases.now)) }
{
    let mut known = Kind::Never;
    for index in (0..cases.len()).rev() {
        known = join(alloc, &cases[index].fields, &known)?;
    }
    Ok(known)
}
