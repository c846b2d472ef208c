// What a task comes to once the answers to its calls are there.
ghost use Rattle.std.specs.Prelude.{◌≡◌, IfOk, List, map, option_map};
ghost use Rattle.pb_language.specs.Give.{admit_passes, admitted, last_attempt, last_attempts};
ghost use Rattle.pb_language.specs.Give.{retries_of};
ghost use Rattle.pb_language.specs.Start.{Pass as Passed};
ghost use Rattle.pb_language.specs.Task.{Action, Task};
ghost use Rattle.pb_syntax.specs.Words.{Trees};
ghost use Rattle.pb_task.specs.Words.{attempts_view};
ghost use Rattle.pb_start.specs.Words.{Prepares, action_view, pass_view};
ghost use Rattle.pb_finish.specs.Answers.{answer_data};
ghost use Rattle.pb_finish.specs.Endings.{EndsAs, TellsBreach, final_view};
ghost use Rattle.pb_finish.specs.Results.{result_view};

use crate::admission::{Admitted, ItemResult, admit_answers};
use crate::answer::{Answer, Breach};
use crate::fixed::Fixed;
use crate::outcome::{Outcome, outcome_of, until_holds};
use crate::statuses::{FinalResult, end_results, with_statuses};
use pb_eval::Vars;
use pb_start::{Pass, Prepared};
use std::alloc::{AllocError, Global};

/// What a task that was started waits for, and what came.
#[derive(Drop)]
pub struct Given<'g> {
    /// As its Start found them.
    pub passes: &'g [Pass],
    /// In the order of the calls.
    pub answers: &'g [Answer],
    /// The attempts before this one.
    pub tried: u64,
}

/// What a task comes to.
#[derive(Drop)]
pub enum Ending {
    /// The host can't be reached.
    Unreached,
    /// An answer isn't what its module may give, or is missing.
    Breached(Breach),
    /// The same calls are made again.
    Again,
    Ended(Outcome),
}

/// What the answers to the calls of a task make of it, in the world of its Start. They are
/// admitted in the order of the calls, and the first breach or unreachable answer decides; a breach
/// tells its place. Then `changed_when`, `failed_when` and `until` are asked of each item that
/// wasn't skipped (Ansible's pages on error handling and on loops), and the calls are made again
/// where `until` doesn't hold and some are left. Where the definitions have no results, anything.
///
/// # Errors
///
/// Want of memory.
pub fn finish<V: Vars>(
    alloc: Global,
    prepared: &Prepared,
    fixed: &Fixed,
    given: &Given,
    vars: &V,
) -> Result<Ending, AllocError>
    ensures ends { IfOk result (λ e. (t : Task) → Prepares prepared.now t
        → EndsAs e (V.world vars.now) t given.now.tried (admit_passes t.action
        (map pass_view given.now.passes.now) (map answer_data given.now.answers.now))) }
    ensures breach { IfOk result (λ e. (f : Trees) → TellsBreach e
        (action_view f prepared.now.action) (map pass_view given.now.passes.now)
        given.now.answers.now) }
{
    let admitted = admit_answers(alloc, &prepared.action, given.passes, given.answers, fixed)?;
    match admitted {
        Admitted::Results(results) => end_task(alloc, prepared, results, given.tried, vars),
        Admitted::Breached(breach) => Ok(Ending::Breached(breach)),
        Admitted::Unreached => Ok(Ending::Unreached),
    }
}

// What the admitted results make of a task: asked again, or ended.
fn end_task<V: Vars>(
    alloc: Global,
    prepared: &Prepared,
    results: Vec<ItemResult>,
    tried: u64,
    vars: &V,
) -> Result<Ending, AllocError>
    ensures ends { IfOk result (λ e. (t : Task) → Prepares prepared.now t
        → EndsAs e (V.world vars.now) t tried (admitted (map result_view results.items))) }
    ensures breach { IfOk result (λ e. (a : Action) (ps : List Passed) (xs : List Answer)
        → TellsBreach e a ps xs) }
{
    let all = end_results(alloc, prepared, results, vars)?;
    if until_holds(&all) {
        return Ok(Ending::Ended(outcome_of(alloc, prepared, &all)?));
    }
    if tried < retries_of(prepared) {
        return Ok(Ending::Again);
    }
    let last = fail_last_attempts(alloc, all)?;
    Ok(Ending::Ended(outcome_of(alloc, prepared, &last)?))
}

// How often the calls are repeated at most.
fn retries_of(prepared: &Prepared) -> u64
    ensures { result ≡ retries_of (option_map attempts_view prepared.now.attempts) }
{
    match &prepared.attempts {
        Some(attempts) => attempts.retries,
        None => 0,
    }
}

// Those of which `until` doesn't hold are failed.
fn fail_last_attempts(
    alloc: Global,
    results: Vec<FinalResult>,
) -> Result<Vec<FinalResult>, AllocError>
    ensures { IfOk result (λ es. map final_view es.items
        ≡ last_attempts (map final_view results.items)) }
{
    let mut last = Vec::with_capacity(alloc, results.len())?;
    for item in results {
        let attempt = fail_last_attempt(alloc, item)?;
        last.push(attempt)?;
    }
    Ok(last)
}

fn fail_last_attempt(alloc: Global, item: FinalResult) -> Result<FinalResult, AllocError>
    ensures { IfOk result (λ e. final_view e ≡ last_attempt (final_view item)) }
{
    if item.holds {
        return Ok(item);
    }
    let fields = with_statuses(alloc, item.changed, true, &item.fields)?;
    Ok(FinalResult {
        shape: item.shape,
        fields,
        assigns: item.assigns,
        changed: item.changed,
        failed: true,
        holds: false,
    })
}
