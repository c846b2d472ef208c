// A task where it stands in its play, with what is so of it on every host.
ghost use Rattle.std.specs.Prelude.{[], ◌&&◌, ◌||◌, ◌≡◌, IfOk, is_some, not};
ghost use Rattle.pb_language.specs.Book.{Registry};
ghost use Rattle.pb_language.specs.Cases.{is_conditional};
ghost use Rattle.pb_language.specs.Expression.{no_parts};
ghost use Rattle.pb_language.specs.Plays.{append_parts, task_at};
ghost use Rattle.pb_syntax.specs.Words.{exprs_view};
ghost use Rattle.pb_task.specs.Words.{Resolves, task_view};
ghost use Rattle.pb_template.specs.Words.{entries_view};
ghost use Rattle.pb_vars.specs.Words.{HaveSame, in_scope};
ghost use Rattle.pb_flow.specs.Words.{around_view};
ghost use Rattle.pb_judgement.specs.Words.{manner_at};
ghost use Rattle.pb_route.specs.Station.{IsStation, station_task};

use crate::gathered::facts_of;
use pb_flow::Around;
use pb_judgement::laws::reads_as_it_does;
use pb_judgement::{Ends, Manner, Own, SharedResults};
use pb_task::Task;
use pb_template::Entry;
use pb_transfer::Set;
use pb_vars::InScope;
use std::alloc::{AllocError, Global};
use std::sync::Arc;

/// A task where it stands in its play, with what is so of it on every host.
#[derive(Drop)]
pub struct Station<'p> {
    pub task: &'p Task,
    /// What stands round it.
    pub around: Arc<Around<'p>>,
    /// Its place in running order.
    pub place: u32,
    /// The values of `vars` in scope.
    pub vars: InScope<'p>,
    /// Nothing keeps it from running, once.
    pub is_certain: bool,
    /// The results with which it may end.
    pub ends: Ends,
    /// The own result that it is asked about.
    pub own: Own,
    /// What it sets where it gathers facts.
    pub facts: Vec<Set>,
}

impl<'p> Station<'p> {
    /// The task at that place of a play with those `vars`, and what is worked out by then.
    ///
    /// # Errors
    ///
    /// Want of memory, also where a chain of names of `vars` in scope is too long or has a cycle.
    pub fn of(
        alloc: Global,
        task: &'p Task,
        around: &Arc<Around<'p>>,
        place: u32,
        play_vars: &'p [Entry],
        shared: SharedResults<'p>,
    ) -> Result<(Station<'p>, SharedResults<'p>), AllocError>
        ensures station { IfOk result (λ r. IsStation r.0) }
        ensures task { IfOk result (λ r. (ms : Registry) → Resolves ms task.entry.now.work
            → station_task r.0 ≡ task_at (around_view ms (entries_view play_vars.entry.now)
            around.now.value) place (task_view task.entry.now)) }
    {
        let vars = scope_at(alloc, task, around, play_vars)?;
        if vars.has_long_chain(alloc)? {
            return Err(AllocError);
        }
        reads_as_it_does();
        let manner = manner_of(task, around);
        let (results, shared) = shared.results_of(alloc, &task.work, manner)?;
        let station = Station {
            task,
            around: around.clone()?,
            place,
            vars,
            is_certain: is_certain(task, manner),
            ends: results.ends,
            own: results.own,
            facts: facts_of(alloc, &task.work, gathers_surely(task, manner))?,
        };
        Ok((station, shared))
    }
}

// The values of `vars` in scope at the task: its own over the blocks', over the play's.
fn scope_at<'p>(
    alloc: Global,
    task: &'p Task,
    around: &Around<'p>,
    play_vars: &'p [Entry],
) -> Result<InScope<'p>, AllocError>
    ensures { IfOk result (λ s. HaveSame (in_scope s)
        (append_parts (entries_view task.entry.now.vars.items)
        (around_view [] (entries_view play_vars.entry.now) around.now).scope)) }
{
    let nothing = InScope::nothing(alloc);
    let mut scope = nothing.with(alloc, play_vars)?;
    for index in 0..around.blocks.len() {
        let head = around.blocks[index];
        scope = scope.with(alloc, &head.vars)?;
    }
    scope.with(alloc, &task.vars)
}

// How the task's results are judged, as it and what stands round it say.
fn manner_of(task: &Task, around: &Around<'_>) -> Manner
    ensures { (ms : Registry) → result ≡ manner_at (around_view ms no_parts around.now) task.now }
{
    Manner {
        may_skip: is_skippable(task, around),
        asks_failed: task.failed_when.is_some(),
        repeats: task.attempts.is_some(),
        ignores: task.ignore_errors.unwrap_or(around.ignores),
    }
}

// Whether nothing keeps it from running, once.
fn is_certain(task: &Task, manner: Manner) -> bool
    ensures { result ≡ not manner.may_skip && not (is_some task.now.loop_over) }
{
    !manner.may_skip && task.loop_over.is_none()
}

// Whether that is so, and it then goes on with its answer alone.
fn gathers_surely(task: &Task, manner: Manner) -> bool
    ensures { result ≡ (not manner.may_skip && not (is_some task.now.loop_over))
        && not (manner.ignores || manner.asks_failed) }
{
    is_certain(task, manner) && !(manner.ignores || manner.asks_failed)
}

// Whether it stands under a condition, its own or that of a block round it.
fn is_skippable(task: &Task, around: &Around<'_>) -> bool
    ensures { (ms : Registry) → result
        ≡ is_conditional (around_view ms no_parts around.now).conditions
        || is_conditional (exprs_view task.now.when.items) }
{
    for block in &around.blocks {
        if !block.when.is_empty() {
            return true;
        }
    }
    !task.when.is_empty()
}
