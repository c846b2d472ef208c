// All that a task writes in an environment.
ghost use Rattle.std.specs.Prelude.{◌≡◌, IfOk, is_some, option_map, string_bytes};
ghost use Rattle.pb_language.specs.Cases.{is_certain_to_run};
ghost use Rattle.pb_language.specs.Expansion.{parts_expanded, trees};
ghost use Rattle.pb_language.specs.Judgement.{task_sets, task_writes};
ghost use Rattle.pb_language.specs.Setting.{action_scope, loop_kind, start_scope};
ghost use Rattle.pb_language.specs.Words.{parts_set};
ghost use Rattle.pb_kind.specs.Words.{kind_view};
ghost use Rattle.pb_template.specs.Words.{entries_view};
ghost use Rattle.pb_vars.specs.Words.{in_scope};
ghost use Rattle.pb_fit.specs.Words.{sets_view as found_view};
ghost use Rattle.pb_transfer.specs.Words.{sets_view};
ghost use Rattle.pb_route.specs.Station.{IsStation, station_task};
ghost use Rattle.pb_visit.specs.Visits.{IsReached, env_of, failing_kind, going_kind, task_there};
ghost use Rattle.pb_visit.specs.Visits.{IsEither, writes_view};

use crate::footing::sets_found;
use crate::started::{kind_of_loop, looped, started};
use crate::visit::Visit;
use pb_fit::Set as Found;
use pb_judgement::looped as looped_kind;
use pb_judgement::results::copy_of;
use pb_kind::Kind;
use pb_outlook::Outlook;
use pb_route::station::Station;
use pb_task::Work;
use pb_transfer::Set;
use std::alloc::{AllocError, Global};

/// All that a task writes.
#[derive(Drop)]
pub struct Writes {
    /// The kind of its result where it goes on; none where it never does.
    pub going: Option<Kind>,
    /// The kind of its result where it fails; none where it never does.
    pub failing: Option<Kind>,
    /// The kind of its result in either way.
    pub either: Option<Kind>,
    /// The names that it sets.
    pub sets: Vec<Set>,
}

/// All that a task writes there, each with its kind: its results, which go under the name that it
/// registers, and the names that it sets.
///
/// # Errors
///
/// Want of memory, as of `pb_expr::infer_kind` and `pb_expr::narrow::narrow`.
pub fn written<O: Outlook>(
    alloc: Global,
    visit: &Visit<'_, '_>,
    outlook: &O,
) -> Result<Writes, AllocError>
    requires station { IsStation visit.now.station.now }
    requires reached { IsReached visit.now }
    ensures writes { IfOk result (λ w. writes_view (task_there visit.now).register w
        ≡ task_writes (O.setting outlook.now) (task_there visit.now) (env_of visit.now)) }
    ensures either { IfOk result (λ w. IsEither (option_map kind_view w.going)
        (option_map kind_view w.failing) (option_map kind_view w.either)) }
{
    let found = looped(alloc, visit, outlook)?;
    let over = kind_of_loop(&found);
    let going = going_kind(alloc, visit.station, over)?;
    let failing = failing_kind(alloc, visit.station, over)?;
    Ok(Writes {
        either: either_kind(visit.station, over, &going, &failing)?,
        going,
        failing,
        sets: sets_there(alloc, visit, outlook, over)?,
    })
}

// The kind of its result in either way, of those where it goes on and where it fails.
fn either_kind(
    station: &Station<'_>,
    over: Option<&Kind>,
    going: &Option<Kind>,
    failing: &Option<Kind>,
) -> Result<Option<Kind>, AllocError>
    requires station { IsStation station.now }
    requires going { option_map kind_view going.now ≡ going_kind (station_task station.now)
        (option_map (λ k. kind_view k.now) over) }
    requires failing { option_map kind_view failing.now ≡ failing_kind (station_task station.now)
        (option_map (λ k. kind_view k.now) over) }
    ensures { IfOk result (λ o. IsEither (option_map kind_view going.now)
        (option_map kind_view failing.now) (option_map kind_view o)) }
{
    match (going, failing) {
        (Some(kind), Some(_)) => match over {
            None => Ok(Some(station.ends.all.clone()?)),
            Some(_) => Ok(Some(kind.clone()?)),
        },
        (Some(_), None) => copy_of(going),
        (None, _) => copy_of(failing),
    }
}

// The kind of the result with which the task goes on, where its loop is over that.
pub(crate) fn going_kind(
    alloc: Global,
    station: &Station<'_>,
    over: Option<&Kind>,
) -> Result<Option<Kind>, AllocError>
    requires station { IsStation station.now }
    requires over { is_some over ≡ is_some (station_task station.now).loop }
    ensures { IfOk result (λ o. option_map kind_view o
        ≡ going_kind (station_task station.now)
        (option_map (λ k. kind_view k.now) over.entry)) }
{
    match over {
        Some(list) => Ok(Some(looped_kind(alloc, &station.ends.all, list)?)),
        None => copy_of(&station.ends.going),
    }
}

// The kind of the result with which it fails.
pub(crate) fn failing_kind(
    alloc: Global,
    station: &Station<'_>,
    over: Option<&Kind>,
) -> Result<Option<Kind>, AllocError>
    requires station { IsStation station.now }
    ensures { IfOk result (λ o. option_map kind_view o
        ≡ failing_kind (station_task station.now)
        (option_map (λ k. kind_view k.now) over.entry)) }
{
    let Some(list) = over else {
        return copy_of(&station.ends.failing);
    };
    match &station.ends.failing {
        Some(_) => Ok(Some(looped_kind(alloc, &station.ends.all, list)?)),
        None => Ok(None),
    }
}

// The names that the task sets.
pub(crate) fn sets_there<O: Outlook>(
    alloc: Global,
    visit: &Visit<'_, '_>,
    outlook: &O,
    over: Option<&Kind>,
) -> Result<Vec<Set>, AllocError>
    requires station { IsStation visit.now.station.now }
    requires reached { IsReached visit.now }
    requires over { option_map (λ k. kind_view k.now) over
        ≡ loop_kind (start_scope (O.setting outlook.now) (task_there visit.now) (env_of visit.now))
        (task_there visit.now).loop }
    ensures { IfOk result (λ v. sets_view v.items
        ≡ task_sets (O.setting outlook.now) (task_there visit.now) (env_of visit.now)) }
{
    match &visit.station.task.work {
        Work::SetFact => facts_set(alloc, visit, outlook, over),
        Work::Module(_) => copies(alloc, &visit.station.facts),
        Work::Debug | Work::Assert(_) | Work::Fail => Ok(Vec::new(alloc)),
    }
}

// The names that a `set_fact` sets, where its conditions hold.
fn facts_set<O: Outlook>(
    alloc: Global,
    visit: &Visit<'_, '_>,
    outlook: &O,
    over: Option<&Kind>,
) -> Result<Vec<Set>, AllocError>
    requires station { IsStation visit.now.station.now }
    requires reached { IsReached visit.now }
    requires over { option_map (λ k. kind_view k.now) over
        ≡ loop_kind (start_scope (O.setting outlook.now) (task_there visit.now) (env_of visit.now))
        (task_there visit.now).loop }
    ensures { IfOk result (λ v. sets_view v.items
        ≡ parts_set (action_scope (O.setting outlook.now) (task_there visit.now) (env_of visit.now))
        (is_certain_to_run (task_there visit.now))
        (parts_expanded (trees (in_scope visit.now.station.now.vars))
        (entries_view visit.now.station.now.task.now.arguments.items))) }
{
    let held = started(alloc, visit, outlook, over)?;
    let ground = visit.ground(outlook);
    let found = sets_found(alloc, visit.station.task, &ground, over, &held.taught)?;
    as_written(alloc, found, visit.station.is_certain)
}

// These names, each for certain or none.
fn as_written(alloc: Global, found: Vec<Found>, is_certain: bool) -> Result<Vec<Set>, AllocError>
    ensures { IfOk result (λ v. sets_view v.items ≡ found_view is_certain found.items) }
{
    let mut sets = Vec::with_capacity(alloc, found.len())?;
    for Found { name, kind } in found {
        sets.push(Set {
            name,
            is_certain,
            kind,
        })?;
    }
    Ok(sets)
}

fn copies(alloc: Global, sets: &[Set]) -> Result<Vec<Set>, AllocError>
    ensures { IfOk result (λ v. sets_view v.items ≡ sets_view sets.now) }
{
    let mut copies = Vec::new(alloc);
    for set in sets {
        copies.push(Set {
            name: set.name.clone()?,
            is_certain: set.is_certain,
            kind: set.kind.clone()?,
        })?;
    }
    Ok(copies)
}
