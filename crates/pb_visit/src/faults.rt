// The first fault of a task in an environment.
ghost use Rattle.std.specs.Prelude.{◌≡◌, IfOk, option_map};
ghost use Rattle.pb_language.specs.Expansion.{trees};
ghost use Rattle.pb_language.specs.Judgement.{keyword_fault, task_fault, until_fault};
ghost use Rattle.pb_language.specs.Notify.{all_notified, names_something};
ghost use Rattle.pb_language.specs.Plays.{expanded_list};
ghost use Rattle.pb_language.specs.Setting.{action_scope, give_scope, item_scope, loop_kind};
ghost use Rattle.pb_language.specs.Setting.{start_scope, until_scope};
ghost use Rattle.pb_language.specs.Fit.{unknown_handler};
ghost use Rattle.pb_language.specs.Words.{action_fault, asks, conditions_fault, first};
ghost use Rattle.pb_kind.specs.Words.{kind_view};
ghost use Rattle.pb_syntax.specs.Words.{exprs_view};
ghost use Rattle.pb_vars.specs.Words.{in_scope};
ghost use Rattle.pb_forms.specs.Words.{fault_view};
ghost use Rattle.pb_route.specs.Station.{IsStation};
ghost use Rattle.pb_visit.specs.Visits.{IsReached, env_of, task_there};

use crate::asked::{given, registers, until_of};
use crate::footing::{action_found, keyword_found};
use crate::started::{fault_of_loop, kind_of_loop, looped, started};
use crate::visit::Visit;
use pb_expr::Unfit;
use pb_kind::Kind;
use pb_outlook::Outlook;
use pb_syntax::Expr;
use std::alloc::{AllocError, Global};

/// The first fault of a task there: of its loop, its conditions, what it does, `changed_when`,
/// `failed_when` and `until`, in this order. Whether the texts that it notifies name handlers,
/// which is asked last, isn't asked here.
///
/// # Errors
///
/// Want of memory, as of `pb_expr::infer_kind` and `pb_expr::narrow::narrow`.
pub fn fault<O: Outlook>(
    alloc: Global,
    visit: &Visit<'_, '_>,
    outlook: &O,
) -> Result<Option<Unfit>, AllocError>
    requires station { IsStation visit.now.station.now }
    requires reached { IsReached visit.now }
    ensures { let st = O.setting outlook.now in let t = task_there visit.now in
        IfOk result (λ u. task_fault st t (env_of visit.now)
        ≡ first (option_map fault_view u)
        (asks unknown_handler (names_something (all_notified st.handlers t.notifies)))) }
{
    let found = looped(alloc, visit, outlook)?;
    if let Some(unfit) = fault_of_loop(&found) {
        return Ok(Some(unfit));
    }
    let over = kind_of_loop(&found);
    if let Some(unfit) = start_unfit(alloc, visit, outlook, over)? {
        return Ok(Some(unfit));
    }
    give_unfit(alloc, visit, outlook, over)
}

// Of the conditions, and of what it does where they hold.
fn start_unfit<O: Outlook>(
    alloc: Global,
    visit: &Visit<'_, '_>,
    outlook: &O,
    over: Option<&Kind>,
) -> Result<Option<Unfit>, AllocError>
    requires station { IsStation visit.now.station.now }
    requires reached { IsReached visit.now }
    requires over { option_map (λ k. kind_view k.now) over
        ≡ loop_kind (start_scope (O.setting outlook.now) (task_there visit.now) (env_of visit.now))
        (task_there visit.now).loop }
    ensures { let st = O.setting outlook.now in let t = task_there visit.now in
        IfOk result (λ u. option_map fault_view u ≡ first
        (conditions_fault (item_scope st t (env_of visit.now)) t.conditions)
        (action_fault (action_scope st t (env_of visit.now)) t.action)) }
{
    let held = started(alloc, visit, outlook, over)?;
    if held.unfit.is_some() {
        return Ok(held.unfit);
    }
    let ground = visit.ground(outlook);
    action_found(alloc, visit.station.task, &ground, over, &held.taught)
}

// Of the keywords that judge a result.
fn give_unfit<O: Outlook>(
    alloc: Global,
    visit: &Visit<'_, '_>,
    outlook: &O,
    over: Option<&Kind>,
) -> Result<Option<Unfit>, AllocError>
    requires station { IsStation visit.now.station.now }
    requires reached { IsReached visit.now }
    requires over { option_map (λ k. kind_view k.now) over
        ≡ loop_kind (start_scope (O.setting outlook.now) (task_there visit.now) (env_of visit.now))
        (task_there visit.now).loop }
    ensures { let st = O.setting outlook.now in let t = task_there visit.now in
        let c = give_scope st t (env_of visit.now) in
        IfOk result (λ u. option_map fault_view u ≡ first (keyword_fault c t.changed_when)
        (first (keyword_fault c t.failed_when)
        (until_fault (until_scope st t (env_of visit.now)) t.attempts))) }
{
    let changed = given(&visit.station.task.changed_when);
    if let Some(unfit) = keyword_asked(alloc, visit, outlook, over, changed)? {
        return Ok(Some(unfit));
    }
    let failed = given(&visit.station.task.failed_when);
    if let Some(unfit) = keyword_asked(alloc, visit, outlook, over, failed)? {
        return Ok(Some(unfit));
    }
    until_asked(alloc, visit, outlook, over)
}

// Of `changed_when` or `failed_when`, which see the result as it was answered.
fn keyword_asked<O: Outlook>(
    alloc: Global,
    visit: &Visit<'_, '_>,
    outlook: &O,
    over: Option<&Kind>,
    conditions: Option<&[Expr]>,
) -> Result<Option<Unfit>, AllocError>
    requires station { IsStation visit.now.station.now }
    requires reached { IsReached visit.now }
    requires over { option_map (λ k. kind_view k.now) over
        ≡ loop_kind (start_scope (O.setting outlook.now) (task_there visit.now) (env_of visit.now))
        (task_there visit.now).loop }
    ensures { let st = O.setting outlook.now in let t = task_there visit.now in
        IfOk result (λ u. option_map fault_view u
        ≡ keyword_fault (give_scope st t (env_of visit.now))
        (expanded_list (trees (in_scope visit.now.station.now.vars))
        (option_map (λ es. exprs_view es.now) conditions.entry))) }
{
    let ground = visit.ground(outlook);
    let station = visit.station;
    keyword_found(
        alloc,
        conditions,
        &ground,
        over,
        registers(station.task),
        &station.own.answered,
    )
}

// Of `until`, which sees the result with its statuses.
fn until_asked<O: Outlook>(
    alloc: Global,
    visit: &Visit<'_, '_>,
    outlook: &O,
    over: Option<&Kind>,
) -> Result<Option<Unfit>, AllocError>
    requires station { IsStation visit.now.station.now }
    requires reached { IsReached visit.now }
    requires over { option_map (λ k. kind_view k.now) over
        ≡ loop_kind (start_scope (O.setting outlook.now) (task_there visit.now) (env_of visit.now))
        (task_there visit.now).loop }
    ensures { let st = O.setting outlook.now in let t = task_there visit.now in
        IfOk result (λ u. option_map fault_view u
        ≡ until_fault (until_scope st t (env_of visit.now)) t.attempts) }
{
    let ground = visit.ground(outlook);
    let station = visit.station;
    keyword_found(
        alloc,
        until_of(station.task),
        &ground,
        over,
        registers(station.task),
        &station.own.judged,
    )
}
