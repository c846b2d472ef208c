// What is found of a task's loop, and of its conditions for each item.
ghost use Rattle.std.specs.Prelude.{◌≡◌, IfOk, option_map};
ghost use Rattle.pb_language.specs.Judgement.{loop_fault};
ghost use Rattle.pb_language.specs.Setting.{action_scope, item_scope, loop_kind, start_scope};
ghost use Rattle.pb_language.specs.Words.{conditions_fault};
ghost use Rattle.pb_kind.specs.Words.{kind_view};
ghost use Rattle.pb_forms.specs.Words.{fault_view};
ghost use Rattle.pb_taught.specs.Words.{scope_view};
ghost use Rattle.pb_route.specs.Station.{IsStation};
ghost use Rattle.pb_visit.specs.Visits.{IsReached, env_of, item_before, loop_found, task_there};
ghost use Rattle.pb_visit.specs.Visits.{unfit_found};

use crate::footing::{item_conditions, loop_found};
use crate::visit::Visit;
use pb_expr::{Inferred, Unfit};
use pb_fit::Held;
use pb_kind::Kind;
use pb_outlook::Outlook;
use std::alloc::{AllocError, Global};

// The kind of the task's loop and its fault, where there is one.
pub(crate) fn looped<O: Outlook>(
    alloc: Global,
    visit: &Visit<'_, '_>,
    outlook: &O,
) -> Result<Option<Inferred>, AllocError>
    requires station { IsStation visit.now.station.now }
    requires reached { IsReached visit.now }
    ensures kind { IfOk result (λ o. loop_found o
        ≡ loop_kind (start_scope (O.setting outlook.now) (task_there visit.now) (env_of visit.now))
        (task_there visit.now).loop) }
    ensures fault { IfOk result (λ o. unfit_found o
        ≡ loop_fault (start_scope (O.setting outlook.now) (task_there visit.now) (env_of visit.now))
        (task_there visit.now).loop) }
{
    let Some(list) = &visit.station.task.loop_over else {
        return Ok(None);
    };
    let ground = visit.ground(outlook);
    let found = loop_found(alloc, list, &ground)?;
    Ok(Some(found))
}

// The kind of the loop, where there is one.
pub(crate) fn kind_of_loop(looped: &Option<Inferred>) -> Option<&Kind>
    ensures { option_map (λ k. kind_view k.now) result ≡ loop_found looped.now }
{
    match looped {
        Some(found) => Some(&found.kind),
        None => None,
    }
}

// The fault of the loop, where there is one.
pub(crate) fn fault_of_loop(looped: &Option<Inferred>) -> Option<Unfit>
    ensures { option_map fault_view result ≡ unfit_found looped.now }
{
    match looped {
        Some(found) => found.unfit,
        None => None,
    }
}

// What is found of the conditions round the task and of its own, where each item is of the loop's
// kind.
pub(crate) fn started<O: Outlook>(
    alloc: Global,
    visit: &Visit<'_, '_>,
    outlook: &O,
    over: Option<&Kind>,
) -> Result<Held, AllocError>
    requires station { IsStation visit.now.station.now }
    requires reached { IsReached visit.now }
    requires over { option_map (λ k. kind_view k.now) over
        ≡ loop_kind (start_scope (O.setting outlook.now) (task_there visit.now) (env_of visit.now))
        (task_there visit.now).loop }
    ensures fault { IfOk result (λ h. option_map fault_view h.unfit ≡ conditions_fault
        (item_scope (O.setting outlook.now) (task_there visit.now) (env_of visit.now))
        (task_there visit.now).conditions) }
    ensures taught { IfOk result (λ h.
        scope_view (item_before (O.setting outlook.now) visit.now) h.taught
        ≡ action_scope (O.setting outlook.now) (task_there visit.now) (env_of visit.now)) }
{
    let ground = visit.ground(outlook);
    let station = visit.station;
    item_conditions(alloc, station.task, &station.around, &ground, over)
}
