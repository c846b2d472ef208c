// The greatest length of a task's loop in an environment.
ghost use Rattle.std.specs.Prelude.{◌≡◌, IfOk};
ghost use Rattle.pb_language.specs.Cases.{length_bound};
ghost use Rattle.pb_language.specs.Judgement.{loop_length};
ghost use Rattle.pb_kind.specs.Words.{kind_view};
ghost use Rattle.pb_route.specs.Station.{IsStation};
ghost use Rattle.pb_visit.specs.Visits.{IsReached, env_of, task_there};

use crate::started::looped;
use crate::visit::Visit;
use pb_kind::Kind;
use pb_outlook::Outlook;
use std::alloc::{AllocError, Global};

/// How many items the task is done for there at most: one where it has no loop.
///
/// # Errors
///
/// Want of memory, as of `pb_expr::infer_kind`.
pub fn length<O: Outlook>(
    alloc: Global,
    visit: &Visit<'_, '_>,
    outlook: &O,
) -> Result<usize, AllocError>
    requires station { IsStation visit.now.station.now }
    requires reached { IsReached visit.now }
    ensures { IfOk result (λ n. n ≡ loop_length (O.setting outlook.now) (task_there visit.now)
        (env_of visit.now) (task_there visit.now).loop) }
{
    match looped(alloc, visit, outlook)? {
        Some(found) => Ok(most_items(&found.kind)),
        None => Ok(1),
    }
}

// The greatest length of a list of that kind.
fn most_items(list: &Kind) -> usize
    ensures { result ≡ length_bound (kind_view list.now) }
{
    match list {
        Kind::List(_, most) => *most,
        _ => 0,
    }
}
