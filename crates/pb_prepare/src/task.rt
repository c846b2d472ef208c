// A task of a book as it runs, prepared once for its place in its play.
ghost use Rattle.std.specs.Prelude.{◌≡◌, IfOk, not, option_map, string_bytes, true, unwrap_or};
ghost use Rattle.pb_semantics.specs.Words.{is_among};
ghost use Rattle.pb_language.specs.Expression.{Name};
ghost use Rattle.pb_language.specs.Rules.{part_names};
ghost use Rattle.pb_syntax.specs.Words.{parts_view};
ghost use Rattle.pb_vars.specs.Words.{in_scope};
ghost use Rattle.pb_route.specs.Words.{IsStation, station_task};
ghost use Rattle.pb_reads.specs.Needed.{IsReached};
ghost use Rattle.pb_start.specs.Words.{Prepares, read_no_item};
ghost use Rattle.pb_prepare.specs.Order.{has_order};
ghost use Rattle.pb_prepare.specs.Roots.{roots_at};

use crate::bound::Bound;
use crate::item::read_item;
use pb_flow::Around;
use pb_reads::{names_reached, task_roots};
use pb_route::Station;
use pb_slots::{Slots, SlotsInScope};
use pb_start::Prepared;
use pb_task::Task;
use std::alloc::{AllocError, Global};
use std::sync::Arc;

/// The task as it runs where it stands, with those slots. Its arguments stand in the order of their
/// names, as the reader leaves them. Of the names of `vars` it has those alone that it reaches, and
/// they are said to read the item only where one of them may.
///
/// # Errors
///
/// Want of memory.
pub fn prepare(alloc: Global, station: &Station<'_>, slots: &Slots) -> Result<Prepared, AllocError>
    requires station { IsStation station.now }
    ensures task { IfOk result (λ p. has_order (station_task station.now).action ≡ true
        → Prepares p (station_task station.now)) }
    ensures names { IfOk result (λ p. (n : Name)
        → is_among n (part_names (parts_view p.names.items)) ≡ true
        → IsReached (in_scope station.now.vars) (roots_at station.now) n) }
    ensures item { IfOk result
        (λ p. p.names_read_item ≡ not (read_no_item (parts_view p.names.items))) }
{
    let task = station.task;
    let around: &Around<'_> = &station.around;
    let roots = task_roots(alloc, task, around)?;
    let reached = names_reached(alloc, &station.vars, roots.as_slice())?;
    let bound = Bound {
        alloc,
        seen: SlotsInScope {
            slots,
            scope: &station.vars,
        },
    };
    Ok(Prepared {
        names: bound.names(reached.as_slice())?,
        names_read_item: read_item(alloc, reached.as_slice())?,
        conditions: bound.conditions(around, &task.when)?,
        loop_over: bound.option(task.loop_over.as_ref())?,
        action: bound.action(task)?,
        register: shared(&task.register)?,
        changed_when: bound.list(&task.changed_when)?,
        failed_when: bound.list(&task.failed_when)?,
        attempts: bound.attempts(&task.attempts)?,
        ignores: ignores(task, around),
        rescued: around.rescued,
        depth: around.depth,
    })
}

fn shared(name: &Option<Arc<String>>) -> Result<Option<Arc<String>>, AllocError>
    ensures { IfOk result (λ n. option_map (λ s. string_bytes s.value) n
        ≡ option_map (λ s. string_bytes s.value) name.now) }
{
    match name {
        Some(name) => Ok(Some(name.clone()?)),
        None => Ok(None),
    }
}

// Whether errors are ignored: as the task says, or else what stands round it.
fn ignores(task: &Task, around: &Around<'_>) -> bool
    ensures { result ≡ unwrap_or task.now.ignore_errors around.now.ignores }
{
    task.ignore_errors.unwrap_or(around.ignores)
}
