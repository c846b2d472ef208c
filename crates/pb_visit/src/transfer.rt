// What is known of a host's variables after a task, where it goes on and where it fails.
ghost use Rattle.std.specs.Prelude.{◌≡◌, IfOk, false, option_map};
ghost use Rattle.pb_semantics.specs.Well.{Well};
ghost use Rattle.pb_language.specs.Cases.{with_register};
ghost use Rattle.pb_language.specs.Walk.{failing_from, going_from};
ghost use Rattle.pb_lattice.specs.Words.{IsKept, Stands, exit_of, is_dead};
ghost use Rattle.pb_kind.specs.Words.{kind_view};
ghost use Rattle.pb_flow.specs.Words.{along_way};
ghost use Rattle.pb_outlook.specs.Words.{known_of};
ghost use Rattle.pb_transfer.specs.Words.{AreSame, where_led};
ghost use Rattle.pb_route.specs.Station.{IsStation, station_task};
ghost use Rattle.pb_visit.specs.Made.{IsFailing, IsGoing};

use crate::asked::registers;
use crate::started::{kind_of_loop, looped};
use crate::visit::Visit;
use crate::writes::{failing_kind, going_kind, sets_there};
use pb_flow::Way;
use pb_kind::Kind;
use pb_lattice::{Environment, Environments};
use pb_outlook::Outlook;
use pb_route::station::Station;
use pb_transfer::{Set, with_register, with_sets};
use std::alloc::{AllocError, Global};

/// What is known of the host's variables after the task, in that way; nothing where no way leads
/// there.
///
/// # Errors
///
/// Want of memory, also where the table isn't over a name that the task writes.
pub fn led<O: Outlook>(
    alloc: Global,
    station: &Station<'_>,
    outlook: &O,
    way: Way,
    at: Environment,
    space: &mut Environments,
) -> Result<Environment, AllocError>
    requires station { IsStation station.now }
    requires stands { Stands space.old at }
    ensures kept { IsKept space.old space.new }
    ensures stands { IfOk result (λ e. Stands space.new e) }
    ensures same { IfOk result (λ e. AreSame (exit_of space.new e)
        (along_way (O.setting outlook.now) (station_task station.now) way (exit_of space.old at))) }
{
    if at.is_dead() {
        return Ok(at);
    }
    match way {
        Way::Begins | Way::Passes => Ok(at),
        Way::Goes => goes(alloc, station, outlook, at, space),
        Way::Fails => fails(alloc, station, outlook, at, space),
    }
}

// Where the task goes on.
fn goes<O: Outlook>(
    alloc: Global,
    station: &Station<'_>,
    outlook: &O,
    at: Environment,
    space: &mut Environments,
) -> Result<Environment, AllocError>
    requires station { IsStation station.now }
    requires stands { Stands space.old at }
    requires alive { is_dead (exit_of space.old at) ≡ false }
    ensures kept { IsKept space.old space.new }
    ensures stands { IfOk result (λ e. Stands space.new e) }
    ensures same { IfOk result (λ e. AreSame (exit_of space.new e)
        (going_from (O.setting outlook.now) (station_task station.now) (exit_of space.old at))) }
{
    let Some(made) = going(alloc, &*station, outlook, at, &*space)? else {
        return Ok(Environment::dead());
    };
    let after = registered(station, at, &made.result, space)?;
    with_sets(alloc, space, after, &made.sets)
}

// Where it fails.
fn fails<O: Outlook>(
    alloc: Global,
    station: &Station<'_>,
    outlook: &O,
    at: Environment,
    space: &mut Environments,
) -> Result<Environment, AllocError>
    requires station { IsStation station.now }
    requires stands { Stands space.old at }
    requires alive { is_dead (exit_of space.old at) ≡ false }
    ensures kept { IsKept space.old space.new }
    ensures stands { IfOk result (λ e. Stands space.new e) }
    ensures same { IfOk result (λ e. AreSame (exit_of space.new e)
        (failing_from (O.setting outlook.now) (station_task station.now) (exit_of space.old at))) }
{
    let Some(result) = failing(alloc, &*station, outlook, at, &*space)? else {
        return Ok(Environment::dead());
    };
    registered(station, at, &result, space)
}

// What a task makes that goes on.
#[derive(Drop)]
pub(crate) struct Made {
    // The kind of its result.
    pub(crate) result: Kind,
    pub(crate) sets: Vec<Set>,
}

// What the task makes where it goes on, if it ever does.
fn going<'s, O: Outlook>(
    alloc: Global,
    station: &'s Station<'_>,
    outlook: &O,
    at: Environment,
    space: &'s Environments,
) -> Result<Option<Made>, AllocError>
    requires station { IsStation station.now }
    requires stands { Stands space.now at }
    requires alive { is_dead (exit_of space.now at) ≡ false }
    ensures { IfOk result (λ o. IsGoing (O.setting outlook.now) (station_task station.now)
        (known_of (exit_of space.now at)) o) }
{
    O::views_are_well();
    let visit = Visit { station, space, at };
    let found = looped(alloc, &visit, outlook)?;
    let over = kind_of_loop(&found);
    match going_kind(alloc, station, over)? {
        None => Ok(None),
        Some(result) => Ok(Some(Made {
            result,
            sets: sets_there(alloc, &visit, outlook, over)?,
        })),
    }
}

// The kind of the result with which it fails, if it ever does.
fn failing<'s, O: Outlook>(
    alloc: Global,
    station: &'s Station<'_>,
    outlook: &O,
    at: Environment,
    space: &'s Environments,
) -> Result<Option<Kind>, AllocError>
    requires station { IsStation station.now }
    requires stands { Stands space.now at }
    requires alive { is_dead (exit_of space.now at) ≡ false }
    ensures { IfOk result (λ o. IsFailing (O.setting outlook.now) (station_task station.now)
        (known_of (exit_of space.now at)) (option_map kind_view o)) }
{
    O::views_are_well();
    let visit = Visit { station, space, at };
    let found = looped(alloc, &visit, outlook)?;
    failing_kind(alloc, station, kind_of_loop(&found))
}

// With a result of that kind under the name that the task registers.
fn registered(
    station: &Station<'_>,
    at: Environment,
    kind: &Kind,
    space: &mut Environments,
) -> Result<Environment, AllocError>
    requires stands { Stands space.old at }
    requires well { Well (kind_view kind.now) }
    ensures kept { IsKept space.old space.new }
    ensures stands { IfOk result (λ e. Stands space.new e) }
    ensures same { IfOk result (λ e. AreSame (exit_of space.new e) (where_led
        (with_register (station_task station.now).register (kind_view kind.now))
        (exit_of space.old at))) }
{
    with_register(space, at, registers(station.task), kind)
}
