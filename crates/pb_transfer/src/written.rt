// What a task writes into the environment of its host: what it registers, and the names it sets.
ghost use Rattle.std.specs.Prelude.{◌≡◌, IfOk, option_map, string_bytes};
ghost use Rattle.pb_semantics.specs.Words.{slot_at, spot};
ghost use Rattle.pb_semantics.specs.Well.{Well};
ghost use Rattle.pb_language.specs.Cases.{set_spot, with_register, with_sets};
ghost use Rattle.pb_language.specs.Scope.{with_slot, with_spot};
ghost use Rattle.pb_language.specs.Wells.{WellSets};
ghost use Rattle.pb_kind.specs.Words.{is_always, kind_view, spot_view};
ghost use Rattle.pb_lattice.specs.Words.{IsKept, Stands, exit_of};
ghost use Rattle.pb_transfer.specs.Written.{AreSame, sets_view, where_led};

use pb_kind::join::join;
use pb_kind::{Kind, Presence, Slot};
use pb_lattice::{Environment, Environments};
use std::alloc::{AllocError, Global};
use std::sync::Arc;

/// A name that a task sets, with the kind of the value.
#[derive(Drop)]
pub struct Set {
    pub name: Arc<String>,
    /// Whether it is set each time that the task goes on.
    pub is_certain: bool,
    pub kind: Kind,
}

/// The environment with what is registered under the name, where there is one.
///
/// # Errors
///
/// Want of memory, also where the table isn't over the name.
pub fn with_register(
    space: &mut Environments,
    at: Environment,
    name: Option<&str>,
    kind: &Kind,
) -> Result<Environment, AllocError>
    requires stands { Stands space.old at }
    requires well { Well (kind_view kind.now) }
    ensures kept { IsKept space.old space.new }
    ensures stands { IfOk result (λ e. Stands space.new e) }
    ensures same { IfOk result (λ e. AreSame (exit_of space.new e)
        (where_led (with_register (option_map (λ n. n.now) name.entry) (kind_view kind.now))
        (exit_of space.old at))) }
{
    match name {
        None => Ok(at),
        Some(name) => {
            let slot = Slot::always(kind.clone()?);
            put(space, at, name, slot)
        }
    }
}

/// The environment with the names that are set, one after the other. One that may not be set stays
/// what it may have been.
///
/// # Errors
///
/// Want of memory, also where the table isn't over a name.
pub fn with_sets(
    alloc: Global,
    space: &mut Environments,
    at: Environment,
    sets: &[Set],
) -> Result<Environment, AllocError>
    requires stands { Stands space.old at }
    requires well { WellSets (sets_view sets.now) }
    ensures kept { IsKept space.old space.new }
    ensures stands { IfOk result (λ e. Stands space.new e) }
    ensures same { IfOk result (λ e. AreSame (exit_of space.new e)
        (where_led (with_sets (sets_view sets.now)) (exit_of space.old at))) }
{
    let mut at = at;
    for set in sets {
        at = with_set(alloc, space, at, set)?;
    }
    Ok(at)
}

fn with_set(
    alloc: Global,
    space: &mut Environments,
    at: Environment,
    set: &Set,
) -> Result<Environment, AllocError>
    requires stands { Stands space.old at }
    requires well { Well (kind_view set.now.kind) }
    ensures kept { IsKept space.old space.new }
    ensures stands { IfOk result (λ e. Stands space.new e) }
    ensures same { let n = string_bytes set.now.name.value in
        IfOk result (λ e. AreSame (exit_of space.new e) (where_led (λ ss. with_spot n
        (set_spot set.now.is_certain (slot_at n ss) (kind_view set.now.kind)) ss)
        (exit_of space.old at))) }
{
    let slot = set_slot(alloc, set, space.slot(at, set.name.as_str()))?;
    put(space, at, set.name.as_str(), slot)
}

// What is known of a name once it is set, or may be.
fn set_slot(alloc: Global, set: &Set, known: Option<&Slot<Kind>>) -> Result<Slot<Kind>, AllocError>
    ensures { IfOk result (λ s. spot (is_always s.presence) (kind_view s.kind)
        ≡ set_spot set.now.is_certain (spot_view known.entry) (kind_view set.now.kind)) }
{
    if set.is_certain {
        return Ok(Slot::always(set.kind.clone()?));
    }
    match known {
        None => Ok(Slot::maybe(set.kind.clone()?)),
        Some(slot) => Ok(Slot {
            presence: slot.presence,
            kind: join(alloc, &slot.kind, &set.kind)?,
        }),
    }
}

// The environment with that slot; want of memory where the table isn't over the name.
fn put(
    space: &mut Environments,
    at: Environment,
    name: &str,
    slot: Slot<Kind>,
) -> Result<Environment, AllocError>
    requires stands { Stands space.old at }
    requires well { Well (kind_view slot.kind) }
    ensures kept { IsKept space.old space.new }
    ensures stands { IfOk result (λ e. Stands space.new e) }
    ensures same { IfOk result (λ e. AreSame (exit_of space.new e)
        (where_led (with_slot name.now (is_always slot.presence) (kind_view slot.kind))
        (exit_of space.old at))) }
{
    if !space.has_name(name) {
        return Err(AllocError);
    }
    space.with(at, name, slot)
}
