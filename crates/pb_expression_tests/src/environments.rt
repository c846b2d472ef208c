// Environments that share their parts: what is known of names, alone and where two ways meet.
ghost use Rattle.std.specs.Prelude.{[], ◌∷◌, ◌≡◌, IfOk, codes};
ghost use Rattle.pb_lattice.specs.Words.{Stands};

use pb_kind::{Kind, Slot, Slots, copy_slots, put_slot};
use pb_lattice::environment::{is_below, join};
use pb_lattice::{Environment, Environments};
use pb_transfer::{Set, with_register, with_sets};
use std::alloc::Global;
use std::sync::Arc;
use std::test::Fail;

fn one_name(alloc: Global) -> Result<Environments, Fail>
    ensures { IfOk result (λ s. s.names ≡ codes "rc" ∷ []) }
{
    let name = String::from_str(alloc, "rc")?;
    let names = vec![in alloc; name]?;
    Ok(Environments::new(alloc, names)?)
}

// Whether of the name it is known that it is a number, and whether it is certainly there.
fn is_number(space: &Environments, at: Environment, is_certain: bool) -> bool
    requires { Stands space.now at }
{
    match space.slot(at, "rc") {
        Some(slot) => matches!(slot.kind, Kind::Int) && slot.presence.is_always() == is_certain,
        None => false,
    }
}

#[test]
fn known_and_met(rt: HostRuntime) -> Result<(), Fail> {
    let mut space = one_name(rt.alloc())?;
    let none = space.empty();
    assert!(rt; space.slot(none, "rc").is_none() && !none.is_dead());
    let known = space.with(none, "rc", Slot::always(Kind::Int))?;
    assert!(rt; is_number(&space, known, true));
    let none = space.empty();
    let met = join(rt.alloc(), &mut space, known, none)?;
    assert!(rt; is_number(&space, met, false));
    let none = space.empty();
    assert!(rt; is_below(&space, none, met) && !is_below(&space, met, none));
    Ok(())
}

// What a task registers, and a name that it may set; a table that isn't over a name has no room.
#[test]
fn written(rt: HostRuntime) -> Result<(), Fail> {
    let mut space = one_name(rt.alloc())?;
    assert!(rt; space.has_name("rc") && !space.has_name("out"));
    let none = space.empty();
    let registered = with_register(&mut space, none, Some("rc"), &Kind::Int)?;
    assert!(rt; is_number(&space, registered, true));
    let set = Set {
        name: Arc::new(rt.alloc(), String::from_str(rt.alloc(), "rc")?)?,
        is_certain: false,
        kind: Kind::Int,
    };
    let none = space.empty();
    let set = with_sets(rt.alloc(), &mut space, none, &[set])?;
    assert!(rt; is_number(&space, set, false));
    let none = space.empty();
    assert!(rt; with_register(&mut space, none, Some("out"), &Kind::Int).is_err());
    Ok(())
}

// An environment that is made of all slots at once, here of a copy of them; a table that isn't over
// a name has no room.
#[test]
fn made_at_once(rt: HostRuntime) -> Result<(), Fail> {
    let mut space = one_name(rt.alloc())?;
    let mut slots = Slots::new(rt.alloc());
    put_slot(
        &mut slots,
        String::from_str(rt.alloc(), "rc")?,
        Slot::always(Kind::Int),
    )?;
    let copy = copy_slots(&slots)?;
    let made = space.of_slots(rt.alloc(), &copy)?;
    assert!(rt; is_number(&space, made, true));
    let mut others = Slots::new(rt.alloc());
    put_slot(
        &mut others,
        String::from_str(rt.alloc(), "out")?,
        Slot::always(Kind::Int),
    )?;
    assert!(rt; space.of_slots(rt.alloc(), &others).is_err());
    Ok(())
}

#[test]
fn no_way(rt: HostRuntime) {
    assert!(rt; Environment::dead().is_dead());
}
