// The variables that a task sets on its host, written to their slots.
ghost use Rattle.std.specs.Prelude.{◌<◌, ◌≡◌, ℕ, All, IfOk, IfSome, cond, is_some, length, nat_eq};
ghost use Rattle.std.specs.Prelude.{List};
ghost use Rattle.pb_semantics.specs.Words.{put_all};
ghost use Rattle.pb_language.specs.World.{HostVariables};
ghost use Rattle.pb_slots.specs.Words.{names_of_slots};
ghost use Rattle.pb_slots.specs.declared.slots.Slots.{Slots as SlotsOfNames};
ghost use Rattle.pb_value.specs.Words.{fields_view};
ghost use Rattle.pb_world.specs.Variables.{host_variables};
ghost use Rattle.pb_world.specs.Writes.{have_slots, slot_fields, with_values};

use pb_facts::{Facts, slots_are_variables};
use pb_slots::Slots;
use pb_value::Value;
use std::alloc::{AllocError, Global};

/// The slots of the variables, with their values; none where a variable has no slot.
///
/// # Errors
///
/// Want of memory.
pub fn slots_of_writes(
    alloc: Global,
    slots: &Slots,
    writes: Vec<(String, Value)>,
) -> Result<Option<Vec<(usize, Value)>>, AllocError>
    ensures found { IfOk result
        (λ o. is_some o ≡ have_slots (names_of_slots slots.now) writes.items) }
    ensures placed { IfOk result (λ o. IfSome o
        (λ ws. All (λ w. w.0 < length (names_of_slots slots.now)) ws.items)) }
    ensures named { IfOk result (λ o. IfSome o
        (λ ws. slot_fields (names_of_slots slots.now) ws.items ≡ fields_view writes.items)) }
{
    let mut placed = Vec::with_capacity(alloc, writes.len())?;
    for (name, value) in writes {
        match slots.slot(name.as_str()) {
            Some(slot) => placed.push((slot, value))?,
            None => return Ok(None),
        }
    }
    Ok(Some(placed))
}

/// Writes these to the slots of the host, one after the other. It takes no memory.
pub fn write_all(facts: &mut Facts, host: usize, writes: Vec<(usize, Value)>)
    requires host { host < facts.old.hosts }
    requires slots { All (λ w. w.0 < facts.old.slots) writes.items }
    ensures written { facts.new ≡ with_values facts.old host writes.items }
    ensures hosts { facts.new.hosts ≡ facts.old.hosts }
    ensures slots { facts.new.slots ≡ facts.old.slots }
    ensures variables { (slots : SlotsOfNames) (hs : List HostVariables) (k : ℕ)
        → length (names_of_slots slots) ≡ facts.old.slots
        → host_variables hs (names_of_slots slots) facts.new k
        ≡ cond (nat_eq k host)
        (put_all (slot_fields (names_of_slots slots) writes.items)
        (host_variables hs (names_of_slots slots) facts.old host))
        (host_variables hs (names_of_slots slots) facts.old k) }
{
    slots_are_variables();
    facts.hosts();
    for (slot, value) in writes {
        facts.set(host, slot, value);
    }
}
