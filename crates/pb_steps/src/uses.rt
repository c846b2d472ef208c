// What a step uses, by numbers: the slots of variables, and the handlers that texts notify.
ghost use Rattle.std.specs.Prelude.{[], ◌++◌, ◌∷◌, ◌≡◌, IfOk, OnOk};
ghost use Rattle.pb_language.specs.Notify.{notified};
ghost use Rattle.pb_rules.specs.Handlers.{handlers_names};
ghost use Rattle.pb_slots.specs.Words.{names_of_slots};
ghost use Rattle.pb_task.specs.Words.{names_view};
ghost use Rattle.pb_reads.specs.Reached.{names_in};
ghost use Rattle.pb_steps.specs.Numbers.{handlers_named, slots_named};

use pb_play::Handler;
use pb_rules::is_named;
use pb_slots::Slots;
use std::alloc::{AllocError, Global};
use std::collections::BTreeSet;
use std::sync::Arc;

// The slots of those of the names that have one.
pub(crate) fn slots_of(
    alloc: Global,
    names: &BTreeSet<&str>,
    slots: &Slots,
) -> Result<Vec<usize>, AllocError>
    ensures { IfOk result (λ is. is.items
        ≡ slots_named (names_of_slots slots.now) (names_in names.now)) }
{
    let mut found = Vec::with_capacity(alloc, names.len())?;
    for name in names.iter() {
        add_slot(slots, *name, &mut found)?;
    }
    Ok(found)
}

fn add_slot(slots: &Slots, name: &str, found: &mut Vec<usize>) -> Result<(), AllocError>
    ensures { OnOk result (found.new.items ≡ found.old.items
        ++ slots_named (names_of_slots slots.now) (name.now ∷ [])) }
{
    match slots.slot(name) {
        Some(slot) => Ok(found.push(slot)?),
        None => Ok(()),
    }
}

// The numbers of the handlers that the texts notify, text by text.
pub(crate) fn handlers_named(
    alloc: Global,
    handlers: &[Handler],
    texts: &[Arc<String>],
) -> Result<Vec<usize>, AllocError>
    ensures { IfOk result (λ is. is.items
        ≡ handlers_named (handlers_names handlers.now) (names_view texts.now)) }
{
    let mut numbers = Vec::new(alloc);
    for text in texts {
        add_named(handlers, text.as_str(), &mut numbers)?;
    }
    Ok(numbers)
}

fn add_named(handlers: &[Handler], text: &str, numbers: &mut Vec<usize>) -> Result<(), AllocError>
    ensures { OnOk result (numbers.new.items ≡ numbers.old.items
        ++ notified 0 text.now (handlers_names handlers.now)) }
{
    for number in 0..handlers.len() {
        if is_named(&handlers[number], text) {
            numbers.push(number)?;
        }
    }
    Ok(())
}
