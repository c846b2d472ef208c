// What a task sets by itself that gathers facts.
ghost use Rattle.std.specs.Prelude.{[], ◌&&◌, ◌∷◌, ◌≡◌, IfOk, OnOk, codes, option_map};
ghost use Rattle.pb_semantics.specs.Words.{recs};
ghost use Rattle.pb_language.specs.Cases.{after_prefix, fact_prefix, facts_set, gathered, no_sets};
ghost use Rattle.pb_language.specs.Cases.{sets, stripped_slots};
ghost use Rattle.pb_kind.specs.Words.{is_always, kind_view, slots_view, spot_view};
ghost use Rattle.pb_sig.specs.Words.{known_view};
ghost use Rattle.pb_transfer.specs.Words.{sets_view};
ghost use Rattle.pb_route.specs.Gathered.{module_sets, put_named, work_sets};

use pb_kind::below::find;
use pb_kind::kind::put_slot;
use pb_kind::{Kind, Slot, Slots};
use pb_sig::{Known, Module};
use pb_task::Work;
use pb_transfer::Set;
use std::alloc::{AllocError, Global};
use std::sync::Arc;

const PREFIX: &str = "ansible_";

const FACTS: &str = "ansible_facts";

// What the work sets by itself: the facts of a module that gathers them, each for certain where
// that is so and the fact is always there.
pub(crate) fn facts_of(alloc: Global, work: &Work, is_certain: bool) -> Result<Vec<Set>, AllocError>
    ensures { IfOk result (λ v. sets_view v.items ≡ work_sets work.now is_certain) }
{
    match work {
        Work::Module(called) => module_facts(alloc, called, is_certain),
        Work::Debug | Work::SetFact | Work::Assert(_) | Work::Fail => Ok(Vec::new(alloc)),
    }
}

fn module_facts(alloc: Global, called: &Known, is_certain: bool) -> Result<Vec<Set>, AllocError>
    ensures { IfOk result (λ v. sets_view v.items
        ≡ module_sets (known_view called.now) is_certain) }
{
    if !called.gathers_facts() {
        return Ok(Vec::new(alloc));
    }
    match called.ok_shape() {
        Kind::Rec(fields) => gathered(alloc, find(fields, FACTS), is_certain),
        _ => Ok(Vec::new(alloc)),
    }
}

// The facts of that slot.
fn gathered(
    alloc: Global,
    slot: Option<&Slot<Kind>>,
    is_certain: bool,
) -> Result<Vec<Set>, AllocError>
    ensures { IfOk result (λ v. sets_view v.items ≡ gathered is_certain (spot_view slot.entry)) }
{
    let Some(slot) = slot else {
        return Ok(Vec::new(alloc));
    };
    match &slot.kind {
        Kind::Rec(facts) => record_gathered(alloc, facts, is_certain && slot.presence.is_always()),
        _ => Ok(Vec::new(alloc)),
    }
}

// The facts by their names without the prefix, those that have it.
fn stripped(alloc: Global, facts: &Slots) -> Result<Slots, AllocError>
    ensures { IfOk result (λ m. slots_view m.entries
        ≡ stripped_slots (slots_view facts.now.entries)) }
{
    let mut stripped = Slots::new(alloc);
    for (name, slot) in facts.iter() {
        put_stripped(alloc, &mut stripped, name.as_str(), slot)?;
    }
    Ok(stripped)
}

// Puts the fact in under its name without the prefix, where it has it.
fn put_stripped(
    alloc: Global,
    stripped: &mut Slots,
    name: &str,
    slot: &Slot<Kind>,
) -> Result<(), AllocError>
    ensures { OnOk result (slots_view stripped.new.entries
        ≡ put_named (after_prefix fact_prefix name.now) (is_always slot.now.presence)
        (kind_view slot.now.kind) (slots_view stripped.old.entries)) }
{
    let Some(short) = without_prefix(name) else {
        return Ok(());
    };
    let copy = Slot {
        presence: slot.presence,
        kind: slot.kind.clone()?,
    };
    put_slot(stripped, String::from_str(alloc, short)?, copy)
}

// What follows the prefix, where the name has it.
fn without_prefix(name: &str) -> Option<&str>
    ensures { option_map (λ n. n.now) result ≡ after_prefix fact_prefix name.now }
{
    name.strip_prefix(PREFIX)
}

// The record of all facts, and each by its own name.
fn record_gathered(alloc: Global, facts: &Slots, is_certain: bool) -> Result<Vec<Set>, AllocError>
    ensures { IfOk result (λ v. sets_view v.items ≡ sets (codes "ansible_facts") is_certain
        (recs (stripped_slots (slots_view facts.now.entries)))
        (facts_set is_certain (slots_view facts.now.entries))) }
{
    let mut all = Vec::new(alloc);
    all.push(record_of(alloc, facts, is_certain)?)?;
    for (name, slot) in facts.iter() {
        all.push(fact_of(alloc, name.as_str(), slot, is_certain)?)?;
    }
    Ok(all)
}

fn record_of(alloc: Global, facts: &Slots, is_certain: bool) -> Result<Set, AllocError>
    ensures { IfOk result (λ s. sets_view (s ∷ []) ≡ sets (codes "ansible_facts") is_certain
        (recs (stripped_slots (slots_view facts.now.entries))) no_sets) }
{
    Ok(Set {
        name: Arc::new(alloc, String::from_str(alloc, FACTS)?)?,
        is_certain,
        kind: Kind::of_slots(alloc, stripped(alloc, facts)?)?,
    })
}

fn fact_of(
    alloc: Global,
    name: &str,
    slot: &Slot<Kind>,
    is_certain: bool,
) -> Result<Set, AllocError>
    ensures { IfOk result (λ s. sets_view (s ∷ []) ≡ sets name.now
        (is_certain && is_always slot.now.presence) (kind_view slot.now.kind) no_sets) }
{
    Ok(Set {
        name: Arc::new(alloc, String::from_str(alloc, name)?)?,
        is_certain: is_certain && slot.presence.is_always(),
        kind: slot.kind.clone()?,
    })
}
