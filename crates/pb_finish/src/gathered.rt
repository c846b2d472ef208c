// The facts that an ok answer of `setup` sets.
ghost use Rattle.std.specs.Prelude.{◌≡◌, IfOk, OnOk, Some, codes, option_map};
ghost use Rattle.pb_semantics.specs.Words.{field_value, rec, slot_at};
ghost use Rattle.pb_language.specs.Cases.{after_prefix, fact_prefix, shape_slots};
ghost use Rattle.pb_language.specs.Give.{facts_changed, facts_of, stripped};
ghost use Rattle.pb_language.specs.Start.{change};
ghost use Rattle.pb_kind.specs.Words.{kind_view, slots_view, spot_view};
ghost use Rattle.pb_value.specs.Words.{fields_view, view};
ghost use Rattle.pb_sig.specs.Words.{known_view};
ghost use Rattle.pb_start.specs.Words.{block_fields};
ghost use Rattle.pb_finish.specs.Facts.{facts_when, fields_in, named_in, named_kind, put_fact};
ghost use Rattle.pb_finish.specs.Results.{changes_view};

use crate::assignments::Assignment;
use pb_kind::below::find;
use pb_kind::{Kind, Slot, Slots};
use pb_sig::{Known, Module};
use pb_start::put_value;
use pb_value::{Fields, Value, Weighed, field_of};
use std::alloc::{AllocError, Global};
use std::sync::Arc;

const PREFIX: &str = "ansible_";

const FACTS: &str = "ansible_facts";

// `ansible_facts`, with the facts that the module's shape names by their names without the prefix
// `ansible_`, and then each of them by its own name (Ansible's page on facts). A fact that wasn't
// answered stays as it was.
//
// # Errors
//
// Want of memory.
pub(crate) fn gather_facts(
    alloc: Global,
    module: &Known,
    fields: &Fields,
) -> Result<Vec<Assignment>, AllocError>
    ensures { IfOk result (λ cs. changes_view cs.items ≡ facts_of
        (slot_at (codes "ansible_facts") (shape_slots (known_view «module».now).ok))
        (field_value (codes "ansible_facts") (fields_view fields.now.entries))) }
{
    match named_facts(module) {
        Some(named) => gather_named(alloc, named, record_in(field_of(fields, FACTS))),
        None => Ok(Vec::new(alloc)),
    }
}

// The facts that a shape names, of those that were answered.
fn gather_named(
    alloc: Global,
    named: &Arc<Weighed<Slots>>,
    facts: Option<&Arc<Weighed<Fields>>>,
) -> Result<Vec<Assignment>, AllocError>
    ensures { IfOk result (λ cs. changes_view cs.items
        ≡ facts_when (Some (slots_view named.now.value.parts.entries))
        (option_map (λ r. block_fields r.now) facts.entry)) }
{
    match facts {
        Some(facts) => list_facts(alloc, named, facts),
        None => Ok(Vec::new(alloc)),
    }
}

// The facts that the module's answers may tell.
fn named_facts(module: &Known) -> Option<&Arc<Weighed<Slots>>>
    ensures { option_map (λ r. slots_view r.now.value.parts.entries) result ≡ named_in
        (slot_at (codes "ansible_facts") (shape_slots (known_view «module».now).ok)) }
{
    match slots_of(module.ok_shape()) {
        Some(shape) => slots_at(find(shape, FACTS)),
        None => None,
    }
}

fn slots_at(slot: Option<&Slot<Kind>>) -> Option<&Arc<Weighed<Slots>>>
    ensures { option_map (λ r. slots_view r.now.value.parts.entries) result
        ≡ named_in (spot_view slot.entry) }
{
    match slot {
        Some(slot) => slots_of(&slot.kind),
        None => None,
    }
}

// The fields of a kind of records.
fn slots_of(kind: &Kind) -> Option<&Arc<Weighed<Slots>>>
    ensures { option_map (λ r. slots_view r.now.value.parts.entries) result
        ≡ named_kind (kind_view kind.now) }
{
    match kind {
        Kind::Rec(named) => Some(named),
        _ => None,
    }
}

// The fields of a record.
pub(crate) fn record_in(value: Option<&Value>) -> Option<&Arc<Weighed<Fields>>>
    ensures { option_map (λ r. block_fields r.now) result
        ≡ fields_in (option_map (λ v. view v.now) value.entry) }
{
    match value {
        Some(Value::Rec(fields)) => Some(fields),
        _ => None,
    }
}

fn list_facts(alloc: Global, named: &Slots, facts: &Fields) -> Result<Vec<Assignment>, AllocError>
    ensures { IfOk result (λ cs. changes_view cs.items ≡ change (codes "ansible_facts")
        (Some (rec (stripped (slots_view named.now.entries) (fields_view facts.now.entries))))
        (facts_changed (slots_view named.now.entries) (fields_view facts.now.entries))) }
{
    let bare = strip_prefixes(alloc, named, facts)?;
    let whole = Value::of_fields(alloc, bare)?;
    let title = String::from_str(alloc, FACTS)?;
    let mut all = Vec::new(alloc);
    all.push(Assignment {
        name: title,
        value: Some(whole),
    })?;
    for (name, _) in named.iter() {
        let value = copy_value(field_of(facts, name.as_str()))?;
        let name = name.clone()?;
        all.push(Assignment { name, value })?;
    }
    Ok(all)
}

fn copy_value(value: Option<&Value>) -> Result<Option<Value>, AllocError>
    ensures { IfOk result
        (λ v. option_map view v ≡ option_map (λ x. view x.now) value.entry) }
{
    match value {
        Some(value) => {
            let copy = value.clone()?;
            Ok(Some(copy))
        }
        None => Ok(None),
    }
}

// The facts by their names without the prefix.
fn strip_prefixes(alloc: Global, named: &Slots, facts: &Fields) -> Result<Fields, AllocError>
    ensures { IfOk result (λ m. fields_view m.entries
        ≡ stripped (slots_view named.now.entries) (fields_view facts.now.entries)) }
{
    let mut all = Fields::new(alloc);
    for (name, _) in named.iter() {
        put_bare(alloc, &mut all, name.as_str(), facts)?;
    }
    Ok(all)
}

// Puts the fact in under its name without the prefix, where it has it.
fn put_bare(alloc: Global, all: &mut Fields, name: &str, facts: &Fields) -> Result<(), AllocError>
    ensures { OnOk result (fields_view all.new.entries ≡ put_fact
        (after_prefix fact_prefix name.now) (field_value name.now (fields_view facts.now.entries))
        (fields_view all.old.entries)) }
{
    match bare_name(name) {
        Some(bare) => put_present(alloc, all, bare, field_of(facts, name)),
        None => Ok(()),
    }
}

fn put_present(
    alloc: Global,
    all: &mut Fields,
    name: &str,
    value: Option<&Value>,
) -> Result<(), AllocError>
    ensures { OnOk result (fields_view all.new.entries ≡ put_fact (Some name.now)
        (option_map (λ v. view v.now) value.entry) (fields_view all.old.entries)) }
{
    match value {
        Some(value) => {
            let copy = value.clone()?;
            put_value(alloc, all, name, copy)
        }
        None => Ok(()),
    }
}

// What follows the prefix, where the name has it.
fn bare_name(name: &str) -> Option<&str>
    ensures { option_map (λ n. n.now) result ≡ after_prefix fact_prefix name.now }
{
    name.strip_prefix(PREFIX)
}
