// The least kind above two others.
ghost use Rattle.std.specs.Prelude.{[], ◌&&◌, ◌∷◌, ◌≡◌, IfOk, IfSome, OnOk, Some, false, map};
ghost use Rattle.std.specs.Prelude.{max, nat_le, string_bytes, true};
ghost use Rattle.pb_semantics.specs.Words.{add_cases as both_cases, add_names, append_cases, hosts};
ghost use Rattle.pb_semantics.specs.Words.{join as join_of, join_slots as both_slots, joined};
ghost use Rattle.pb_semantics.specs.Words.{kind_with, new_cases, presence_with, put_slot};
ghost use Rattle.pb_semantics.specs.Words.{record_with, recs, results, with_others};
ghost use Rattle.pb_kind.specs.KindView.{cases_view, is_always as is_certain, kind_view};
ghost use Rattle.pb_kind.specs.KindView.{slots_view};
ghost use Rattle.pb_kind.specs.KindWeight.{kind_weight};
ghost use Rattle.pb_kind.specs.Added.{lists_sure};
ghost use Rattle.pb_kind.specs.Found.{spot_view};
ghost use Rattle.pb_kind.specs.Joins.{IsMet};

use crate::adds::adds_nothing;
use crate::below::{find, has_field, is_covered};
use crate::kind::{Case, Kind, Presence, Slot, Slots, copy_slots, put_slot, weight};
use crate::same::is_same;
use pb_value::weight::Weighed;
use std::alloc::{AllocError, Global};
use std::collections::{BTreeMap, BTreeSet};
use std::sync::Arc;

// How many lists and records nest at most in a kind of which is asked whether another adds to it:
// each part is gone over once for each level that it stands in.
const MOST_ASKED: u32 = 24;

// Two kinds that were joined, and what came of it.
#[derive(Drop)]
pub(crate) struct Met {
    first: Kind,
    second: Kind,
    joined: Kind,
}

// The least kind above both, made of their parts.
#[cycle(join)]
fn join_parts(alloc: Global, first: &Kind, second: &Kind) -> Result<Kind, AllocError>
    ensures { IfOk result (λ k. kind_view k
        ≡ join_of (kind_view first.now) (kind_view second.now)) }
{
    match (first, second) {
        (Kind::Never, _) => second.clone(),
        (_, Kind::Never) => first.clone(),
        (Kind::Null, Kind::Null) => Ok(Kind::Null),
        (Kind::Bool, Kind::Bool) => Ok(Kind::Bool),
        (Kind::Int, Kind::Int) => Ok(Kind::Int),
        (Kind::Text, Kind::Text) => Ok(Kind::Text),
        (Kind::Text, Kind::Host(_)) => Ok(Kind::Text),
        (Kind::Host(_), Kind::Text) => Ok(Kind::Text),
        (Kind::Host(few), Kind::Host(more)) => join_hosts(alloc, few, more),
        (Kind::List(item, most), Kind::List(other, count)) => {
            let item = join(alloc, item, other)?;
            Kind::of_item(alloc, item, larger(*most, *count))
        }
        (Kind::Rec(slots), Kind::Rec(others)) => join_records(alloc, slots, others),
        (Kind::Rec(slots), Kind::Result(_, record)) => join_with_record(alloc, slots, record),
        (Kind::Result(_, record), Kind::Rec(_)) => join(alloc, record, second),
        (Kind::Result(cases, record), Kind::Result(others, other)) => {
            let record = join(alloc, record, other)?;
            result_of(alloc, cases, others, record)
        }
        _ => Ok(Kind::Any),
    }
}

/// The least kind above both. Where it is seen that one of them adds nothing to the other, it is a
/// copy of that other, which shares all; else it shares the fields and cases that only one has.
///
/// # Errors
///
/// Want of memory.
#[cycle(join)]
pub fn join(alloc: Global, first: &Kind, second: &Kind) -> Result<Kind, AllocError>
    ensures { IfOk result (λ k. kind_view k
        ≡ join_of (kind_view first.now) (kind_view second.now)) }
{
    if !is_asked(first) {
        join_parts(alloc, first, second)
    } else if adds_nothing(first, second, false) {
        first.clone()
    } else if adds_nothing(second, first, true) {
        second.clone()
    } else {
        join_parts(alloc, first, second)
    }
}

// Deep kinds aren't asked as a whole, and their parts would be again.
fn is_asked(kind: &Kind) -> bool
    ensures { result ≡ nat_le (kind_weight kind.now).levels 24 }
{
    weight(kind).is_within(MOST_ASKED)
}

pub(crate) fn larger(first: usize, second: usize) -> usize
    ensures { result ≡ max first second }
{
    if first < second { second } else { first }
}

// A result with the cases of both.
fn result_of(
    alloc: Global,
    cases: &[Case<Kind>],
    others: &[Case<Kind>],
    known: Kind,
) -> Result<Kind, AllocError>
    ensures { IfOk result (λ k. kind_view k ≡ results
        (both_cases (cases_view cases.now) (cases_view others.now)) (kind_view known)) }
{
    let all = add_cases(alloc, cases, others)?;
    Kind::of_cases(alloc, all, known)
}

fn join_hosts(
    alloc: Global,
    few: &BTreeSet<String>,
    more: &BTreeSet<String>,
) -> Result<Kind, AllocError>
    ensures { IfOk result (λ k. kind_view k ≡ hosts
        (add_names (map (λ n. string_bytes n) few.now.keys)
        (map (λ n. string_bytes n) more.now.keys))) }
{
    let names = add_all(few, more)?;
    Ok(Kind::Host(Arc::new(alloc, names)?))
}

// The names of both.
fn add_all(few: &BTreeSet<String>, more: &BTreeSet<String>) -> Result<BTreeSet<String>, AllocError>
    ensures { IfOk result (λ s. map (λ n. string_bytes n) s.keys
        ≡ add_names (map (λ n. string_bytes n) few.now.keys)
        (map (λ n. string_bytes n) more.now.keys)) }
{
    let mut all = more.clone()?;
    for name in few.iter() {
        all.insert(name.clone()?)?;
    }
    Ok(all)
}

// A record and what is known of all cases of a result.
#[cycle(join)]
fn join_with_record(
    alloc: Global,
    slots: &Arc<Weighed<Slots>>,
    fields: &Kind,
) -> Result<Kind, AllocError>
    ensures { IfOk result (λ k. kind_view k ≡ record_with
        (slots_view slots.now.value.parts.entries)
        (λ ts. joined (slots_view slots.now.value.parts.entries) ts) (kind_view fields.now)) }
{
    match fields {
        Kind::Never => Ok(Kind::Rec(slots.clone()?)),
        Kind::Rec(others) => join_records(alloc, slots, others),
        _ => Ok(Kind::Any),
    }
}

#[cycle(join)]
fn join_records(alloc: Global, first: &Slots, second: &Slots) -> Result<Kind, AllocError>
    ensures { IfOk result (λ k. kind_view k
        ≡ recs (both_slots (slots_view first.now.entries) (slots_view second.now.entries))) }
{
    let slots = join_slots(alloc, first, second)?;
    Kind::of_slots(alloc, slots)
}

/// What is known where two environments meet: a field that only one of them lists is uncertain.
///
/// # Errors
///
/// Want of memory.
#[cycle(join)]
pub fn join_slots(alloc: Global, first: &Slots, second: &Slots) -> Result<Slots, AllocError>
    ensures { IfOk result (λ s. slots_view s.entries
        ≡ both_slots (slots_view first.now.entries) (slots_view second.now.entries)) }
{
    if are_few(first, second) {
        return join_few_first(alloc, first, second);
    }
    if are_few(second, first) {
        return join_few_last(alloc, first, second);
    }
    let mut all = meet_slots(alloc, first, second)?;
    add_others(&mut all, first, second)?;
    Ok(all)
}

// Whether the few are far fewer than the many, of which those that they don't list would stay as
// they are.
fn are_few(few: &Slots, many: &Slots) -> bool
    ensures { result ≡ true → lists_sure (slots_view few.now.entries)
        (slots_view many.now.entries) ≡ true }
{
    few.len() < many.len() / 8 && lists_certain(few, many)
}

// Whether the few list each field that is certain among the many.
fn lists_certain(few: &Slots, many: &Slots) -> bool
    ensures { result ≡ lists_sure (slots_view few.now.entries) (slots_view many.now.entries) }
{
    for (name, slot) in many.iter() {
        if slot.presence.is_always() && !has_field(few, name.as_str()) {
            return false;
        }
    }
    true
}

// The join where the few come first: a copy of the many, into which each of the few is put with
// what the many know of it.
#[cycle(join)]
fn join_few_first(alloc: Global, few: &Slots, many: &Slots) -> Result<Slots, AllocError>
    ensures { lists_sure (slots_view few.now.entries) (slots_view many.now.entries) ≡ true
        → IfOk result (λ s. slots_view s.entries
        ≡ both_slots (slots_view few.now.entries) (slots_view many.now.entries)) }
{
    // What a map says of its order.
    let _ = many.len();
    let mut all = copy_slots(many)?;
    let mut last = None;
    for (name, slot) in few.iter() {
        let found = find(many, name.as_str());
        put_met(
            alloc,
            &slot.kind,
            slot.presence,
            found,
            &mut all,
            name,
            &mut last,
        )?;
    }
    Ok(all)
}

// The same where the many come first.
#[cycle(join)]
fn join_few_last(alloc: Global, many: &Slots, few: &Slots) -> Result<Slots, AllocError>
    ensures { lists_sure (slots_view few.now.entries) (slots_view many.now.entries) ≡ true
        → IfOk result (λ s. slots_view s.entries
        ≡ both_slots (slots_view many.now.entries) (slots_view few.now.entries)) }
{
    // What a map says of its order.
    let _ = many.len();
    let mut all = copy_slots(many)?;
    let mut last = None;
    for (name, slot) in few.iter() {
        match many.get(name.as_str()) {
            Some(own) => put_met(
                alloc,
                &own.kind,
                own.presence,
                Some(slot),
                &mut all,
                name,
                &mut last,
            )?,
            None => put_uncertain(&mut all, name, &slot.kind)?,
        }
    }
    Ok(all)
}

// The second's slots that the first lacks, each uncertain.
fn add_others(all: &mut Slots, first: &Slots, second: &Slots) -> Result<(), AllocError>
    ensures { OnOk result (slots_view all.new.entries ≡ with_others
        (slots_view second.now.entries) (slots_view first.now.entries)
        (slots_view all.old.entries)) }
{
    for (name, slot) in second.iter() {
        if !has_field(first, name.as_str()) {
            put_uncertain(all, name, &slot.kind)?;
        }
    }
    Ok(())
}

fn put_uncertain(slots: &mut Slots, name: &String, kind: &Kind) -> Result<(), AllocError>
    ensures { OnOk result (slots_view slots.new.entries
        ≡ put_slot (string_bytes name.now) false (kind_view kind.now)
        (slots_view slots.old.entries)) }
{
    put_slot(slots, name.clone()?, Slot::maybe(kind.clone()?))
}

// The first's slots, each with what the second knows of it.
#[cycle(join)]
fn meet_slots(alloc: Global, first: &Slots, second: &Slots) -> Result<Slots, AllocError>
    ensures { IfOk result (λ s. slots_view s.entries
        ≡ joined (slots_view first.now.entries) (slots_view second.now.entries)) }
{
    let mut all = BTreeMap::new(alloc);
    let mut last = None;
    for (name, slot) in first.iter() {
        let found = find(second, name.as_str());
        put_met(
            alloc,
            &slot.kind,
            slot.presence,
            found,
            &mut all,
            name,
            &mut last,
        )?;
    }
    Ok(all)
}

// Puts the first's slot with what the second knows of it.
#[cycle(join)]
fn put_met(
    alloc: Global,
    kind: &Kind,
    presence: Presence,
    found: Option<&Slot<Kind>>,
    slots: &mut Slots,
    name: &String,
    last: &mut Option<Met>,
) -> Result<(), AllocError>
    ensures slots { IsMet last.old → OnOk result (slots_view slots.new.entries
        ≡ put_slot (string_bytes name.now)
        (presence_with (is_certain presence) (spot_view found.entry))
        (kind_with (kind_view kind.now) (λ m. join_of (kind_view kind.now) m)
        (spot_view found.entry))
        (slots_view slots.old.entries)) }
    ensures last { IsMet last.old → OnOk result (IsMet last.new) }
{
    match found {
        None => put_uncertain(slots, name, kind),
        Some(other) => {
            let kind = join_after(alloc, kind, &other.kind, last)?;
            let presence = both(presence, other.presence);
            put_slot(slots, name.clone()?, Slot { presence, kind })
        }
    }
}

// The join of two kinds, which is the last one where both are the same as there.
#[cycle(join)]
fn join_after(
    alloc: Global,
    first: &Kind,
    second: &Kind,
    last: &mut Option<Met>,
) -> Result<Kind, AllocError>
    ensures kind { IsMet last.old → IfOk result (λ k. kind_view k
        ≡ join_of (kind_view first.now) (kind_view second.now)) }
    ensures last { IsMet last.old → OnOk result (IsMet last.new) }
{
    if weight(first).is_within(0) {
        return join(alloc, first, second);
    }
    if let Some(kind) = met_again(last, first, second)? {
        return Ok(kind);
    }
    let kind = join(alloc, first, second)?;
    *last = Some(met_of(first, second, &kind)?);
    Ok(kind)
}

// What the last join came to, where both kinds are the same as there.
fn met_again(last: &Option<Met>, first: &Kind, second: &Kind) -> Result<Option<Kind>, AllocError>
    ensures { IsMet last.now → IfOk result (λ o. IfSome o (λ k. kind_view k
        ≡ join_of (kind_view first.now) (kind_view second.now))) }
{
    match last {
        Some(met) if is_same(&met.first, first) && is_same(&met.second, second) => {
            Ok(Some(met.joined.clone()?))
        }
        _ => Ok(None),
    }
}

fn met_of(first: &Kind, second: &Kind, joined: &Kind) -> Result<Met, AllocError>
    ensures { kind_view joined.now ≡ join_of (kind_view first.now) (kind_view second.now)
        → IfOk result (λ m. IsMet (Some m)) }
{
    let first = first.clone()?;
    let second = second.clone()?;
    let joined = joined.clone()?;
    Ok(Met {
        first,
        second,
        joined,
    })
}

fn both(first: Presence, second: Presence) -> Presence
    ensures { is_certain result ≡ (is_certain first && is_certain second) }
{
    if first.is_always() {
        second
    } else {
        Presence::Maybe
    }
}

// The cases of the first, then those of the second that the first doesn't cover.
fn add_cases(
    alloc: Global,
    cases: &[Case<Kind>],
    others: &[Case<Kind>],
) -> Result<Vec<Case<Kind>>, AllocError>
    ensures { IfOk result (λ v. cases_view v.items
        ≡ both_cases (cases_view cases.now) (cases_view others.now)) }
{
    let mut all = copies(alloc, cases)?;
    for other in others {
        add_case(&mut all, cases, other)?;
    }
    Ok(all)
}

// One case more, if none of the cases covers it.
fn add_case(
    all: &mut Vec<Case<Kind>>,
    cases: &[Case<Kind>],
    other: &Case<Kind>,
) -> Result<(), AllocError>
    ensures { OnOk result (cases_view all.new.items
        ≡ append_cases (cases_view all.old.items)
        (new_cases (cases_view (other.now ∷ [])) (cases_view cases.now))) }
{
    if !is_covered(cases, other) {
        all.push(copy(other)?)?;
    }
    Ok(())
}

fn copies(alloc: Global, cases: &[Case<Kind>]) -> Result<Vec<Case<Kind>>, AllocError>
    ensures { IfOk result (λ v. cases_view v.items ≡ cases_view cases.now) }
{
    let mut all = Vec::new(alloc);
    for case in cases {
        all.push(copy(case)?)?;
    }
    Ok(all)
}

// The same case, which shares its action and its fields.
fn copy(case: &Case<Kind>) -> Result<Case<Kind>, AllocError>
    ensures { IfOk result (λ c. cases_view (c ∷ []) ≡ cases_view (case.now ∷ [])) }
{
    let action = case.action.clone()?;
    let fields = case.fields.clone()?;
    Ok(Case {
        action,
        shape: case.shape,
        failed: case.failed,
        fields,
    })
}
