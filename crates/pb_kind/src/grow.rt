// The least kind above many, which grows in place.
ghost use Rattle.std.specs.Prelude.{◌≡◌, Bool, IfOk, OnOk, map, string_bytes, true};
ghost use Rattle.pb_semantics.specs.Words.{all_sure, is_among, is_listed, is_sure, kind_with};
ghost use Rattle.pb_semantics.specs.Words.{Cases, lists, marked, met, met_slots};
ghost use Rattle.pb_semantics.specs.Words.{never, put_slot as with_slot, puts, recs, results};
ghost use Rattle.pb_semantics.specs.Words.{slot_at, spot};
ghost use Rattle.pb_kind.specs.Added.{met_spot};
ghost use Rattle.pb_kind.specs.Found.{spot_view};
ghost use Rattle.pb_kind.specs.KindView.{is_always as is_certain, kind_view, slots_view};
ghost use Rattle.pb_kind.specs.Growing.{growing_view, joined_onto, kinds_view};

use crate::adds::{adds_nothing, slot_of};
use crate::below::{find, has_name};
use crate::join::{join, larger};
use crate::kind::{Kind, Presence, Slot, Slots, put_slot, weight};
use std::alloc::{AllocError, Global};
use std::boxed::Box;
use std::collections::{BTreeMap, BTreeSet};

// How often a kind is joined as a whole before it is opened, since a kind that is open takes more
// room.
const FEW: u32 = 4;

/// The kinds of a record's fields, each behind its name.
pub type Kinds = BTreeMap<String, Growing>;

/// A kind that more kinds are joined to. Nothing of it is shared but whole kinds.
#[derive(Drop)]
pub enum Growing {
    /// A kind, and how often it was joined to others.
    Whole(Kind, u32),
    List(Box<Growing>, usize),
    /// The kinds of the fields, and which of the fields are certain.
    Rec(Kinds, BTreeSet<String>),
}

/// The least kind above all of these, joined from the last to the first, in a time that grows with
/// what is read and not with its square.
///
/// # Errors
///
/// Want of memory.
pub fn join_all(alloc: Global, kinds: &[Kind]) -> Result<Kind, AllocError>
    ensures { IfOk result (λ k. kind_view k ≡ joined_onto kinds.now never) }
{
    let mut joined = Growing::Whole(Kind::Never, 0);
    for index in (0..kinds.len()).rev() {
        joined = grow(alloc, &kinds[index], true, joined)?;
    }
    close(alloc, &joined)
}

/// The least kind above both; the kind that is joined leads, or else comes second.
///
/// # Errors
///
/// Want of memory.
#[cycle(grow)]
pub fn grow(alloc: Global, kind: &Kind, leads: bool, joined: Growing) -> Result<Growing, AllocError>
    ensures { IfOk result (λ g. growing_view g
        ≡ met leads (kind_view kind.now) (growing_view joined)) }
{
    if is_unchanged(kind, leads, &joined) {
        return Ok(joined);
    }
    let joined = open(alloc, joined)?;
    match (kind, joined) {
        (Kind::List(item, most), Growing::List(other, count)) => {
            let item = grow(alloc, item, leads, Box::into_inner(other))?;
            list_of(alloc, item, larger(*most, count))
        }
        (Kind::Rec(slots), Growing::Rec(kinds, certain)) => {
            grow_record(alloc, slots, leads, kinds, certain)
        }
        (Kind::Result(_, record), Growing::Rec(kinds, certain)) => {
            grow_known(alloc, record, kind, leads, kinds, certain)
        }
        (_, joined) => whole_join(alloc, kind, leads, &joined),
    }
}

// Whether the kind adds nothing to a whole one. That isn't asked of one that is much lighter, since
// asking goes over the whole one, and opening it doesn't, each time.
fn is_unchanged(kind: &Kind, leads: bool, joined: &Growing) -> bool
    ensures { result ≡ true → met leads (kind_view kind.now) (growing_view joined.now)
        ≡ growing_view joined.now }
{
    match joined {
        Growing::Whole(whole, _) => {
            !weight(kind).is_light_beside(weight(whole)) && adds_nothing(whole, kind, leads)
        }
        _ => false,
    }
}

#[cycle(grow)]
fn grow_record(
    alloc: Global,
    slots: &Slots,
    leads: bool,
    kinds: Kinds,
    certain: BTreeSet<String>,
) -> Result<Growing, AllocError>
    ensures { IfOk result (λ g. growing_view g
        ≡ recs (met_slots leads (slots_view slots.now.entries)
        (marked (kinds_view kinds.entries) (map (λ n. string_bytes n) certain.keys)))) }
{
    if adds_no_field(slots, leads, &kinds, &certain) {
        return Ok(Growing::Rec(kinds, certain));
    }
    let still = still_certain(alloc, slots, &kinds, &certain)?;
    let kinds = grow_kinds(alloc, slots, leads, kinds)?;
    Ok(Growing::Rec(kinds, still))
}

// Whether a record adds nothing to an open one. That isn't asked of one with far fewer fields.
fn adds_no_field(slots: &Slots, leads: bool, kinds: &Kinds, certain: &BTreeSet<String>) -> bool
    ensures { result ≡ true → met_slots leads (slots_view slots.now.entries)
        (marked (kinds_view kinds.now.entries) (map (λ n. string_bytes n) certain.now.keys))
        ≡ marked (kinds_view kinds.now.entries) (map (λ n. string_bytes n) certain.now.keys) }
{
    slots.len() >= kinds.len() / 8 && leaves_each(slots, leads, kinds, certain)
}

fn leaves_each(slots: &Slots, leads: bool, kinds: &Kinds, certain: &BTreeSet<String>) -> bool
    ensures { result ≡ true → met_slots leads (slots_view slots.now.entries)
        (marked (kinds_view kinds.now.entries) (map (λ n. string_bytes n) certain.now.keys))
        ≡ marked (kinds_view kinds.now.entries) (map (λ n. string_bytes n) certain.now.keys) }
{
    let mut others = slots.iter();
    let mut next = others.next();
    for (name, there) in kinds.iter() {
        let found = slot_of(next, name.as_str());
        if !is_left(found, leads, name.as_str(), there, certain) {
            return false;
        }
        if found.is_some() {
            next = others.next();
        }
    }
    next.is_none()
}

// Whether a field stays as it is beside what else is known of it.
fn is_left(
    found: Option<&Slot<Kind>>,
    leads: bool,
    name: &str,
    there: &Growing,
    certain: &BTreeSet<String>,
) -> bool
    ensures { result ≡ true → met_spot leads (spot_view found.entry)
        (spot (is_among name.now (map (λ n. string_bytes n) certain.now.keys))
        (growing_view there.now))
        ≡ spot (is_among name.now (map (λ n. string_bytes n) certain.now.keys))
        (growing_view there.now) }
{
    match found {
        None => !has_name(certain, name),
        Some(slot) => {
            (slot.presence.is_always() || !has_name(certain, name))
                && is_unchanged(&slot.kind, leads, there)
        }
    }
}

// A record that meets a result: what is known of all its cases.
#[cycle(grow)]
fn grow_known(
    alloc: Global,
    known: &Kind,
    kind: &Kind,
    leads: bool,
    kinds: Kinds,
    certain: BTreeSet<String>,
) -> Result<Growing, AllocError>
    ensures { (cs : Cases) → kind_view kind.now ≡ results cs (kind_view known.now)
        → IfOk result (λ g. growing_view g ≡ met leads (kind_view kind.now)
        (recs (marked (kinds_view kinds.entries) (map (λ n. string_bytes n) certain.keys)))) }
{
    match known {
        Kind::Rec(slots) => grow_record(alloc, slots, leads, kinds, certain),
        _ => whole_join(alloc, kind, leads, &Growing::Rec(kinds, certain)),
    }
}

// The same kind, its outermost list or record open where it was joined a few times.
fn open(alloc: Global, joined: Growing) -> Result<Growing, AllocError>
    ensures { IfOk result (λ g. growing_view g ≡ growing_view joined) }
{
    match joined {
        Growing::Whole(kind, times) => open_whole(alloc, kind, times),
        joined => Ok(joined),
    }
}

fn open_whole(alloc: Global, kind: Kind, times: u32) -> Result<Growing, AllocError>
    ensures { IfOk result (λ g. growing_view g ≡ kind_view kind) }
{
    if times < FEW {
        return Ok(Growing::Whole(kind, times));
    }
    opened(alloc, kind)
}

fn opened(alloc: Global, kind: Kind) -> Result<Growing, AllocError>
    ensures { IfOk result (λ g. growing_view g ≡ kind_view kind) }
{
    match kind {
        Kind::List(item, most) => list_of(alloc, Growing::Whole((**item).clone()?, 0), most),
        Kind::Rec(slots) => {
            let certain = certain_names(alloc, &slots)?;
            let kinds = all_kinds(alloc, &slots)?;
            Ok(Growing::Rec(kinds, certain))
        }
        kind => Ok(Growing::Whole(kind, FEW)),
    }
}

fn whole_join(
    alloc: Global,
    kind: &Kind,
    leads: bool,
    joined: &Growing,
) -> Result<Growing, AllocError>
    ensures { IfOk result (λ g. growing_view g
        ≡ met leads (kind_view kind.now) (growing_view joined.now)) }
{
    let whole = close(alloc, joined)?;
    let kind = join_led(alloc, kind, leads, &whole)?;
    Ok(Growing::Whole(kind, times_more(joined)))
}

fn join_led(alloc: Global, kind: &Kind, leads: bool, other: &Kind) -> Result<Kind, AllocError>
    ensures { IfOk result (λ k. kind_view k
        ≡ met leads (kind_view kind.now) (kind_view other.now)) }
{
    if leads {
        join(alloc, kind, other)
    } else {
        join(alloc, other, kind)
    }
}

// How often it was joined with this time.
fn times_more(joined: &Growing) -> u32 {
    match joined {
        Growing::Whole(_, times) => (*times).min(FEW) + 1,
        _ => 0,
    }
}

fn list_of(alloc: Global, item: Growing, most: usize) -> Result<Growing, AllocError>
    ensures { IfOk result (λ g. growing_view g ≡ lists (growing_view item) most) }
{
    Ok(Growing::List(Box::new(alloc, item)?, most))
}

// The names that are certain.
fn certain_names(alloc: Global, slots: &Slots) -> Result<BTreeSet<String>, AllocError>
    ensures { IfOk result (λ s. marked (all_sure (slots_view slots.now.entries))
        (map (λ n. string_bytes n) s.keys) ≡ slots_view slots.now.entries) }
{
    let mut all = BTreeSet::new(alloc);
    for (name, slot) in slots.iter() {
        if slot.presence.is_always() {
            all.insert(name.clone()?)?;
        }
    }
    Ok(all)
}

// The names that stay certain beside a record: those that it has for certain, too.
fn still_certain(
    alloc: Global,
    slots: &Slots,
    kinds: &Kinds,
    certain: &BTreeSet<String>,
) -> Result<BTreeSet<String>, AllocError>
    ensures { IfOk result (λ s. (leads : Bool)
        → marked (puts leads (slots_view slots.now.entries) (kinds_view kinds.now.entries))
        (map (λ n. string_bytes n) s.keys)
        ≡ met_slots leads (slots_view slots.now.entries)
        (marked (kinds_view kinds.now.entries) (map (λ n. string_bytes n) certain.now.keys))) }
{
    // What a map says of its order.
    let _ = slots.iter();
    let _ = kinds.iter();
    let mut all = BTreeSet::new(alloc);
    for name in certain.iter() {
        if has_certain(slots, name.as_str()) && has_kind(kinds, name.as_str()) {
            all.insert(name.clone()?)?;
        }
    }
    Ok(all)
}

fn has_certain(slots: &Slots, name: &str) -> bool
    ensures { result ≡ is_sure (slot_at name.now (slots_view slots.now.entries)) }
{
    match find(slots, name) {
        Some(slot) => slot.presence.is_always(),
        None => false,
    }
}

fn has_kind(kinds: &Kinds, name: &str) -> bool
    ensures { result ≡ is_listed name.now (kinds_view kinds.now.entries) }
{
    kinds.get(name).is_some()
}

// The kinds of all fields.
fn all_kinds(alloc: Global, slots: &Slots) -> Result<Kinds, AllocError>
    ensures { IfOk result (λ m. kinds_view m.entries
        ≡ all_sure (slots_view slots.now.entries)) }
{
    let mut kinds = BTreeMap::new(alloc);
    for (name, slot) in slots.iter() {
        put(&mut kinds, name, Growing::Whole(slot.kind.clone()?, 0))?;
    }
    Ok(kinds)
}

// The fields' kinds, joined to those that stand there.
#[cycle(grow)]
fn grow_kinds(alloc: Global, slots: &Slots, leads: bool, kinds: Kinds) -> Result<Kinds, AllocError>
    ensures { IfOk result (λ m. kinds_view m.entries
        ≡ puts leads (slots_view slots.now.entries) (kinds_view kinds.entries)) }
{
    let mut kinds = kinds;
    for (name, slot) in slots.iter() {
        put_grown(alloc, &slot.kind, leads, &mut kinds, name)?;
    }
    Ok(kinds)
}

#[cycle(grow)]
fn put_grown(
    alloc: Global,
    kind: &Kind,
    leads: bool,
    kinds: &mut Kinds,
    name: &String,
) -> Result<(), AllocError>
    ensures { OnOk result (kinds_view kinds.new.entries
        ≡ with_slot (string_bytes name.now) true
        (kind_with (kind_view kind.now) (λ m. met leads (kind_view kind.now) m)
        (slot_at (string_bytes name.now) (kinds_view kinds.old.entries)))
        (kinds_view kinds.old.entries)) }
{
    if has_above(kinds, name, kind, leads) {
        return Ok(());
    }
    match kinds.insert(name.clone()?, Growing::Whole(kind.clone()?, 0))? {
        Some(other) => {
            let grown = grow(alloc, kind, leads, other)?;
            put(kinds, name, grown)
        }
        None => Ok(()),
    }
}

// Whether a field's kind adds nothing to the one that stands there.
fn has_above(kinds: &Kinds, name: &String, kind: &Kind, leads: bool) -> bool
    ensures { result ≡ true → with_slot (string_bytes name.now) true
        (kind_with (kind_view kind.now) (λ m. met leads (kind_view kind.now) m)
        (slot_at (string_bytes name.now) (kinds_view kinds.now.entries)))
        (kinds_view kinds.now.entries) ≡ kinds_view kinds.now.entries }
{
    // What a map says of its order.
    let _ = kinds.len();
    match kinds.get(name.as_str()) {
        Some(there) => is_unchanged(kind, leads, there),
        None => false,
    }
}

fn put(kinds: &mut Kinds, name: &String, kind: Growing) -> Result<(), AllocError>
    ensures { OnOk result (kinds_view kinds.new.entries
        ≡ with_slot (string_bytes name.now) true (growing_view kind)
        (kinds_view kinds.old.entries)) }
{
    drop(kinds.insert(name.clone()?, kind)?);
    Ok(())
}

/// The kind that has grown.
///
/// # Errors
///
/// Want of memory.
#[cycle(close)]
pub fn close(alloc: Global, joined: &Growing) -> Result<Kind, AllocError>
    ensures { IfOk result (λ k. kind_view k ≡ growing_view joined.now) }
{
    match joined {
        Growing::Whole(kind, _) => kind.clone(),
        Growing::List(item, most) => {
            let item = close(alloc, item)?;
            Kind::of_item(alloc, item, *most)
        }
        Growing::Rec(kinds, certain) => {
            let slots = close_kinds(alloc, kinds, certain)?;
            Kind::of_slots(alloc, slots)
        }
    }
}

#[cycle(close)]
fn close_kinds(
    alloc: Global,
    kinds: &Kinds,
    certain: &BTreeSet<String>,
) -> Result<Slots, AllocError>
    ensures { IfOk result (λ s. slots_view s.entries
        ≡ marked (kinds_view kinds.now.entries) (map (λ n. string_bytes n) certain.now.keys)) }
{
    let mut slots = BTreeMap::new(alloc);
    for (name, kind) in kinds.iter() {
        let kind = close(alloc, kind)?;
        put_slot_of(&mut slots, name, kind, certain)?;
    }
    Ok(slots)
}

fn put_slot_of(
    slots: &mut Slots,
    name: &String,
    kind: Kind,
    certain: &BTreeSet<String>,
) -> Result<(), AllocError>
    ensures { OnOk result (slots_view slots.new.entries ≡ with_slot (string_bytes name.now)
        (is_among (string_bytes name.now) (map (λ n. string_bytes n) certain.now.keys))
        (kind_view kind) (slots_view slots.old.entries)) }
{
    let presence = presence_of(certain, name.as_str());
    put_slot(slots, name.clone()?, Slot { presence, kind })
}

fn presence_of(certain: &BTreeSet<String>, name: &str) -> Presence
    ensures { is_certain result
        ≡ is_among name.now (map (λ n. string_bytes n) certain.now.keys) }
{
    if has_name(certain, name) {
        Presence::Always
    } else {
        Presence::Maybe
    }
}
