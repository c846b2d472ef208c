// Whether a kind adds nothing to another that it is joined to.
ghost use Rattle.std.specs.Prelude.{◌≡◌, map, string_bytes, true};
ghost use Rattle.pb_semantics.specs.Words.{Cases, hosts, met, met_slots, recs, results, spot};
ghost use Rattle.pb_kind.specs.KindView.{cases_view, is_always as is_certain, kind_view};
ghost use Rattle.pb_kind.specs.KindView.{slots_view};
ghost use Rattle.pb_kind.specs.Added.{NoneNew, met_spot, spot_of};
ghost use Rattle.pb_kind.specs.Found.{spot_view};

use crate::below::covers_all;
use crate::kind::{Case, Kind, Presence, Slot, Slots};
use std::collections::BTreeSet;

// Where it holds, the least kind above both is the one that is joined to. It makes nothing, and
// goes over both at once; where it doesn't hold, that kind may still be the least.
#[cycle(adds)]
pub(crate) fn adds_nothing(joined: &Kind, kind: &Kind, leads: bool) -> bool
    ensures { result ≡ true
        → met leads (kind_view kind.now) (kind_view joined.now) ≡ kind_view joined.now }
{
    match (joined, kind) {
        (_, Kind::Never) => true,
        (Kind::Any, _) => true,
        (Kind::Null, Kind::Null) => true,
        (Kind::Bool, Kind::Bool) => true,
        (Kind::Int, Kind::Int) => true,
        (Kind::Text, Kind::Text) => true,
        (Kind::Text, Kind::Host(_)) => true,
        (Kind::Host(names), Kind::Host(others)) => adds_no_hosts(names, others, leads),
        (Kind::List(item, most), Kind::List(other, count)) => {
            *count <= *most && adds_nothing(item, other, leads)
        }
        (Kind::Rec(slots), Kind::Rec(others)) => adds_no_slots(slots, others, leads),
        (Kind::Rec(slots), Kind::Result(_, record)) => adds_no_record(slots, record, leads),
        (Kind::Result(cases, record), Kind::Result(others, other)) => {
            adds_no_cases(cases, others, leads) && adds_nothing(record, other, leads)
        }
        _ => false,
    }
}

// The same of names of hosts, where both have the same ones.
fn adds_no_hosts(joined: &BTreeSet<String>, names: &BTreeSet<String>, leads: bool) -> bool
    ensures { result ≡ true → met leads (hosts (map (λ n. string_bytes n) names.now.keys))
        (hosts (map (λ n. string_bytes n) joined.now.keys))
        ≡ hosts (map (λ n. string_bytes n) joined.now.keys) }
{
    // What a set says of its order.
    let _ = joined.len();
    joined == names
}

// The same of cases, beside what is known of all of them.
fn adds_no_cases(joined: &[Case<Kind>], cases: &[Case<Kind>], leads: bool) -> bool
    ensures { result ≡ true → NoneNew leads (cases_view joined.now) (cases_view cases.now) }
{
    !leads && covers_all(joined, cases)
}

// The same of what is known of all cases of a result.
#[cycle(adds)]
fn adds_no_record(joined: &Slots, known: &Kind, leads: bool) -> bool
    ensures { result ≡ true → (cs : Cases) → met leads (results cs (kind_view known.now))
        (recs (slots_view joined.now.entries)) ≡ recs (slots_view joined.now.entries) }
{
    match known {
        Kind::Rec(slots) => adds_no_slots(joined, slots, leads),
        _ => false,
    }
}

#[cycle(adds)]
fn adds_no_slots(joined: &Slots, slots: &Slots, leads: bool) -> bool
    ensures { result ≡ true → met_slots leads (slots_view slots.now.entries)
        (slots_view joined.now.entries) ≡ slots_view joined.now.entries }
{
    let mut others = slots.iter();
    let mut next = others.next();
    for (name, slot) in joined.iter() {
        let found = slot_of(next, name.as_str());
        if !is_kept(&slot.kind, slot.presence, found, leads) {
            return false;
        }
        if found.is_some() {
            next = others.next();
        }
    }
    next.is_none()
}

// The slot, where it is of that name.
pub(crate) fn slot_of<'s>(
    next: Option<(&String, &'s Slot<Kind>)>,
    name: &str,
) -> Option<&'s Slot<Kind>>
    ensures { spot_view result ≡ spot_of name.now next.entry }
{
    match next {
        Some((other, slot)) if other.as_str() == name => Some(slot),
        _ => None,
    }
}

// Whether a field stays as it is beside what else is known of it.
#[cycle(adds)]
fn is_kept(kind: &Kind, presence: Presence, found: Option<&Slot<Kind>>, leads: bool) -> bool
    ensures { result ≡ true → met_spot leads (spot_view found.entry)
        (spot (is_certain presence) (kind_view kind.now))
        ≡ spot (is_certain presence) (kind_view kind.now) }
{
    match found {
        None => !presence.is_always(),
        Some(other) => {
            (other.presence.is_always() || !presence.is_always())
                && adds_nothing(kind, &other.kind, leads)
        }
    }
}
