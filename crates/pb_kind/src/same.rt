// Whether two kinds are the same.
ghost use Rattle.std.specs.Prelude.{◌≡◌, map, string_bytes, true};
ghost use Rattle.pb_semantics.specs.Words.{hosts};
ghost use Rattle.pb_kind.specs.KindView.{is_always as is_certain, kind_view, slots_view};

use crate::kind::{Kind, Presence, Slot, Slots, weight};
use std::collections::BTreeSet;

/// Where it holds, both are the same kind; it isn't asked of results.
#[cycle(same)]
pub fn is_same(first: &Kind, second: &Kind) -> bool
    ensures { result ≡ true → kind_view first.now ≡ kind_view second.now }
{
    match (first, second) {
        (Kind::Never, Kind::Never) => true,
        (Kind::Null, Kind::Null) => true,
        (Kind::Bool, Kind::Bool) => true,
        (Kind::Int, Kind::Int) => true,
        (Kind::Text, Kind::Text) => true,
        (Kind::Any, Kind::Any) => true,
        (Kind::Host(names), Kind::Host(others)) => are_same_hosts(names, others),
        (Kind::List(item, most), Kind::List(other, count)) => {
            *most == *count && is_same(item, other)
        }
        (Kind::Rec(slots), Kind::Rec(others)) => {
            weight(first).is(weight(second)) && are_same_slots(slots, others)
        }
        _ => false,
    }
}

fn are_same_hosts(names: &BTreeSet<String>, others: &BTreeSet<String>) -> bool
    ensures { result ≡ true → hosts (map (λ n. string_bytes n) names.now.keys)
        ≡ hosts (map (λ n. string_bytes n) others.now.keys) }
{
    names == others
}

/// Where it holds, both have the same fields; it isn't asked of results.
#[cycle(same)]
pub fn are_same_slots(slots: &Slots, others: &Slots) -> bool
    ensures { result ≡ true
        → slots_view slots.now.entries ≡ slots_view others.now.entries }
{
    let mut left = others.iter();
    for (name, slot) in slots.iter() {
        match left.next() {
            Some((other, found)) => {
                if !(name.as_str() == other.as_str()
                    && is_same_slot(&slot.kind, slot.presence, found))
                {
                    return false;
                }
            }
            None => return false,
        }
    }
    left.next().is_none()
}

#[cycle(same)]
fn is_same_slot(kind: &Kind, presence: Presence, other: &Slot<Kind>) -> bool
    ensures kind { result ≡ true → kind_view kind.now ≡ kind_view other.now.kind }
    ensures presence { result ≡ true → is_certain presence ≡ is_certain other.now.presence }
{
    presence.is_always() == other.presence.is_always() && is_same(kind, &other.kind)
}
