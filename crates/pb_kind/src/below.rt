// Which kinds have fewer values than others.
ghost use Rattle.std.specs.Prelude.{◌&&◌, ◌≡◌, map, string_bytes};
ghost use Rattle.pb_semantics.specs.Words.{all_cases, are_among, below as is_below, is_among};
ghost use Rattle.pb_semantics.specs.Words.{is_covered as has_cover, is_listed, names_among};
ghost use Rattle.pb_semantics.specs.Words.{record_below, same_case as is_same_case, shape_eq};
ghost use Rattle.pb_semantics.specs.Words.{slot_at, slots_below, spot_below};
ghost use Rattle.pb_kind.specs.KindView.{cases_view, is_always as is_certain, kind_view};
ghost use Rattle.pb_kind.specs.KindView.{shape_view, slots_view};
ghost use Rattle.pb_kind.specs.Found.{spot_view};

use crate::adds::slot_of;
use crate::kind::{Case, Kind, Presence, Shape, Slot, Slots};
use std::collections::BTreeSet;

/// Whether each value of the first kind is one of the second, as far as the kinds tell: a host's
/// name is a text, a certain field may become an uncertain one, and a result is one of its
/// record's.
pub fn below(low: &Kind, high: &Kind) -> bool
    ensures { result ≡ is_below (kind_view low.now) (kind_view high.now) }
{
    is_above(high, low)
}

#[cycle(below)]
fn is_above(high: &Kind, low: &Kind) -> bool
    ensures { result ≡ is_below (kind_view low.now) (kind_view high.now) }
{
    match (high, low) {
        (Kind::Any, _) => true,
        (_, Kind::Never) => true,
        (Kind::Null, Kind::Null) => true,
        (Kind::Bool, Kind::Bool) => true,
        (Kind::Int, Kind::Int) => true,
        (Kind::Text, Kind::Text) => true,
        (Kind::Text, Kind::Host(_)) => true,
        (Kind::Host(many), Kind::Host(few)) => has_names(many, few),
        (Kind::List(above, most), Kind::List(under, count)) => {
            *count <= *most && is_above(above, under)
        }
        (Kind::Rec(many), Kind::Rec(few)) => is_record_above(many, few),
        (Kind::Rec(many), Kind::Result(cases, _)) => is_above_cases(many, cases),
        (Kind::Result(many, _), Kind::Result(few, _)) => covers_all(many, few),
        _ => false,
    }
}

// Both are in the order of their names, so one walk over both finds each field of the one in the
// other.
#[cycle(below)]
fn is_record_above(many: &Slots, few: &Slots) -> bool
    ensures { result ≡ (names_among (slots_view few.now.entries) (slots_view many.now.entries)
        && slots_below (slots_view few.now.entries) (slots_view many.now.entries)) }
{
    let mut others = few.iter();
    let mut next = others.next();
    for (name, slot) in many.iter() {
        let found = slot_of(next, name.as_str());
        if !is_slot_above(&slot.kind, slot.presence, found) {
            return false;
        }
        if found.is_some() {
            next = others.next();
        }
    }
    next.is_none()
}

#[cycle(below)]
fn is_slot_above(kind: &Kind, presence: Presence, found: Option<&Slot<Kind>>) -> bool
    ensures { result ≡ spot_below (λ k. is_below k (kind_view kind.now)) (is_certain presence)
        (spot_view found.entry) }
{
    match found {
        None => !presence.is_always(),
        Some(under) => {
            (under.presence.is_always() || !presence.is_always()) && is_above(kind, &under.kind)
        }
    }
}

#[cycle(below)]
fn is_above_cases(many: &Slots, cases: &[Case<Kind>]) -> bool
    ensures { result ≡ all_cases
        (λ m sh fl k. record_below (λ ss. names_among ss (slots_view many.now.entries)
        && slots_below ss (slots_view many.now.entries)) k) (cases_view cases.now) }
{
    for case in cases {
        if !is_above_fields(many, &case.fields) {
            return false;
        }
    }
    true
}

#[cycle(below)]
fn is_above_fields(many: &Slots, fields: &Kind) -> bool
    ensures { result ≡ record_below (λ ss. names_among ss (slots_view many.now.entries)
        && slots_below ss (slots_view many.now.entries)) (kind_view fields.now) }
{
    match fields {
        Kind::Never => true,
        Kind::Rec(few) => is_record_above(many, few),
        _ => false,
    }
}

#[cycle(below)]
pub(crate) fn covers_all(many: &[Case<Kind>], few: &[Case<Kind>]) -> bool
    ensures { result ≡ all_cases (λ m sh fl k. has_cover m sh fl k (cases_view many.now))
        (cases_view few.now) }
{
    for case in few {
        if !is_covered(many, case) {
            return false;
        }
    }
    true
}

/// Whether one of the cases has the same action, shape and failed status, and a record above the
/// case's.
#[cycle(below)]
pub fn is_covered(cases: &[Case<Kind>], case: &Case<Kind>) -> bool
    ensures { result ≡ has_cover (string_bytes case.now.action.value) (shape_view case.now.shape)
        case.now.failed
        (kind_view case.now.fields) (cases_view cases.now) }
{
    for other in cases {
        if is_case_of(case, other) && is_above(&other.fields, &case.fields) {
            return true;
        }
    }
    false
}

fn is_case_of(first: &Case<Kind>, second: &Case<Kind>) -> bool
    ensures { result ≡ is_same_case (string_bytes first.now.action.value)
        (shape_view first.now.shape) first.now.failed
        (string_bytes second.now.action.value) (shape_view second.now.shape) second.now.failed }
{
    first.action.as_str() == second.action.as_str()
        && is_same_shape(first.shape, second.shape)
        && first.failed == second.failed
}

fn is_same_shape(first: Shape, second: Shape) -> bool
    ensures { result ≡ shape_eq (shape_view first) (shape_view second) }
{
    match (first, second) {
        (Shape::Ok, Shape::Ok) => true,
        (Shape::Failure, Shape::Failure) => true,
        (Shape::Skipped, Shape::Skipped) => true,
        _ => false,
    }
}

/// What is known of the field of that name.
pub fn find<'s>(slots: &'s Slots, name: &str) -> Option<&'s Slot<Kind>>
    ensures { spot_view result ≡ slot_at name.now (slots_view slots.now.entries) }
{
    slots.get(name)
}

/// Whether there is a slot of that name.
pub fn has_field(slots: &Slots, name: &str) -> bool
    ensures { result ≡ is_listed name.now (slots_view slots.now.entries) }
{
    find(slots, name).is_some()
}

fn has_names(many: &BTreeSet<String>, few: &BTreeSet<String>) -> bool
    ensures { result ≡ are_among (map (λ n. string_bytes n) few.now.keys)
        (map (λ n. string_bytes n) many.now.keys) }
{
    for name in few.iter() {
        if !has_name(many, name.as_str()) {
            return false;
        }
    }
    true
}

/// Whether the name is one of the set.
pub fn has_name(names: &BTreeSet<String>, name: &str) -> bool
    ensures { result ≡ is_among name.now (map (λ n. string_bytes n) names.now.keys) }
{
    names.contains(name)
}
