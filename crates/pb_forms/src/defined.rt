// What a test that the steps of a path are there teaches of the kind that it begins at.
ghost use Rattle.std.specs.Prelude.{◌∷◌, ◌≡◌, Bool, IfOk, List, false, string_bytes, true, ℕ};
ghost use Rattle.std.specs.Option.{option_map_or};
ghost use Rattle.pb_semantics.specs.Kind.{KindData};
ghost use Rattle.pb_semantics.specs.Words.{Cases, results, slot_at, spot};
ghost use Rattle.pb_language.specs.Narrow.{can_have, cases_stepped, defined_at, may_step};
ghost use Rattle.pb_language.specs.Narrow.{there_spot, with_step};
ghost use Rattle.pb_kind.specs.Words.{cases_view, kind_view, slots_view};
ghost use Rattle.pb_syntax.specs.ExprView.{names_of};

use crate::teach::{case_with, record_with, result_of};
use pb_kind::below::find;
use pb_kind::{Case, Kind, Slot, Slots};
use std::alloc::{AllocError, Global};

/// Whether a value of the kind may have the steps.
pub fn can_have(kind: &Kind, steps: &[String]) -> bool
    ensures { result ≡ can_have (names_of steps.now) (kind_view kind.now) }
{
    let mut here = kind;
    for step in steps {
        match kind_below(here, step.as_str()) {
            Some(inner) => here = inner,
            None => return false,
        }
    }
    true
}

// The kind of the field of that name that a value of the kind may have.
fn kind_below<'k>(outer: &'k Kind, name: &str) -> Option<&'k Kind>
    ensures { (ns : List (List ℕ)) → can_have (name.now ∷ ns) (kind_view outer.now)
        ≡ option_map_or (λ k. can_have ns (kind_view k.now)) result false }
{
    match outer {
        Kind::Rec(slots) => kind_among(slots, name),
        Kind::Result(_, record) => kind_in_known(record, name),
        Kind::Any => Some(outer),
        _ => None,
    }
}

// The same where that is what is known of all cases of a result.
fn kind_in_known<'k>(known: &'k Kind, name: &str) -> Option<&'k Kind>
    ensures { (ns : List (List ℕ)) (cs : Cases)
        → can_have (name.now ∷ ns) (results cs (kind_view known.now))
        ≡ option_map_or (λ k. can_have ns (kind_view k.now)) result false }
{
    match known {
        Kind::Rec(slots) => kind_among(slots, name),
        _ => None,
    }
}

fn kind_among<'k>(slots: &'k Slots, name: &str) -> Option<&'k Kind>
    ensures { (f : KindData → Bool) → may_step f (slot_at name.now (slots_view slots.now.entries))
        ≡ option_map_or (λ k. f (kind_view k.now)) result false }
{
    let slot = find(slots, name)?;
    Some(&slot.kind)
}

/// The kind in which each step is there.
///
/// # Errors
///
/// Want of memory, also where it would weigh more than `MOST_KIND` or nest too deep.
#[cycle(defined_at)]
pub fn defined_at(alloc: Global, kind: &Kind, steps: &[String]) -> Result<Kind, AllocError>
    ensures { IfOk result (λ k. kind_view k
        ≡ defined_at (names_of steps.now) (kind_view kind.now)) }
{
    let Some((name, rest)) = steps.split_first() else {
        return kind.clone();
    };
    match kind {
        Kind::Result(cases, _) => result_of(alloc, cases_defined(alloc, cases, name, rest)?),
        _ => defined_below(alloc, kind, name, rest),
    }
}

// The cases that can have the field and the steps below it, each with the field there.
#[cycle(defined_at)]
fn cases_defined(
    alloc: Global,
    cases: &[Case<Kind>],
    name: &String,
    steps: &[String],
) -> Result<Vec<Case<Kind>>, AllocError>
    ensures { let names = names_of steps.now in
        IfOk result (λ kept. cases_view kept.items
        ≡ cases_stepped (can_have (string_bytes name.now ∷ names))
        (with_step (string_bytes name.now) (defined_at names)) (cases_view cases.now)) }
{
    let mut kept = Vec::new(alloc);
    for case in cases {
        if can_have_below(&case.fields, name, steps) {
            let fields = defined_below(alloc, &case.fields, name, steps)?;
            let defined = case_with(case, fields)?;
            kept.push(defined)?;
        }
    }
    Ok(kept)
}

// Whether a value of the kind may have the field and the steps below it.
fn can_have_below(kind: &Kind, name: &String, steps: &[String]) -> bool
    ensures { result
        ≡ can_have (string_bytes name.now ∷ names_of steps.now) (kind_view kind.now) }
{
    match kind_below(kind, name.as_str()) {
        Some(inner) => can_have(inner, steps),
        None => false,
    }
}

// A record in which the field of that name is there, and the steps below it; any other kind stays.
#[cycle(defined_at)]
fn defined_below(
    alloc: Global,
    kind: &Kind,
    name: &String,
    steps: &[String],
) -> Result<Kind, AllocError>
    ensures { IfOk result (λ k. kind_view k ≡ with_step (string_bytes name.now)
        (defined_at (names_of steps.now)) (kind_view kind.now)) }
{
    let Kind::Rec(slots) = kind else {
        return kind.clone();
    };
    let inner = kind_there(alloc, slots, name, steps)?;
    record_with(alloc, slots, name, Slot::always(inner))
}

// The kind of the field of that name once it is there.
#[cycle(defined_at)]
fn kind_there(
    alloc: Global,
    slots: &Slots,
    name: &String,
    steps: &[String],
) -> Result<Kind, AllocError>
    ensures { IfOk result (λ k. spot true (kind_view k)
        ≡ there_spot (defined_at (names_of steps.now))
        (slot_at (string_bytes name.now) (slots_view slots.now.entries))) }
{
    match find(slots, name.as_str()) {
        Some(slot) => defined_at(alloc, &slot.kind, steps),
        None => Ok(Kind::Never),
    }
}
