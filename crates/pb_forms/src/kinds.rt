// Which kinds the operands of a form may have, and what is known at the end of a path.
ghost use Rattle.std.specs.Prelude.{◌≡◌, IfOk};
ghost use Rattle.pb_semantics.specs.Words.{any_case_holds, any_slot_holds, holds_any as any_in};
ghost use Rattle.pb_semantics.specs.Words.{recs, slot_at, spot};
ghost use Rattle.pb_language.specs.Words.{default_kind, has_length as can_be_counted};
ghost use Rattle.pb_language.specs.Words.{is_flag as is_flag_spot, is_int as is_number};
ghost use Rattle.pb_language.specs.Words.{is_plain_kind, is_plain_list as is_plain_list_kind};
ghost use Rattle.pb_language.specs.Words.{is_result as is_result_kind, is_status_record};
ghost use Rattle.pb_language.specs.Words.{is_text as is_textual, may_be_flag as may_be_flag_spot};
ghost use Rattle.pb_language.specs.Words.{path_spot, spot_kind, step_spot};
ghost use Rattle.pb_language.specs.Fit.{is_list as is_listed_kind};
ghost use Rattle.pb_language.specs.Kinds.{shown_spot};
ghost use Rattle.pb_kind.specs.Words.{cases_view, is_always, kind_view, slot_given, slots_view};
ghost use Rattle.pb_syntax.specs.ExprView.{names_of};
ghost use Rattle.pb_forms.specs.SpotFound.{spot_found};

use pb_kind::below::find;
use pb_kind::join::join;
use pb_kind::{Case, Kind, Slot, Slots};
use std::alloc::{AllocError, Global};

pub(crate) fn is_int(kind: &Kind) -> bool
    ensures { result ≡ is_number (kind_view kind.now) }
{
    match kind {
        Kind::Int | Kind::Never => true,
        _ => false,
    }
}

/// Whether each value of the kind is a text.
pub fn is_text(kind: &Kind) -> bool
    ensures { result ≡ is_textual (kind_view kind.now) }
{
    match kind {
        Kind::Text | Kind::Host(_) | Kind::Never => true,
        _ => false,
    }
}

/// Whether each value of the kind is a list.
pub fn is_list(kind: &Kind) -> bool
    ensures { result ≡ is_listed_kind (kind_view kind.now) }
{
    match kind {
        Kind::List(_, _) | Kind::Never => true,
        _ => false,
    }
}

// A text, a whole number or a truth value.
pub(crate) fn is_plain(kind: &Kind) -> bool
    ensures { result ≡ is_plain_kind (kind_view kind.now) }
{
    match kind {
        Kind::Bool | Kind::Int => true,
        _ => is_text(kind),
    }
}

// A list of such.
pub(crate) fn is_plain_list(kind: &Kind) -> bool
    ensures { result ≡ is_plain_list_kind (kind_view kind.now) }
{
    match kind {
        Kind::Never => true,
        Kind::List(item, _) => is_plain(item),
        _ => false,
    }
}

pub(crate) fn has_length(kind: &Kind) -> bool
    ensures { result ≡ can_be_counted (kind_view kind.now) }
{
    match kind {
        Kind::List(_, _) | Kind::Rec(_) | Kind::Result(_, _) => true,
        _ => is_text(kind),
    }
}

// A result, or a record that can be asked like one.
pub(crate) fn is_result(kind: &Kind) -> bool
    ensures { result ≡ is_result_kind (kind_view kind.now) }
{
    match kind {
        Kind::Result(_, record) => has_statuses(record),
        _ => has_statuses(kind),
    }
}

fn has_statuses(kind: &Kind) -> bool
    ensures { result ≡ is_status_record (kind_view kind.now) }
{
    match kind {
        Kind::Never => true,
        Kind::Rec(slots) => are_statuses(slots),
        _ => false,
    }
}

fn are_statuses(slots: &Slots) -> bool
    ensures { result ≡ is_status_record (recs (slots_view slots.now.entries)) }
{
    is_flag(slots, "changed") && is_flag(slots, "failed") && may_be_flag(slots, "skipped")
}

fn is_flag(slots: &Slots, name: &str) -> bool
    ensures { result ≡ is_flag_spot (slot_at name.now (slots_view slots.now.entries)) }
{
    match find(slots, name) {
        Some(slot) => slot.presence.is_always() && slot.kind.is_bool(),
        None => false,
    }
}

fn may_be_flag(slots: &Slots, name: &str) -> bool
    ensures { result ≡ may_be_flag_spot (slot_at name.now (slots_view slots.now.entries)) }
{
    match find(slots, name) {
        Some(slot) => slot.kind.is_bool(),
        None => true,
    }
}

// What is known at the end of the steps below a slot, and whether it is certainly there.
fn spot_at_end<'k>(slot: &'k Slot<Kind>, steps: &[String]) -> Option<(bool, &'k Kind)>
    ensures { spot_found result ≡ path_spot (names_of steps.now)
        (spot (is_always slot.now.presence) (kind_view slot.now.kind)) }
{
    let mut is_certain = slot.presence.is_always();
    let mut here = &slot.kind;
    for step in steps {
        let (is_there, inner) = spot_below(here, step.as_str())?;
        is_certain = is_certain & is_there;
        here = inner;
    }
    Some((is_certain, here))
}

// What is known of a field of a value of that kind.
fn spot_below<'k>(outer: &'k Kind, name: &str) -> Option<(bool, &'k Kind)>
    ensures { spot_found result ≡ step_spot name.now (kind_view outer.now) }
{
    match outer {
        Kind::Never => Some((true, outer)),
        Kind::Rec(slots) => spot_in(slots, name),
        Kind::Result(_, record) => match &**record {
            Kind::Never => Some((true, record)),
            Kind::Rec(slots) => spot_in(slots, name),
            _ => None,
        },
        Kind::Any => Some((false, outer)),
        _ => None,
    }
}

fn spot_in<'k>(slots: &'k Slots, name: &str) -> Option<(bool, &'k Kind)>
    ensures { spot_found result ≡ slot_at name.now (slots_view slots.now.entries) }
{
    let slot = find(slots, name)?;
    Some((slot.presence.is_always(), &slot.kind))
}

/// The kind at the end of the steps, `Never` where nothing can stand there.
///
/// # Errors
///
/// Want of memory.
pub fn kind_at_end(slot: &Option<Slot<Kind>>, steps: &[String]) -> Result<Kind, AllocError>
    ensures { IfOk result (λ k. kind_view k
        ≡ spot_kind (path_spot (names_of steps.now) (slot_given slot.now))) }
{
    match slot {
        None => Ok(Kind::Never),
        Some(slot) => match spot_at_end(slot, steps) {
            None => Ok(Kind::Never),
            Some((_, kind)) => kind.clone(),
        },
    }
}

/// The kind at the end of the steps where something certainly stands there, or a test showed that
/// it does, the other where nothing can, else the least kind above both.
///
/// # Errors
///
/// Want of memory.
pub fn kind_or(
    alloc: Global,
    slot: &Option<Slot<Kind>>,
    steps: &[String],
    is_shown: bool,
    other: Kind,
) -> Result<Kind, AllocError>
    ensures { IfOk result (λ k. kind_view k ≡ default_kind
        (shown_spot is_shown (path_spot (names_of steps.now) (slot_given slot.now)))
        (kind_view other)) }
{
    if is_shown {
        return kind_at_end(slot, steps);
    }
    match slot {
        None => Ok(other),
        Some(slot) => kind_there_or(alloc, slot, steps, other),
    }
}

// The same below a slot, where no test showed it.
fn kind_there_or(
    alloc: Global,
    slot: &Slot<Kind>,
    steps: &[String],
    other: Kind,
) -> Result<Kind, AllocError>
    ensures { IfOk result (λ k. kind_view k ≡ default_kind
        (path_spot (names_of steps.now)
        (spot (is_always slot.now.presence) (kind_view slot.now.kind)))
        (kind_view other)) }
{
    match spot_at_end(slot, steps) {
        None => Ok(other),
        Some((true, kind)) => kind.clone(),
        Some((false, kind)) => join(alloc, kind, &other),
    }
}

/// Whether the kind is `Any` or holds it at any depth.
#[cycle(holds_any)]
pub fn holds_any(kind: &Kind) -> bool
    ensures { result ≡ any_in (kind_view kind.now) }
{
    match kind {
        Kind::Any => true,
        Kind::List(item, _) => holds_any(item),
        Kind::Rec(slots) => slots_hold_any(slots),
        Kind::Result(cases, _) => cases_hold_any(cases),
        _ => false,
    }
}

#[cycle(holds_any)]
fn slots_hold_any(slots: &Slots) -> bool
    ensures { result ≡ any_slot_holds (slots_view slots.now.entries) }
{
    for (_, slot) in slots.iter() {
        if holds_any(&slot.kind) {
            return true;
        }
    }
    false
}

#[cycle(holds_any)]
fn cases_hold_any(cases: &[Case<Kind>]) -> bool
    ensures { result ≡ any_case_holds (cases_view cases.now) }
{
    for case in cases {
        if holds_any(&case.fields) {
            return true;
        }
    }
    false
}
