// What is found of a form by what is found of its operands, whose faults come before its own.
ghost use Rattle.std.specs.Prelude.{◌&&◌, ◌||◌, ◌≡◌, IfOk, Some, length as count, not};
ghost use Rattle.std.specs.Prelude.{option_map};
ghost use Rattle.pb_semantics.specs.Kind.{ints};
ghost use Rattle.pb_semantics.specs.Words.{booleans, lists, texts};
ghost use Rattle.pb_language.specs.Words.{asks, can_compare, can_find, equal, first};
ghost use Rattle.pb_language.specs.Words.{has_length as can_be_counted, is_any as is_anything};
ghost use Rattle.pb_language.specs.Words.{is_boolean, is_plain_list as is_plain_list_kind};
ghost use Rattle.pb_language.specs.Words.{is_result as is_result_kind, is_text as is_textual};
ghost use Rattle.pb_language.specs.Words.{wrong_kind};
ghost use Rattle.pb_kind.specs.Words.{kind_view};
ghost use Rattle.pb_syntax.specs.ExprView.{comparison_view};
ghost use Rattle.pb_forms.specs.FitView.{fault_view};
ghost use Rattle.pb_forms.specs.InferredView.{are_bools, are_plain_kinds, fault_in, faults_in};
ghost use Rattle.pb_forms.specs.InferredView.{joined_in, part_fault, part_faults_in};

use crate::inferred::Inferred;
use crate::kinds::{has_length, holds_any, is_int, is_plain, is_plain_list, is_result, is_text};
use crate::unfit::{Unfit, asked_of, first_of};
use pb_kind::{Kind, join_all};
use pb_syntax::Comparison;
use std::alloc::{AllocError, Global};

/// A form of that kind, where the fault of its operands comes before what it asks of them.
pub fn asked(before: Option<Unfit>, is_fit: bool, kind: Kind) -> Inferred
    ensures kind { result.kind ≡ kind }
    ensures fault { option_map fault_view result.unfit
        ≡ first (option_map fault_view before) (asks wrong_kind is_fit) }
{
    let unfit = first_of(before, asked_of(is_fit, Unfit::WrongKind));
    Inferred { kind, unfit }
}

// The same of two operands, of which the left one's fault comes first.
fn asked_both(one: Option<Unfit>, other: Option<Unfit>, is_fit: bool, kind: Kind) -> Inferred
    ensures kind { result.kind ≡ kind }
    ensures fault { option_map fault_view result.unfit
        ≡ first (option_map fault_view one)
        (first (option_map fault_view other) (asks wrong_kind is_fit)) }
{
    let found = asked(other, is_fit, kind);
    let unfit = first_of(one, found.unfit);
    Inferred {
        kind: found.kind,
        unfit,
    }
}

/// An item or a field, which isn't `Any`.
pub fn not_any(part: Inferred) -> Inferred
    ensures kind { result.kind ≡ part.kind }
    ensures fault { option_map fault_view result.unfit
        ≡ first (option_map fault_view part.unfit)
        (asks wrong_kind (not (is_anything (kind_view part.kind)))) }
{
    let is_fit = !part.kind.is_any();
    asked(part.unfit, is_fit, part.kind)
}

/// Of `not`, whose operand is a truth value.
pub fn negation(operand: Inferred) -> Inferred
    ensures kind { kind_view result.kind ≡ booleans }
    ensures fault { option_map fault_view result.unfit
        ≡ first (option_map fault_view operand.unfit)
        (asks wrong_kind (is_boolean (kind_view operand.kind))) }
{
    asked(operand.unfit, operand.kind.is_bool(), Kind::Bool)
}

/// Of two operands that are compared.
pub fn comparison(comparison: Comparison, operands: (Inferred, Inferred)) -> Inferred
    ensures kind { kind_view result.kind ≡ booleans }
    ensures fault { option_map fault_view result.unfit
        ≡ first (option_map fault_view operands.0.unfit)
        (first (option_map fault_view operands.1.unfit) (asks wrong_kind
        (can_compare (comparison_view comparison) (kind_view operands.0.kind)
        (kind_view operands.1.kind)))) }
{
    let is_fit = are_compared(comparison, &operands.0.kind, &operands.1.kind);
    asked_both(operands.0.unfit, operands.1.unfit, is_fit, Kind::Bool)
}

fn are_compared(comparison: Comparison, left: &Kind, right: &Kind) -> bool
    ensures { result
        ≡ can_compare (comparison_view comparison) (kind_view left.now) (kind_view right.now) }
{
    match comparison {
        Comparison::Equal => are_comparable(left, right),
        _ => is_int(left) && is_int(right),
    }
}

fn are_comparable(left: &Kind, right: &Kind) -> bool
    ensures { result ≡ can_compare equal (kind_view left.now) (kind_view right.now) }
{
    !(holds_any(left) || holds_any(right))
}

/// The part that is looked for, and what it is looked for in.
pub fn membership(operands: (Inferred, Inferred)) -> Inferred
    ensures kind { kind_view result.kind ≡ booleans }
    ensures fault { option_map fault_view result.unfit
        ≡ first (option_map fault_view operands.0.unfit)
        (first (option_map fault_view operands.1.unfit) (asks wrong_kind
        (can_find (kind_view operands.0.kind) (kind_view operands.1.kind)))) }
{
    let is_fit = may_hold(&operands.1.kind, &operands.0.kind);
    asked_both(operands.0.unfit, operands.1.unfit, is_fit, Kind::Bool)
}

fn may_hold(whole: &Kind, part: &Kind) -> bool
    ensures { result ≡ can_find (kind_view part.now) (kind_view whole.now) }
{
    match whole {
        Kind::Never => !part.is_any(),
        Kind::List(item, _) => are_comparable(part, item),
        Kind::Text => is_text(part),
        Kind::Host(_) => is_text(part),
        Kind::Rec(_) => is_text(part),
        Kind::Result(_, _) => is_text(part),
        _ => false,
    }
}

/// `is defined` of what is no path.
pub fn undefinable(operand: Inferred) -> Inferred
    ensures kind { kind_view result.kind ≡ booleans }
    ensures fault { option_map fault_view result.unfit
        ≡ first (option_map fault_view operand.unfit) (Some wrong_kind) }
{
    asked(operand.unfit, false, Kind::Bool)
}

/// Of the test of a status, whose operand is a result, or a record with what results have.
pub fn status(operand: Inferred) -> Inferred
    ensures kind { kind_view result.kind ≡ booleans }
    ensures fault { option_map fault_view result.unfit
        ≡ first (option_map fault_view operand.unfit)
        (asks wrong_kind (is_result_kind (kind_view operand.kind))) }
{
    asked(operand.unfit, is_result(&operand.kind), Kind::Bool)
}

/// The first of two values, of which neither is of every kind.
pub fn value_or(operands: (Inferred, Inferred)) -> Inferred
    ensures kind { result.kind ≡ operands.0.kind }
    ensures fault { option_map fault_view result.unfit
        ≡ first (option_map fault_view operands.0.unfit)
        (first (option_map fault_view operands.1.unfit) (asks wrong_kind
        (not (is_anything (kind_view operands.0.kind)
        || is_anything (kind_view operands.1.kind))))) }
{
    let is_fit = !(operands.0.kind.is_any() || operands.1.kind.is_any());
    asked_both(operands.0.unfit, operands.1.unfit, is_fit, operands.0.kind)
}

/// Of `length`, whose operand is a text, a list or a record.
pub fn length(operand: Inferred) -> Inferred
    ensures kind { kind_view result.kind ≡ ints }
    ensures fault { option_map fault_view result.unfit
        ≡ first (option_map fault_view operand.unfit)
        (asks wrong_kind (can_be_counted (kind_view operand.kind))) }
{
    asked(operand.unfit, has_length(&operand.kind), Kind::Int)
}

/// Of a list of plain values that a text joins.
pub fn joined(operands: (Inferred, Inferred)) -> Inferred
    ensures kind { kind_view result.kind ≡ texts }
    ensures fault { option_map fault_view result.unfit
        ≡ first (option_map fault_view operands.0.unfit)
        (first (option_map fault_view operands.1.unfit) (asks wrong_kind
        (is_plain_list_kind (kind_view operands.0.kind)
        && is_textual (kind_view operands.1.kind)))) }
{
    let is_fit = is_plain_list(&operands.0.kind) && is_text(&operands.1.kind);
    asked_both(operands.0.unfit, operands.1.unfit, is_fit, Kind::Text)
}

/// Of a chain of truth values.
pub fn truths(operands: &[Inferred]) -> Inferred
    ensures kind { kind_view result.kind ≡ booleans }
    ensures fault { fault_in result
        ≡ first (faults_in operands.now) (asks wrong_kind (are_bools operands.now)) }
{
    let mut unfit = None;
    let mut are_bool = true;
    for operand in operands {
        unfit = first_of(unfit, operand.unfit);
        are_bool = are_bool & operand.kind.is_bool();
    }
    asked(unfit, are_bool, Kind::Bool)
}

/// Of a text of several parts.
pub fn texts(parts: &[Inferred]) -> Inferred
    ensures kind { kind_view result.kind ≡ texts }
    ensures fault { fault_in result
        ≡ first (faults_in parts.now) (asks wrong_kind (are_plain_kinds parts.now)) }
{
    let mut unfit = None;
    let mut are_plain = true;
    for part in parts {
        unfit = first_of(unfit, part.unfit);
        are_plain = are_plain & is_plain(&part.kind);
    }
    asked(unfit, are_plain, Kind::Text)
}

/// Of a list of these items.
///
/// # Errors
///
/// Want of memory.
pub fn items(alloc: Global, items: &[Inferred]) -> Result<Inferred, AllocError>
    ensures kind { IfOk result
        (λ f. kind_view f.kind ≡ lists (joined_in items.now) (count items.now)) }
    ensures fault { IfOk result (λ f. fault_in f ≡ part_faults_in items.now) }
{
    let mut kinds = Vec::new(alloc);
    let mut unfit = None;
    for item in items {
        unfit = first_of(unfit, part_unfit(item));
        kinds.push(item.kind.clone()?)?;
    }
    let joined = join_all(alloc, &kinds)?;
    let kind = Kind::of_item(alloc, joined, items.len())?;
    Ok(Inferred { kind, unfit })
}

// What an item or a field is asked for, which isn't `Any`.
fn part_unfit(part: &Inferred) -> Option<Unfit>
    ensures { option_map fault_view result ≡ part_fault part.now }
{
    first_of(part.unfit, asked_of(!part.kind.is_any(), Unfit::WrongKind))
}
