// What an expression is asked for by its place in a task: to be fit, and then of which kind.
ghost use Rattle.std.specs.Prelude.{◌≡◌, IfOk, Some, option_map};
ghost use Rattle.pb_language.specs.Expansion.{expanded};
ghost use Rattle.pb_language.specs.Judgement.{text_fault};
ghost use Rattle.pb_language.specs.Words.{asks, first, wrong_kind};
ghost use Rattle.pb_syntax.specs.Words.{expr_view};
ghost use Rattle.pb_forms.specs.Words.{fault_view};
ghost use Rattle.pb_taught.specs.Words.{scope_view};
ghost use Rattle.pb_fit.specs.Asked.{condition_fault, value_fault};

use pb_expr::{Known, Taught, Unfit, infer_kind};
use pb_forms::kinds::is_text;
use pb_syntax::Expr;
use std::alloc::{AllocError, Global};

// The fault that comes before, or else that of another kind than is asked.
pub(crate) fn asked(before: Option<Unfit>, is_so: bool) -> Option<Unfit>
    ensures { option_map fault_view result
        ≡ first (option_map fault_view before) (asks wrong_kind is_so) }
{
    match before {
        Some(unfit) => Some(unfit),
        None if is_so => None,
        None => Some(Unfit::WrongKind),
    }
}

// A condition is a truth value.
pub(crate) fn condition_unfit<K: Known>(
    alloc: Global,
    condition: &Expr,
    known: &K,
    taught: &Taught,
) -> Result<Option<Unfit>, AllocError>
    ensures { let b = K.before known.now in
        IfOk result (λ u. option_map fault_view u ≡ condition_fault (scope_view b taught.now)
        (expanded b.trees (expr_view condition.now))) }
{
    let found = infer_kind(alloc, condition, known, taught)?;
    Ok(asked(found.unfit, found.kind.is_bool()))
}

pub(crate) fn text_unfit<K: Known>(
    alloc: Global,
    text: &Expr,
    known: &K,
    taught: &Taught,
) -> Result<Option<Unfit>, AllocError>
    ensures { let b = K.before known.now in
        IfOk result (λ u. option_map fault_view u ≡ text_fault (scope_view b taught.now)
        (Some (expanded b.trees (expr_view text.now)))) }
{
    let found = infer_kind(alloc, text, known, taught)?;
    Ok(asked(found.unfit, is_text(&found.kind)))
}

// A value that is shown or set isn't of every kind.
pub(crate) fn value_unfit<K: Known>(
    alloc: Global,
    value: &Expr,
    known: &K,
    taught: &Taught,
) -> Result<Option<Unfit>, AllocError>
    ensures { let b = K.before known.now in
        IfOk result (λ u. option_map fault_view u ≡ value_fault (scope_view b taught.now)
        (expanded b.trees (expr_view value.now))) }
{
    let found = infer_kind(alloc, value, known, taught)?;
    Ok(asked(found.unfit, !found.kind.is_any()))
}
