// The loop of a task.
ghost use Rattle.std.specs.Prelude.{◌≡◌, IfOk, Some, option_map};
ghost use Rattle.pb_language.specs.Expansion.{expanded};
ghost use Rattle.pb_language.specs.Judgement.{loop_fault};
ghost use Rattle.pb_language.specs.Words.{kind_of};
ghost use Rattle.pb_kind.specs.Words.{kind_view};
ghost use Rattle.pb_syntax.specs.Words.{expr_view};
ghost use Rattle.pb_forms.specs.Words.{fault_view};
ghost use Rattle.pb_taught.specs.Words.{scope_view};

use crate::asked::asked;
use pb_expr::{Inferred, Known, Taught, infer_kind};
use pb_forms::kinds::is_list;
use pb_syntax::Expr;
use std::alloc::{AllocError, Global};

/// The kind of what a task loops over, fit or not, and its first fault: it is fit where it is a fit
/// list.
///
/// # Errors
///
/// Want of memory, as of `pb_expr::infer_kind`.
pub fn loop_of<K: Known>(
    alloc: Global,
    list: &Expr,
    known: &K,
    taught: &Taught,
) -> Result<Inferred, AllocError>
    ensures kind { let b = K.before known.now in
        IfOk result (λ i. kind_view i.kind
        ≡ kind_of (scope_view b taught.now) (expanded b.trees (expr_view list.now))) }
    ensures fault { let b = K.before known.now in
        IfOk result (λ i. option_map fault_view i.unfit
        ≡ loop_fault (scope_view b taught.now)
        (Some (expanded b.trees (expr_view list.now)))) }
{
    let found = infer_kind(alloc, list, known, taught)?;
    let unfit = asked(found.unfit, is_list(&found.kind));
    Ok(Inferred {
        kind: found.kind,
        unfit,
    })
}
