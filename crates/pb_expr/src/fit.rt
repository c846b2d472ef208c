// The kind of an expression, or why it isn't fit.
ghost use Rattle.std.specs.Prelude.{◌≡◌, IfOk, None, option_map};
ghost use Rattle.pb_semantics.specs.Words.{Gives};
ghost use Rattle.pb_language.specs.Expansion.{expanded};
ghost use Rattle.pb_language.specs.Words.{fault, kind_of as kind_found};
ghost use Rattle.pb_kind.specs.Words.{kind_view};
ghost use Rattle.pb_syntax.specs.ExprView.{expr_view};
ghost use Rattle.pb_expr.specs.FaultFound.{fault_found};
ghost use Rattle.pb_forms.specs.FitView.{fault_view};
ghost use Rattle.pb_taught.specs.TaughtView.{scope_view};

use crate::asked::{Asked, all_turns, inquiry_of};
use crate::inference::infer;
use pb_forms::inferred::Inferred;
use pb_forms::unfit::Unfit;
use pb_kind::Kind;
use pb_syntax::Expr;
use pb_taught::known::Known;
use pb_taught::scope::Taught;
use std::alloc::{AllocError, AllocFailed, Global};
use thiserror::Error;

/// Why an expression has no kind.
#[derive(Debug, Drop, Error)]
pub enum KindFault {
    #[error("{0}")]
    Unfit(Unfit),
    #[error("want of memory")]
    NoMemory,
}

impl From<AllocError> for KindFault {
    ghost use Rattle.std.specs.Prelude.{◌≡◌};
    ghost use Rattle.pb_expr.specs.declared.fit.KindFault.TheVariants.{NoMemory};

    ghost from_gives = { λ _ e. e ≡ NoMemory };

    fn from(_: AllocError) -> KindFault {
        KindFault::NoMemory
    }
}

impl<T: Drop> From<AllocFailed<T>> for KindFault {
    ghost use Rattle.std.specs.Prelude.{◌≡◌};
    ghost use Rattle.pb_expr.specs.declared.fit.KindFault.TheVariants.{NoMemory};

    ghost from_gives = { λ _ e. e ≡ NoMemory };

    fn from(_: AllocFailed<T>) -> KindFault {
        KindFault::NoMemory
    }
}

/// The kind of an expression, fit or not, and its first fault, by what is known of variables and
/// what tests have taught. Of what isn't fit the kind is that of the values that it has where it
/// has one.
///
/// # Errors
///
/// Want of memory, also where a chain of names of `vars` has more than 8 of them, and past 65,536
/// trees of such names that are asked and ways that are taken.
pub fn infer_kind<K: Known>(
    alloc: Global,
    expr: &Expr,
    known: &K,
    taught: &Taught,
) -> Result<Inferred, AllocError>
    ensures kind { let b = K.before known.now in
        IfOk result (λ i. kind_view i.kind
        ≡ kind_found (scope_view b taught.now) (expanded b.trees (expr_view expr.now))) }
    ensures fault { let b = K.before known.now in
        IfOk result (λ i. option_map fault_view i.unfit
        ≡ fault (scope_view b taught.now) (expanded b.trees (expr_view expr.now))) }
{
    let turns = all_turns();
    let inquiry = inquiry_of(known, &turns);
    let found = infer(alloc, expr, &inquiry, taught, &mut Asked::nothing(alloc))?;
    Ok(found)
}

/// The kind of a fit expression by what is known of variables and what tests have taught, or else
/// the first fault from left to right, operands before the form round them. A name of `vars` stands
/// for its tree, which is asked where the name is read.
///
/// # Errors
///
/// The first fault; want of memory, also where a chain of names of `vars` has more than 8 of them,
/// and past 65,536 trees of such names that are asked and ways that are taken.
pub fn kind_of<K: Known>(
    alloc: Global,
    expr: &Expr,
    known: &K,
    taught: &Taught,
) -> Result<Kind, KindFault>
    ensures fault { let b = K.before known.now in
        Gives (λ k. None) fault_found result
        (fault (scope_view b taught.now) (expanded b.trees (expr_view expr.now))) }
    ensures kind { let b = K.before known.now in
        IfOk result (λ k. kind_view k
        ≡ kind_found (scope_view b taught.now) (expanded b.trees (expr_view expr.now))) }
{
    let found = infer_kind(alloc, expr, known, taught)?;
    match found.unfit {
        Some(unfit) => Err(KindFault::Unfit(unfit)),
        None => Ok(found.kind),
    }
}
