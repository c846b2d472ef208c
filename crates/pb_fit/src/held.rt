// Conditions that all have to hold, each asked where those before it hold.
ghost use Rattle.std.specs.Prelude.{◌≡◌, IfOk, option_map, true};
ghost use Rattle.pb_language.specs.Expansion.{all_expanded, expanded};
ghost use Rattle.pb_language.specs.Judgement.{keyword_fault};
ghost use Rattle.pb_language.specs.Narrow.{narrow_each};
ghost use Rattle.pb_language.specs.Plays.{expanded_list};
ghost use Rattle.pb_language.specs.Words.{conditions_fault, first};
ghost use Rattle.pb_syntax.specs.Words.{expr_view, exprs_view};
ghost use Rattle.pb_forms.specs.Words.{fault_view};
ghost use Rattle.pb_taught.specs.Words.{scope_view, untaught};
ghost use Rattle.pb_fit.specs.Asked.{condition_fault};

use crate::asked::condition_unfit;
use pb_expr::narrow::narrow;
use pb_expr::{Known, Taught, Unfit};
use pb_syntax::Expr;
use std::alloc::{AllocError, Global};

/// What is found of conditions that all have to hold.
#[derive(Drop)]
pub struct Held {
    /// The first fault, each condition asked where those before it hold.
    pub unfit: Option<Unfit>,
    /// What tests have taught where all of them hold.
    pub taught: Taught,
}

/// What is found of conditions that all have to hold, where those tests have taught that. None is
/// asked for its fault behind the first fault.
///
/// # Errors
///
/// Want of memory, as of `pb_expr::infer_kind` and `pb_expr::narrow::narrow`.
pub fn conditions<K: Known>(
    alloc: Global,
    conditions: &[Expr],
    known: &K,
    taught: Taught,
) -> Result<Held, AllocError>
    ensures fault { let b = K.before known.now in
        IfOk result (λ h. option_map fault_view h.unfit ≡ conditions_fault (scope_view b taught)
        (all_expanded b.trees (exprs_view conditions.now))) }
    ensures taught { let b = K.before known.now in
        IfOk result (λ h. scope_view b h.taught ≡ narrow_each (scope_view b taught)
        (all_expanded b.trees (exprs_view conditions.now)) true) }
{
    let before = Held {
        unfit: None,
        taught,
    };
    conditions_after(alloc, before, conditions, known)
}

/// What is found of conditions and, behind them, of more that have to hold.
///
/// # Errors
///
/// Want of memory, as of `pb_expr::infer_kind` and `pb_expr::narrow::narrow`.
pub fn conditions_after<K: Known>(
    alloc: Global,
    before: Held,
    conditions: &[Expr],
    known: &K,
) -> Result<Held, AllocError>
    ensures fault { let b = K.before known.now in
        IfOk result (λ h. option_map fault_view h.unfit
        ≡ first (option_map fault_view before.unfit)
        (conditions_fault (scope_view b before.taught)
        (all_expanded b.trees (exprs_view conditions.now)))) }
    ensures taught { let b = K.before known.now in
        IfOk result (λ h. scope_view b h.taught ≡ narrow_each (scope_view b before.taught)
        (all_expanded b.trees (exprs_view conditions.now)) true) }
{
    let mut unfit = before.unfit;
    let mut taught = before.taught;
    for condition in conditions {
        unfit = unfit_behind(alloc, unfit, condition, known, &taught)?;
        taught = narrow(alloc, condition, true, known, taught)?;
    }
    Ok(Held { unfit, taught })
}

// The fault of what stands before the condition, or else the condition's own.
fn unfit_behind<K: Known>(
    alloc: Global,
    before: Option<Unfit>,
    condition: &Expr,
    known: &K,
    taught: &Taught,
) -> Result<Option<Unfit>, AllocError>
    ensures { let b = K.before known.now in
        IfOk result (λ u. option_map fault_view u ≡ first (option_map fault_view before)
        (condition_fault (scope_view b taught.now) (expanded b.trees (expr_view condition.now)))) }
{
    match before {
        Some(unfit) => Ok(Some(unfit)),
        None => condition_unfit(alloc, condition, known, taught),
    }
}

/// What `changed_when`, `failed_when` or `until` is asked, where it is given: its first fault. No
/// test has taught anything there.
///
/// # Errors
///
/// Want of memory, as of `pb_expr::infer_kind` and `pb_expr::narrow::narrow`.
pub fn keyword_unfit<K: Known>(
    alloc: Global,
    given: Option<&[Expr]>,
    known: &K,
) -> Result<Option<Unfit>, AllocError>
    ensures { let b = K.before known.now in
        IfOk result (λ u. option_map fault_view u ≡ keyword_fault (untaught b.scope)
        (expanded_list b.trees (option_map (λ es. exprs_view es.now) given.entry))) }
{
    let Some(given) = given else {
        return Ok(None);
    };
    let held = conditions(alloc, given, known, Taught::nothing(alloc))?;
    Ok(held.unfit)
}
