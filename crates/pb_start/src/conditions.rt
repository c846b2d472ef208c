// Conditions, all of which have to hold.
ghost use Rattle.std.specs.Prelude.{◌≡◌, IfOk};
ghost use Rattle.pb_language.specs.Expansion.{all_expanded};
ghost use Rattle.pb_language.specs.Words.{eval_all};
ghost use Rattle.pb_syntax.specs.Words.{exprs_view};
ghost use Rattle.pb_start.specs.Words.{is_so, truth_of};

use pb_eval::Vars;
use pb_eval::eval::eval;
use pb_syntax::Expr;
use std::alloc::{AllocError, Global};

/// Whether all of the conditions hold, in their order: the first one that doesn't is the last that
/// is evaluated. None where one has no truth value.
///
/// # Errors
///
/// Want of memory.
pub fn all_hold<V: Vars>(
    alloc: Global,
    conditions: &[Expr],
    vars: &V,
) -> Result<Option<bool>, AllocError>
    ensures { IfOk result (λ b. b ≡ truth_of (eval_all (V.world vars.now)
        (all_expanded (V.trees vars.now) (exprs_view conditions.now)))) }
{
    for condition in conditions {
        let found = eval(alloc, condition, vars)?;
        match found.as_bool() {
            Some(true) => {}
            Some(false) => return Ok(Some(false)),
            None => return Ok(None),
        }
    }
    Ok(Some(true))
}

/// Whether conditions hold, given what `all_hold` says of them.
pub fn is_so(holds: Option<bool>) -> bool
    ensures { result ≡ is_so holds }
{
    match holds {
        Some(holds) => holds,
        None => false,
    }
}
