// What is taught once a test had an answer, or where it had either.
ghost use Rattle.std.specs.Prelude.{◌≡◌, IfOk, false, not, true};
ghost use Rattle.pb_language.specs.Expression.{defined, path_status};
ghost use Rattle.pb_language.specs.Expansion.{all_expanded, expanded, expanded_root};
ghost use Rattle.pb_language.specs.Narrow.{any_teaches, narrow, narrow_each, narrow_some};
ghost use Rattle.pb_language.specs.Narrow.{where_taught};
ghost use Rattle.pb_syntax.specs.ExprView.{expr_view, exprs_view, names_of};
ghost use Rattle.pb_syntax.specs.ExprView.{root_view, status_view};
ghost use Rattle.pb_expr.specs.Found.{AreRightWays, IsRight};
ghost use Rattle.pb_taught.specs.TaughtView.{scope_view};

use crate::asked::{Here, Inquiry, Ways, here_anew, turned};
use crate::inference::of_alias;
use crate::narrow::{any_teaches, show, show_active, show_status, taught_by_all};
use pb_syntax::{Expr, Path, Status};
use pb_taught::known::Known;
use pb_taught::scope::Taught;
use std::alloc::{AllocError, Global};

// What is taught once the expression, too, had that answer.
#[cycle(infer)]
pub(crate) fn narrow_here<K: Known>(
    alloc: Global,
    expr: &Expr,
    answer: bool,
    inquiry: &Inquiry<'_, K>,
    here: Here,
) -> Result<Here, AllocError>
    requires { IsRight (K.before inquiry.now.known.now) here.taught here.asked }
    ensures taught { let b = K.before inquiry.now.known.now in
        IfOk result (λ h. scope_view b h.taught
        ≡ narrow (scope_view b here.taught) (expanded b.trees (expr_view expr.now)) answer) }
    ensures right { IfOk result
        (λ h. IsRight (K.before inquiry.now.known.now) h.taught h.asked) }
{
    match expr {
        Expr::Not(operand) => narrow_here(alloc, operand, !answer, inquiry, here),
        Expr::And(operands) if answer => narrow_each(alloc, operands, answer, inquiry, here),
        Expr::And(operands) => narrow_some(alloc, operands, answer, inquiry, here),
        Expr::Or(operands) if answer => narrow_some(alloc, operands, answer, inquiry, here),
        Expr::Or(operands) => narrow_each(alloc, operands, answer, inquiry, here),
        Expr::InBatch(term) if answer => {
            let taught = show_active(alloc, term, inquiry.known, here.taught)?;
            Ok(here_anew(alloc, taught))
        }
        Expr::Defined(path) if answer => narrow_there(alloc, path, inquiry, here),
        Expr::PathStatus(status, path) => {
            narrow_status(alloc, (*status, answer), path, inquiry, here)
        }
        Expr::InBatch(_) | Expr::Hostvars(_) => Ok(here),
        Expr::Literal(_) | Expr::Path(_) | Expr::Compare(_, _, _) | Expr::In(_, _) => Ok(here),
        Expr::Defined(_) | Expr::Undefinable(_) | Expr::Status(_, _) => Ok(here),
        Expr::PathOr(_, _) | Expr::ValueOr(_, _) | Expr::Length(_) => Ok(here),
        Expr::Join(_, _) | Expr::Concat(_) | Expr::List(_) | Expr::Record(_) => Ok(here),
    }
}

// The path was tested to be there.
#[cycle(infer)]
fn narrow_there<K: Known>(
    alloc: Global,
    path: &Path,
    inquiry: &Inquiry<'_, K>,
    here: Here,
) -> Result<Here, AllocError>
    requires { IsRight (K.before inquiry.now.known.now) here.taught here.asked }
    ensures taught { let b = K.before inquiry.now.known.now in
        IfOk result (λ h. scope_view b h.taught ≡ narrow (scope_view b here.taught)
        (defined (expanded_root b.trees (root_view path.now.root))
        (names_of path.now.steps.items)) true) }
    ensures right { IfOk result
        (λ h. IsRight (K.before inquiry.now.known.now) h.taught h.asked) }
{
    let mut here = here;
    let alias = of_alias(alloc, &path.root, inquiry, &here.taught, &mut here.asked)?;
    let taught = show(alloc, path, inquiry.known, here.taught, alias)?;
    Ok(here_anew(alloc, taught))
}

// The test of a status at the end of the path had that answer.
#[cycle(infer)]
fn narrow_status<K: Known>(
    alloc: Global,
    test: (Status, bool),
    path: &Path,
    inquiry: &Inquiry<'_, K>,
    here: Here,
) -> Result<Here, AllocError>
    requires { IsRight (K.before inquiry.now.known.now) here.taught here.asked }
    ensures taught { let b = K.before inquiry.now.known.now in
        IfOk result (λ h. scope_view b h.taught ≡ narrow (scope_view b here.taught)
        (path_status (status_view test.0) (expanded_root b.trees (root_view path.now.root))
        (names_of path.now.steps.items)) test.1) }
    ensures right { IfOk result
        (λ h. IsRight (K.before inquiry.now.known.now) h.taught h.asked) }
{
    let mut here = here;
    let alias = of_alias(alloc, &path.root, inquiry, &here.taught, &mut here.asked)?;
    let taught = show_status(alloc, test, path, inquiry.known, here.taught, alias)?;
    Ok(here_anew(alloc, taught))
}

// Each operand had that answer.
#[cycle(infer)]
fn narrow_each<K: Known>(
    alloc: Global,
    operands: &[Expr],
    answer: bool,
    inquiry: &Inquiry<'_, K>,
    before: Here,
) -> Result<Here, AllocError>
    requires { IsRight (K.before inquiry.now.known.now) before.taught before.asked }
    ensures taught { let b = K.before inquiry.now.known.now in
        IfOk result (λ h. scope_view b h.taught ≡ narrow_each (scope_view b before.taught)
        (all_expanded b.trees (exprs_view operands.now)) answer) }
    ensures right { IfOk result
        (λ h. IsRight (K.before inquiry.now.known.now) h.taught h.asked) }
{
    let mut here = before;
    for operand in operands {
        here = narrow_here(alloc, operand, answer, inquiry, here)?;
    }
    Ok(here)
}

// One operand had that answer, and none before it; nothing is looked at where none teaches.
#[cycle(infer)]
fn narrow_some<K: Known>(
    alloc: Global,
    operands: &[Expr],
    answer: bool,
    inquiry: &Inquiry<'_, K>,
    before: Here,
) -> Result<Here, AllocError>
    requires { IsRight (K.before inquiry.now.known.now) before.taught before.asked }
    ensures taught { let b = K.before inquiry.now.known.now in
        let c = scope_view b before.taught in
        let es = all_expanded b.trees (exprs_view operands.now) in
        IfOk result (λ h. scope_view b h.taught
        ≡ where_taught (any_teaches es) (narrow_some c es answer) c) }
    ensures right { IfOk result
        (λ h. IsRight (K.before inquiry.now.known.now) h.taught h.asked) }
{
    if !any_teaches(operands) {
        return Ok(before);
    }
    let ways = ways_of_chain(alloc, operands, !answer, inquiry, before)?;
    Ok(ways.fails)
}

// What is taught where the expression, too, was true, and where it was false.
#[cycle(infer)]
fn narrow_both<K: Known>(
    alloc: Global,
    expr: &Expr,
    inquiry: &Inquiry<'_, K>,
    here: Here,
) -> Result<Ways, AllocError>
    requires { IsRight (K.before inquiry.now.known.now) here.taught here.asked }
    ensures holds { let b = K.before inquiry.now.known.now in
        IfOk result (λ w. scope_view b w.holds.taught
        ≡ narrow (scope_view b here.taught) (expanded b.trees (expr_view expr.now)) true) }
    ensures fails { let b = K.before inquiry.now.known.now in
        IfOk result (λ w. scope_view b w.fails.taught
        ≡ narrow (scope_view b here.taught) (expanded b.trees (expr_view expr.now)) false) }
    ensures right { IfOk result (AreRightWays (K.before inquiry.now.known.now)) }
{
    match expr {
        Expr::Not(operand) => {
            let ways = narrow_both(alloc, operand, inquiry, here)?;
            Ok(turned(ways))
        }
        Expr::And(operands) => both_of_chain(alloc, operands, true, inquiry, here),
        Expr::Or(operands) => {
            let ways = both_of_chain(alloc, operands, false, inquiry, here)?;
            Ok(turned(ways))
        }
        _ => both_of_leaf(alloc, expr, inquiry, here),
    }
}

// Of what is asked as a whole. The tree of a name of `vars` is asked once for both answers.
#[cycle(infer)]
fn both_of_leaf<K: Known>(
    alloc: Global,
    expr: &Expr,
    inquiry: &Inquiry<'_, K>,
    here: Here,
) -> Result<Ways, AllocError>
    requires { IsRight (K.before inquiry.now.known.now) here.taught here.asked }
    ensures holds { let b = K.before inquiry.now.known.now in
        IfOk result (λ w. scope_view b w.holds.taught
        ≡ narrow (scope_view b here.taught) (expanded b.trees (expr_view expr.now)) true) }
    ensures fails { let b = K.before inquiry.now.known.now in
        IfOk result (λ w. scope_view b w.fails.taught
        ≡ narrow (scope_view b here.taught) (expanded b.trees (expr_view expr.now)) false) }
    ensures right { IfOk result (AreRightWays (K.before inquiry.now.known.now)) }
{
    let here = asked_before(alloc, expr, inquiry, here)?;
    let copy = Here::copy(alloc, &here.taught, &here.asked)?;
    let fails = narrow_here(alloc, expr, false, inquiry, copy)?;
    let holds = narrow_here(alloc, expr, true, inquiry, here)?;
    Ok(Ways { holds, fails })
}

// The same, where the tree of the name of `vars` at the root of a tested path was asked.
#[cycle(infer)]
fn asked_before<K: Known>(
    alloc: Global,
    expr: &Expr,
    inquiry: &Inquiry<'_, K>,
    here: Here,
) -> Result<Here, AllocError>
    requires { IsRight (K.before inquiry.now.known.now) here.taught here.asked }
    ensures taught { IfOk result (λ h. h.taught ≡ here.taught) }
    ensures right { IfOk result
        (λ h. IsRight (K.before inquiry.now.known.now) h.taught h.asked) }
{
    let mut here = here;
    match expr {
        Expr::PathStatus(_, path) => {
            let _found = of_alias(alloc, &path.root, inquiry, &here.taught, &mut here.asked)?;
            Ok(here)
        }
        _ => Ok(here),
    }
}

// Where each operand had that answer, and where one hadn't and all before it had.
#[cycle(infer)]
fn both_of_chain<K: Known>(
    alloc: Global,
    operands: &[Expr],
    answer: bool,
    inquiry: &Inquiry<'_, K>,
    before: Here,
) -> Result<Ways, AllocError>
    requires { IsRight (K.before inquiry.now.known.now) before.taught before.asked }
    ensures holds { let b = K.before inquiry.now.known.now in
        IfOk result (λ w. scope_view b w.holds.taught ≡ narrow_each (scope_view b before.taught)
        (all_expanded b.trees (exprs_view operands.now)) answer) }
    ensures fails { let b = K.before inquiry.now.known.now in
        let c = scope_view b before.taught in
        let es = all_expanded b.trees (exprs_view operands.now) in
        IfOk result (λ w. scope_view b w.fails.taught
        ≡ where_taught (any_teaches es) (narrow_some c es (not answer)) c) }
    ensures right { IfOk result (AreRightWays (K.before inquiry.now.known.now)) }
{
    if any_teaches(operands) {
        return ways_of_chain(alloc, operands, answer, inquiry, before);
    }
    let copy = Here::copy(alloc, &before.taught, &before.asked)?;
    let holds = narrow_each(alloc, operands, answer, inquiry, copy)?;
    Ok(Ways {
        holds,
        fails: before,
    })
}

// The same of a chain that teaches. Each operand is asked once, where those before it had that
// answer.
#[cycle(infer)]
fn ways_of_chain<K: Known>(
    alloc: Global,
    operands: &[Expr],
    answer: bool,
    inquiry: &Inquiry<'_, K>,
    before: Here,
) -> Result<Ways, AllocError>
    requires { IsRight (K.before inquiry.now.known.now) before.taught before.asked }
    ensures holds { let b = K.before inquiry.now.known.now in
        IfOk result (λ w. scope_view b w.holds.taught ≡ narrow_each (scope_view b before.taught)
        (all_expanded b.trees (exprs_view operands.now)) answer) }
    ensures fails { let b = K.before inquiry.now.known.now in
        let c = scope_view b before.taught in
        let es = all_expanded b.trees (exprs_view operands.now) in
        IfOk result (λ w. scope_view b w.fails.taught ≡ narrow_some c es (not answer)) }
    ensures right { IfOk result (AreRightWays (K.before inquiry.now.known.now)) }
{
    let mut ways = Vec::new(alloc);
    let mut here = before;
    for operand in operands {
        let (same, other) = narrow_apart(alloc, operand, answer, inquiry, here)?;
        ways.push(other)?;
        here = same;
    }
    let last = here.taught.copy(alloc)?;
    let taught = taught_by_all(alloc, ways, last)?;
    Ok(Ways {
        holds: here,
        fails: here_anew(alloc, taught),
    })
}

// Where the operand had that answer, and what is taught where it had the other.
#[cycle(infer)]
fn narrow_apart<K: Known>(
    alloc: Global,
    operand: &Expr,
    answer: bool,
    inquiry: &Inquiry<'_, K>,
    here: Here,
) -> Result<(Here, Taught), AllocError>
    requires { IsRight (K.before inquiry.now.known.now) here.taught here.asked }
    ensures same { let b = K.before inquiry.now.known.now in
        IfOk result (λ w. scope_view b w.0.taught ≡ narrow (scope_view b here.taught)
        (expanded b.trees (expr_view operand.now)) answer) }
    ensures other { let b = K.before inquiry.now.known.now in
        IfOk result (λ w. scope_view b w.1 ≡ narrow (scope_view b here.taught)
        (expanded b.trees (expr_view operand.now)) (not answer)) }
    ensures right { IfOk result
        (λ w. IsRight (K.before inquiry.now.known.now) w.0.taught w.0.asked) }
{
    let ways = narrow_both(alloc, operand, inquiry, here)?;
    let Ways { holds, fails } = ways;
    if answer {
        Ok((holds, fails.taught))
    } else {
        Ok((fails, holds.taught))
    }
}
