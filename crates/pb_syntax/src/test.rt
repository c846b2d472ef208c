// The tests that may stand behind `is`.
ghost use Rattle.std.specs.Prelude.{◌≡◌, IfErr, IfNone, IfOk, IfSome, None, Some, drop};
ghost use Rattle.pb_language.specs.Words.{tokens_of};
ghost use Rattle.pb_language.specs.Expression.{Expression, negation};
ghost use Rattle.pb_language.specs.Grammar as grammar;
ghost use Rattle.pb_syntax.specs.ExprView.{expr_view};
ghost use Rattle.pb_syntax.specs.Forms.{test_name};
ghost use Rattle.pb_syntax.specs.Letters.{tokens_at};
ghost use Rattle.pb_syntax.specs.Lexed.{IsToken};
ghost use Rattle.pb_syntax.specs.Reads.{IsRead, IsRefused};

use crate::expr::{Expr, Status};
use crate::fault::ExprFault;
use crate::lexer::{Sort, Token, token_at};
use std::alloc::{AllocError, Global};

/// A test, by its name.
#[derive(Clone, Copy, PartialEq, Eq)]
pub enum Test {
    Defined,
    Undefined,
    Failed,
    Succeeded,
    Changed,
    Skipped,
}

/// A value with the test behind the `is`, and the token after it.
pub fn tested(
    alloc: Global,
    text: &[u8],
    value: Expr,
    is: Token,
) -> Result<(Expr, Token), ExprFault>
    requires token { IsToken text.now is }
    ensures read { IfOk result (λ r. IsRead _ _ expr_view text.now is r
        (grammar.tested (expr_view value) (tokens_of (drop is.end text.now)))) }
    ensures refused { IfErr result (λ e. IsRefused _ text.now e
        (grammar.tested (expr_view value) (tokens_of (drop is.end text.now)))) }
{
    let first = token_at(text, is.end)?;
    if first.sort != Sort::Not {
        return tested_by(alloc, text, value, first);
    }
    let (test, after) = tested_by(alloc, text, value, token_at(text, first.end)?)?;
    Ok((Expr::Not(Box::new(alloc, test)?), after))
}

// A value with the test that the token names, and the token after it.
fn tested_by(
    alloc: Global,
    text: &[u8],
    value: Expr,
    token: Token,
) -> Result<(Expr, Token), ExprFault>
    requires token { IsToken text.now token }
    ensures read { IfOk result (λ r. IsRead _ _ expr_view text.now token r
        (grammar.test_of (expr_view value) (tokens_at text.now token))) }
    ensures refused { IfErr result (λ e. IsRefused _ text.now e
        (grammar.test_of (expr_view value) (tokens_at text.now token))) }
{
    if token.sort != Sort::Name {
        return Err(ExprFault::Unreadable { at: token.start });
    }
    let Some(test) = test_of(&text[token.start..token.end]) else {
        return Err(ExprFault::Unreadable { at: token.start });
    };
    let after = token_at(text, token.end)?;
    Ok((with_test(alloc, test, value)?, after))
}

// The test of that name.
fn test_of(name: &[u8]) -> Option<Test>
    ensures named { IfSome result (λ t. name.now ≡ test_name t) }
    ensures none { IfNone result ((e : Expression) → grammar.test_named name.now e ≡ None) }
{
    if name == b"defined".as_slice() {
        Some(Test::Defined)
    } else if name == b"undefined".as_slice() {
        Some(Test::Undefined)
    } else if name == b"failed".as_slice() {
        Some(Test::Failed)
    } else if name == b"succeeded".as_slice() {
        Some(Test::Succeeded)
    } else if name == b"changed".as_slice() {
        Some(Test::Changed)
    } else if name == b"skipped".as_slice() {
        Some(Test::Skipped)
    } else {
        None
    }
}

// A value with a test.
fn with_test(alloc: Global, test: Test, value: Expr) -> Result<Expr, AllocError>
    ensures { IfOk result (λ e.
        Some (expr_view e) ≡ grammar.test_named (test_name test) (expr_view value)) }
{
    match test {
        Test::Defined => value.defined(alloc),
        Test::Undefined => negated(alloc, value.defined(alloc)?),
        Test::Failed => value.with_status(alloc, Status::Failed),
        Test::Succeeded => negated(alloc, value.with_status(alloc, Status::Failed)?),
        Test::Changed => value.with_status(alloc, Status::Changed),
        Test::Skipped => value.with_status(alloc, Status::Skipped),
    }
}

fn negated(alloc: Global, expr: Expr) -> Result<Expr, AllocError>
    ensures { IfOk result (λ e. expr_view e ≡ negation (expr_view expr)) }
{
    Ok(Expr::Not(Box::new(alloc, expr)?))
}
