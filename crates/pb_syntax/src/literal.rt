// Literals.
ghost use Rattle.std.specs.Prelude.{◌≡◌, ◌≤◌, IfErr, IfOk, Some, drop, length};
ghost use Rattle.pb_semantics.specs.Words.{FaultGives};
ghost use Rattle.pb_language.specs.Words.{literal, tokens_of};
ghost use Rattle.pb_language.specs.Grammar.{before_some};
ghost use Rattle.pb_value.specs.Words.{view};
ghost use Rattle.pb_syntax.specs.ExprView.{expr_view};
ghost use Rattle.pb_syntax.specs.Forms.{first_literal};
ghost use Rattle.pb_syntax.specs.Letters.{tokens_at};
ghost use Rattle.pb_syntax.specs.Lexed.{IsToken};
ghost use Rattle.pb_syntax.specs.Place.{place_of};
ghost use Rattle.pb_syntax.specs.Reads.{IsRead, IsRefused};
ghost use Rattle.pb_syntax.specs.Trees.{no_tree};

use crate::expr::Expr;
use crate::fault::ExprFault;
use crate::lexer::{Sort, Token, meaning_of, number_of, token_at};
use pb_value::Value;
use std::alloc::Global;

/// The literal that the token spells, and the token after it.
pub fn literal_at(alloc: Global, text: &[u8], token: Token) -> Result<(Expr, Token), ExprFault>
    requires token { IsToken text.now token }
    ensures read { IfOk result (λ r. IsRead _ _ expr_view text.now token r
        (before_some (first_literal (tokens_at text.now token))
        (tokens_of (drop token.end text.now)))) }
    ensures refused { IfErr result (λ e. IsRefused _ text.now e
        (before_some (first_literal (tokens_at text.now token))
        (tokens_of (drop token.end text.now)))) }
{
    let literal = literal_of(alloc, text, token)?;
    let after = token_at(text, token.end)?;
    Ok((Expr::Literal(literal), after))
}

// The value that a token spells.
fn literal_of(alloc: Global, text: &[u8], token: Token) -> Result<Value, ExprFault>
    requires token { IsToken text.now token }

    ensures read { IfOk result
        (λ v. first_literal (tokens_at text.now token) ≡ Some (literal (view v))) }

    ensures refused { IfErr result
        (λ e. FaultGives (no_tree e) (first_literal (tokens_at text.now token))) }
    ensures place { IfErr result (λ e. place_of e ≤ length text.now) }
{
    match token.sort {
        Sort::Digits | Sort::Minus => match number_of(text, token) {
            Some(number) => Ok(Value::Int(number)),
            None => Err(ExprFault::Unreadable { at: token.start }),
        },
        Sort::True => Ok(Value::Bool(true)),
        Sort::False => Ok(Value::Bool(false)),
        Sort::None => Ok(Value::Null),
        Sort::Text => Ok(Value::of_text(alloc, meaning_of(alloc, text, token)?)?),
        _ => Err(ExprFault::Unreadable { at: token.start }),
    }
}
