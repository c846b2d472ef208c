// Templates, read from their texts.
ghost use Rattle.std.specs.Prelude.{◌+◌, ◌<◌, ◌≡◌, ◌≤◌, IfErr, IfOk, IfSome, List, None, Option};
ghost use Rattle.std.specs.Prelude.{Some, ◌-◌, drop, length, option_map, slice_index};
ghost use Rattle.std.specs.Prelude.{slice_range, ℕ};
ghost use Rattle.std.specs.Str.{IsCharBoundary};
ghost use Rattle.pb_semantics.specs.Words.{FaultGives, Gives};
ghost use Rattle.pb_language.specs.Words.{is_mark, is_quote as is_quote_byte, template_of};
ghost use Rattle.pb_language.specs.Expression.{Expressions};
ghost use Rattle.pb_language.specs.Grammar as grammar;
ghost use Rattle.pb_language.specs.Grammar.{cut, ending_in, marked_parts, opening_in, with_part};
ghost use Rattle.pb_syntax.specs.ExprView.{expr_view, exprs_view};
ghost use Rattle.pb_syntax.specs.Forms.{parts_before, with_bytes};
ghost use Rattle.pb_syntax.specs.Place.{place_of};
ghost use Rattle.pb_syntax.specs.Trees.{no_tree};

use crate::expr::Expr;
use crate::fault::ExprFault;
use crate::items::alone;
use crate::parse::expr_from;
use pb_value::Value;
use std::alloc::{AllocError, Global};

/// Reads a text that may have templates: without any it is a literal text, one that is `{{ e }}`
/// from its first byte to its last is the expression `e`, and any other is its parts in a row.
pub fn parse_template(alloc: Global, text: &str) -> Result<Expr, ExprFault>
    ensures tree { Gives (λ e. Some (expr_view e)) no_tree result (template_of text.now) }
    ensures place { IfErr result (λ e. place_of e ≤ length text.now) }
{
    let bytes = text.as_bytes();
    let mut opening = opening_of(bytes, 0);
    let mut parts = with_text(alloc, Vec::new(alloc), text, 0, opening)?;
    'parts: while opening < bytes.len() {
        let (part, after) = braced_at(alloc, bytes, opening)?;
        parts.push(part)?;
        opening = opening_of(bytes, after);
        parts = with_text(alloc, parts, text, after, opening)?;
    }
    Ok(template_tree(alloc, parts)?)
}

// The parts, and behind them the text between two places, unless it is empty.
fn with_text(
    alloc: Global,
    parts: Vec<Expr>,
    text: &str,
    from: usize,
    to: usize,
) -> Result<Vec<Expr>, AllocError>
    requires ordered { from ≤ to }
    requires begins { IsCharBoundary text.now from }
    requires ends { IsCharBoundary text.now to }
    ensures { IfOk result (λ v. (r : Option Expressions) → parts_before (exprs_view v.items) r
        ≡ parts_before (exprs_view parts.items)
        (option_map (grammar.with_text (slice_range text.now from to)) r)) }
{
    if from == to {
        return Ok(parts);
    }
    let mut parts = parts;
    let letters = String::from_str(alloc, &text[from..to])?;
    let value = Value::of_text(alloc, letters)?;
    parts.push(Expr::Literal(value))?;
    Ok(parts)
}

// The parts as one: the empty text where there is none.
fn template_tree(alloc: Global, parts: Vec<Expr>) -> Result<Expr, AllocError>
    ensures { IfOk result (λ e.
        expr_view e ≡ grammar.template_tree (exprs_view parts.items)) }
{
    if parts.is_empty() {
        return Ok(Expr::Literal(Value::of_text(alloc, String::new(alloc))?));
    }
    match alone(parts) {
        Ok(part) => Ok(part),
        Err(parts) => Ok(Expr::Concat(parts)),
    }
}

// The expression in the braces that open there, and the place behind them.
fn braced_at(alloc: Global, text: &[u8], opening: usize) -> Result<(Expr, usize), ExprFault>
    requires { opening < length text.now }
    ensures past { IfOk result (λ r. opening + 2 < r.1) }
    ensures ends { IfOk result (λ r. r.1 ≤ length text.now) }
    ensures closes { IfOk result (λ r. slice_index text.now (r.1 - 1) ≡ 125) }
    ensures read { IfOk result (λ r. (parts : List ℕ → Option Expressions) →
        marked_parts parts (drop opening text.now)
        ≡ with_part (Some (expr_view r.0)) (parts (drop r.1 text.now))) }
    ensures refused { IfErr result (λ e. (parts : List ℕ → Option Expressions) →
        FaultGives (no_tree e) (marked_parts parts (drop opening text.now))) }
    ensures place { IfErr result (λ e. place_of e ≤ length text.now) }
{
    if opening + 1 >= text.len() {
        return Err(ExprFault::Unreadable { at: opening });
    }
    if text[opening + 1] != b'{' {
        return Err(ExprFault::Unreadable { at: opening });
    }
    let Some(end) = closing_of(text, opening + 2) else {
        return Err(ExprFault::Unreadable { at: text.len() });
    };
    let expr = expr_from(alloc, &text[..end], opening + 2)?;
    Ok((expr, end + 2))
}

/// The place of the first `{{`, `{%` or `{#` from there on, or the text's end.
pub fn opening_of(text: &[u8], from: usize) -> usize
    requires { from ≤ length text.now }
    ensures begins { from ≤ result }
    ensures ends { result ≤ length text.now }
    ensures opens { result < length text.now → slice_index text.now result ≡ 123 }
    ensures found { opening_in (drop from text.now)
        ≡ cut (slice_range text.now from result) (drop result text.now) }
{
    let mut at = from;
    while at + 1 < text.len() {
        if text[at] == b'{' && is_opening(text[at + 1]) {
            return at;
        }
        at += 1;
    }
    text.len()
}

fn is_opening(byte: u8) -> bool
    ensures { result ≡ is_mark byte }
{
    byte == b'{' || byte == b'%' || byte == b'#'
}

/// The place of the first `}}` from there on that isn't inside a quoted text, where an expression
/// that begins there ends; none where there is no such place.
pub fn closing_of(text: &[u8], from: usize) -> Option<usize>
    requires { from ≤ length text.now }
    ensures begins { IfSome result (λ at. from ≤ at) }
    ensures ends { IfSome result (λ at. at + 2 ≤ length text.now) }
    ensures closes { IfSome result (λ at. slice_index text.now (at + 1) ≡ 125) }
    ensures found { IfSome result (λ at. ending_in None (drop from text.now)
        ≡ Some (cut (slice_range text.now from at) (drop (at + 2) text.now))) }
    ensures none { result ≡ None → ending_in None (drop from text.now) ≡ None }
{
    let mut at = from;
    while at + 1 < text.len() {
        let byte = text[at];
        if byte == b'}' && text[at + 1] == b'}' {
            return Some(at);
        }
        if is_quote(byte) {
            at = after_quote(text, at + 1, byte)?;
        } else {
            at += 1;
        }
    }
    None
}

fn is_quote(byte: u8) -> bool
    ensures { result ≡ is_quote_byte byte }
{
    byte == b'\'' || byte == b'"'
}

// The place behind the next such quote that no `\` stands before.
fn after_quote(text: &[u8], from: usize, quote: u8) -> Option<usize>
    requires { from ≤ length text.now }
    ensures begins { IfSome result (λ at. from ≤ at) }
    ensures ends { IfSome result (λ at. at ≤ length text.now) }
    ensures found { IfSome result (λ at. ending_in (Some quote) (drop from text.now)
        ≡ with_bytes (slice_range text.now from at) (ending_in None (drop at text.now))) }
    ensures none { result ≡ None → ending_in (Some quote) (drop from text.now) ≡ None }
{
    let mut at = from;
    while at + 1 < text.len() {
        if text[at] == b'\\' {
            at += 2;
        } else if text[at] == quote {
            return Some(at + 1);
        } else {
            at += 1;
        }
    }
    None
}
