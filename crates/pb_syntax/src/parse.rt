// Expressions, read from their texts.
ghost use Rattle.std.specs.Prelude.{◌≡◌, ◌≤◌, IfErr, IfOk, Some, drop, length};
ghost use Rattle.pb_semantics.specs.Words.{Gives, most_nesting};
ghost use Rattle.pb_language.specs.Words.{expression_of, tokens_of};
ghost use Rattle.pb_language.specs.Expression as tree;
ghost use Rattle.pb_language.specs.Expression.{Expression};
ghost use Rattle.pb_language.specs.Grammar as grammar;
ghost use Rattle.pb_language.specs.Grammar.{chain_of, closed, conjunction_of, count_of, deeper};
ghost use Rattle.pb_language.specs.Grammar.{disjunction_of, negation_of, operand_of, relation_of};
ghost use Rattle.pb_language.specs.Grammar.{Deeper, with_tree};
ghost use Rattle.pb_syntax.specs.ExprView.{expr_view, exprs_view};
ghost use Rattle.pb_syntax.specs.Forms.{filter_name, link_sort, link_view, linked_of};
ghost use Rattle.pb_syntax.specs.Letters.{letters_at, tokens_at};
ghost use Rattle.pb_syntax.specs.Lexed.{IsToken};
ghost use Rattle.pb_syntax.specs.Reads.{IsRead, IsRefused};
ghost use Rattle.pb_syntax.specs.Place.{place_of};
ghost use Rattle.pb_syntax.specs.Trees.{no_tree};

use crate::expr::Expr;
use crate::fault::ExprFault;
use crate::filter::{Filter, filter_of, filtered, filtered_with};
use crate::items::alone;
use crate::lexer::{Sort, Token, token_at, token_behind};
use crate::literal::literal_at;
use crate::path::path_at;
use crate::relation::{related, relation_behind};
use crate::test::tested;
use std::alloc::Global;

/// How deep parentheses, lists, `not` and what filters are given may nest.
pub const DEPTH: usize = 32;

/// What stands between the operands of a chain.
#[derive(Clone, Copy, PartialEq, Eq)]
pub enum Link {
    And,
    Or,
    Comma,
}

/// Reads an expression.
pub fn parse_expr(alloc: Global, text: &str) -> Result<Expr, ExprFault>
    ensures tree { Gives (λ e. Some (expr_view e)) no_tree result (expression_of text.now) }
    ensures place { IfErr result (λ e. place_of e ≤ length text.now) }
{
    expr_from(alloc, text.as_bytes(), 0)
}

/// The expression that the text is from there on.
pub fn expr_from(alloc: Global, text: &[u8], from: usize) -> Result<Expr, ExprFault>
    requires { from ≤ length text.now }
    ensures tree { Gives (λ e. Some (expr_view e)) no_tree result
        (expression_of (drop from text.now)) }
    ensures place { IfErr result (λ e. place_of e ≤ length text.now) }
{
    let (expr, after) = or_at(alloc, text, token_at(text, from)?, DEPTH)?;
    if after.sort != Sort::End {
        return Err(ExprFault::Unreadable { at: after.start });
    }
    Ok(expr)
}

// A chain of `or` that begins with the token, and the token after it.
#[cycle(parser)]
fn or_at(alloc: Global, text: &[u8], token: Token, depth: usize) -> Result<(Expr, Token), ExprFault>
    requires bounded { depth ≤ most_nesting }
    requires token { IsToken text.now token }
    ensures read { IfOk result (λ r. IsRead _ _ expr_view text.now token r
        (disjunction_of (deeper depth) (tokens_at text.now token))) }
    ensures refused { IfErr result (λ e. IsRefused _ text.now e
        (disjunction_of (deeper depth) (tokens_at text.now token))) }
{
    let (operands, after) = chain_at(alloc, text, token, depth, Link::Or)?;
    Ok((any_of(operands), after))
}

// One operand, or whether any of more holds.
fn any_of(operands: Vec<Expr>) -> Expr
    ensures { expr_view result
        ≡ grammar.joined (λ es. tree.disjunction es) (exprs_view operands.items) }
{
    match alone(operands) {
        Ok(operand) => operand,
        Err(operands) => Expr::Or(operands),
    }
}

// A chain of `and` that begins with the token, and the token after it.
#[cycle(parser)]
fn and_at(
    alloc: Global,
    text: &[u8],
    token: Token,
    depth: usize,
) -> Result<(Expr, Token), ExprFault>
    requires bounded { depth ≤ most_nesting }
    requires token { IsToken text.now token }
    ensures read { IfOk result (λ r. IsRead _ _ expr_view text.now token r
        (conjunction_of (deeper depth) (tokens_at text.now token))) }
    ensures refused { IfErr result (λ e. IsRefused _ text.now e
        (conjunction_of (deeper depth) (tokens_at text.now token))) }
{
    let (operands, after) = chain_at(alloc, text, token, depth, Link::And)?;
    Ok((all_of(operands), after))
}

// One operand, or whether all of more hold.
fn all_of(operands: Vec<Expr>) -> Expr
    ensures { expr_view result
        ≡ grammar.joined (λ es. tree.conjunction es) (exprs_view operands.items) }
{
    match alone(operands) {
        Ok(operand) => operand,
        Err(operands) => Expr::And(operands),
    }
}

// Operands from the token on with that between them, and the token after the last.
#[cycle(parser)]
fn chain_at(
    alloc: Global,
    text: &[u8],
    token: Token,
    depth: usize,
    link: Link,
) -> Result<(Vec<Expr>, Token), ExprFault>
    requires bounded { depth ≤ most_nesting }
    requires token { IsToken text.now token }
    ensures read { IfOk result (λ r. IsRead _ _ (λ v. exprs_view v.items) text.now token r
        (chain_of (link_view link) (linked_of link (deeper depth))
        (count_of (tokens_at text.now token)) (tokens_at text.now token))) }
    ensures refused { IfErr result (λ e. IsRefused _ text.now e
        (chain_of (link_view link) (linked_of link (deeper depth))
        (count_of (tokens_at text.now token)) (tokens_at text.now token))) }
{
    let mut operands = Vec::new(alloc);
    let (first, mut after) = linked_at(alloc, text, token, depth, link)?;
    operands.push(first)?;
    let sort = sort_of(link);
    'operands: while after.sort == sort {
        let (operand, next) = linked_at(alloc, text, token_at(text, after.end)?, depth, link)?;
        operands.push(operand)?;
        after = next;
    }
    Ok((operands, after))
}

fn sort_of(link: Link) -> Sort
    ensures { result ≡ link_sort link }
{
    match link {
        Link::And => Sort::And,
        Link::Or => Sort::Or,
        Link::Comma => Sort::Comma,
    }
}

// An operand of such a chain, and the token after it.
#[cycle(parser)]
fn linked_at(
    alloc: Global,
    text: &[u8],
    token: Token,
    depth: usize,
    link: Link,
) -> Result<(Expr, Token), ExprFault>
    requires bounded { depth ≤ most_nesting }
    requires token { IsToken text.now token }
    ensures read { IfOk result (λ r. IsRead _ _ expr_view text.now token r
        (linked_of link (deeper depth) (tokens_at text.now token))) }
    ensures refused { IfErr result (λ e. IsRefused _ text.now e
        (linked_of link (deeper depth) (tokens_at text.now token))) }
{
    match link {
        Link::And => not_at(alloc, text, token, depth),
        Link::Or => and_at(alloc, text, token, depth),
        Link::Comma => or_at(alloc, text, token, depth),
    }
}

// A negation or a relation that begins with the token, and the token after it.
#[cycle(parser)]
fn not_at(
    alloc: Global,
    text: &[u8],
    token: Token,
    depth: usize,
) -> Result<(Expr, Token), ExprFault>
    requires bounded { depth ≤ most_nesting }
    requires token { IsToken text.now token }
    ensures read { IfOk result (λ r. IsRead _ _ expr_view text.now token r
        (negation_of (deeper depth) (tokens_at text.now token))) }
    ensures refused { IfErr result (λ e. IsRefused _ text.now e
        (negation_of (deeper depth) (tokens_at text.now token))) }
{
    if token.sort != Sort::Not {
        return relation_at(alloc, text, token, depth);
    }
    if depth == 0 {
        return Err(ExprFault::TooDeep);
    }
    let (operand, after) = not_at(alloc, text, token_at(text, token.end)?, depth - 1)?;
    Ok((Expr::Not(Box::new(alloc, operand)?), after))
}

// An operand with a test, or two and what relates them, or one alone.
#[cycle(parser)]
fn relation_at(
    alloc: Global,
    text: &[u8],
    token: Token,
    depth: usize,
) -> Result<(Expr, Token), ExprFault>
    requires bounded { depth ≤ most_nesting }
    requires token { IsToken text.now token }
    ensures read { IfOk result (λ r. IsRead _ _ expr_view text.now token r
        (relation_of (deeper depth) (tokens_at text.now token))) }
    ensures refused { IfErr result (λ e. IsRefused _ text.now e
        (relation_of (deeper depth) (tokens_at text.now token))) }
{
    let (left, sign) = operand_at(alloc, text, token, depth)?;
    if sign.sort == Sort::Is {
        return tested(alloc, text, left, sign);
    }
    let Some((relation, first)) = relation_behind(text, sign)? else {
        return Ok((left, sign));
    };
    let (right, after) = operand_at(alloc, text, first, depth)?;
    Ok((related(alloc, relation, left, right)?, after))
}

// An operand with the filters behind it, and the token after them.
#[cycle(parser)]
fn operand_at(
    alloc: Global,
    text: &[u8],
    token: Token,
    depth: usize,
) -> Result<(Expr, Token), ExprFault>
    requires bounded { depth ≤ most_nesting }
    requires token { IsToken text.now token }
    ensures read { IfOk result (λ r. IsRead _ _ expr_view text.now token r
        (operand_of (deeper depth) (tokens_at text.now token))) }
    ensures refused { IfErr result (λ e. IsRefused _ text.now e
        (operand_of (deeper depth) (tokens_at text.now token))) }
{
    let (mut operand, mut after) = bare_operand_at(alloc, text, token, depth)?;
    'filters: while after.sort == Sort::Pipe {
        let name = token_at(text, after.end)?;
        let (value, next) = filter_at(alloc, text, operand, name, depth)?;
        operand = value;
        after = next;
    }
    Ok((operand, after))
}

// A value with the filter that the token names, and the token after it.
#[cycle(parser)]
fn filter_at(
    alloc: Global,
    text: &[u8],
    value: Expr,
    token: Token,
    depth: usize,
) -> Result<(Expr, Token), ExprFault>
    requires bounded { depth ≤ most_nesting }
    requires token { IsToken text.now token }
    ensures read { IfOk result (λ r. IsRead _ _ expr_view text.now token r
        (grammar.filter_of (deeper depth) (expr_view value) (tokens_at text.now token))) }
    ensures refused { IfErr result (λ e. IsRefused _ text.now e
        (grammar.filter_of (deeper depth) (expr_view value) (tokens_at text.now token))) }
{
    let filter = filter_named(text, token)?;
    let open = token_at(text, token.end)?;
    if open.sort != Sort::Open {
        let Some(filtered) = filtered(alloc, filter, value)? else {
            return Err(ExprFault::Unreadable { at: open.start });
        };
        return Ok((filtered, open));
    }
    if filter == Filter::Length {
        return Err(ExprFault::Unreadable { at: open.start });
    }
    let (given, after) = inside(alloc, text, open, depth)?;
    let Some(filtered) = filtered_with(alloc, filter, value, given)? else {
        return Err(ExprFault::Unreadable { at: open.start });
    };
    Ok((filtered, after))
}

// The filter that a token names.
fn filter_named(text: &[u8], token: Token) -> Result<Filter, ExprFault>
    requires token { IsToken text.now token }
    ensures name { IfOk result (λ _. token.sort ≡ Sort.Name) }
    ensures named { IfOk result (λ f. letters_at text.now token ≡ filter_name f) }
    ensures refused { IfErr result (λ e. (d : Deeper) (a : Expression) → IsRefused _ text.now e
        (grammar.filter_of d a (tokens_at text.now token))) }
{
    if token.sort != Sort::Name {
        return Err(ExprFault::Unreadable { at: token.start });
    }
    match filter_of(&text[token.start..token.end]) {
        Some(filter) => Ok(filter),
        None => Err(ExprFault::Unreadable { at: token.start }),
    }
}

// A literal, a path, a list or an expression in parentheses, whatever stands behind it.
#[cycle(parser)]
fn bare_operand_at(
    alloc: Global,
    text: &[u8],
    token: Token,
    depth: usize,
) -> Result<(Expr, Token), ExprFault>
    requires bounded { depth ≤ most_nesting }
    requires token { IsToken text.now token }
    ensures read { IfOk result (λ r. IsRead _ _ expr_view text.now token r
        (grammar.operand_at (deeper depth) (tokens_at text.now token))) }
    ensures refused { IfErr result (λ e. IsRefused _ text.now e
        (grammar.operand_at (deeper depth) (tokens_at text.now token))) }
{
    match token.sort {
        Sort::Open => inside(alloc, text, token, depth),
        Sort::OpenBracket => list_at(alloc, text, token, depth),
        Sort::Name => path_at(alloc, text, token),
        _ => literal_at(alloc, text, token),
    }
}

// What stands in the parentheses that the token opens.
#[cycle(parser)]
fn inside(
    alloc: Global,
    text: &[u8],
    token: Token,
    depth: usize,
) -> Result<(Expr, Token), ExprFault>
    requires bounded { depth ≤ most_nesting }
    requires token { IsToken text.now token }
    ensures read { IfOk result (λ r. IsRead _ _ expr_view text.now token r
        (closed ((deeper depth).whole (tokens_of (drop token.end text.now))))) }
    ensures refused { IfErr result (λ e. IsRefused _ text.now e
        (closed ((deeper depth).whole (tokens_of (drop token.end text.now))))) }
{
    if depth == 0 {
        return Err(ExprFault::TooDeep);
    }
    let (expr, close) = or_at(alloc, text, token_at(text, token.end)?, depth - 1)?;
    Ok((expr, token_behind(text, close, Sort::Close)?))
}

// The list that the token opens.
#[cycle(parser)]
fn list_at(
    alloc: Global,
    text: &[u8],
    token: Token,
    depth: usize,
) -> Result<(Expr, Token), ExprFault>
    requires bounded { depth ≤ most_nesting }
    requires token { IsToken text.now token }
    ensures read { IfOk result (λ r. IsRead _ _ expr_view text.now token r
        (with_tree (λ es. tree.list_of es)
        ((deeper depth).items (tokens_of (drop token.end text.now))))) }
    ensures refused { IfErr result (λ e. IsRefused _ text.now e
        (with_tree (λ es. tree.list_of es)
        ((deeper depth).items (tokens_of (drop token.end text.now))))) }
{
    if depth == 0 {
        return Err(ExprFault::TooDeep);
    }
    let (items, after) = items_at(alloc, text, token_at(text, token.end)?, depth - 1)?;
    Ok((Expr::List(items), after))
}

// The items from the token on and the `]` behind them, and the token after it.
#[cycle(parser)]
fn items_at(
    alloc: Global,
    text: &[u8],
    token: Token,
    depth: usize,
) -> Result<(Vec<Expr>, Token), ExprFault>
    requires bounded { depth ≤ most_nesting }
    requires token { IsToken text.now token }
    ensures read { IfOk result (λ r. IsRead _ _ (λ v. exprs_view v.items) text.now token r
        (grammar.items_of (disjunction_of (deeper depth)) (tokens_at text.now token))) }
    ensures refused { IfErr result (λ e. IsRefused _ text.now e
        (grammar.items_of (disjunction_of (deeper depth)) (tokens_at text.now token))) }
{
    if token.sort == Sort::CloseBracket {
        return Ok((Vec::new(alloc), token_at(text, token.end)?));
    }
    let (items, close) = chain_at(alloc, text, token, depth, Link::Comma)?;
    Ok((items, token_behind(text, close, Sort::CloseBracket)?))
}
