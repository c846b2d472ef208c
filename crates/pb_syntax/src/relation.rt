// What relates two operands.
ghost use Rattle.std.specs.Prelude.{◌≡◌, ◌≤◌, IfErr, IfOk, IfSome, option_map};
ghost use Rattle.pb_language.specs.Expression.{Expression, comparison as comparison_tree, literal};
ghost use Rattle.pb_language.specs.Expression.{membership, path as path_tree};
ghost use Rattle.pb_language.specs.Grammar.{Deeper, operand_of, related as related_tree};
ghost use Rattle.pb_language.specs.Grammar as grammar;
ghost use Rattle.pb_value.specs.Words.{view};
ghost use Rattle.pb_syntax.specs.ExprView.{comparison_view, expr_view, names_of, root_view};
ghost use Rattle.pb_syntax.specs.ExprView.{term_view};
ghost use Rattle.pb_syntax.specs.Forms.{related_by};
ghost use Rattle.pb_syntax.specs.Letters.{tokens_at};
ghost use Rattle.pb_syntax.specs.Lexed.{IsToken};
ghost use Rattle.pb_syntax.specs.Reads.{IsRefused, read_on};

use crate::expr::{Comparison, Expr, Member, Path, Root, Term};
use crate::fault::ExprFault;
use crate::lexer::{Sort, Token, token_at};
use crate::path::term_named;
use pb_value::Value;
use std::alloc::{AllocError, Global};

/// The sign that the token begins, where it relates two operands, and the token behind the sign.
pub fn relation_behind(text: &[u8], sign: Token) -> Result<Option<(Sort, Token)>, ExprFault>
    requires token { IsToken text.now sign }
    requires other { sign.sort ≡ Sort.Is → ⊥ }
    ensures next { IfOk result (λ r. IfSome r (λ s.
        (sign.start ≤ s.1.start) × IsToken text.now s.1)) }
    ensures read { IfOk result (λ r. (a : Expression) (d : Deeper) →
        related_tree (operand_of d) a (tokens_at text.now sign)
        ≡ read_on text.now sign r a (operand_of d)) }
    ensures refused { IfErr result (λ e. (a : Expression) (d : Deeper) → IsRefused _ text.now e
        (related_tree (operand_of d) a (tokens_at text.now sign))) }
{
    match sign.sort {
        Sort::Equal | Sort::Unequal | Sort::In => {
            Ok(Some((sign.sort, token_at(text, sign.end)?)))
        }
        Sort::Less | Sort::AtMost | Sort::More | Sort::AtLeast => {
            Ok(Some((sign.sort, token_at(text, sign.end)?)))
        }
        Sort::Not => {
            let word = token_at(text, sign.end)?;
            if word.sort != Sort::In {
                return Err(ExprFault::Unreadable { at: word.start });
            }
            Ok(Some((sign.sort, token_at(text, word.end)?)))
        }
        _ => Ok(None),
    }
}

/// Two operands with what relates them.
pub fn related(alloc: Global, sort: Sort, left: Expr, right: Expr) -> Result<Expr, AllocError>
    ensures { IfOk result (λ e.
        expr_view e ≡ related_by sort (expr_view left) (expr_view right)) }
{
    match sort {
        Sort::Equal => compared(alloc, Comparison::Equal, left, right),
        Sort::Unequal => {
            let equal = compared(alloc, Comparison::Equal, left, right)?;
            Ok(Expr::Not(Box::new(alloc, equal)?))
        }
        Sort::Less => compared(alloc, Comparison::Less, left, right),
        Sort::AtMost => compared(alloc, Comparison::AtMost, left, right),
        Sort::More => compared(alloc, Comparison::More, left, right),
        Sort::AtLeast => compared(alloc, Comparison::AtLeast, left, right),
        Sort::Not => {
            let contained = contained(alloc, left, right)?;
            Ok(Expr::Not(Box::new(alloc, contained)?))
        }
        _ => contained(alloc, left, right),
    }
}

fn compared(
    alloc: Global,
    comparison: Comparison,
    left: Expr,
    right: Expr,
) -> Result<Expr, AllocError>
    ensures { IfOk result (λ e. expr_view e
        ≡ comparison_tree (comparison_view comparison) (expr_view left) (expr_view right)) }
{
    let left = Box::new(alloc, left)?;
    let right = Box::new(alloc, right)?;
    Ok(Expr::Compare(comparison, left, right))
}

// `left in right`: whether a host is in the batch, where `left` names one and `right` is the batch.
fn contained(alloc: Global, left: Expr, right: Expr) -> Result<Expr, AllocError>
    ensures { IfOk result (λ e.
        expr_view e ≡ grammar.contained (expr_view left) (expr_view right)) }
{
    let host = host_of(alloc, &left)?;
    let is_batch = is_batch(&right);
    let Some(term) = host else {
        return member_of(alloc, left, right);
    };
    if is_batch {
        return Ok(Expr::InBatch(term));
    }
    member_of(alloc, left, right)
}

fn member_of(alloc: Global, left: Expr, right: Expr) -> Result<Expr, AllocError>
    ensures { IfOk result (λ e. expr_view e ≡ membership (expr_view left) (expr_view right)) }
{
    let left = Box::new(alloc, left)?;
    let right = Box::new(alloc, right)?;
    Ok(Expr::In(left, right))
}

// The host that an expression names.
fn host_of(alloc: Global, expr: &Expr) -> Result<Option<Term>, AllocError>
    ensures { IfOk result (λ t. option_map term_view t ≡ grammar.host_of (expr_view expr.now)) }
{
    match expr {
        Expr::Literal(value) => text_host(alloc, value),
        Expr::Path(path) => path_host(alloc, path),
        Expr::Hostvars(_) | Expr::Not(_) | Expr::And(_) | Expr::Or(_) => Ok(None),
        Expr::Compare(_, _, _) | Expr::In(_, _) | Expr::InBatch(_) => Ok(None),
        Expr::Defined(_) | Expr::Undefinable(_) | Expr::PathStatus(_, _) => Ok(None),
        Expr::Status(_, _) | Expr::PathOr(_, _) | Expr::ValueOr(_, _) => Ok(None),
        Expr::Length(_) | Expr::Join(_, _) | Expr::Concat(_) => Ok(None),
        Expr::List(_) | Expr::Record(_) => Ok(None),
    }
}

fn text_host(alloc: Global, value: &Value) -> Result<Option<Term>, AllocError>
    ensures { IfOk result (λ t.
        option_map term_view t ≡ grammar.host_of (literal (view value.now))) }
{
    match value {
        Value::Text(name) => Ok(Some(Term::Named(String::from_str(alloc, name.as_str())?))),
        Value::Null | Value::Bool(_) | Value::Int(_) => Ok(None),
        Value::List(_) | Value::Rec(_) | Value::Opaque => Ok(None),
    }
}

fn path_host(alloc: Global, path: &Path) -> Result<Option<Term>, AllocError>
    ensures { IfOk result (λ t. option_map term_view t
        ≡ grammar.path_host (root_view path.now.root) (names_of path.now.steps.items)) }
{
    if !path.steps.is_empty() {
        return Ok(None);
    }
    match &path.root {
        Root::Variable(name) => Ok(term_named(name.as_bytes())),
        Root::Other(_, _) => Ok(None),
        Root::Member(member) => {
            let group = String::from_str(alloc, member.group.as_str())?;
            Ok(Some(Term::Member(Member {
                group,
                place: member.place,
            })))
        }
    }
}

// Whether an expression is `ansible_play_batch`.
fn is_batch(expr: &Expr) -> bool
    ensures { result ≡ grammar.is_batch (expr_view expr.now) }
{
    match expr {
        Expr::Path(path) => is_batch_path(path),
        Expr::Literal(_) => false,
        Expr::Hostvars(_) | Expr::Not(_) | Expr::And(_) | Expr::Or(_) => false,
        Expr::Compare(_, _, _) | Expr::In(_, _) | Expr::InBatch(_) => false,
        Expr::Defined(_) | Expr::Undefinable(_) | Expr::PathStatus(_, _) => false,
        Expr::Status(_, _) | Expr::PathOr(_, _) | Expr::ValueOr(_, _) => false,
        Expr::Length(_) | Expr::Join(_, _) | Expr::Concat(_) => false,
        Expr::List(_) | Expr::Record(_) => false,
    }
}

fn is_batch_path(path: &Path) -> bool
    ensures { result ≡ grammar.is_batch
        (path_tree (root_view path.now.root) (names_of path.now.steps.items)) }
{
    if !path.steps.is_empty() {
        return false;
    }
    match &path.root {
        Root::Variable(name) => name.as_bytes() == b"ansible_play_batch".as_slice(),
        Root::Other(_, _) | Root::Member(_) => false,
    }
}
