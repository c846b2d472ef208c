// What is found of an expression: its kind and its first fault.
ghost use Rattle.std.specs.Prelude.{◌≡◌, IfOk, None, OnOk, option_map};
ghost use Rattle.pb_semantics.specs.Words.{booleans, recs};
ghost use Rattle.pb_language.specs.Expression.{path as read, path_or};
ghost use Rattle.pb_language.specs.Expansion.{all_expanded, expanded, expanded_root};
ghost use Rattle.pb_language.specs.Expansion.{parts_expanded};
ghost use Rattle.pb_language.specs.Fit.{read_fault, tested_fault};
ghost use Rattle.pb_language.specs.Kinds.{root_spot};
ghost use Rattle.pb_language.specs.Words.{are_booleans, asks, chain_fault, fault, fields_fault};
ghost use Rattle.pb_language.specs.Words.{first, kind_of as kind_found, parts_slots, wrong_kind};
ghost use Rattle.pb_kind.specs.Words.{kind_view, slot_given};
ghost use Rattle.pb_syntax.specs.ExprView.{expr_view, exprs_view, names_of, parts_view};
ghost use Rattle.pb_syntax.specs.ExprView.{root_view};
ghost use Rattle.pb_forms.specs.FitView.{fault_view};
ghost use Rattle.pb_expr.specs.Found.{AreFound, IsRight};
ghost use Rattle.pb_forms.specs.InferredView.{fault_in};
ghost use Rattle.pb_taught.specs.TaughtView.{alias_tree, scope_view};

use crate::asked::{Asked, Here, Inquiry};
use crate::leaves::{fit, in_batch_unfit, of_path, path_or_else, unfit};
use crate::narrow::any_teaches;
use crate::narrowing::narrow_here;
use crate::roots::{AtRoot, alias_of, at_root};
use pb_forms::forms;
use pb_forms::inferred::{Inferred, found_copied};
use pb_forms::literal::{literal_kind, put_certain};
use pb_forms::unfit::{Unfit, first_of};
use pb_kind::Kind;
use pb_syntax::{Expr, Path, Root};
use pb_taught::known::Known;
use pb_taught::scope::Taught;
use std::alloc::{AllocError, Global};
use std::collections::BTreeMap;

// What is found of an expression by what is known of variables and what tests have taught.
#[cycle(infer)]
pub(crate) fn infer<K: Known>(
    alloc: Global,
    expr: &Expr,
    inquiry: &Inquiry<'_, K>,
    taught: &Taught,
    asked: &mut Asked,
) -> Result<Inferred, AllocError>
    requires { IsRight (K.before inquiry.now.known.now) taught.now asked.old }
    ensures kind { let b = K.before inquiry.now.known.now in
        IfOk result (λ f. kind_view f.kind
        ≡ kind_found (scope_view b taught.now) (expanded b.trees (expr_view expr.now))) }
    ensures fault { let b = K.before inquiry.now.known.now in
        IfOk result (λ f. fault_in f
        ≡ fault (scope_view b taught.now) (expanded b.trees (expr_view expr.now))) }
    ensures right { OnOk result
        (IsRight (K.before inquiry.now.known.now) taught.now asked.new) }
{
    match expr {
        Expr::Literal(value) => fit(literal_kind(alloc, value)?),
        Expr::Path(path) => infer_path(alloc, path, inquiry, taught, asked),
        Expr::Hostvars(_) => unfit(Kind::Never, Some(Unfit::WrongKind)),
        Expr::Not(of) => Ok(forms::negation(infer(alloc, of, inquiry, taught, asked)?)),
        Expr::And(operands) => of_operands(alloc, operands, true, inquiry, taught, asked),
        Expr::Or(operands) => of_operands(alloc, operands, false, inquiry, taught, asked),
        Expr::Compare(comparison, left, right) => {
            let operands = infer_both(alloc, left, right, inquiry, taught, asked)?;
            Ok(forms::comparison(*comparison, operands))
        }
        Expr::In(part, whole) => {
            Ok(forms::membership(infer_both(alloc, part, whole, inquiry, taught, asked)?))
        }
        Expr::InBatch(term) => unfit(Kind::Bool, in_batch_unfit(inquiry.known, taught, term)),
        Expr::Defined(path) => {
            let at = at_path(alloc, path, inquiry, taught, asked)?;
            unfit(Kind::Bool, at.tested)
        }
        Expr::Undefinable(of) => Ok(forms::undefinable(infer(alloc, of, inquiry, taught, asked)?)),
        Expr::PathStatus(_, path) => {
            Ok(forms::status(infer_path(alloc, path, inquiry, taught, asked)?))
        }
        Expr::Status(_, of) => Ok(forms::status(infer(alloc, of, inquiry, taught, asked)?)),
        Expr::PathOr(path, other) => of_path_or(alloc, path, other, inquiry, taught, asked),
        Expr::ValueOr(value, other) => {
            Ok(forms::value_or(infer_both(alloc, value, other, inquiry, taught, asked)?))
        }
        Expr::Length(of) => Ok(forms::length(infer(alloc, of, inquiry, taught, asked)?)),
        Expr::Join(items, between) => {
            Ok(forms::joined(infer_both(alloc, items, between, inquiry, taught, asked)?))
        }
        Expr::Concat(parts) => Ok(forms::texts(&infer_each(alloc, parts, inquiry, taught, asked)?)),
        Expr::List(items) => {
            forms::items(alloc, &infer_each(alloc, items, inquiry, taught, asked)?)
        }
        Expr::Record(fields) => of_fields(alloc, fields, inquiry, taught, asked),
    }
}

// What is found of the tree of a root that is a name of `vars`, where the root is one.
#[cycle(infer)]
pub(crate) fn of_alias<K: Known>(
    alloc: Global,
    root: &Root,
    inquiry: &Inquiry<'_, K>,
    taught: &Taught,
    asked: &mut Asked,
) -> Result<Option<Inferred>, AllocError>
    requires { IsRight (K.before inquiry.now.known.now) taught.now asked.old }
    ensures kind { let b = K.before inquiry.now.known.now in
        IfOk result (λ a. option_map (λ i. kind_view i.kind) a
        ≡ option_map (kind_found (scope_view b taught.now))
        (alias_tree (expanded_root b.trees (root_view root.now)))) }
    ensures fault { let b = K.before inquiry.now.known.now in
        IfOk result (λ a. option_map fault_in a
        ≡ option_map (fault (scope_view b taught.now))
        (alias_tree (expanded_root b.trees (root_view root.now)))) }
    ensures right { OnOk result
        (IsRight (K.before inquiry.now.known.now) taught.now asked.new) }
{
    let Some((name, tree)) = alias_of(inquiry.known, root) else {
        return Ok(None);
    };
    if let Some(found) = asked.find(name.as_str()) {
        return Ok(Some(found_copied(found)?));
    }
    let deeper = inquiry.deeper()?;
    let found = infer(alloc, tree, &deeper, taught, asked)?;
    asked.put(name, &found)?;
    Ok(Some(found))
}

// That of the root of the path, whose tree is asked where it is a name of `vars`.
#[cycle(infer)]
fn at_path<K: Known>(
    alloc: Global,
    path: &Path,
    inquiry: &Inquiry<'_, K>,
    taught: &Taught,
    asked: &mut Asked,
) -> Result<AtRoot, AllocError>
    requires { IsRight (K.before inquiry.now.known.now) taught.now asked.old }
    ensures slot { let b = K.before inquiry.now.known.now in
        IfOk result (λ a. slot_given a.slot ≡ root_spot (scope_view b taught.now)
        (expanded_root b.trees (root_view path.now.root))) }
    ensures read { let b = K.before inquiry.now.known.now in
        IfOk result (λ a. option_map fault_view a.read ≡ read_fault (scope_view b taught.now)
        (expanded_root b.trees (root_view path.now.root))) }
    ensures tested { let b = K.before inquiry.now.known.now in
        IfOk result (λ a. option_map fault_view a.tested ≡ tested_fault (scope_view b taught.now)
        (expanded_root b.trees (root_view path.now.root))) }
    ensures right { OnOk result
        (IsRight (K.before inquiry.now.known.now) taught.now asked.new) }
{
    let alias = of_alias(alloc, &path.root, inquiry, taught, asked)?;
    at_root(alloc, &path.root, inquiry.known, taught, alias)
}

#[cycle(infer)]
fn infer_path<K: Known>(
    alloc: Global,
    path: &Path,
    inquiry: &Inquiry<'_, K>,
    taught: &Taught,
    asked: &mut Asked,
) -> Result<Inferred, AllocError>
    requires { IsRight (K.before inquiry.now.known.now) taught.now asked.old }
    ensures kind { let b = K.before inquiry.now.known.now in
        let r = expanded_root b.trees (root_view path.now.root) in
        IfOk result (λ f. kind_view f.kind
        ≡ kind_found (scope_view b taught.now) (read r (names_of path.now.steps.items))) }
    ensures fault { let b = K.before inquiry.now.known.now in
        let r = expanded_root b.trees (root_view path.now.root) in
        IfOk result (λ f. fault_in f
        ≡ fault (scope_view b taught.now) (read r (names_of path.now.steps.items))) }
    ensures right { OnOk result
        (IsRight (K.before inquiry.now.known.now) taught.now asked.new) }
{
    let at = at_path(alloc, path, inquiry, taught, asked)?;
    of_path(path, inquiry.known, taught, at)
}

// What is found of one operand, and then of the other.
#[cycle(infer)]
fn infer_both<K: Known>(
    alloc: Global,
    one: &Expr,
    other: &Expr,
    inquiry: &Inquiry<'_, K>,
    taught: &Taught,
    asked: &mut Asked,
) -> Result<(Inferred, Inferred), AllocError>
    requires { IsRight (K.before inquiry.now.known.now) taught.now asked.old }
    ensures kind { let b = K.before inquiry.now.known.now in
        IfOk result (λ f. kind_view f.0.kind
        ≡ kind_found (scope_view b taught.now) (expanded b.trees (expr_view one.now))) }
    ensures fault { let b = K.before inquiry.now.known.now in
        IfOk result (λ f. fault_in f.0
        ≡ fault (scope_view b taught.now) (expanded b.trees (expr_view one.now))) }
    ensures other_kind { let b = K.before inquiry.now.known.now in
        IfOk result (λ f. kind_view f.1.kind
        ≡ kind_found (scope_view b taught.now) (expanded b.trees (expr_view other.now))) }
    ensures other_fault { let b = K.before inquiry.now.known.now in
        IfOk result (λ f. fault_in f.1
        ≡ fault (scope_view b taught.now) (expanded b.trees (expr_view other.now))) }
    ensures right { OnOk result
        (IsRight (K.before inquiry.now.known.now) taught.now asked.new) }
{
    let one = infer(alloc, one, inquiry, taught, asked)?;
    let other = infer(alloc, other, inquiry, taught, asked)?;
    Ok((one, other))
}

#[cycle(infer)]
fn infer_each<K: Known>(
    alloc: Global,
    exprs: &[Expr],
    inquiry: &Inquiry<'_, K>,
    taught: &Taught,
    asked: &mut Asked,
) -> Result<Vec<Inferred>, AllocError>
    requires { IsRight (K.before inquiry.now.known.now) taught.now asked.old }
    ensures found { let b = K.before inquiry.now.known.now in
        IfOk result (λ is. AreFound (scope_view b taught.now)
        (all_expanded b.trees (exprs_view exprs.now)) is.items) }
    ensures right { OnOk result
        (IsRight (K.before inquiry.now.known.now) taught.now asked.new) }
{
    let mut all = Vec::new(alloc);
    for expr in exprs {
        let found = infer(alloc, expr, inquiry, taught, asked)?;
        all.push(found)?;
    }
    Ok(all)
}

// Of a chain in which each operand is asked where those before it had that answer.
#[cycle(infer)]
fn of_operands<K: Known>(
    alloc: Global,
    operands: &[Expr],
    answer: bool,
    inquiry: &Inquiry<'_, K>,
    taught: &Taught,
    asked: &mut Asked,
) -> Result<Inferred, AllocError>
    requires { IsRight (K.before inquiry.now.known.now) taught.now asked.old }
    ensures kind { IfOk result (λ f. kind_view f.kind ≡ booleans) }
    ensures fault { let b = K.before inquiry.now.known.now in
        let c = scope_view b taught.now in
        let es = all_expanded b.trees (exprs_view operands.now) in
        IfOk result (λ f. fault_in f
        ≡ first (chain_fault c es answer) (asks wrong_kind (are_booleans c es answer))) }
    ensures right { OnOk result
        (IsRight (K.before inquiry.now.known.now) taught.now asked.new) }
{
    if any_teaches(operands) {
        let here = Here::copy(alloc, taught, asked)?;
        of_chain(alloc, operands, answer, inquiry, here)
    } else {
        Ok(forms::truths(&infer_each(alloc, operands, inquiry, taught, asked)?))
    }
}

#[cycle(infer)]
fn of_chain<K: Known>(
    alloc: Global,
    operands: &[Expr],
    answer: bool,
    inquiry: &Inquiry<'_, K>,
    before: Here,
) -> Result<Inferred, AllocError>
    requires { IsRight (K.before inquiry.now.known.now) before.taught before.asked }
    ensures kind { IfOk result (λ f. kind_view f.kind ≡ booleans) }
    ensures fault { let b = K.before inquiry.now.known.now in
        let c = scope_view b before.taught in
        let es = all_expanded b.trees (exprs_view operands.now) in
        IfOk result (λ f. fault_in f
        ≡ first (chain_fault c es answer) (asks wrong_kind (are_booleans c es answer))) }
{
    let mut here = before;
    let mut unfit = None;
    let mut are_bool = true;
    for operand in operands {
        let found = infer(alloc, operand, inquiry, &here.taught, &mut here.asked)?;
        unfit = first_of(unfit, found.unfit);
        are_bool = are_bool & found.kind.is_bool();
        here = narrow_here(alloc, operand, answer, inquiry, here)?;
    }
    Ok(forms::asked(unfit, are_bool, Kind::Bool))
}

#[cycle(infer)]
fn of_fields<K: Known>(
    alloc: Global,
    fields: &BTreeMap<String, Expr>,
    inquiry: &Inquiry<'_, K>,
    taught: &Taught,
    asked: &mut Asked,
) -> Result<Inferred, AllocError>
    requires { IsRight (K.before inquiry.now.known.now) taught.now asked.old }
    ensures kind { let b = K.before inquiry.now.known.now in
        IfOk result (λ f. kind_view f.kind ≡ recs (parts_slots (scope_view b taught.now)
        (parts_expanded b.trees (parts_view fields.now.entries)))) }
    ensures fault { let b = K.before inquiry.now.known.now in
        IfOk result (λ f. fault_in f ≡ fields_fault (scope_view b taught.now)
        (parts_expanded b.trees (parts_view fields.now.entries))) }
    ensures right { OnOk result
        (IsRight (K.before inquiry.now.known.now) taught.now asked.new) }
{
    let mut kinds = BTreeMap::new(alloc);
    let mut unfit = None;
    for (name, field) in fields.iter() {
        let found = forms::not_any(infer(alloc, field, inquiry, taught, asked)?);
        unfit = first_of(unfit, found.unfit);
        put_certain(&mut kinds, name, found.kind)?;
    }
    let kind = Kind::of_slots(alloc, kinds)?;
    Ok(Inferred { kind, unfit })
}

// Of the value at the end of the path, or of the other where there may be none.
#[cycle(infer)]
fn of_path_or<K: Known>(
    alloc: Global,
    path: &Path,
    other: &Expr,
    inquiry: &Inquiry<'_, K>,
    taught: &Taught,
    asked: &mut Asked,
) -> Result<Inferred, AllocError>
    requires { IsRight (K.before inquiry.now.known.now) taught.now asked.old }
    ensures kind { let b = K.before inquiry.now.known.now in
        let r = expanded_root b.trees (root_view path.now.root) in
        let e = expanded b.trees (expr_view other.now) in
        IfOk result (λ f. kind_view f.kind ≡ kind_found (scope_view b taught.now)
        (path_or r (names_of path.now.steps.items) e)) }
    ensures fault { let b = K.before inquiry.now.known.now in
        let r = expanded_root b.trees (root_view path.now.root) in
        let e = expanded b.trees (expr_view other.now) in
        IfOk result (λ f. fault_in f ≡ fault (scope_view b taught.now)
        (path_or r (names_of path.now.steps.items) e)) }
    ensures right { OnOk result
        (IsRight (K.before inquiry.now.known.now) taught.now asked.new) }
{
    let at = at_path(alloc, path, inquiry, taught, asked)?;
    let other = forms::not_any(infer(alloc, other, inquiry, taught, asked)?);
    path_or_else(alloc, path, inquiry.known, taught, at, other)
}
