// What the answer of a test teaches of what is known.
ghost use Rattle.std.specs.Prelude.{[], ◌++◌, ◌∷◌, ◌≡◌, IfOk, option_map};
ghost use Rattle.pb_language.specs.Expansion.{all_expanded, expanded, expanded_root};
ghost use Rattle.pb_language.specs.Kinds.{kind_of};
ghost use Rattle.pb_language.specs.Narrow.{answers, any_teaches, cases_with, changed_at};
ghost use Rattle.pb_language.specs.Narrow.{changed_spot, narrow, on_results, teach, teach_active};
ghost use Rattle.pb_language.specs.Narrow.{teach_present, teaches};
ghost use Rattle.pb_language.specs.Scope.{resolved, resolved_term};
ghost use Rattle.pb_kind.specs.Words.{kind_view};
ghost use Rattle.pb_syntax.specs.ExprView.{expr_view, exprs_view, names_of, root_view};
ghost use Rattle.pb_syntax.specs.ExprView.{status_view, term_view};
ghost use Rattle.pb_syntax.specs.Aliases.{Trees};
ghost use Rattle.pb_taught.specs.Before.{Before};
ghost use Rattle.pb_taught.specs.TaughtView.{alias_tree};
ghost use Rattle.pb_taught.specs.TaughtView.{scope_view, scopes_view, taught_by};

use crate::asked::{all_turns, here_anew, inquiry_of};
use crate::change::{Change, teach};
use crate::narrowing::narrow_here;
use pb_forms::inferred::Inferred;
use pb_syntax::{Expr, Path, Root, Status, Term, names_copied};
use pb_taught::known::Known;
use pb_taught::scope::{Taught, both};
use std::alloc::{AllocError, Global};
use std::sync::Arc;

/// What tests have taught once the expression, too, had that answer.
///
/// Each operand of a chain is asked only where those before it had their answer, and of several
/// ways to an answer only what all of them teach is known.
///
/// # Errors
///
/// Want of memory, also where a chain of names of `vars` has more than 8 of them, and past 65,536
/// trees of such names that are asked.
pub fn narrow<K: Known>(
    alloc: Global,
    expr: &Expr,
    answer: bool,
    known: &K,
    taught: Taught,
) -> Result<Taught, AllocError>
    ensures { let b = K.before known.now in
        IfOk result (λ t. scope_view b t
        ≡ narrow (scope_view b taught) (expanded b.trees (expr_view expr.now)) answer) }
{
    let turns = all_turns();
    let inquiry = inquiry_of(known, &turns);
    let here = narrow_here(alloc, expr, answer, &inquiry, here_anew(alloc, taught))?;
    Ok(here.taught)
}

// What all ways teach; where there is no way, what was taught before.
pub(crate) fn taught_by_all(
    alloc: Global,
    ways: Vec<Taught>,
    before: Taught,
) -> Result<Taught, AllocError>
    ensures { IfOk result (λ t. (b : Before) → scope_view b t
        ≡ taught_by (scopes_view b ways.items) (scope_view b before)) }
{
    let mut ways = ways;
    let Some(last) = ways.pop() else {
        return Ok(before);
    };
    taught_by_each(alloc, ways, last)
}

// What the last way and all before it teach.
fn taught_by_each(alloc: Global, before: Vec<Taught>, last: Taught) -> Result<Taught, AllocError>
    ensures { IfOk result (λ t. (b : Before) → let c = scope_view b last in
        scope_view b t ≡ taught_by (scopes_view b before.items ++ c ∷ []) c) }
{
    let mut ways = before;
    let mut all = last;
    while let Some(way) = ways.pop() {
        all = both(alloc, &way, &all)?;
    }
    Ok(all)
}

// Whether the answer of the expression may teach something.
#[cycle(teaches)]
fn teaches(expr: &Expr) -> bool
    ensures { (f : Trees) → result ≡ teaches (expanded f (expr_view expr.now)) }
{
    match expr {
        Expr::Not(operand) => teaches(operand),
        Expr::And(operands) | Expr::Or(operands) => any_teaches(operands),
        Expr::InBatch(_) | Expr::Defined(_) | Expr::PathStatus(_, _) => true,
        Expr::Hostvars(_) => false,
        Expr::Literal(_) | Expr::Path(_) | Expr::Compare(_, _, _) | Expr::In(_, _) => false,
        Expr::Undefinable(_) | Expr::Status(_, _) | Expr::PathOr(_, _) => false,
        Expr::ValueOr(_, _) | Expr::Length(_) | Expr::Join(_, _) => false,
        Expr::Concat(_) | Expr::List(_) | Expr::Record(_) => false,
    }
}

#[cycle(teaches)]
pub(crate) fn any_teaches(operands: &[Expr]) -> bool
    ensures { (f : Trees) → result ≡ any_teaches (all_expanded f (exprs_view operands.now)) }
{
    for operand in operands {
        if teaches(operand) {
            return true;
        }
    }
    false
}

// The test of a status at the end of the path had that answer; what was found of the root's tree is
// given where it is a name of `vars`.
pub(crate) fn show_status<K: Known>(
    alloc: Global,
    test: (Status, bool),
    path: &Path,
    known: &K,
    taught: Taught,
    alias: Option<Inferred>,
) -> Result<Taught, AllocError>
    requires { let b = K.before known.now in
        option_map (λ i. kind_view i.kind) alias ≡ option_map (kind_of (scope_view b taught))
        (alias_tree (expanded_root b.trees (root_view path.now.root))) }
    ensures { let b = K.before known.now in
        IfOk result (λ t. scope_view b t ≡ teach (scope_view b taught)
        (changed_spot (changed_at (names_of path.now.steps.items)
        (on_results (cases_with (answers (status_view test.0) test.1)))))
        (expanded_root b.trees (root_view path.now.root))) }
{
    teach(
        alloc,
        Change::Answered(test.0, test.1),
        path,
        known,
        taught,
        alias,
    )
}

// The path was tested to be there.
pub(crate) fn show<K: Known>(
    alloc: Global,
    path: &Path,
    known: &K,
    taught: Taught,
    alias: Option<Inferred>,
) -> Result<Taught, AllocError>
    requires { let b = K.before known.now in
        option_map (λ i. kind_view i.kind) alias ≡ option_map (kind_of (scope_view b taught))
        (alias_tree (expanded_root b.trees (root_view path.now.root))) }
    ensures { let b = K.before known.now in
        IfOk result (λ t. scope_view b t ≡ teach_present (scope_view b taught)
        (expanded_root b.trees (root_view path.now.root)) (names_of path.now.steps.items)) }
{
    let taught = teach(alloc, Change::There, path, known, taught, alias)?;
    add_shown(alloc, path, known, taught)
}

// The path is the last one that was tested to be there.
fn add_shown<K: Known>(
    alloc: Global,
    path: &Path,
    known: &K,
    taught: Taught,
) -> Result<Taught, AllocError>
    ensures { let b = K.before known.now in
        let c = scope_view b taught in
        let r = expanded_root b.trees (root_view path.now.root) in
        let ns = names_of path.now.steps.items in
        IfOk result (λ t. scope_view b t
        ≡ record c { present = record { root = resolved b.scope r; steps = ns } ∷ c.present }) }
{
    let shown = Arc::new(alloc, shown_path(alloc, path, known)?)?;
    let mut taught = taught;
    taught.paths.insert(0, shown)?;
    Ok(taught)
}

// The path, with its host by its name where that is known.
fn shown_path<K: Known>(alloc: Global, path: &Path, known: &K) -> Result<Path, AllocError>
    ensures root { IfOk result (λ p. root_view p.root
        ≡ resolved (K.before known.now).scope (root_view path.now.root)) }
    ensures steps { IfOk result
        (λ p. names_of p.steps.items ≡ names_of path.now.steps.items) }
{
    let root = shown_root(alloc, &path.root, known)?;
    let steps = names_copied(alloc, &path.steps)?;
    let slot = None;
    Ok(Path { root, steps, slot })
}

fn shown_root<K: Known>(alloc: Global, root: &Root, known: &K) -> Result<Root, AllocError>
    ensures { IfOk result
        (λ r. root_view r ≡ resolved (K.before known.now).scope (root_view root.now)) }
{
    match root {
        Root::Variable(name) => Ok(Root::Variable(name.clone()?)),
        Root::Other(term, name) => {
            let host = shown_term(alloc, term, known)?;
            Ok(Root::Other(host, name.clone()?))
        }
        Root::Member(member) => Ok(Root::Member(member.copy()?)),
    }
}

fn shown_term<K: Known>(alloc: Global, term: &Term, known: &K) -> Result<Term, AllocError>
    ensures { IfOk result
        (λ t. term_view t ≡ resolved_term (K.before known.now).scope (term_view term.now)) }
{
    match term {
        Term::Named(name) => Ok(Term::Named(name.clone()?)),
        Term::This => Ok(Term::Named(String::from_str(alloc, known.this())?)),
        Term::Item => Ok(Term::Item),
        Term::Member(member) => match known.member(member.group.as_str(), member.place) {
            Some(host) => Ok(Term::Named(String::from_str(alloc, host)?)),
            None => Ok(Term::Member(member.copy()?)),
        },
    }
}

// The host was tested to be active in the batch.
pub(crate) fn show_active<K: Known>(
    alloc: Global,
    term: &Term,
    known: &K,
    taught: Taught,
) -> Result<Taught, AllocError>
    ensures { let k = K.before known.now in
        IfOk result (λ t. scope_view k t
        ≡ teach_active (scope_view k taught) (term_view term.now)) }
{
    match term {
        Term::Named(host) => add_active(alloc, host.as_str(), taught),
        Term::This => add_active(alloc, known.this(), taught),
        Term::Item => {
            let mut taught = taught;
            taught.item_active = true;
            Ok(taught)
        }
        Term::Member(member) => match known.member(member.group.as_str(), member.place) {
            Some(host) => add_active(alloc, host, taught),
            None => Ok(taught),
        },
    }
}

fn add_active(alloc: Global, host: &str, taught: Taught) -> Result<Taught, AllocError>
    ensures { IfOk result (λ t. (b : Before) → scope_view b t
        ≡ record (scope_view b taught) { active = host.now ∷ (scope_view b taught).active }) }
{
    let mut taught = taught;
    taught.active.insert(0, String::from_str(alloc, host)?)?;
    Ok(taught)
}
