// What is found of leaves: of what needs no look, and of paths by what stands at their roots.
ghost use Rattle.std.specs.Prelude.{◌≡◌, IfOk, None, option_map};
ghost use Rattle.pb_language.specs.Expansion.{expanded_root};
ghost use Rattle.pb_language.specs.Fit.{active_fault, path_fault, term_fault};
ghost use Rattle.pb_language.specs.Kinds.{path_spot, shown_spot};
ghost use Rattle.pb_language.specs.Scope.{is_present as is_shown, spot_kind};
ghost use Rattle.pb_language.specs.Words.{default_kind, first, steps_fault};
ghost use Rattle.pb_kind.specs.Words.{kind_view, slot_given};
ghost use Rattle.pb_syntax.specs.ExprView.{names_of, root_view, term_view};
ghost use Rattle.pb_forms.specs.FitView.{fault_view};
ghost use Rattle.pb_forms.specs.InferredView.{fault_in};
ghost use Rattle.pb_taught.specs.TaughtView.{scope_view};

use crate::root_faults::{active_unfit, term_unfit};
use crate::roots::AtRoot;
use crate::steps::path_unfit;
use pb_forms::inferred::Inferred;
use pb_forms::kinds::{kind_at_end, kind_or};
use pb_forms::unfit::{Unfit, first_of};
use pb_kind::Kind;
use pb_syntax::{Path, Term};
use pb_taught::known::Known;
use pb_taught::scope::{Taught, is_present};
use std::alloc::{AllocError, Global};

pub(crate) fn fit(kind: Kind) -> Result<Inferred, AllocError>
    ensures kind { IfOk result (λ f. f.kind ≡ kind) }
    ensures fault { IfOk result (λ f. f.unfit ≡ None) }
{
    Ok(Inferred { kind, unfit: None })
}

pub(crate) fn unfit(kind: Kind, unfit: Option<Unfit>) -> Result<Inferred, AllocError>
    ensures kind { IfOk result (λ f. f.kind ≡ kind) }
    ensures fault { IfOk result (λ f. f.unfit ≡ unfit) }
{
    Ok(Inferred { kind, unfit })
}

// Of the value at the end of a path, or of the other where there may be none, by what was found of
// both.
pub(crate) fn path_or_else<K: Known>(
    alloc: Global,
    path: &Path,
    known: &K,
    taught: &Taught,
    at: AtRoot,
    other: Inferred,
) -> Result<Inferred, AllocError>
    ensures kind { let b = K.before known.now in
        let r = expanded_root b.trees (root_view path.now.root) in
        let ns = names_of path.now.steps.items in
        IfOk result (λ f. kind_view f.kind
        ≡ default_kind (shown_spot (is_shown (scope_view b taught.now) r ns)
        (path_spot ns (slot_given at.slot))) (kind_view other.kind)) }
    ensures fault { IfOk result (λ f. fault_in f
        ≡ first (option_map fault_view at.tested) (fault_in other)) }
{
    let unfit = first_of(at.tested, other.unfit);
    let is_shown = is_present(known, taught, path);
    let kind = kind_or(alloc, &at.slot, &path.steps, is_shown, other.kind)?;
    Ok(Inferred { kind, unfit })
}

// Of the value at the end of a path.
pub(crate) fn of_path<K: Known>(
    path: &Path,
    known: &K,
    taught: &Taught,
    at: AtRoot,
) -> Result<Inferred, AllocError>
    ensures kind { IfOk result (λ f. kind_view f.kind
        ≡ spot_kind (path_spot (names_of path.now.steps.items) (slot_given at.slot))) }
    ensures fault { let b = K.before known.now in
        let r = expanded_root b.trees (root_view path.now.root) in
        let ns = names_of path.now.steps.items in
        IfOk result (λ f. fault_in f ≡ path_fault (is_shown (scope_view b taught.now) r ns)
        (option_map fault_view at.tested) (option_map fault_view at.read)
        (steps_fault ns (spot_kind (slot_given at.slot)))) }
{
    let unfit = path_unfit(known, taught, path, &at);
    let kind = kind_at_end(&at.slot, &path.steps)?;
    Ok(Inferred { kind, unfit })
}

pub(crate) fn in_batch_unfit<K: Known>(known: &K, taught: &Taught, term: &Term) -> Option<Unfit>
    ensures { let c = scope_view (K.before known.now) taught.now in
        option_map fault_view result
        ≡ first (term_fault c (term_view term.now)) (active_fault c (term_view term.now)) }
{
    first_of(
        term_unfit(known, taught, term),
        active_unfit(known, taught, term),
    )
}
