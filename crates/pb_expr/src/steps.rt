// What is asked of the steps of a path.
ghost use Rattle.std.specs.Prelude.{◌∷◌, ◌≡◌, List, MatchResult, None, Some, option_map, true, ℕ};
ghost use Rattle.pb_semantics.specs.Words.{Cases, results, slot_at as spot_at};
ghost use Rattle.pb_language.specs.Expansion.{expanded_root};
ghost use Rattle.pb_language.specs.Fit.{path_fault};
ghost use Rattle.pb_language.specs.Scope.{is_present as is_shown};
ghost use Rattle.pb_language.specs.Words.{spot_kind, steps_fault};
ghost use Rattle.pb_kind.specs.Words.{kind_view, slot_given, slots_view};
ghost use Rattle.pb_syntax.specs.ExprView.{names_of, root_view};
ghost use Rattle.pb_forms.specs.FitView.{LeadsTo, certain, fault_view};
ghost use Rattle.pb_taught.specs.TaughtView.{scope_view};

use crate::roots::AtRoot;
use pb_forms::unfit::{Unfit, first_of};
use pb_kind::below::find;
use pb_kind::{Kind, Slot, Slots};
use pb_syntax::Path;
use pb_taught::known::Known;
use pb_taught::scope::{Taught, is_present};

// What a path that is read is asked for, little where a test showed that it is there.
pub(crate) fn path_unfit<K: Known>(
    known: &K,
    taught: &Taught,
    path: &Path,
    at: &AtRoot,
) -> Option<Unfit>
    ensures { let b = K.before known.now in
        let r = expanded_root b.trees (root_view path.now.root) in
        let ns = names_of path.now.steps.items in
        option_map fault_view result ≡ path_fault (is_shown (scope_view b taught.now) r ns)
        (option_map fault_view at.now.tested) (option_map fault_view at.now.read)
        (steps_fault ns (spot_kind (slot_given at.now.slot))) }
{
    if is_present(known, taught, path) {
        return at.tested;
    }
    first_of(at.read, steps_unfit(&at.slot, &path.steps))
}

// What the steps below a slot are asked for.
fn steps_unfit(slot: &Option<Slot<Kind>>, steps: &[String]) -> Option<Unfit>
    ensures { option_map fault_view result
        ≡ steps_fault (names_of steps.now) (spot_kind (slot_given slot.now)) }
{
    match slot {
        Some(slot) => inner_unfit(&slot.kind, steps),
        None => None,
    }
}

fn inner_unfit(outer: &Kind, steps: &[String]) -> Option<Unfit>
    ensures { option_map fault_view result
        ≡ steps_fault (names_of steps.now) (kind_view outer.now) }
{
    let mut here = outer;
    for step in steps {
        match kind_in(here, step.as_str()) {
            Ok(inner) => here = inner,
            Err(unfit) => return Some(unfit),
        }
    }
    None
}

// The kind of a field, `Never` in `Never`.
fn kind_in<'k>(outer: &'k Kind, name: &str) -> Result<&'k Kind, Unfit>
    ensures { MatchResult result
        (λ k. (ns : List (List ℕ))
        → LeadsTo (name.now ∷ ns) (kind_view outer.now) ns (kind_view k.now))
        (λ u. (ns : List (List ℕ))
        → steps_fault (name.now ∷ ns) (kind_view outer.now) ≡ Some (fault_view u)) }
{
    match outer {
        Kind::Never => Ok(outer),
        Kind::Rec(slots) => kind_among(slots, name),
        Kind::Result(_, record) => kind_in_record(record, name),
        _ => Err(Unfit::WrongKind),
    }
}

// The kind of a field of what is known of all cases of a result.
fn kind_in_record<'k>(record: &'k Kind, name: &str) -> Result<&'k Kind, Unfit>
    ensures { MatchResult result
        (λ k. (ns : List (List ℕ)) (cs : Cases)
        → LeadsTo (name.now ∷ ns) (results cs (kind_view record.now)) ns (kind_view k.now))
        (λ u. (ns : List (List ℕ)) (cs : Cases)
        → steps_fault (name.now ∷ ns) (results cs (kind_view record.now))
        ≡ Some (fault_view u)) }
{
    match record {
        Kind::Never => Ok(record),
        Kind::Rec(slots) => kind_among(slots, name),
        _ => Err(Unfit::WrongKind),
    }
}

fn kind_among<'k>(slots: &'k Slots, name: &str) -> Result<&'k Kind, Unfit>
    ensures { MatchResult result
        (λ k. certain (spot_at name.now (slots_view slots.now.entries)) ≡ Some (kind_view k.now))
        (λ u. (certain (spot_at name.now (slots_view slots.now.entries)) ≡ None)
        × (u ≡ Unfit.MissingField)) }
{
    match certain_kind(slots, name) {
        Some(kind) => Ok(kind),
        None => Err(Unfit::MissingField),
    }
}

fn certain_kind<'k>(slots: &'k Slots, name: &str) -> Option<&'k Kind>
    ensures { option_map (λ k. kind_view k.now) result
        ≡ certain (spot_at name.now (slots_view slots.now.entries)) }
{
    let slot = find(slots, name)?;
    if slot.presence.is_always() {
        Some(&slot.kind)
    } else {
        None
    }
}
