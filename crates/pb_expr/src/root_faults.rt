// What is asked of the value at a root, and of a term that names a host.
ghost use Rattle.std.specs.Prelude.{◌≡◌, option_map};
ghost use Rattle.pb_language.specs.Fit.{active_fault, hosts_fault, read_fault, term_fault};
ghost use Rattle.pb_language.specs.Expression.{item_host};
ghost use Rattle.pb_language.specs.Fit.{tested_fault};
ghost use Rattle.pb_language.specs.Kinds.{root_spot};
ghost use Rattle.pb_language.specs.Scope.{hosts_of, is_certain};
ghost use Rattle.pb_kind.specs.Words.{slot_given};
ghost use Rattle.pb_syntax.specs.ExprView.{root_view, term_view};
ghost use Rattle.pb_forms.specs.FitView.{fault_view};
ghost use Rattle.pb_taught.specs.TaughtView.{scope_view};

use crate::roots::has_item;
use pb_forms::kinds::holds_any;
use pb_forms::unfit::{Unfit, asked_of};
use pb_kind::{Kind, Slot};
use pb_syntax::{Root, Term};
use pb_taught::known::Known;
use pb_taught::scope::{Taught, own_slot};

// What a value that is read is asked for; the slot is that of the root.
pub(crate) fn read_unfit<K: Known>(
    known: &K,
    taught: &Taught,
    root: &Root,
    slot: &Option<Slot<Kind>>,
) -> Option<Unfit>
    requires { slot_given slot.now
        ≡ root_spot (scope_view (K.before known.now) taught.now) (root_view root.now) }
    ensures { option_map fault_view result
        ≡ read_fault (scope_view (K.before known.now) taught.now) (root_view root.now) }
{
    match root {
        Root::Variable(_) => asked_of(is_sure(slot), Unfit::Undefined),
        Root::Other(term, _) => {
            if let Some(unfit) = term_unfit(known, taught, term) {
                return Some(unfit);
            }
            if let Some(unfit) = hosts_unfit(known, taught, term) {
                return Some(unfit);
            }
            asked_of(is_sure(slot), Unfit::UndefinedThere)
        }
        Root::Member(member) => asked_of(
            known.member(member.group.as_str(), member.place).is_some(),
            Unfit::UnknownName,
        ),
    }
}

fn is_sure(slot: &Option<Slot<Kind>>) -> bool
    ensures { result ≡ is_certain (slot_given slot.now) }
{
    match slot {
        Some(slot) => slot.presence.is_always(),
        None => false,
    }
}

// What a value that is tested is asked for.
pub(crate) fn tested_unfit<K: Known>(known: &K, taught: &Taught, root: &Root) -> Option<Unfit>
    ensures { option_map fault_view result
        ≡ tested_fault (scope_view (K.before known.now) taught.now) (root_view root.now) }
{
    match root {
        Root::Other(term, _) => hosts_unfit(known, taught, term),
        Root::Variable(_) | Root::Member(_) => None,
    }
}

// What a term is asked for: a certain item, or a host at that place of the group.
pub(crate) fn term_unfit<K: Known>(known: &K, taught: &Taught, term: &Term) -> Option<Unfit>
    ensures { option_map fault_view result
        ≡ term_fault (scope_view (K.before known.now) taught.now) (term_view term.now) }
{
    match term {
        Term::Named(_) | Term::This => None,
        Term::Item => asked_of(has_item(known, taught), Unfit::Undefined),
        Term::Member(member) => asked_of(
            known.member(member.group.as_str(), member.place).is_some(),
            Unfit::UnknownName,
        ),
    }
}

// What a term that is looked for in the batch is asked for: an item may not be opaque.
pub(crate) fn active_unfit<K: Known>(known: &K, taught: &Taught, term: &Term) -> Option<Unfit>
    ensures { option_map fault_view result
        ≡ active_fault (scope_view (K.before known.now) taught.now) (term_view term.now) }
{
    match term {
        Term::Item => item_unfit(known, taught),
        Term::Named(_) | Term::This | Term::Member(_) => None,
    }
}

fn item_unfit<K: Known>(known: &K, taught: &Taught) -> Option<Unfit>
    ensures { option_map fault_view result
        ≡ active_fault (scope_view (K.before known.now) taught.now) item_host }
{
    match own_slot(known, taught, "item") {
        Some(slot) => asked_of(!holds_any(&slot.kind), Unfit::WrongKind),
        None => None,
    }
}

// What a term that names a host is asked for: an item is one of known hosts.
fn hosts_unfit<K: Known>(known: &K, taught: &Taught, term: &Term) -> Option<Unfit>
    ensures { option_map fault_view result ≡ hosts_fault
        (hosts_of (scope_view (K.before known.now) taught.now) (term_view term.now)) }
{
    match term {
        Term::Item => item_hosts_unfit(known, taught),
        Term::Named(_) | Term::This | Term::Member(_) => None,
    }
}

fn item_hosts_unfit<K: Known>(known: &K, taught: &Taught) -> Option<Unfit>
    ensures { option_map fault_view result ≡ hosts_fault
        (hosts_of (scope_view (K.before known.now) taught.now) item_host) }
{
    match &own_slot(known, taught, "item")?.kind {
        Kind::Never | Kind::Host(_) => None,
        Kind::Text | Kind::Any | Kind::Null | Kind::Bool | Kind::Int => Some(Unfit::WrongKind),
        Kind::List(_, _) | Kind::Rec(_) | Kind::Result(_, _) => Some(Unfit::WrongKind),
    }
}
