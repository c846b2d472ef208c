// What is known of the value at a root, and what it is asked for.
ghost use Rattle.std.specs.Prelude.{[], ◌∷◌, ◌≡◌, ◌≤◌, IfNone, IfOk, IfSome, None, Some, codes};
ghost use Rattle.std.specs.Prelude.{false, map, option_map};
ghost use Rattle.std.specs.Prelude.{string_bytes, true, unwrap_or};
ghost use Rattle.pb_semantics.specs.Kind.{hosts, spot};
ghost use Rattle.pb_language.specs.Expansion.{expanded, expanded_root};
ghost use Rattle.pb_language.specs.Expression.{Expression, item_host};
ghost use Rattle.pb_language.specs.Fit.{fault, read_fault, tested_fault};
ghost use Rattle.pb_language.specs.Kinds.{kind_of, member_spot, root_spot};
ghost use Rattle.pb_language.specs.Scope.{learned_kind};
ghost use Rattle.pb_language.specs.Scope.{below_spot, each_spot, hosts_at, is_certain, other_spot};
ghost use Rattle.pb_language.specs.Scope.{own_spot, spot_among, unnamed};
ghost use Rattle.pb_language.specs.World.{member_of};
ghost use Rattle.pb_kind.specs.Words.{kind_view, slot_given};
ghost use Rattle.pb_syntax.specs.ExprView.{expr_view, root_view, term_view};
ghost use Rattle.pb_syntax.specs.declared.expr.Expr.{size-Expr};
ghost use Rattle.pb_syntax.specs.Aliases.{Trees};
ghost use Rattle.pb_forms.specs.FitView.{fault_view};
ghost use Rattle.pb_forms.specs.InferredView.{fault_in, part_fault};
ghost use Rattle.pb_taught.specs.TaughtView.{alias_tree};
ghost use Rattle.pb_taught.specs.TaughtView.{learned_view, scope_view};

use crate::root_faults::{read_unfit, tested_unfit};
use pb_forms::forms::not_any;
use pb_forms::inferred::Inferred;
use pb_forms::unfit::Unfit;
use pb_kind::below::find;
use pb_kind::{Kind, Slot};
use pb_syntax::{Expr, Member, Root, Term};
use pb_taught::known::Known;
use pb_taught::scope::{Taught, alias_kind, own_slot};
use pb_taught::views::{copied, each_slot};
use std::alloc::{AllocError, Global};
use std::collections::BTreeSet;
use std::sync::Arc;

// What is known of the value at a root, and what it is asked for.
#[derive(Drop)]
pub(crate) struct AtRoot {
    // What is known of it.
    pub slot: Option<Slot<Kind>>,
    // Its fault where it is read.
    pub read: Option<Unfit>,
    // Its fault where it is tested.
    pub tested: Option<Unfit>,
}

// The name of `vars` that the root is, and its tree.
pub(crate) fn alias_of<'r, K: Known>(known: &'r K, root: &'r Root) -> Option<(&'r String, &'r Expr)>
    ensures none { IfNone result
        (alias_tree (expanded_root (K.before known.now).trees (root_view root.now)) ≡ None) }
    ensures tree { let f = (K.before known.now).trees in
        IfSome result (λ a. alias_tree (expanded_root f (root_view root.now))
        ≡ Some (expanded f (expr_view a.1.now))) }
    ensures name { let f = (K.before known.now).trees in
        IfSome result (λ a. f (string_bytes a.0.now) ≡ Some (expanded f (expr_view a.1.now))) }
    ensures depth { IfSome result (λ a. size-Expr a.1.now ≤ K.depth known.now) }
{
    match root {
        Root::Variable(name) => {
            let tree = known.tree(name.as_str())?;
            Some((name, tree))
        }
        Root::Other(_, _) | Root::Member(_) => None,
    }
}

// That of the root; what was found of its tree is given where it is a name of `vars`.
pub(crate) fn at_root<K: Known>(
    alloc: Global,
    root: &Root,
    known: &K,
    taught: &Taught,
    alias: Option<Inferred>,
) -> Result<AtRoot, AllocError>
    requires kind { let b = K.before known.now in
        option_map (λ i. kind_view i.kind) alias
        ≡ option_map (kind_of (scope_view b taught.now))
        (alias_tree (expanded_root b.trees (root_view root.now))) }
    requires fault { let b = K.before known.now in
        option_map fault_in alias ≡ option_map (fault (scope_view b taught.now))
        (alias_tree (expanded_root b.trees (root_view root.now))) }
    ensures slot { let b = K.before known.now in
        IfOk result (λ a. slot_given a.slot ≡ root_spot (scope_view b taught.now)
        (expanded_root b.trees (root_view root.now))) }
    ensures read { let b = K.before known.now in
        IfOk result (λ a. option_map fault_view a.read ≡ read_fault (scope_view b taught.now)
        (expanded_root b.trees (root_view root.now))) }
    ensures tested { let b = K.before known.now in
        IfOk result (λ a. option_map fault_view a.tested ≡ tested_fault (scope_view b taught.now)
        (expanded_root b.trees (root_view root.now))) }
{
    match (root, alias) {
        (Root::Variable(name), Some(found)) => at_alias(name.as_str(), taught, found),
        _ => at_plain(alloc, root, known, taught),
    }
}

// That of a name of `vars`, which is always there, and of which tests may have taught.
fn at_alias(name: &str, taught: &Taught, found: Inferred) -> Result<AtRoot, AllocError>
    ensures slot { IfOk result (λ a. (f : Trees) (e : Expression) → f name.now ≡ Some e
        → slot_given a.slot ≡ spot true (unwrap_or
        (learned_kind name.now e (learned_view f taught.now.learned.items))
        (kind_view found.kind))) }
    ensures read { IfOk result (λ a. option_map fault_view a.read ≡ part_fault found) }
    ensures tested { IfOk result (λ a. option_map fault_view a.tested ≡ part_fault found) }
{
    let found = not_any(found);
    let kind = alias_kind(&taught.learned, name, found.kind)?;
    Ok(AtRoot {
        slot: Some(Slot::always(kind)),
        read: found.unfit,
        tested: found.unfit,
    })
}

// That of a root that is no name of `vars`.
fn at_plain<K: Known>(
    alloc: Global,
    root: &Root,
    known: &K,
    taught: &Taught,
) -> Result<AtRoot, AllocError>
    ensures slot { IfOk result (λ a. slot_given a.slot
        ≡ root_spot (scope_view (K.before known.now) taught.now) (root_view root.now)) }
    ensures read { IfOk result (λ a. option_map fault_view a.read
        ≡ read_fault (scope_view (K.before known.now) taught.now) (root_view root.now)) }
    ensures tested { IfOk result (λ a. option_map fault_view a.tested
        ≡ tested_fault (scope_view (K.before known.now) taught.now) (root_view root.now)) }
{
    let slot = root_slot(alloc, root, known, taught)?;
    let read = read_unfit(known, taught, root, &slot);
    let tested = tested_unfit(known, taught, root);
    Ok(AtRoot { slot, read, tested })
}

// What is known of the value at the root.
fn root_slot<K: Known>(
    alloc: Global,
    root: &Root,
    known: &K,
    taught: &Taught,
) -> Result<Option<Slot<Kind>>, AllocError>
    ensures { IfOk result (λ s. slot_given s
        ≡ root_spot (scope_view (K.before known.now) taught.now) (root_view root.now)) }
{
    match root {
        Root::Variable(name) => copied(own_slot(known, taught, name.as_str())),
        Root::Other(term, name) => other_slot(alloc, term, name.as_str(), known, taught),
        Root::Member(member) => member_slot(alloc, member, known),
    }
}

fn member_slot<K: Known>(
    alloc: Global,
    member: &Member,
    known: &K,
) -> Result<Option<Slot<Kind>>, AllocError>
    ensures { IfOk result (λ s. slot_given s ≡ member_spot (member_of
        (string_bytes member.now.group) member.now.place (K.before known.now).scope.groups)) }
{
    match known.member(member.group.as_str(), member.place) {
        Some(host) => Ok(Some(Slot::always(host_kind(alloc, host)?))),
        None => Ok(None),
    }
}

// The kind of that one name.
fn host_kind(alloc: Global, host: &str) -> Result<Kind, AllocError>
    ensures { IfOk result (λ k. kind_view k ≡ hosts (host.now ∷ [])) }
{
    let names = one_name(alloc, host)?;
    Ok(Kind::Host(Arc::new(alloc, names)?))
}

fn one_name(alloc: Global, name: &str) -> Result<BTreeSet<String>, AllocError>
    ensures { IfOk result (λ s. map (λ n. string_bytes n) s.keys ≡ name.now ∷ []) }
{
    let mut names = BTreeSet::new(alloc);
    drop(names.insert(String::from_str(alloc, name)?)?);
    Ok(names)
}

// What is known of a variable of the host that the term names.
fn other_slot<K: Known>(
    alloc: Global,
    term: &Term,
    name: &str,
    known: &K,
    taught: &Taught,
) -> Result<Option<Slot<Kind>>, AllocError>
    ensures { IfOk result (λ s. slot_given s ≡ other_spot
        (scope_view (K.before known.now) taught.now) (term_view term.now) name.now) }
{
    match term {
        Term::Named(host) => one_host_slot(alloc, host.as_str(), name, known, taught),
        Term::This => one_host_slot(alloc, known.this(), name, known, taught),
        Term::Item => item_slot(alloc, name, known, taught),
        Term::Member(member) => match known.member(member.group.as_str(), member.place) {
            Some(host) => one_host_slot(alloc, host, name, known, taught),
            None => Ok(None),
        },
    }
}

fn one_host_slot<K: Known>(
    alloc: Global,
    host: &str,
    name: &str,
    known: &K,
    taught: &Taught,
) -> Result<Option<Slot<Kind>>, AllocError>
    ensures { IfOk result (λ s. slot_given s ≡ each_spot
        (scope_view (K.before known.now) taught.now) false name.now (host.now ∷ [])) }
{
    let hosts = one_name(alloc, host)?;
    each_slot(alloc, known, taught, false, name, &hosts)
}

// What is known of a variable of the host that the item names, certain only where the item is.
pub(crate) fn item_slot<K: Known>(
    alloc: Global,
    name: &str,
    known: &K,
    taught: &Taught,
) -> Result<Option<Slot<Kind>>, AllocError>
    ensures { IfOk result (λ s. slot_given s ≡ other_spot
        (scope_view (K.before known.now) taught.now) item_host name.now) }
{
    let slot = match find(&taught.item_slots, name) {
        Some(slot) => copied(Some(slot))?,
        None => slot_of_items(alloc, name, known, taught)?,
    };
    Ok(below_slot(has_item(known, taught), slot))
}

// Whether there is certainly an item.
pub(crate) fn has_item<K: Known>(known: &K, taught: &Taught) -> bool
    ensures { result ≡ is_certain
        (own_spot (scope_view (K.before known.now) taught.now) (codes "item")) }
{
    match own_slot(known, taught, "item") {
        Some(slot) => slot.presence.is_always(),
        None => false,
    }
}

// A slot that is certain only where that is so.
fn below_slot(is_certain: bool, slot: Option<Slot<Kind>>) -> Option<Slot<Kind>>
    ensures { slot_given result ≡ below_spot is_certain (slot_given slot) }
{
    let slot = slot?;
    if is_certain {
        return Some(slot);
    }
    Some(Slot::maybe(slot.kind))
}

// What is known of a variable of whichever host an item is, whatever tests taught of hosts by name.
fn slot_of_items<K: Known>(
    alloc: Global,
    name: &str,
    known: &K,
    taught: &Taught,
) -> Result<Option<Slot<Kind>>, AllocError>
    ensures { let c = scope_view (K.before known.now) taught.now in
        IfOk result (λ s. slot_given s
        ≡ spot_among (unnamed c) c.item_active name.now
        (hosts_at (own_spot c (codes "item")))) }
{
    let Some(item) = own_slot(known, taught, "item") else {
        return Ok(None);
    };
    match &item.kind {
        Kind::Never => Ok(Some(Slot::always(Kind::Never))),
        Kind::Host(hosts) => {
            let nothing = Taught::nothing(alloc);
            each_slot(alloc, known, &nothing, taught.item_active, name, hosts)
        }
        Kind::Text | Kind::Any => Ok(Some(Slot::maybe(Kind::Any))),
        Kind::Null | Kind::Bool | Kind::Int => Ok(None),
        Kind::List(_, _) | Kind::Rec(_) | Kind::Result(_, _) => Ok(None),
    }
}
