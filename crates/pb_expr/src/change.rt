// What a test changes of what is known of the value at a root.
ghost use Rattle.std.specs.Prelude.{◌≡◌, IfOk, Some, option_map, string_bytes};
ghost use Rattle.pb_language.specs.Expansion.{expanded_root};
ghost use Rattle.pb_language.specs.Expression.{Expression, alias, item_host, other, variable};
ghost use Rattle.pb_language.specs.Kinds.{kind_of, root_spot};
ghost use Rattle.pb_language.specs.Narrow.{teach, teach_host};
ghost use Rattle.pb_language.specs.Scope.{is_certain, other_spot, own_spot, spot_kind};
ghost use Rattle.pb_kind.specs.Words.{is_always, kind_view, slot_given};
ghost use Rattle.pb_syntax.specs.ExprView.{names_of, root_view};
ghost use Rattle.pb_taught.specs.Before.{Before};
ghost use Rattle.pb_expr.specs.ChangeView.{change_view};
ghost use Rattle.pb_taught.specs.TaughtView.{alias_tree};
ghost use Rattle.pb_taught.specs.TaughtView.{scope_view};

use crate::roots::item_slot;
use pb_forms::defined::defined_at;
use pb_forms::inferred::Inferred;
use pb_forms::teach::answered_at;
use pb_kind::{Kind, Slot};
use pb_syntax::{Path, Root, Status, Term};
use pb_taught::known::Known;
use pb_taught::scope::{Learned, Taught, alias_kind, own_slot};
use pb_taught::views::{copied, host_slot, place_slot, teach_host};
use std::alloc::{AllocError, Global};

/// What a test showed of the value at the end of a path.
#[derive(Clone, Copy)]
pub enum Change {
    /// Each step of the path is there.
    There,
    /// The test of that status had that answer.
    Answered(Status, bool),
}

// What is taught of the value at the root of the path; what was found of its tree is given where it
// is a name of `vars`.
pub(crate) fn teach<K: Known>(
    alloc: Global,
    change: Change,
    path: &Path,
    known: &K,
    taught: Taught,
    alias: Option<Inferred>,
) -> Result<Taught, AllocError>
    requires { let b = K.before known.now in
        option_map (λ i. kind_view i.kind) alias ≡ option_map (kind_of (scope_view b taught))
        (alias_tree (expanded_root b.trees (root_view path.now.root))) }
    ensures { let b = K.before known.now in
        IfOk result (λ t. scope_view b t ≡ teach (scope_view b taught)
        (change_view change (names_of path.now.steps.items))
        (expanded_root b.trees (root_view path.now.root))) }
{
    match (&path.root, alias) {
        (Root::Variable(name), Some(found)) => {
            teach_alias(alloc, change, path, name, taught, found.kind)
        }
        _ => teach_plain(alloc, change, path, known, taught),
    }
}

// What is taught of the value of a name of `vars`, whose tree has that kind.
fn teach_alias(
    alloc: Global,
    change: Change,
    path: &Path,
    name: &String,
    taught: Taught,
    kind: Kind,
) -> Result<Taught, AllocError>
    ensures { IfOk result (λ t. (b : Before) (e : Expression)
        → b.trees (string_bytes name.now) ≡ Some e
        → kind_view kind ≡ kind_of (scope_view b taught) e
        → scope_view b t ≡ teach (scope_view b taught)
        (change_view change (names_of path.now.steps.items)) (alias (string_bytes name.now) e)) }
{
    let learned = alias_changed(alloc, change, path, name, &taught, kind)?;
    let mut taught = taught;
    taught.learned.insert(0, learned)?;
    Ok(taught)
}

// What is known of that value once that changed.
fn alias_changed(
    alloc: Global,
    change: Change,
    path: &Path,
    name: &String,
    taught: &Taught,
    kind: Kind,
) -> Result<Learned, AllocError>
    ensures name { IfOk result (λ l. string_bytes l.name ≡ string_bytes name.now) }
    ensures kind { IfOk result (λ l. (b : Before) (e : Expression)
        → b.trees (string_bytes name.now) ≡ Some e
        → kind_view kind ≡ kind_of (scope_view b taught.now) e
        → kind_view l.kind ≡ spot_kind (change_view change (names_of path.now.steps.items)
        (root_spot (scope_view b taught.now) (alias (string_bytes name.now) e)))) }
{
    let known = alias_kind(&taught.learned, name.as_str(), kind)?;
    let slot = changed(alloc, change, &path.steps, Some(Slot::always(known)))?;
    let name = name.clone()?;
    let kind = slot.kind;
    Ok(Learned { name, kind })
}

// What is taught of the value at a root that is no name of `vars`.
fn teach_plain<K: Known>(
    alloc: Global,
    change: Change,
    path: &Path,
    known: &K,
    taught: Taught,
) -> Result<Taught, AllocError>
    ensures { let b = K.before known.now in
        IfOk result (λ t. scope_view b t ≡ teach (scope_view b taught)
        (change_view change (names_of path.now.steps.items)) (root_view path.now.root)) }
{
    match &path.root {
        Root::Variable(name) => teach_own(alloc, change, path, name, known, taught),
        Root::Other(term, name) => match term {
            Term::Named(host) => teach_there(
                alloc,
                change,
                path,
                host.as_str(),
                name,
                known,
                taught,
            ),
            Term::This => teach_there(alloc, change, path, known.this(), name, known, taught),
            Term::Item => teach_item(alloc, change, path, name, known, taught),
            Term::Member(member) => match known.member(member.group.as_str(), member.place) {
                Some(host) => teach_there(alloc, change, path, host, name, known, taught),
                None => Ok(taught),
            },
        },
        Root::Member(_) => Ok(taught),
    }
}

fn teach_own<K: Known>(
    alloc: Global,
    change: Change,
    path: &Path,
    name: &String,
    known: &K,
    taught: Taught,
) -> Result<Taught, AllocError>
    ensures { let k = K.before known.now in
        IfOk result (λ t. scope_view k t ≡ teach (scope_view k taught)
        (change_view change (names_of path.now.steps.items)) (variable (string_bytes name.now))) }
{
    let slot = own_changed(alloc, change, path, name, known, &taught)?;
    let mut taught = taught;
    place_slot(alloc, &mut taught.slots, name.as_str(), slot)?;
    Ok(taught)
}

// What is known of a variable of the host's own once that changed.
fn own_changed<K: Known>(
    alloc: Global,
    change: Change,
    path: &Path,
    name: &String,
    known: &K,
    taught: &Taught,
) -> Result<Slot<Kind>, AllocError>
    ensures certain { let c = scope_view (K.before known.now) taught.now in
        IfOk result (λ s. is_always s.presence ≡ is_certain
        (change_view change (names_of path.now.steps.items)
        (own_spot c (string_bytes name.now)))) }
    ensures kind { let c = scope_view (K.before known.now) taught.now in
        IfOk result (λ s. kind_view s.kind ≡ spot_kind
        (change_view change (names_of path.now.steps.items)
        (own_spot c (string_bytes name.now)))) }
{
    let slot = copied(own_slot(known, taught, name.as_str()))?;
    changed(alloc, change, &path.steps, slot)
}

fn teach_item<K: Known>(
    alloc: Global,
    change: Change,
    path: &Path,
    name: &String,
    known: &K,
    taught: Taught,
) -> Result<Taught, AllocError>
    ensures { let k = K.before known.now in
        IfOk result (λ t. scope_view k t ≡ teach (scope_view k taught)
        (change_view change (names_of path.now.steps.items))
        (other item_host (string_bytes name.now))) }
{
    let slot = item_changed(alloc, change, path, name, known, &taught)?;
    let mut taught = taught;
    place_slot(alloc, &mut taught.item_slots, name.as_str(), slot)?;
    Ok(taught)
}

// What is known of a variable of the host that the item names once that changed.
fn item_changed<K: Known>(
    alloc: Global,
    change: Change,
    path: &Path,
    name: &String,
    known: &K,
    taught: &Taught,
) -> Result<Slot<Kind>, AllocError>
    ensures certain { let c = scope_view (K.before known.now) taught.now in
        IfOk result (λ s. is_always s.presence ≡ is_certain
        (change_view change (names_of path.now.steps.items)
        (other_spot c item_host (string_bytes name.now)))) }
    ensures kind { let c = scope_view (K.before known.now) taught.now in
        IfOk result (λ s. kind_view s.kind ≡ spot_kind
        (change_view change (names_of path.now.steps.items)
        (other_spot c item_host (string_bytes name.now)))) }
{
    let slot = item_slot(alloc, name.as_str(), known, taught)?;
    changed(alloc, change, &path.steps, slot)
}

fn teach_there<K: Known>(
    alloc: Global,
    change: Change,
    path: &Path,
    host: &str,
    name: &String,
    known: &K,
    taught: Taught,
) -> Result<Taught, AllocError>
    ensures { let k = K.before known.now in
        IfOk result (λ t. scope_view k t ≡ teach_host (scope_view k taught)
        (change_view change (names_of path.now.steps.items)) (string_bytes name.now) host.now) }
{
    let slot = host_slot(known, &taught, false, name.as_str(), host)?;
    let slot = changed(alloc, change, &path.steps, slot)?;
    teach_host(alloc, known, taught, host, name.as_str(), slot)
}

// What is known once that changed; of what isn't known it is that there is nothing.
fn changed(
    alloc: Global,
    change: Change,
    steps: &[String],
    slot: Option<Slot<Kind>>,
) -> Result<Slot<Kind>, AllocError>
    ensures certain { IfOk result (λ s. is_always s.presence
        ≡ is_certain (change_view change (names_of steps.now) (slot_given slot))) }
    ensures kind { IfOk result (λ s. kind_view s.kind
        ≡ spot_kind (change_view change (names_of steps.now) (slot_given slot))) }
{
    match change {
        Change::There => match slot {
            Some(slot) => Ok(Slot::always(defined_at(alloc, &slot.kind, steps)?)),
            None => Ok(Slot::always(Kind::Never)),
        },
        Change::Answered(status, answer) => match slot {
            Some(slot) => Ok(Slot {
                presence: slot.presence,
                kind: answered_at(alloc, &slot.kind, steps, status, answer)?,
            }),
            None => Ok(Slot::maybe(Kind::Never)),
        },
    }
}
