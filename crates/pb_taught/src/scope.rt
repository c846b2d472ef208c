// What tests have taught of what is known where an expression is asked for.
ghost use Rattle.std.specs.Prelude.{◌&&◌, ◌≡◌, IfOk, OnOk, Some, nat_eq, option_map};
ghost use Rattle.std.specs.Prelude.{string_bytes, unwrap_or};
ghost use Rattle.std.specs.BTreeMap.{IsOrdered};
ghost use Rattle.std.specs.Str.{bytes_eq};
ghost use Rattle.std.specs.String.{string_cmp};
ghost use Rattle.pb_semantics.specs.Keeps.{is_among};
ghost use Rattle.pb_semantics.specs.Words.{put_slot};
ghost use Rattle.pb_language.specs.Expansion.{expanded_root};
ghost use Rattle.pb_language.specs.Expression.{Expression, group_member, named_host};
ghost use Rattle.pb_language.specs.Same.{same_root, same_term};
ghost use Rattle.pb_language.specs.Scope.{begins_with, both_learned, both_names, both_present};
ghost use Rattle.pb_language.specs.Scope.{both_scopes, is_present as is_shown, is_present_path};
ghost use Rattle.pb_language.specs.Scope.{learned_kind, own_spot, resolved, resolved_term};
ghost use Rattle.pb_kind.specs.Words.{is_always, kind_view, slots_view, spot_view};
ghost use Rattle.pb_syntax.specs.ExprView.{names_of, root_view, term_view};
ghost use Rattle.pb_syntax.specs.Aliases.{Trees};
ghost use Rattle.pb_taught.specs.Before.{Before};
ghost use Rattle.pb_taught.specs.TaughtView.{learned_view, presents_view, scope_view, untaught};

use crate::both::{both_slots, both_views, views_copied};
use crate::known::Known;
use indexmap::IndexMap;
use pb_kind::below::find;
use pb_kind::join::join;
use pb_kind::{Kind, Slot, Slots, copy_slots};
use pb_syntax::{Member, Names, Path, Root, Term, names_copied};
use std::alloc::{AllocError, Global};
use std::collections::BTreeMap;
use std::sync::Arc;

/// What a test taught of the value of a name of `vars`.
#[derive(Drop)]
pub struct Learned {
    pub name: String,
    pub kind: Kind,
}

/// What tests have taught, which lies over what was known before them.
#[derive(Drop)]
pub struct Taught {
    /// Of variables of the host's own.
    pub slots: Slots,
    /// Of variables of hosts by their names.
    pub views: IndexMap<String, Slots>,
    /// Of values of names of `vars`, the last one first.
    pub learned: Vec<Learned>,
    /// The paths that were tested to be there, the last one first.
    pub paths: Vec<Arc<Path>>,
    /// The hosts that are known to be active in the batch, the last one first.
    pub active: Names,
    /// Of variables of the host that the item of a loop names.
    pub item_slots: Slots,
    /// Whether that host is known to be active in the batch.
    pub item_active: bool,
}

impl Taught {
    /// Where no test has been made.
    pub fn nothing(alloc: Global) -> Taught
        ensures { (b : Before) → scope_view b result ≡ untaught b.scope }
    {
        Taught {
            slots: BTreeMap::new(alloc),
            views: IndexMap::new(alloc),
            learned: Vec::new(alloc),
            paths: Vec::new(alloc),
            active: Names::new(alloc),
            item_slots: BTreeMap::new(alloc),
            item_active: false,
        }
    }

    /// A copy that shares what lies inside.
    ///
    /// # Errors
    ///
    /// Want of memory.
    pub fn copy(&self, alloc: Global) -> Result<Taught, AllocError>
        ensures { IfOk result (λ t. (b : Before) → scope_view b t ≡ scope_view b self.now) }
    {
        Ok(Taught {
            slots: copy_slots(&self.slots)?,
            views: views_copied(alloc, &self.views)?,
            learned: learned_copied(alloc, &self.learned)?,
            paths: paths_copied(alloc, &self.paths)?,
            active: names_copied(alloc, &self.active)?,
            item_slots: copy_slots(&self.item_slots)?,
            item_active: self.item_active,
        })
    }
}

fn learned_copied(alloc: Global, learned: &[Learned]) -> Result<Vec<Learned>, AllocError>
    ensures { IfOk result
        (λ ls. (f : Trees) → learned_view f ls.items ≡ learned_view f learned.now) }
{
    let mut all = Vec::new(alloc);
    for taught in learned {
        let name = taught.name.clone()?;
        let kind = taught.kind.clone()?;
        all.push(Learned { name, kind })?;
    }
    Ok(all)
}

fn paths_copied(alloc: Global, paths: &[Arc<Path>]) -> Result<Vec<Arc<Path>>, AllocError>
    ensures { IfOk result
        (λ ps. (f : Trees) → presents_view f ps.items ≡ presents_view f paths.now) }
{
    let mut all = Vec::new(alloc);
    for path in paths {
        all.push(path.clone()?)?;
    }
    Ok(all)
}

/// What is known of a variable of the host's own.
pub fn own_slot<'s, K: Known>(
    known: &'s K,
    taught: &'s Taught,
    name: &str,
) -> Option<&'s Slot<Kind>>
    ensures { spot_view result ≡ own_spot (scope_view (K.before known.now) taught.now) name.now }
{
    match find(&taught.slots, name) {
        Some(slot) => Some(slot),
        None => known.own(name),
    }
}

// What was taught last of the value of that name of `vars`.
pub(crate) fn kind_learned<'t>(learned: &'t [Learned], name: &str) -> Option<&'t Kind>
    ensures { (f : Trees) (e : Expression) → f name.now ≡ Some e
        → learned_kind name.now e (learned_view f learned.now)
        ≡ option_map (λ k. kind_view k.now) result }
{
    for taught in learned {
        if name == taught.name.as_str() {
            return Some(&taught.kind);
        }
    }
    None
}

/// The kind of the value of a name of `vars`, of which tests may have taught more than its tree's.
///
/// # Errors
///
/// Want of memory.
pub fn alias_kind(learned: &[Learned], name: &str, kind: Kind) -> Result<Kind, AllocError>
    ensures { IfOk result (λ k. (f : Trees) (e : Expression) → f name.now ≡ Some e
        → kind_view k ≡ unwrap_or (learned_kind name.now e (learned_view f learned.now))
        (kind_view kind)) }
{
    match kind_learned(learned, name) {
        Some(learned) => learned.clone(),
        None => Ok(kind),
    }
}

/// Whether a test showed that the path is there.
pub fn is_present<K: Known>(known: &K, taught: &Taught, path: &Path) -> bool
    ensures { let b = K.before known.now in
        result ≡ is_shown (scope_view b taught.now)
        (expanded_root b.trees (root_view path.now.root)) (names_of path.now.steps.items) }
{
    for shown in &taught.paths {
        if is_root(known, &path.root, &shown.root) && begins(&path.steps, &shown.steps) {
            return true;
        }
    }
    false
}

// Whether the root, with its host by its name where that is known, is the other.
#[tactic(auto, using(crate::proofs::NamedRoots::same_resolved))]
fn is_root<K: Known>(known: &K, root: &Root, shown: &Root) -> bool
    ensures { let b = K.before known.now in
        result ≡ same_root (resolved b.scope (expanded_root b.trees (root_view root.now)))
        (expanded_root b.trees (root_view shown.now)) }
{
    match (root, shown) {
        (Root::Variable(name), Root::Variable(other)) => name == other,
        (Root::Other(term, name), Root::Other(host, other)) => {
            is_term(known, term, host) && name == other
        }
        (Root::Member(member), Root::Member(other)) => is_member(member, other),
        (Root::Variable(_), _) | (Root::Other(_, _), _) | (Root::Member(_), _) => false,
    }
}

// Whether the term, by its host's name where that is known, is the other.
fn is_term<K: Known>(known: &K, term: &Term, shown: &Term) -> bool
    ensures { result ≡ same_term (resolved_term (K.before known.now).scope (term_view term.now))
        (term_view shown.now) }
{
    match term {
        Term::Named(name) => is_named(shown, name.as_str()),
        Term::This => is_named(shown, known.this()),
        Term::Item => matches!(shown, Term::Item),
        Term::Member(member) => match known.member(member.group.as_str(), member.place) {
            Some(name) => is_named(shown, name),
            None => is_place(shown, member),
        },
    }
}

fn is_named(term: &Term, name: &str) -> bool
    ensures { result ≡ same_term (named_host name.now) (term_view term.now) }
{
    match term {
        Term::Named(other) => other.as_str() == name,
        Term::This | Term::Item | Term::Member(_) => false,
    }
}

fn is_place(term: &Term, member: &Member) -> bool
    ensures { result ≡ same_term
        (group_member (string_bytes member.now.group) member.now.place) (term_view term.now) }
{
    match term {
        Term::Member(other) => is_member(member, other),
        Term::Named(_) | Term::This | Term::Item => false,
    }
}

fn is_member(one: &Member, other: &Member) -> bool
    ensures { result ≡ bytes_eq (string_bytes one.now.group) (string_bytes other.now.group)
        && nat_eq one.now.place other.now.place }
{
    one.group == other.group && one.place == other.place
}

// Whether the paths show that the path is there.
fn shows(paths: &[Arc<Path>], path: &Path) -> bool
    ensures { (f : Trees) → result ≡ is_present_path (expanded_root f (root_view path.now.root))
        (names_of path.now.steps.items) (presents_view f paths.now) }
{
    for shown in paths {
        if is_same_root(&path.root, &shown.root) && begins(&path.steps, &shown.steps) {
            return true;
        }
    }
    false
}

#[tactic(auto, using(crate::proofs::NamedRoots::same_expanded))]
fn is_same_root(one: &Root, other: &Root) -> bool
    ensures { (f : Trees) → result
        ≡ same_root (expanded_root f (root_view one.now)) (expanded_root f (root_view other.now)) }
{
    match (one, other) {
        (Root::Variable(name), Root::Variable(other)) => name == other,
        (Root::Other(term, name), Root::Other(host, other)) => {
            is_same_term(term, host) && name == other
        }
        (Root::Member(member), Root::Member(other)) => is_member(member, other),
        (Root::Variable(_), _) | (Root::Other(_, _), _) | (Root::Member(_), _) => false,
    }
}

fn is_same_term(one: &Term, other: &Term) -> bool
    ensures { result ≡ same_term (term_view one.now) (term_view other.now) }
{
    match one {
        Term::Named(name) => is_named(other, name.as_str()),
        Term::This => matches!(other, Term::This),
        Term::Item => matches!(other, Term::Item),
        Term::Member(member) => is_place(other, member),
    }
}

fn begins(few: &[String], many: &[String]) -> bool
    ensures { result ≡ begins_with (names_of few.now) (names_of many.now) }
{
    let Some((step, rest)) = few.split_first() else {
        return true;
    };
    match many.split_first() {
        Some((other, more)) => step == other && begins(rest, more),
        None => false,
    }
}

/// What both ways of two teach, of which one was taken.
///
/// # Errors
///
/// Want of memory.
pub fn both(alloc: Global, one: &Taught, other: &Taught) -> Result<Taught, AllocError>
    ensures { IfOk result (λ t. (b : Before) →
        scope_view b t ≡ both_scopes (scope_view b one.now) (scope_view b other.now)) }
{
    let (learned, paths, active) = both_shown(alloc, one, other)?;
    Ok(Taught {
        slots: both_slots(alloc, &one.slots, &other.slots)?,
        views: both_views(alloc, &one.views, &other.views)?,
        learned,
        paths,
        active,
        item_slots: both_slots(alloc, &one.item_slots, &other.item_slots)?,
        item_active: one.item_active & other.item_active,
    })
}

// What both ways of two teach of names of `vars`, of paths and of active hosts.
fn both_shown(
    alloc: Global,
    one: &Taught,
    other: &Taught,
) -> Result<(Vec<Learned>, Vec<Arc<Path>>, Names), AllocError>
    ensures learned { IfOk result (λ s. (f : Trees) → learned_view f s.0.items
        ≡ both_learned (learned_view f one.now.learned.items)
        (learned_view f other.now.learned.items)) }
    ensures paths { IfOk result (λ s. (f : Trees) → presents_view f s.1.items
        ≡ both_present (presents_view f one.now.paths.items)
        (presents_view f other.now.paths.items)) }
    ensures active { IfOk result (λ s. names_of s.2.items
        ≡ both_names (names_of one.now.active.items) (names_of other.now.active.items)) }
{
    let learned = both_learned(alloc, &one.learned, &other.learned)?;
    let paths = both_paths(alloc, &one.paths, &other.paths)?;
    let active = both_names(alloc, &one.active, &other.active)?;
    Ok((learned, paths, active))
}

fn both_learned(
    alloc: Global,
    few: &[Learned],
    many: &[Learned],
) -> Result<Vec<Learned>, AllocError>
    ensures { IfOk result (λ ls. (f : Trees) → learned_view f ls.items
        ≡ both_learned (learned_view f few.now) (learned_view f many.now)) }
{
    let mut all = Vec::new(alloc);
    for taught in few {
        if let Some(other) = kind_learned(many, taught.name.as_str()) {
            let kind = join(alloc, &taught.kind, other)?;
            let name = taught.name.clone()?;
            all.push(Learned { name, kind })?;
        }
    }
    Ok(all)
}

fn both_paths(
    alloc: Global,
    few: &[Arc<Path>],
    many: &[Arc<Path>],
) -> Result<Vec<Arc<Path>>, AllocError>
    ensures { IfOk result (λ ps. (f : Trees) → presents_view f ps.items
        ≡ both_present (presents_view f few.now) (presents_view f many.now)) }
{
    let mut all = Vec::new(alloc);
    for path in few {
        if shows(many, path) {
            all.push(path.clone()?)?;
        }
    }
    Ok(all)
}

fn both_names(alloc: Global, few: &[String], many: &[String]) -> Result<Names, AllocError>
    ensures { IfOk result (λ ns. names_of ns.items
        ≡ both_names (names_of few.now) (names_of many.now)) }
{
    let mut all = Names::new(alloc);
    for name in few {
        if has_name(many, name.as_str()) {
            all.push(name.clone()?)?;
        }
    }
    Ok(all)
}

// Whether the name is among the names.
pub(crate) fn has_name(names: &[String], name: &str) -> bool
    ensures { result ≡ is_among name.now (names_of names.now) }
{
    for other in names {
        if name == other.as_str() {
            return true;
        }
    }
    false
}
