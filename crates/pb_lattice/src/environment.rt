// Environments that share their parts in one table: a copy is a number, putting a slot costs the
// depth of a tree, and a join goes only where the two differ.
ghost use Rattle.std.specs.Prelude.{◌≡◌, ◌↔◌, length, true, IfOk, IsTrue};
ghost use Rattle.pb_semantics.specs.Well.{Well};
ghost use Rattle.pb_semantics.specs.Words.{is_among, no_slots, recs};
ghost use Rattle.pb_language.specs.Judgement.{Exit, live};
ghost use Rattle.pb_language.specs.Ordered.{ExitLe};
ghost use Rattle.pb_language.specs.Wells.{WellExit};
ghost use Rattle.pb_kind.specs.Words.{is_always, kind_view, slots_view, spot_view};
ghost use Rattle.pb_lattice.specs.Arena.{names_of};
ghost use Rattle.pb_lattice.specs.Environments.{IsKept, Stands, exit_of, is_dead, is_over};
ghost use Rattle.pb_lattice.specs.Environments.{put_in, spot_in};
ghost use Rattle.pb_lattice.specs.Lost.{lost_marks};
ghost use Rattle.pb_lattice.specs.Shared.{Shared};
ghost use Rattle.pb_lattice.specs.Trees.{IsAscending};

use crate::bulk;
use crate::tree::{self, Nodes};
use pb_kind::{Kind, Slot, Slots};
use std::alloc::{AllocError, Global};
use std::marker::Model;

/// The names of a table, in the order of their bytes, and what environments know of them.
///
/// A clause sees the names and the nodes.
#[derive(Drop)]
pub struct Environments {
    names: Vec<String>,
    nodes: Nodes,
}

impl Model for Environments {
    ghost use Rattle.std.specs.Coded.{codes};
    ghost use Rattle.pb_kind.specs.contracts.kind.Kind as kind;
    ghost use Rattle.pb_lattice.specs.Shared.{Shared};

    ghost Value = { Shared };

    ghost coded = { Prim.hlevel (codes, kind.the_row.coded) };

    ghost use Rattle.pb_lattice.specs.Arena.{names_of};
    ghost use Rattle.pb_lattice.specs.Trees.{IsAscending};

    ghost view = { λ e. record { names = names_of e.names.items; nodes = e.nodes } };

    ghost invariant = { λ e. IsAscending (names_of e.names.items) };
}

/// What is known of the names of a table where some way leads, or that none leads there.
#[derive(Clone, Copy)]
pub struct Environment {
    root: Option<u32>,
}

impl Environment {
    /// Where no way leads.
    pub fn dead() -> Environment
        ensures { (s : Shared) → Stands s result × (is_dead (exit_of s result) ≡ true) }
    {
        Environment { root: None }
    }

    /// Whether no way leads there.
    pub fn is_dead(self) -> bool
        ensures { (s : Shared) → result ≡ is_dead (exit_of s self) }
    {
        self.root.is_none()
    }
}

impl Environments {
    /// A table over those names, in which no environment stands but the empty one.
    ///
    /// # Errors
    ///
    /// Want of memory.
    pub fn new(alloc: Global, names: Vec<String>) -> Result<Environments, AllocError>
        requires { IsAscending (names_of names.items) }
        ensures over { IfOk result (λ s. s.names ≡ names_of names.items) }
        ensures lone { IfOk result (λ s. length s.nodes ≡ 1) }
    {
        let nodes = Nodes::new(alloc)?;
        Ok(Environments { names, nodes })
    }

    /// The table over the same names in which no environment stands but the empty one.
    ///
    /// # Errors
    ///
    /// Want of memory.
    pub fn emptied(self, alloc: Global) -> Result<Environments, AllocError>
        ensures over { IfOk result (λ s. s.names ≡ self.names) }
        ensures lone { IfOk result (λ s. length s.nodes ≡ 1) }
    {
        Environments::new(alloc, self.names)
    }

    /// The names, in the order of their bytes.
    pub fn names(&self) -> &[String]
        ensures names { names_of result.now ≡ self.now.names }
        ensures ascending { IsAscending (names_of result.now) }
    {
        self.names.as_slice()
    }

    /// Marks each name that is certainly known in the first environment and not in the second. The
    /// marks stand beside the table's names. It goes only where the two differ.
    pub fn mark_lost(&self, before: Environment, after: Environment, mark: u32, marks: &mut [u32])
        requires before { Stands self.now before }
        requires after { Stands self.now after }
        requires beside { length marks.old ≡ length self.now.names }
        ensures { marks.new ≡ lost_marks mark (exit_of self.now before) (exit_of self.now after)
            self.now.names marks.old }
    {
        match (before.root, after.root) {
            (Some(low), Some(high)) => tree::mark_lost(&self.nodes, low, high, mark, marks),
            (Some(low), None) => tree::mark_lost(&self.nodes, low, self.nodes.bare(), mark, marks),
            _ => {}
        }
    }

    /// The environment in which nothing is known.
    pub fn empty(&self) -> Environment
        ensures stands { Stands self.now result }
        ensures means { exit_of self.now result ≡ live no_slots }
    {
        let _names = &self.names;
        Environment {
            root: Some(self.nodes.bare()),
        }
    }

    /// Whether the table is over the name.
    pub fn has_name(&self, name: &str) -> bool
        ensures { result ≡ is_among name.now self.now.names }
    {
        tree::has(&self.names, name)
    }

    /// What is known of a name.
    pub fn slot(&self, at: Environment, name: &str) -> Option<&Slot<Kind>>
        requires { Stands self.now at }
        ensures { spot_view result ≡ spot_in name.now (exit_of self.now at) }
    {
        self.find(at, name)
    }

    /// What is known of a name, where the environment's tree is over the table's names, as is that
    /// of one that stands.
    pub fn find(&self, at: Environment, name: &str) -> Option<&Slot<Kind>>
        requires { is_over self.now at ≡ true }
        ensures { spot_view result ≡ spot_in name.now (exit_of self.now at) }
    {
        match at.root {
            None => None,
            Some(place) => tree::find(&self.nodes, place, &self.names, name),
        }
    }

    /// The environment with that slot in place of what was known of the name.
    ///
    /// # Errors
    ///
    /// Want of memory.
    pub fn with(
        &mut self,
        at: Environment,
        name: &str,
        slot: Slot<Kind>,
    ) -> Result<Environment, AllocError>
        requires stands { Stands self.old at }
        requires among { is_among name.now self.old.names ≡ true }
        requires well { Well (kind_view slot.kind) }
        ensures kept { IsKept self.old self.new }
        ensures stands { IfOk result (λ e. Stands self.new e) }
        ensures put { IfOk result (λ e. exit_of self.new e ≡ put_in name.now
            (is_always slot.presence) (kind_view slot.kind) (exit_of self.old at)) }
    {
        let Some(place) = at.root else {
            return Ok(at);
        };
        let root = tree::put(&mut self.nodes, place, &self.names, name, slot)?;
        Ok(Environment { root: Some(root) })
    }

    /// The environment in which of each of these names is known what its slot says, and nothing
    /// else. It costs two nodes a name or fewer where the table is over these names alone.
    ///
    /// # Errors
    ///
    /// Want of memory, also where the table isn't over one of the names.
    pub fn of_slots(&mut self, alloc: Global, slots: &Slots) -> Result<Environment, AllocError>
        requires { Well (recs (slots_view slots.now.entries)) }
        ensures kept { IsKept self.old self.new }
        ensures stands { IfOk result (λ e. Stands self.new e) }
        ensures means { IfOk result (λ e. exit_of self.new e
            ≡ live (slots_view slots.now.entries)) }
    {
        let root = bulk::tree_of(alloc, &mut self.nodes, &self.names, slots)?;
        Ok(Environment { root: Some(root) })
    }
}

/// The least environment above both.
///
/// # Errors
///
/// Want of memory.
pub fn join(
    alloc: Global,
    space: &mut Environments,
    first: Environment,
    second: Environment,
) -> Result<Environment, AllocError>
    requires first { Stands space.old first }
    requires second { Stands space.old second }
    ensures kept { IsKept space.old space.new }
    ensures stands { IfOk result (λ e. Stands space.new e) }
    ensures above { IfOk result (λ e. ExitLe (exit_of space.old first) (exit_of space.new e)
        × ExitLe (exit_of space.old second) (exit_of space.new e)) }
    ensures least { IfOk result (λ e. (x : Exit) → WellExit x → ExitLe (exit_of space.old first) x
        → ExitLe (exit_of space.old second) x → ExitLe (exit_of space.new e) x) }
{
    match (first.root, second.root) {
        (Some(low), Some(high)) => {
            let root = tree::join_trees(alloc, &mut space.nodes, low, high)?;
            Ok(Environment { root: Some(root) })
        }
        (None, _) => Ok(second),
        _ => Ok(first),
    }
}

/// Whether the first is below the second: name by name, what is certain in the second is certain in
/// the first, and each kind is below.
pub fn is_below(space: &Environments, first: Environment, second: Environment) -> bool
    requires first { Stands space.now first }
    requires second { Stands space.now second }
    ensures { IsTrue result ↔ ExitLe (exit_of space.now first) (exit_of space.now second) }
{
    match (first.root, second.root) {
        (Some(low), Some(high)) => tree::is_below(&space.nodes, low, high),
        (None, _) => true,
        _ => false,
    }
}
