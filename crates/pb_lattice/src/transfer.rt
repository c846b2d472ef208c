// What becomes of values along the edges of a graph.
ghost use Rattle.std.specs.Prelude.{◌<◌, ℕ, IfOk};
ghost use Rattle.pb_lattice.specs.Space.{Extends};

use crate::lattice::Lattice;
use std::alloc::{AllocError, Global};

/// A step for each of so many edges, and the call that takes it. The laws say that a greater
/// meaning becomes a greater one, and that a well-formed one stays so.
pub trait Transfer<L: Lattice> {
    /// For how many edges it is.
    ghost edges: { Self → ℕ };

    /// The step along an edge.
    ghost step: { Self → ℕ → L.Step };

    /// What the value becomes along the edge.
    ///
    /// # Errors
    ///
    /// Want of memory.
    fn along(
        &self,
        alloc: Global,
        edge: usize,
        at: &L,
        space: &mut L::Space,
    ) -> Result<L, AllocError>
        requires edge { edge < edges self.now }
        requires stands { L.stands space.old at.now }
        ensures kept { Extends L.stands L.meaning space.old space.new }
        ensures stands { IfOk result (L.stands space.new) }
        ensures at_most { IfOk result (λ v. L.below (L.meaning space.new v)
            (L.carried (step self.now edge) (L.meaning space.old at.now))) }
        ensures at_least { IfOk result (λ v. L.below
            (L.carried (step self.now edge) (L.meaning space.old at.now))
            (L.meaning space.new v)) };

    /// Law: of what is greater, something greater becomes.
    fn goes_up()
        ensures { (t : Self) (e : ℕ) (a b : L.Meaning) → e < edges t → L.well a → L.well b
            → L.below a b → L.below (L.carried (step t e) a) (L.carried (step t e) b) };

    /// Law: what is well formed stays so.
    fn stays_well()
        ensures { (t : Self) (e : ℕ) (a : L.Meaning) → e < edges t → L.well a
            → L.well (L.carried (step t e) a) };
}
