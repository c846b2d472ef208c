// Values in an order, any two of which have a least value above both.
ghost use Rattle.std.specs.Prelude.{◌↔◌, IfOk, IsTrue};
ghost use Rattle.pb_lattice.specs.Space.{Extends};

use std::alloc::{AllocError, Global};

/// Values with an order and joins. Values may share their parts in a space, and the order is of
/// what a value means there. The laws are of well-formed meanings.
pub trait Lattice: Sized {
    /// Where values share their parts. A call may extend it.
    type Space;

    /// What may be done to a meaning.
    type Step;

    /// What values mean.
    ghost Meaning: { Type 0 };

    /// What the value means in the space.
    ghost meaning: { Self.Space → Self → Meaning };

    /// The value stands in the space, well formed.
    ghost stands: { Self.Space → Self → Type 0 };

    /// The meaning is well formed.
    ghost well: { Meaning → Type 0 };

    /// The first is at most the second.
    ghost below: { Meaning → Meaning → Type 0 };

    /// Both come to the same.
    ghost same: { Meaning → Meaning → Type 0 };

    /// What a step makes of a meaning.
    ghost carried: { Self.Step → Meaning → Meaning };

    /// The lowest value.
    fn bottom(space: &Self::Space) -> Self
        ensures stands { stands space.now result }
        ensures lowest { (m : Meaning) → well m → below (meaning space.now result) m };

    /// The least value above both.
    ///
    /// # Errors
    ///
    /// Want of memory.
    fn join(&self, alloc: Global, other: &Self, space: &mut Self::Space) -> Result<Self, AllocError>
        requires first { stands space.old self.now }
        requires second { stands space.old other.now }
        ensures kept { Extends stands meaning space.old space.new }
        ensures stands { IfOk result (stands space.new) }
        ensures above { IfOk result (λ j. below (meaning space.old self.now) (meaning space.new j)
            × below (meaning space.old other.now) (meaning space.new j)) }
        ensures least { IfOk result (λ j. (m : Meaning) → well m
            → below (meaning space.old self.now) m → below (meaning space.old other.now) m
            → below (meaning space.new j) m) };

    /// Whether it is at most the other.
    fn le(&self, other: &Self, space: &Self::Space) -> bool
        requires first { stands space.now self.now }
        requires second { stands space.now other.now }
        ensures { IsTrue result
            ↔ below (meaning space.now self.now) (meaning space.now other.now) };

    /// Law: what stands has a well-formed meaning.
    fn stands_well()
        ensures { (s : Self.Space) (v : Self) → stands s v → well (meaning s v) };

    /// Law: a well-formed meaning is below itself.
    fn below_itself()
        ensures { (a : Meaning) → well a → below a a };

    /// Law: what is below a meaning is below each meaning above that one.
    fn below_through()
        ensures { (a b c : Meaning) → well a → well b → well c
            → below a b → below b c → below a c };

    /// Law: meanings that are below each other come to the same.
    fn same_both_ways()
        ensures { (a b : Meaning) → well a → well b → below a b → below b a → same a b };
}
