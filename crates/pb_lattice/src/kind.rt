// Kinds are a lattice.
ghost use Rattle.std.specs.Prelude.{◌≡◌, ◌↔◌, IfOk, IsTrue};
ghost use Rattle.pb_semantics.specs.Kind.{KindData};
ghost use Rattle.pb_semantics.specs.Well.{Well};
ghost use Rattle.pb_semantics.specs.Words.{join as join_of};
ghost use Rattle.pb_kind.specs.Words.{kind_view};
ghost use Rattle.pb_lattice.specs.KindOrder.{HaveSameValues, IsBelow, IsWell};

use crate::lattice::Lattice;
use pb_kind::Kind;
use pb_kind::below::below;
use pb_kind::join::join;
use std::alloc::{AllocError, Global};

/// A kind is below another where each of its values is one of that, as far as the kinds tell. Two
/// kinds come to the same where they have the same values: the order of the names and the cases in
/// them may differ. A kind shares no part in a space, and there are no steps: it stays as it is.
impl Lattice for Kind {
    type Space = ();

    type Step = ();

    ghost Meaning = { KindData };

    ghost meaning = { λ _ k. kind_view k };

    ghost stands = { λ _ k. IsWell k };

    ghost well = { Well };

    ghost below = { IsBelow };

    ghost same = { HaveSameValues };

    ghost carried = { λ _ k. k };

    fn bottom(_space: &()) -> Kind {
        Kind::Never
    }

    fn join(&self, alloc: Global, other: &Kind, space: &mut ()) -> Result<Kind, AllocError>
        requires first { IsWell self.now }
        requires second { IsWell other.now }
        ensures joined { IfOk result (λ j. kind_view j
            ≡ join_of (kind_view self.now) (kind_view other.now)) }
        ensures stands { IfOk result IsWell }
        ensures above { IfOk result (λ j. IsBelow (kind_view self.now) (kind_view j)
            × IsBelow (kind_view other.now) (kind_view j)) }
        ensures least { IfOk result (λ j. (k : KindData) → Well k → IsBelow (kind_view self.now) k
            → IsBelow (kind_view other.now) k → IsBelow (kind_view j) k) }
    {
        join(alloc, self, other)
    }

    fn le(&self, other: &Kind, _space: &()) -> bool
        ensures { IsTrue result ↔ IsBelow (kind_view self.now) (kind_view other.now) }
    {
        below(self, other)
    }

    fn stands_well() {}

    fn below_itself() {}

    fn below_through() {}

    fn same_both_ways() {}
}
