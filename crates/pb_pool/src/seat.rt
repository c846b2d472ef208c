// A place at a board, and what it counts.
ghost use Rattle.std.specs.Prelude.{◌+◌, ◌<◌, ◌^◌, ◌≡◌, ◌≤◌};
ghost use Rattle.pb_pool.specs.Seats.{none};

use std::marker::Model;
use std::sync::ledger::{Book, Ledger, Share};

/// A place at a board, for one worker. Contracts see how many calls were handed to it, and how many
/// jobs it answered.
#[derive(Drop)]
pub struct Seat<C: Ledger, G: Ledger> {
    pub(crate) calls: Share<C>,
    pub(crate) gives: Share<G>,
    pub(crate) handed: u64,
    pub(crate) given: u64,
}

impl<C: Ledger, G: Ledger> Model for Seat<C, G> {
    ghost use Rattle.std.specs.Prelude.{◌≡◌};
    ghost use Rattle.pb_pool.specs.Seats.{Counts};

    ghost Value = { Counts };

    ghost view = { λ s. record { handed = s.handed; given = s.given } };

    ghost invariant = { λ s. (s.calls.parts ≡ 1) × (s.gives.parts ≡ 1)
        × (s.calls.amount ≡ s.handed) × (s.gives.amount ≡ s.given) };
}

impl<C: Ledger, G: Ledger> Seat<C, G> {
    /// How many calls were handed to it.
    pub fn handed(&self) -> u64
        ensures { result ≡ self.now.handed }
    {
        self.handed
    }

    /// How many jobs it answered.
    pub fn given(&self) -> u64
        ensures { result ≡ self.now.given }
    {
        self.given
    }

    // A seat that counted nothing, with a part of each share.
    pub(crate) fn cut(calls: &mut Share<C>, gives: &mut Share<G>) -> Seat<C, G>
        requires parts { (0 < calls.old.parts) × (0 < gives.old.parts) }
        requires amounts { (calls.old.amount ≡ 0) × (gives.old.amount ≡ 0) }
        ensures seat { result ≡ none }
        ensures calls { (calls.new.parts + 1 ≡ calls.old.parts) × (calls.new.amount ≡ 0) }
        ensures gives { (gives.new.parts + 1 ≡ gives.old.parts) × (gives.new.amount ≡ 0) }
    {
        Seat {
            calls: calls.split_off(1, 0),
            gives: gives.split_off(1, 0),
            handed: 0,
            given: 0,
        }
    }

    // So many calls more were handed to it.
    pub(crate) fn count_calls(&mut self, book: &mut Book<C>, calls: u64)
        requires { book.old.total + calls < 2 ^ 64 }
        ensures seat { self.new ≡ record self.old { handed = self.old.handed + calls } }
        ensures total { book.new.total ≡ book.old.total + calls }
        ensures bound { self.new.handed ≤ book.new.total }
    {
        book.add(&mut self.calls, calls);
        book.audit(&mut self.calls);
        self.handed += calls;
    }

    // It answered a job more.
    pub(crate) fn count_give(&mut self, book: &mut Book<G>)
        requires { book.old.total + 1 < 2 ^ 64 }
        ensures seat { self.new ≡ record self.old { given = self.old.given + 1 } }
        ensures total { book.new.total ≡ book.old.total + 1 }
    {
        book.add(&mut self.gives, 1);
        book.audit(&mut self.gives);
        self.given += 1;
    }

    // Gives its shares up.
    pub(crate) fn into_shares(self) -> (Share<C>, Share<G>)
        ensures calls { (result.0.parts ≡ 1) × (result.0.amount ≡ self.handed) }
        ensures gives { (result.1.parts ≡ 1) × (result.1.amount ≡ self.given) }
    {
        let Seat {
            calls,
            gives,
            handed: _,
            given: _,
        } = self;
        (calls, gives)
    }
}
