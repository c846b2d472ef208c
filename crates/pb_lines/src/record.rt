// The calls that were made of a file, which clauses alone read: no memory holds them.
ghost use Rattle.std.specs.Prelude.{◌≡◌, ◌∷◌, List};
ghost use Rattle.std.specs.Borrow.{ftrue};
ghost use Rattle.pb_lines.specs.Events.{Event, IsFresh, event_of};

use std::marker::{Model, PhantomData};

/// The calls that were made of a file since it was opened, the newest first.
#[derive(Drop)]
pub struct Record {
    marker: PhantomData<u8>,
    pub ghost events: { List Event },
}

impl Model for Record {
    ghost also_owns = { λ _. ftrue };
}

impl Record {
    // Of a file that is opened. What it held nobody is told, so that it may have been anything.
    pub(crate) fn new() -> Record
        ensures { IsFresh result.events }
    {
        Record {
            marker: PhantomData,
        }
    }

    // One call more: which it was, a place or a length, a count, and 1 where it was done.
    pub(crate) fn note(&mut self, _numbers: &[u64], _bytes: &[u8])
        ensures { self.new.events ≡ event_of _numbers.now _bytes.now ∷ self.old.events }
    {}
}
