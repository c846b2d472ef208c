// A file as its lines see it: what a read returns, and what a crash may leave.
ghost use Rattle.std.specs.Prelude.{◌≡◌, ◌≤◌, IfOk, List, OnOk, drop, length, take, ℕ};
ghost use Rattle.pb_lines.specs.Device.{Cut, Elapses, Follows, HasCause, Holds, Only, Torn};

use crate::fault::LinesFault;
use std::alloc::Global;

/// A file of bytes, with what a crash may leave of it.
pub trait Device {
    /// The bytes that are there.
    ghost seen: { Self → List ℕ };

    /// What a crash at this moment may leave.
    ghost may_leave: { Self → List ℕ → Type 0 };

    /// The moment, as a number that doesn't fall.
    ghost moment: { Self → ℕ };

    /// What a crash at some moment from that one on might have left, during a call or between two.
    ghost left_since: { Self → ℕ → List ℕ → Type 0 };

    /// How often the disk has failed.
    ghost faults: { Self → ℕ };

    /// No read has given bytes other than those that are there. No code can tell, so what is said
    /// of lines rests on it, and nothing else does.
    ghost honest: { Self → Type 0 };

    /// The bytes from a place on: so many, or all that are there.
    fn read_at(&mut self, alloc: Global, at: usize, most: usize) -> Result<Vec<u8>, LinesFault>
        ensures bytes { IfOk result (λ bytes. honest self.new
            → bytes.items ≡ take most (drop at (seen self.old))) }
        ensures seen { seen self.new ≡ seen self.old }
        ensures honest { honest self.new → honest self.old }
        ensures crash { (c : List ℕ) → may_leave self.new c → may_leave self.old c }
        ensures time { Elapses (moment self.old) (moment self.new) (left_since self.old)
            (left_since self.new) (may_leave self.new) }
        ensures cause { HasCause (faults self.old) (faults self.new) result };

    /// Writes over what is there, and past the end. Until a sync, a crash may leave any bytes in
    /// the range. Of a place past the end nothing is said.
    fn write_at(&mut self, at: usize, bytes: &[u8]) -> Result<(), LinesFault>
        ensures written { OnOk result (at ≤ length (seen self.old)
            → Holds (seen self.old) at bytes.now (seen self.new)) }
        ensures honest { honest self.new → honest self.old }
        ensures crash { at ≤ length (seen self.old)
            → Follows (Torn at (length bytes.now)) (may_leave self.old) (may_leave self.new) }
        ensures time { Elapses (moment self.old) (moment self.new) (left_since self.old)
            (left_since self.new) (may_leave self.new) }
        ensures cause { HasCause (faults self.old) (faults self.new) result };

    /// Cuts the file to a length. Of one past the end nothing is said.
    fn cut(&mut self, len: usize) -> Result<(), LinesFault>
        ensures cut { OnOk result (len ≤ length (seen self.old)
            → seen self.new ≡ take len (seen self.old)) }
        ensures honest { honest self.new → honest self.old }
        ensures crash { len ≤ length (seen self.old)
            → Follows (Cut len) (may_leave self.old) (may_leave self.new) }
        ensures time { Elapses (moment self.old) (moment self.new) (left_since self.old)
            (left_since self.new) (may_leave self.new) }
        ensures cause { HasCause (faults self.old) (faults self.new) result };

    /// After it, a crash leaves what is there.
    fn sync(&mut self) -> Result<(), LinesFault>
        ensures durable { OnOk result (Only (seen self.old) (may_leave self.new)) }
        ensures seen { seen self.new ≡ seen self.old }
        ensures honest { honest self.new → honest self.old }
        ensures crash { (c : List ℕ) → may_leave self.new c → may_leave self.old c }
        ensures time { Elapses (moment self.old) (moment self.new) (left_since self.old)
            (left_since self.new) (may_leave self.new) }
        ensures cause { HasCause (faults self.old) (faults self.new) result };

    /// This moment is one of those since an earlier one.
    ghost counts_now: { (file : Self) (t : ℕ) (c : List ℕ) → t ≤ moment file → may_leave file c
        → left_since file t c };

    /// Since this moment there is no other.
    ghost only_now: { (file : Self) (c : List ℕ) → left_since file (moment file) c
        → may_leave file c };
}
