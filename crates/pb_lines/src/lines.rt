// A file of lines. A record is a gate, a line and a newline. It counts if its gate is open and it
// is whole. A closed gate stands behind the last record, on the disk before anything is written
// behind it.
ghost use Rattle.std.specs.Prelude.{[], ◌+◌, ◌++◌, ◌<◌, ◌^◌, ◌≡◌, ◌≤◌, ◌↔◌, ◌∷◌, IfOk, IsErrOf};
ghost use Rattle.std.specs.Prelude.{IsTrue, OnOk, length};
ghost use Rattle.pb_lines.specs.Device.{LeavesOnly};
ghost use Rattle.pb_lines.specs.Lines.{AreLines, IsAllOrNone, IsBeforeOrAfter, IsLine, IsPrefixOf};
ghost use Rattle.pb_lines.specs.Lines.{IsSettled, at_rest, lines_of, records, recovered};

use crate::device::Device;
use crate::fault::LinesFault;
use std::alloc::{AllocError, Global};

// A blank, so that a file can be read by other programs, line by line.
pub(crate) const OPEN: u8 = 0x20;

pub(crate) const CLOSED: u8 = b'#';

pub(crate) const NEWLINE: u8 = b'\n';

/// How long a line may be.
pub const MAX_LINE: usize = 1 << 24;

pub(crate) const MAX_END: usize = 1 << 60;

/// A file of lines. `end` is the place of its closed gate.
#[derive(Drop)]
pub struct Lines<D: Device> {
    pub device: D,
    pub end: usize,
}

/// Whether the bytes can be a line: none of them is a newline.
pub fn is_line(bytes: &[u8]) -> bool
    ensures { IsTrue result ↔ IsLine bytes.now }
{
    bytes.iter().all(|byte| *byte != NEWLINE)
}

impl<D: Device> Lines<D> {
    /// Adds a line. At `Ok` it is acknowledged: from then on each crash leaves a file that has it.
    /// At `Err`, open the file again.
    pub fn append(&mut self, alloc: Global, line: &[u8]) -> Result<(), LinesFault>
        requires settled { IsSettled D.honest D.seen D.may_leave self.old }
        requires line { IsLine line.now }
        requires short { length line.now ≤ MAX_LINE }

        ensures acknowledged { OnOk result (IsSettled D.honest D.seen D.may_leave self.new
            × (D.honest self.new.device → recovered (D.seen self.new.device)
            ≡ recovered (D.seen self.old.device) ++ line.now ∷ [])
            × (self.new.end ≡ self.old.end + length line.now + 2)) }

        // A crash at any moment of the call leaves the lines from before it, with the new one or
        // without.
        ensures any_moment { D.honest self.new.device
            → LeavesOnly D.moment D.left_since self.old.device self.new.device
            (IsBeforeOrAfter (recovered (D.seen self.old.device)) line.now) }

        ensures honest { D.honest self.new.device → D.honest self.old.device }

        // It doesn't give up by itself.
        ensures failed { IsErrOf result LinesFault.Failed
            → D.faults self.old.device < D.faults self.new.device }
        ensures limits { (IsErrOf result LinesFault.Full → 2 ^ 60 ≤ self.old.end)
            × (IsErrOf result LinesFault.TooLong → ⊥) }
        ensures later { D.faults self.old.device ≤ D.faults self.new.device }
    {
        if self.end >= MAX_END {
            return Err(LinesFault::Full);
        }
        let text = closed_behind(alloc, line)?;
        self.device.write_at(self.end + 1, &text)?;
        self.device.sync()?;
        self.device.write_at(self.end, &[OPEN])?;
        self.device.sync()?;
        self.end += line.len() + 2;
        Ok(())
    }

    /// Adds the lines all at once, for what one line costs. At `Ok` they are acknowledged. A crash
    /// at any moment leaves all of them or none. At `Err`, open the file again.
    pub fn append_together(&mut self, alloc: Global, lines: &[Vec<u8>]) -> Result<(), LinesFault>
        requires settled { IsSettled D.honest D.seen D.may_leave self.old }
        requires lines { AreLines (lines_of lines.now) }

        ensures acknowledged { OnOk result (IsSettled D.honest D.seen D.may_leave self.new
            × (D.honest self.new.device → recovered (D.seen self.new.device)
            ≡ recovered (D.seen self.old.device) ++ lines_of lines.now)) }

        ensures any_moment { D.honest self.new.device
            → LeavesOnly D.moment D.left_since self.old.device self.new.device
            (IsAllOrNone (recovered (D.seen self.old.device)) (lines_of lines.now)) }

        ensures honest { D.honest self.new.device → D.honest self.old.device }

        // It doesn't give up by itself.
        ensures failed { IsErrOf result LinesFault.Failed
            → D.faults self.old.device < D.faults self.new.device }
        ensures limits { (IsErrOf result LinesFault.Full → 2 ^ 60 ≤ self.old.end)
            × (IsErrOf result LinesFault.TooLong → ⊥) }
        ensures later { D.faults self.old.device ≤ D.faults self.new.device }
    {
        if lines.is_empty() {
            return Ok(());
        }
        if self.end >= MAX_END {
            return Err(LinesFault::Full);
        }
        let whole = records_of(alloc, lines)?;
        let text = &whole[1..];
        let gate = self.end;
        self.device.write_at(gate + 1, text)?;
        self.device.sync()?;
        self.device.write_at(gate, &[OPEN])?;
        self.device.sync()?;
        self.end += text.len();
        Ok(())
    }

    /// Adds the lines, one after the other, each acknowledged before the next is written. A crash
    /// at any moment leaves the first of them.
    pub fn append_all(&mut self, alloc: Global, lines: &[Vec<u8>]) -> Result<(), LinesFault>
        requires settled { IsSettled D.honest D.seen D.may_leave self.old }
        requires lines { AreLines (lines_of lines.now) }

        ensures acknowledged { OnOk result (IsSettled D.honest D.seen D.may_leave self.new
            × (D.honest self.new.device → recovered (D.seen self.new.device)
            ≡ recovered (D.seen self.old.device) ++ lines_of lines.now)) }

        ensures any_moment { D.honest self.new.device
            → LeavesOnly D.moment D.left_since self.old.device self.new.device
            (IsPrefixOf (recovered (D.seen self.old.device)) (lines_of lines.now)) }

        ensures honest { D.honest self.new.device → D.honest self.old.device }

        // It doesn't give up by itself.
        ensures failed { IsErrOf result LinesFault.Failed
            → D.faults self.old.device < D.faults self.new.device }
        ensures limits { (IsErrOf result LinesFault.Full
            → 2 ^ 60 ≤ self.old.end + length (records (lines_of lines.now)))
            × (IsErrOf result LinesFault.TooLong → ⊥) }
        ensures later { D.faults self.old.device ≤ D.faults self.new.device }
    {
        for line in lines {
            self.append(alloc, line)?;
        }
        Ok(())
    }
}

// What is written behind a closed gate: the line, its newline, and the next closed gate.
fn closed_behind(alloc: Global, line: &[u8]) -> Result<Vec<u8>, AllocError>
    ensures { IfOk result (λ text. text.items ≡ line.now ++ 10 ∷ 35 ∷ []) }
{
    let mut text = line.to_vec(alloc)?;
    text.push(NEWLINE)?;
    text.push(CLOSED)?;
    Ok(text)
}

// Open records of the lines, and a closed gate behind them.
fn records_of(alloc: Global, lines: &[Vec<u8>]) -> Result<Vec<u8>, AllocError>
    ensures { IfOk result (λ whole. whole.items ≡ at_rest (lines_of lines.now)) }
{
    let mut whole = Vec::new(alloc);
    for line in lines {
        whole.push(OPEN)?;
        whole.extend_from_slice(line)?;
        whole.push(NEWLINE)?;
    }
    whole.push(CLOSED)?;
    Ok(whole)
}
