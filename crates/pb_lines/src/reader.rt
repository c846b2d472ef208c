// A file of lines that is read, one line at a time, in no more memory than a few of its longest
// lines take.
ghost use Rattle.std.specs.Prelude.{◌≡◌, ◌<◌, ◌≤◌, ◌+◌, ◌^◌, ◌++◌, [], ◌∷◌, length, drop};
ghost use Rattle.std.specs.Prelude.{IfErr, IfOk, IsErrOf, MatchOption, OnErr, OnOk, false, true};
ghost use Rattle.pb_lines.specs.Device.{LeavesOnly, Only, OnlyReads};
ghost use Rattle.pb_lines.specs.Lines.{IsLine, IsSettled, at_rest, records, recovered};
ghost use Rattle.pb_lines.specs.Reader.{Finds, IsLong, IsReading, bytes_left, device_of};
ghost use Rattle.pb_lines.specs.Reader.{lines_left, place_of, unread_of};

use crate::device::Device;
use crate::fault::LinesFault;
use crate::lines::{CLOSED, Lines, MAX_END, MAX_LINE, NEWLINE, OPEN};
use std::alloc::Global;

// How many bytes are read at once, but where a line is longer.
const BLOCK: usize = 1 << 16;

/// A file of lines that a crash may have left. Read its lines, and then `finish`.
#[derive(Drop)]
pub struct LineReader<D: Device> {
    device: D,
    // What stands in the file from the place on, of which so many bytes are given.
    block: Vec<u8>,
    place: usize,
    given: usize,
}

impl<D: Device> LineReader<D> {
    /// A reader in front of the first line.
    pub fn new(alloc: Global, device: D) -> LineReader<D>
        // After a restart, what is there is what is on the disk.
        requires { Only (D.seen device) (D.may_leave device) }
        ensures reading { IsReading D.honest D.seen D.may_leave result }
        ensures device { device_of result ≡ device }
        ensures lines { lines_left D.seen result ≡ recovered (D.seen device) }
    {
        LineReader {
            device,
            block: Vec::new(alloc),
            place: 0,
            given: 0,
        }
    }

    /// The next line; none behind the last.
    ///
    /// # Errors
    ///
    /// Want of memory, a device that fails, a line longer than `MAX_LINE`, or a file longer than
    /// one may be. The same lines are left then.
    pub fn next_line(&mut self, alloc: Global) -> Result<Option<Vec<u8>>, LinesFault>
        requires { IsReading D.honest D.seen D.may_leave self.old }
        ensures reading { IsReading D.honest D.seen D.may_leave self.new }
        ensures line { IfOk result (λ found. D.honest (device_of self.new)
            → Finds (lines_left D.seen self.old) found (lines_left D.seen self.new)) }
        ensures err { OnErr result (lines_left D.seen self.new ≡ lines_left D.seen self.old) }
        ensures reads { OnlyReads D.honest D.seen D.moment D.left_since D.faults
            (device_of self.old) (device_of self.new) }
        ensures failed { IsErrOf result LinesFault.Failed
            → D.faults (device_of self.old) < D.faults (device_of self.new) }
        // It doesn't give up by itself.
        ensures limits { (IsErrOf result LinesFault.TooLong → D.honest (device_of self.new)
            → IsLong (bytes_left D.seen self.old))
            × (IsErrOf result LinesFault.Full → D.honest (device_of self.new)
            → 2 ^ 60 ≤ length (D.seen (device_of self.old))) }
    {
        loop {
            if let Some((gate, text)) = self.unread().split_first() {
                if *gate != OPEN {
                    return Ok(None);
                }
                if let Some(line) = up_to_newline(text) {
                    if line.len() > MAX_LINE {
                        return Err(LinesFault::TooLong);
                    }
                    let line = line.to_vec(alloc)?;
                    self.given += line.len() + 2;
                    return Ok(Some(line));
                }
                if text.len() > MAX_LINE {
                    return Err(LinesFault::TooLong);
                }
            }
            if !self.read_more(alloc)? {
                return Ok(None);
            }
        }
    }

    // What of the block isn't given yet.
    #[tactic(auto, using(crate::proofs::Reading::rest_of_block))]
    fn unread(&self) -> &[u8]
        requires { self.now.given ≤ length self.now.block.items }
        ensures { result.now ≡ drop self.now.given self.now.block.items }
    {
        &self.block[self.given..]
    }

    // Reads on behind the block; false at the end of the file.
    fn read_more(&mut self, alloc: Global) -> Result<bool, LinesFault>
        requires { IsReading D.honest D.seen D.may_leave self.old }
        ensures reading { IsReading D.honest D.seen D.may_leave self.new }
        ensures place { place_of self.new ≡ place_of self.old }
        ensures more { IfOk result (λ more. (more ≡ true → unread_of self.old < unread_of self.new)
            × (more ≡ false → D.honest (device_of self.new)
            → bytes_left D.seen self.old ≡ drop self.old.given self.old.block.items)) }
        ensures reads { OnlyReads D.honest D.seen D.moment D.left_since D.faults
            (device_of self.old) (device_of self.new) }
        ensures failed { IsErrOf result LinesFault.Failed
            → D.faults (device_of self.old) < D.faults (device_of self.new) }
        ensures limits { (IsErrOf result LinesFault.TooLong → ⊥)
            × (IsErrOf result LinesFault.Full
            → 2 ^ 60 ≤ self.old.place + length self.old.block.items) }
    {
        let end = self.place + self.block.len();
        if end >= MAX_END {
            return Err(LinesFault::Full);
        }
        let most = self.unread().len().max(BLOCK);
        let bytes = self.device.read_at(alloc, end, most)?;
        if bytes.is_empty() {
            return Ok(false);
        }
        let mut block = self.unread().to_vec(alloc)?;
        block.extend_from_slice(&bytes)?;
        self.block = block;
        self.place += self.given;
        self.given = 0;
        Ok(true)
    }

    /// The file, ready for more lines behind those that were read: its end is cut and closed, which
    /// a crash may break off at any moment, and then the file has the same lines.
    ///
    /// # Errors
    ///
    /// A device that fails: it comes back.
    pub fn finish(self) -> Result<Lines<D>, (LinesFault, D)>
        requires reading { IsReading D.honest D.seen D.may_leave self }
        requires over { D.honest (device_of self) → lines_left D.seen self ≡ [] }
        ensures settled { IfOk result (λ file. IsSettled D.honest D.seen D.may_leave file) }
        ensures same { IfOk result (λ file. D.honest file.device → D.honest (device_of self)
            × (recovered (D.seen file.device) ≡ recovered (D.seen (device_of self)))) }
        ensures any_moment { D.honest (device_of self) → IfOk result
            (λ file. LeavesOnly D.moment D.left_since (device_of self) file.device
            (λ c. recovered c ≡ recovered (D.seen (device_of self)))) }
        ensures any_moment_err { D.honest (device_of self) → IfErr result
            (λ e. LeavesOnly D.moment D.left_since (device_of self) e.1
            (λ c. recovered c ≡ recovered (D.seen (device_of self)))) }
        ensures failed { IfErr result (λ e. e.0 ≡ LinesFault.Failed
            → D.faults (device_of self) < D.faults e.1) }
        ensures limits { IfErr result (λ e. (e.0 ≡ LinesFault.Full → ⊥)
            × (e.0 ≡ LinesFault.TooLong → ⊥)) }
    {
        let LineReader {
            mut device,
            block: _,
            place,
            given,
        } = self;
        let end = place + given;
        match repair(&mut device, end) {
            Ok(()) => Ok(Lines { device, end }),
            Err(fault) => Err((fault, device)),
        }
    }
}

// The text up to the first newline; none where there is no newline.
fn up_to_newline(text: &[u8]) -> Option<&[u8]>
    ensures { MatchOption result (IsLine text.now) (λ line. IsLine line.now
        × (text.now ≡ line.now ++ 10 ∷ drop (length line.now + 1) text.now)) }
{
    for (i, byte) in text.iter().enumerate() {
        if *byte == NEWLINE {
            return Some(&text[..i]);
        }
    }
    None
}

// Cuts the file behind its records, and closes it.
fn repair<D: Device>(device: &mut D, end: usize) -> Result<(), LinesFault>
    requires durable { Only (D.seen device.old) (D.may_leave device.old) }
    requires end { D.honest device.old
        → end ≡ length (records (recovered (D.seen device.old))) }
    ensures settled { OnOk result (Only (D.seen device.new) (D.may_leave device.new)
        × (D.honest device.new
        → D.seen device.new ≡ at_rest (recovered (D.seen device.old)))) }
    ensures any_moment { D.honest device.old
        → LeavesOnly D.moment D.left_since device.old device.new
        (λ c. recovered c ≡ recovered (D.seen device.old)) }
    ensures honest { D.honest device.new → D.honest device.old }
    ensures failed { IsErrOf result LinesFault.Failed → D.faults device.old < D.faults device.new }
    ensures limits { (IsErrOf result LinesFault.Full → ⊥)
        × (IsErrOf result LinesFault.TooLong → ⊥) }
{
    device.cut(end)?;
    // The cut has to be on the disk first: behind a gate that is torn open, what was there would
    // count.
    device.sync()?;
    device.write_at(end, &[CLOSED])?;
    device.sync()?;
    Ok(())
}
