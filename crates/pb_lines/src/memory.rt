// A file in memory. Each call is done at once, so a crash leaves what is there. It keeps each past
// content, and the calls that were made of it, from which a test makes what a crash of a disk may
// leave.
ghost use Rattle.std.specs.Prelude.{[], ◌++◌, ◌≡◌, ◌⊎◌, ◌∷◌, OnErr, OnOk, drop, length, ⊤};
ghost use Rattle.pb_lines.specs.Past.{HadBeen, bytes_now, only_bytes};

use crate::device::Device;
use crate::fault::LinesFault;
use std::alloc::{AllocError, Global};

/// A call that was made of a file.
#[derive(Drop)]
pub enum Call {
    Write { at: usize, bytes: Vec<u8> },
    Cut { len: usize },
    Sync,
}

/// A file in memory, with the calls that were made of it.
#[derive(Drop)]
pub struct Memory {
    alloc: Global,
    bytes: Vec<u8>,
    past: Vec<Vec<u8>>,
    calls: Vec<Call>,
}

impl Memory {
    ghost use Rattle.pb_lines.specs.Memory.{memory_bytes};

    /// A file with these bytes, all of them on the disk.
    pub fn new(alloc: Global, bytes: Vec<u8>) -> Self
        ensures { memory_bytes result ≡ bytes.items }
    {
        Memory {
            alloc,
            bytes,
            past: Vec::new(alloc),
            calls: Vec::new(alloc),
        }
    }

    /// The bytes that are there.
    pub fn bytes(&self) -> &[u8]
        ensures { result.now ≡ memory_bytes self.now }
    {
        &self.bytes
    }

    /// The calls that changed it or made it last.
    pub fn calls(&self) -> &[Call] {
        &self.calls
    }
}

// Puts other bytes in the place of those that are there, which it keeps.
fn replace(
    alloc: Global,
    bytes: &mut Vec<u8>,
    past: &mut Vec<Vec<u8>>,
    next: Vec<u8>,
) -> Result<(), AllocError>
    ensures ok { OnOk result (bytes.new.items ≡ next.items) }
    ensures err { OnErr result (bytes.new.items ≡ bytes.old.items) }
    ensures past { OnOk result ((v : _) × (v.items ≡ bytes.old.items)
        × (past.new.items ≡ past.old.items ++ v ∷ [])) }
    ensures past_err { OnErr result (past.new.items ≡ past.old.items) }
{
    past.push(bytes.to_vec(alloc)?)?;
    *bytes = next;
    Ok(())
}

impl Device for Memory {
    ghost seen = { λ m. m.bytes.items };

    ghost may_leave = { λ m c. c ≡ m.bytes.items };

    ghost moment = { λ m. length m.past.items };

    ghost left_since = { λ m t c. (c ≡ m.bytes.items) ⊎ HadBeen (drop t m.past.items) c };

    ghost faults = { λ m. 0 };

    ghost honest = { λ m. ⊤ };

    ghost counts_now = { λ m t c le now. bytes_now (drop t m.past.items) m.bytes.items c now };

    ghost only_now = { λ m c left. only_bytes m.past.items m.bytes.items c left };

    fn read_at(&mut self, alloc: Global, at: usize, most: usize) -> Result<Vec<u8>, LinesFault> {
        let rest = &self.bytes[at.min(self.bytes.len())..];
        Ok(rest[..most.min(rest.len())].to_vec(alloc)?)
    }

    // A place past the end is the end.
    fn write_at(&mut self, at: usize, bytes: &[u8]) -> Result<(), LinesFault> {
        self.calls.push(Call::Write {
            at,
            bytes: bytes.to_vec(self.alloc)?,
        })?;
        let (front, rest) = self.bytes.split_at(at.min(self.bytes.len()));
        let mut next = front.to_vec(self.alloc)?;
        next.extend_from_slice(bytes)?;
        next.extend_from_slice(&rest[bytes.len().min(rest.len())..])?;
        Ok(replace(self.alloc, &mut self.bytes, &mut self.past, next)?)
    }

    fn cut(&mut self, len: usize) -> Result<(), LinesFault> {
        self.calls.push(Call::Cut { len })?;
        let next = self.bytes[..len.min(self.bytes.len())].to_vec(self.alloc)?;
        Ok(replace(self.alloc, &mut self.bytes, &mut self.past, next)?)
    }

    fn sync(&mut self) -> Result<(), LinesFault> {
        Ok(self.calls.push(Call::Sync)?)
    }
}
