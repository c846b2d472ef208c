// A file of the operating system. Each call of the device makes its calls of the system, and then
// notes what it came to.
ghost use Rattle.std.specs.Prelude.{◌≡◌, ◌≤◌, IfOk, length};
ghost use Rattle.pb_lines.specs.declared.fault.LinesFault.TheVariants.{Failed};
ghost use Rattle.pb_lines.specs.File.{IsOpened};

use crate::device::Device;
use crate::fault::LinesFault;
use crate::record::Record;
use std::alloc::Global;
use std::fs::{File, OpenOptions, TryLockError};
use std::io;
use std::os::unix::fs::{FileExt, OpenOptionsExt};
use std::path::Path;

const READ: u64 = 0;

const WRITTEN: u64 = 1;

const CUT: u64 = 2;

const SYNCED: u64 = 3;

/// What is wrong with a file.
#[derive(Clone, Copy, Debug)]
pub enum FileFault {
    /// Somebody else has it locked.
    Locked,
    /// What stands there is no file.
    NotAFile,
    /// There is no room for more.
    NoRoom,
    Other(io::Error),
}

impl From<io::Error> for FileFault {
    fn from(error: io::Error) -> FileFault {
        match error.kind() {
            io::ErrorKind::StorageFull | io::ErrorKind::QuotaExceeded => FileFault::NoRoom,
            _ => FileFault::Other(error),
        }
    }
}

/// A file that is open, and locked until this is dropped. Contracts see the calls that were made of
/// it, by which it is a device.
#[derive(Drop)]
pub struct FileDevice {
    file: File,
    syncs: bool,
    failure: Option<FileFault>,
    log: Record,
}

impl FileDevice {
    /// A new file, which its owner alone may read and write. With `syncs`, what is synced is on the
    /// disk and outlasts a loss of power; else it outlasts the end of the process.
    ///
    /// # Errors
    ///
    /// Something that stands there, or what is wrong with the file.
    pub fn create(rt: &HostRuntime, path: &str, syncs: bool) -> Result<FileDevice, FileFault>
        ensures { IfOk result (λ file. IsOpened file) }
    {
        let file = OpenOptions::new()
            .read(true)
            .write(true)
            .create_new(true)
            .mode(0o600)
            .open(rt, path)?;
        let device = FileDevice::locked(file, syncs)?;
        if syncs {
            sync_folder(rt, path)?;
        }
        Ok(device)
    }

    /// A file that is there.
    ///
    /// # Errors
    ///
    /// What is wrong with the file, or that there is none.
    pub fn open(rt: &HostRuntime, path: &str, syncs: bool) -> Result<FileDevice, FileFault>
        ensures { IfOk result (λ file. IsOpened file) }
    {
        let file = OpenOptions::new().read(true).write(true).open(rt, path)?;
        if !file.metadata()?.is_file() {
            return Err(FileFault::NotAFile);
        }
        let device = FileDevice::locked(file, syncs)?;
        if syncs {
            // What an earlier process left may not be on the disk yet.
            device.file.sync_data()?;
        }
        Ok(device)
    }

    fn locked(file: File, syncs: bool) -> Result<FileDevice, FileFault>
        ensures { IfOk result (λ file. IsOpened file) }
    {
        match file.try_lock() {
            Ok(()) => Ok(FileDevice {
                file,
                syncs,
                failure: None,
                log: Record::new(),
            }),
            Err(TryLockError::WouldBlock) => Err(FileFault::Locked),
            Err(TryLockError::Error(error)) => Err(error.into()),
        }
    }

    /// Why a call of the device failed last.
    pub fn failure(&self) -> Option<FileFault> {
        self.failure
    }
}

// The name of a new file is on the disk once its folder is.
fn sync_folder(rt: &HostRuntime, path: &str) -> io::Result<()> {
    let folder = match Path::new(path).parent() {
        Some(folder) if !folder.as_str().is_empty() => folder.as_str(),
        _ => ".",
    };
    File::open(rt, folder)?.sync_all()
}

// Reads until the buffer is full or the file ends.
fn read_full(file: &File, at: usize, buffer: &mut [u8]) -> io::Result<usize>
    ensures { IfOk result (λ count. count ≤ length buffer.old) }
{
    let mut count = 0;
    while count < buffer.len() {
        let place = (at as u64).wrapping_add(count as u64);
        match file.read_at(&mut buffer[count..], place)? {
            0 => break,
            more => count += more,
        }
    }
    Ok(count)
}

impl Device for FileDevice {
    ghost use Rattle.std.specs.Prelude.{length};
    ghost use Rattle.pb_lines.specs.Events.{faults_after, honest_after, leaves_after, left_after};
    ghost use Rattle.pb_lines.specs.Events.{seen_after};
    ghost use Rattle.pb_lines.specs.Replay.{at_this_moment, no_later_moment};

    ghost seen = { λ f. seen_after f.log.events };

    ghost may_leave = { λ f. leaves_after f.log.events };

    ghost moment = { λ f. length f.log.events };

    ghost left_since = { λ f. left_after f.log.events };

    ghost faults = { λ f. faults_after f.log.events };

    ghost honest = { λ f. honest_after f.log.events };

    ghost counts_now = { λ f t c le now. at_this_moment f.log.events t c now };

    ghost only_now = { λ f c left. no_later_moment f.log.events c left };

    fn read_at(&mut self, alloc: Global, at: usize, most: usize) -> Result<Vec<u8>, LinesFault> {
        let mut found = vec![in alloc; 0; most]?;
        match read_full(&self.file, at, &mut found) {
            Ok(count) => {
                found.truncate(count);
                self.log.note(&[READ, at as u64, most as u64, 1], &found);
                Ok(found)
            }
            Err(error) => {
                self.failure = Some(error.into());
                self.log.note(&[READ, at as u64, most as u64, 0], &[]);
                Err(LinesFault::Failed)
            }
        }
    }

    fn write_at(&mut self, at: usize, bytes: &[u8]) -> Result<(), LinesFault> {
        match self.file.write_all_at(bytes, at as u64) {
            Ok(()) => {
                self.log.note(&[WRITTEN, at as u64, 0, 1], bytes);
                Ok(())
            }
            Err(error) => {
                self.failure = Some(error.into());
                self.log.note(&[WRITTEN, at as u64, 0, 0], bytes);
                Err(LinesFault::Failed)
            }
        }
    }

    fn cut(&mut self, len: usize) -> Result<(), LinesFault> {
        match self.file.set_len(len as u64) {
            Ok(()) => {
                self.log.note(&[CUT, len as u64, 0, 1], &[]);
                Ok(())
            }
            Err(error) => {
                self.failure = Some(error.into());
                self.log.note(&[CUT, len as u64, 0, 0], &[]);
                Err(LinesFault::Failed)
            }
        }
    }

    fn sync(&mut self) -> Result<(), LinesFault> {
        let done = if self.syncs {
            self.file.sync_data()
        } else {
            Ok(())
        };
        match done {
            Ok(()) => {
                self.log.note(&[SYNCED, 0, 0, 1], &[]);
                Ok(())
            }
            Err(error) => {
                self.failure = Some(error.into());
                self.log.note(&[SYNCED, 0, 0, 0], &[]);
                Err(LinesFault::Failed)
            }
        }
    }
}
