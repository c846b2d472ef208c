// What this machine allows: how many workers may call programs, whether their ends can be seen, and
// how large a file may get.
use libc::types::rlimit;
use libc::{RLIMIT_NOFILE, SEEK_CUR, STDERR_FILENO, STDOUT_FILENO};
use std::alloc::Global;
use std::io::Read;
use std::rt::Files;
use std::{fs, io};

// Beside those of `libc`: the limits on the size of a file, and on the processes of a user.
const RLIMIT_FSIZE: i32 = 1;

const RLIMIT_NPROC: i32 = 6;

// What this process has open beside the programs, and what a call needs at most but for a moment.
const OPEN: u64 = 10;

const OPEN_OF_A_CALL: u64 = 3;

// The processes beside those of the workers, each of which is a thread and has a program.
const RUNNING: u64 = 4;

const RUNNING_OF_A_WORKER: u64 = 2;

// The bit of SIGCHLD among the signals that are ignored.
const CHILD_ENDED: u64 = 1 << 16;

/// How many workers may call programs, at least one and at most 256, by this process's limits on
/// open files and, where its user has one, on processes.
pub fn most_workers() -> u16 {
    let files = soft_limit(RLIMIT_NOFILE).saturating_sub(OPEN) / OPEN_OF_A_CALL;
    let processes = if libc::geteuid() == 0 {
        u64::MAX
    } else {
        soft_limit(RLIMIT_NPROC).saturating_sub(RUNNING) / RUNNING_OF_A_WORKER
    };
    files.min(processes).min(256).max(1) as u16
}

// The most where there is none.
fn soft_limit(resource: i32) -> u64 {
    let mut limit = rlimit {
        rlim_cur: u64::MAX,
        rlim_max: u64::MAX,
    };
    if libc::getrlimit(resource, &mut limit) == 0 {
        limit.rlim_cur
    } else {
        u64::MAX
    }
}

/// Looks into the folder, which may be reached by a link.
///
/// # Errors
///
/// Why it can't be read, and want of memory.
pub fn look_into(alloc: Global, folder: &str) -> io::Result<()> {
    let path = format!(in alloc; "{folder}/")?;
    // The folder of no name is none, and not the root.
    let found = if folder.is_empty() {
        os::open_dir_at(libc::AT_FDCWD, b"")
    } else {
        os::open_dir_at(libc::AT_FDCWD, path.as_bytes())
    };
    if found < 0 {
        return Err(io::Error::from_raw_os_error(os::errno()));
    }
    libc::close(found);
    Ok(())
}

/// Whether the ends of programs aren't told to this process, since whoever started it ignores them.
pub fn loses_ends<R: Files>(rt: &R) -> bool {
    let Ok(file) = fs::open(rt, "/proc/self/status") else {
        return false;
    };
    let mut file = file;
    let mut bytes = [0u8; 4096];
    let Ok(count) = file.read(&mut bytes) else {
        return false;
    };
    ignored_in(&bytes[..count]) & CHILD_ENDED != 0
}

// The signals that are ignored, by the line of that name: a bit each, the first for signal 1.
fn ignored_in(status: &[u8]) -> u64 {
    let Ok(text) = std::str::from_utf8(status) else {
        return 0;
    };
    for line in text.lines() {
        if let Some(word) = line.strip_prefix("SigIgn:") {
            return u64::from_str_radix(word.trim(), 16).unwrap_or(0);
        }
    }
    0
}

/// Whether so many bytes more fit into the file that standard output is, or standard error; of what
/// is no file they do. Past the limit on the size of a file the system ends a process.
pub fn has_room<R: Files>(rt: &R, is_error: bool, more: usize) -> bool {
    let most = soft_limit(RLIMIT_FSIZE);
    if most == u64::MAX {
        return true;
    }
    let (path, number) = if is_error {
        ("/proc/self/fd/2", STDERR_FILENO)
    } else {
        ("/proc/self/fd/1", STDOUT_FILENO)
    };
    match fs::metadata(rt, path) {
        Ok(found) if found.is_file() => {
            let position = u64::try_from(libc::lseek(number, 0, SEEK_CUR)).unwrap_or(0);
            found.len().max(position).saturating_add(more as u64) <= most
        }
        _ => true,
    }
}
