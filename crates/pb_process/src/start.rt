// How a program is started, waited for and ended.
use crate::asked::Asked;
use libc::{EAGAIN, EMFILE, ENOMEM};
use std::alloc::{AllocError, Global};
use std::io;
use std::process::{Child, Command, ExitStatus, OpenProcess, Processes, Stdio};
use std::time::{Clock, Duration};

// Beside those of `libc`: too many open files of the whole system, and a program that is written.
const ENFILE: i32 = 23;

const ETXTBSY: i32 = 26;

// How long, in milliseconds, a program is tried to be started where this machine is short of
// something.
const PATIENCE: u64 = 5000;

// How long, in milliseconds, a program may take to end where it was told to, and a while more.
const RESPITE: u64 = 6000;

// The longest wait, in milliseconds, between two looks at a program.
const LONGEST: u64 = 50;

// More looks than any program is given.
const MOST_LOOKS: u64 = u64::MAX;

/// Until when the call may take.
pub fn deadline_of<R: Clock>(rt: &R, timeout: Option<Duration>) -> Option<Duration> {
    let timeout = timeout?;
    let now = rt.monotonic().ok()?;
    Some(now.saturating_add(timeout))
}

/// How long it is until the deadline, zero where it has passed; none where there is no deadline.
pub fn left_until<R: Clock>(rt: &R, deadline: Option<Duration>) -> Option<Duration> {
    let deadline = deadline?;
    let now = rt.monotonic().ok()?;
    Some(deadline.saturating_sub(now))
}

/// Starts the program. Where this machine is short of something (descriptors, processes, memory) or
/// the program is being written, it is tried again, each wait twice as long, for 5 s.
pub fn start<P: Processes + Clock>(
    alloc: Global,
    rt: &P,
    asked: &Asked<'_>,
) -> io::Result<Child<P::Started>> {
    let mut command = command_of(alloc, asked)?;
    let mut left = Duration::from_millis(PATIENCE);
    let mut wait = Duration::from_millis(1);
    for _ in 0..MOST_LOOKS {
        match command.spawn(rt) {
            Err(e) if is_short(&e) && left > Duration::ZERO => {}
            started => return started,
        }
        let pause = wait.min(left);
        rt.sleep(pause);
        left = left.saturating_sub(pause);
        wait = wait.saturating_mul(2);
    }
    Err(io::Error::from_raw_os_error(EAGAIN))
}

fn command_of(alloc: Global, asked: &Asked<'_>) -> Result<Command, AllocError> {
    let mut command = Command::new(alloc, asked.program)?;
    command.arg(asked.host)?;
    if asked.manner.by_input {
        command.stdin(Stdio::piped());
    } else {
        command.arg(asked.arguments)?;
        command.stdin(Stdio::null());
    }
    command.stdout(Stdio::piped());
    command.stderr(Stdio::null());
    if let Some(watch) = asked.manner.watch {
        watch.mark(alloc, &mut command, asked.number)?;
    }
    Ok(command)
}

// Whether this machine is short of something, or the program is being written.
fn is_short(e: &io::Error) -> bool {
    matches!(
        e.raw_os_error(),
        Some(EMFILE | ENFILE | EAGAIN | ENOMEM | ETXTBSY)
    )
}

/// How the program ended, once it has; nothing where it hasn't by the deadline.
pub fn rest_of<P: OpenProcess, R: Clock>(
    rt: &R,
    child: &mut Child<P>,
    deadline: Option<Duration>,
) -> io::Result<Option<ExitStatus>> {
    let Some(mut left) = left_until(rt, deadline) else {
        return Ok(Some(child.wait()?));
    };
    let mut wait = Duration::from_millis(1);
    for _ in 0..MOST_LOOKS {
        if let Some(status) = child.try_wait()? {
            return Ok(Some(status));
        }
        if left == Duration::ZERO {
            return Ok(None);
        }
        rt.sleep(wait.min(left));
        wait = wait.saturating_mul(2).min(Duration::from_millis(LONGEST));
        left = left_until(rt, deadline).unwrap_or(Duration::ZERO);
    }
    Ok(None)
}

/// Ends the program and, where there is a watchdog, all that it started, and waits until it has
/// ended: at first by SIGTERM where it is asked to, after 5 s or at once by SIGKILL.
pub fn end<P: OpenProcess, R: Clock>(
    alloc: Global,
    rt: &R,
    asked: &Asked<'_>,
    child: &mut Child<P>,
    is_asked: bool,
) {
    let is_told = asked.say(alloc, if is_asked { "stop" } else { "kill" });
    if is_told && is_asked {
        let deadline = deadline_of(rt, Some(Duration::from_millis(RESPITE)));
        if let Ok(Some(_)) = rest_of(rt, child, deadline) {
            return;
        }
    }
    if child.kill().is_ok() {
        let _ = child.wait();
    }
}
