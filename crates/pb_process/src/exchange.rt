// What passes between a call and its program: the arguments, where they come so, and the output.
use crate::start::left_until;
use libc::net::{POLLIN, POLLOUT, poll};
use libc::types::pollfd;
use std::alloc::Global;
use std::io;
use std::io::{ErrorKind, Read, Write};
use std::os::fd::AsRawFd;
use std::process::{Child, OpenProcess};
use std::time::{Clock, Duration};

/// The most bytes that a program may write.
pub const MOST_OUTPUT: usize = 1_048_576;

// How many bytes one read takes, and how many reads empty a pipe.
const CHUNK: usize = 8192;

const CHUNKS: u8 = 8;

// The longest wait, in milliseconds, until it is asked whether the program has ended: its own
// children may keep its output open.
const LONGEST: i32 = 50;

/// What was heard of a program.
#[derive(Drop)]
pub enum Heard {
    /// All that it wrote.
    All(Vec<u8>),
    /// More than it may write.
    TooMuch,
    /// It had no more time.
    TooLittle,
    /// Its output can't be read.
    Nothing,
}

/// What passes between a call and its program.
#[derive(Drop)]
pub struct Exchange<'a, I: Drop, O: Drop> {
    // What is still to be written, and where; nothing once all is, or the program reads no more.
    left: &'a [u8],
    input: Option<I>,
    output: O,
    bytes: Vec<u8>,
}

// What may be done without waiting.
#[derive(Clone, Copy)]
struct Ready {
    reading: bool,
    writing: bool,
}

impl<'a, I: Write + AsRawFd + Drop, O: Read + AsRawFd + Drop> Exchange<'a, I, O> {
    /// Nothing has passed.
    pub fn new(alloc: Global, left: &'a [u8], input: Option<I>, output: O) -> Exchange<'a, I, O> {
        if let Some(input) = &input {
            // A program that reads nothing is then not waited for.
            os::set_nonblocking(input.as_raw_fd(), true);
        }
        Exchange {
            left,
            input,
            output,
            bytes: Vec::new(alloc),
        }
    }

    /// All that the program wrote when it closed its output, or had ended: then what is there
    /// counts, and what its children write later isn't waited for.
    pub fn hear<P: OpenProcess, R: Clock>(
        &mut self,
        rt: &R,
        child: &mut Child<P>,
        deadline: Option<Duration>,
    ) -> io::Result<Heard> {
        let mut wait = 1;
        for _ in 0..u64::MAX {
            let ready = self.ready(wait_until(rt, deadline, wait))?;
            if ready.writing {
                self.write();
            }
            let has_ended = child.try_wait()?.is_some();
            if has_ended {
                return self.empty();
            }
            if ready.reading {
                if !self.read()? {
                    return Ok(self.all());
                }
                if self.bytes.len() > MOST_OUTPUT {
                    return Ok(Heard::TooMuch);
                }
                wait = 1;
            } else if left_until(rt, deadline) == Some(Duration::ZERO) {
                return Ok(Heard::TooLittle);
            } else {
                wait = longer(wait);
            }
        }
        // No program is read from so often.
        Err(io::Error::from(ErrorKind::TimedOut))
    }

    // Of a program that has ended: what is in the pipe, which holds no more than so many chunks.
    fn empty(&mut self) -> io::Result<Heard> {
        for _chunk in 0..CHUNKS {
            if !self.ready(0)?.reading || !self.read()? {
                break;
            }
        }
        if self.bytes.len() > MOST_OUTPUT {
            return Ok(Heard::TooMuch);
        }
        Ok(self.all())
    }

    fn all(&mut self) -> Heard {
        let alloc = *self.bytes.allocator();
        let bytes = std::mem::replace(&mut self.bytes, Vec::new(alloc));
        Heard::All(bytes)
    }

    // What may be done without waiting, within so many milliseconds.
    fn ready(&self, wait: i32) -> io::Result<Ready> {
        let input = match &self.input {
            Some(input) => input.as_raw_fd(),
            None => -1,
        };
        let mut asked = [
            pollfd {
                fd: self.output.as_raw_fd(),
                events: POLLIN,
                revents: 0,
            },
            pollfd {
                fd: input,
                events: POLLOUT,
                revents: 0,
            },
        ];
        if poll(&mut asked, wait) >= 0 {
            return Ok(Ready {
                reading: asked[0].revents != 0,
                writing: asked[1].revents != 0,
            });
        }
        let e = io::Error::from_raw_os_error(os::errno());
        if e.kind() == ErrorKind::Interrupted {
            Ok(Ready {
                reading: false,
                writing: false,
            })
        } else {
            Err(e)
        }
    }

    // One write; the input is closed once all is written, or the program reads no more.
    fn write(&mut self) {
        let Some(input) = &mut self.input else {
            return;
        };
        let is_done = match input.write(self.left) {
            Ok(count) => {
                self.left = &self.left[count..];
                self.left.is_empty()
            }
            Err(e) => !matches!(e.kind(), ErrorKind::WouldBlock | ErrorKind::Interrupted),
        };
        if is_done {
            self.input = None;
        }
    }

    // One read; whether more may come.
    fn read(&mut self) -> io::Result<bool> {
        let mut buffer = [0u8; CHUNK];
        match self.output.read(&mut buffer) {
            Ok(count) => {
                self.bytes.extend_from_slice(&buffer[..count])?;
                Ok(count > 0)
            }
            Err(e) if e.kind() == ErrorKind::Interrupted => Ok(true),
            Err(e) => Err(e),
        }
    }
}

// How long may be waited, in milliseconds: so many, and not past the deadline.
fn wait_until<R: Clock>(rt: &R, deadline: Option<Duration>, wait: i32) -> i32 {
    match left_until(rt, deadline) {
        Some(left) => i32::try_from(left.as_millis()).unwrap_or(wait).min(wait),
        None => wait,
    }
}

fn longer(wait: i32) -> i32 {
    if wait < LONGEST / 2 {
        wait.max(1) * 2
    } else {
        LONGEST
    }
}
