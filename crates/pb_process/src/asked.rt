// What a program is asked in a call, and how.
ghost use Rattle.std.specs.Prelude.{◌≡◌, length, nat_lt};
ghost use Rattle.pb_process.specs.Limits.{most_argument_bytes};

use crate::watchdog::Watch;
use std::alloc::Global;
use std::time::Duration;

/// The most bytes of the arguments, as JSON, where they are a word of the command line.
pub const MOST_ARGUMENTS: usize = 65_536;

/// The most bytes of the arguments, as JSON, where they come on standard input.
pub const MOST_INPUT: usize = 1_048_576;

/// How programs are called.
#[derive(Clone, Copy)]
pub struct Manner {
    /// The arguments come on standard input; else they are a word of the command line.
    pub by_input: bool,
    /// How long a call may take.
    pub timeout: Option<Duration>,
    /// The worker's place at the watchdog, if there is one.
    pub watch: Option<Watch>,
}

/// A call of a program.
#[derive(Clone, Copy)]
pub struct Asked<'a> {
    pub program: &'a str,
    pub host: &'a str,
    /// As JSON.
    pub arguments: &'a str,
    /// Which call of its worker this is.
    pub number: u64,
    pub manner: Manner,
}

impl<'a> Asked<'a> {
    /// Whether the arguments are more than a program is handed.
    pub fn is_too_long(&self) -> bool
        ensures { result ≡ nat_lt (most_argument_bytes self.now.manner.by_input)
            (length self.now.arguments.now) }
    {
        if self.manner.by_input {
            self.arguments.len() > MOST_INPUT
        } else {
            self.arguments.len() > MOST_ARGUMENTS
        }
    }

    /// Tells the watchdog, if there is one, what becomes of the call: that it is `out` or has come
    /// back (`in`), and that its processes are to end (`stop`, `kill`). Whether it was told.
    pub fn say(&self, alloc: Global, what: &str) -> bool {
        match self.manner.watch {
            Some(watch) => watch.say(alloc, what, self.number, self.host),
            None => false,
        }
    }
}
