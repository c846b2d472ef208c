// What the words of the command line say.
use std::alloc::AllocError;

/// The files that a verdict is on.
#[derive(Drop)]
pub struct Subject {
    pub book: String,
    pub inventory: String,
    pub signatures: Option<String>,
}

/// Where the answers to calls come from.
#[derive(Drop)]
pub enum Source {
    /// A file of answers.
    Answers(String),
    /// A folder of programs.
    Modules(String),
}

/// How the arguments of a call come to its program.
#[derive(Clone, Copy, PartialEq, Eq, Debug)]
pub enum Handover {
    /// As its second word, which whoever is on this machine can see.
    Word,
    /// On its standard input.
    Input,
}

/// How programs are called.
#[derive(Clone, Copy)]
pub struct Calling {
    pub handover: Handover,
    /// How many seconds a call may take, from 1 to 604,800; none stands for no end.
    pub timeout: Option<u32>,
}

/// What the program is to do.
#[derive(Drop)]
pub enum Options {
    Check(Subject),
    Run {
        subject: Subject,
        /// From 1 to 256.
        forks: u16,
        source: Source,
        /// Of answers from a file, as where nothing is said of it.
        calling: Calling,
    },
}

/// Why the words aren't read.
#[derive(Drop)]
pub enum LineFault {
    /// Help was asked for; the text of it.
    Help(String),
    /// The version was asked for; the line with it.
    Version(String),
    /// The words can't be read; what is wrong with them.
    Line(String),
    NoMemory,
}

impl From<AllocError> for LineFault {
    ghost use Rattle.std.specs.Prelude.{◌≡◌};
    ghost use Rattle.pb_options.specs.declared.words.LineFault.TheVariants.{NoMemory};

    ghost from_gives = { λ _ e. e ≡ NoMemory };

    fn from(_: AllocError) -> LineFault {
        LineFault::NoMemory
    }
}
