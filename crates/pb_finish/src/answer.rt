// What a module answers to a call, and what is wrong with an answer.
use pb_value::Value;

/// Why a call has no answer that can be read.
#[derive(Clone, Copy, PartialEq, Eq, Debug)]
pub enum Why {
    /// What was answered isn't a JSON object.
    NotJson,
    /// Too much was asked or answered.
    TooLong,
    /// There is no answer.
    NoAnswer,
    /// The program had no more time.
    TooSlow,
}

/// One answer of a module.
#[derive(Drop)]
pub enum Answer {
    /// A JSON object.
    Object(Value),
    /// The host can't be reached.
    Unreachable,
    Broken(Why),
}

/// What is wrong with the answer to a call.
#[derive(Clone, Copy, PartialEq, Eq, Debug)]
pub enum AnswerFault {
    /// There are fewer answers than calls.
    Missing,
    /// It can't be read.
    Broken(Why),
    /// It isn't of its module's shapes.
    WrongKind,
}

/// The first answer that isn't what its module may give.
#[derive(Clone, Copy, PartialEq, Eq, Debug)]
pub struct Breach {
    /// The place of its call among those of the job, from 0.
    pub call: usize,
    pub fault: AnswerFault,
}
