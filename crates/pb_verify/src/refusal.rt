// Why a book is refused.
ghost use Rattle.std.specs.Prelude.{◌≡◌};
ghost use Rattle.pb_verify.specs.Codes.{code_text};

/// The code of a refusal.
#[derive(Clone, Copy, PartialEq, Eq, Debug)]
pub enum Code {
    /// The signatures aren't JSON.
    S01,
    /// A signature is malformed.
    S02,
    /// A signature breaks a law of modules.
    S03,
    /// A module's name stands twice, or is taken.
    S04,
    /// The signatures pass a limit.
    S05,
    /// The playbook isn't JSON.
    P01,
    /// A part of the playbook has the wrong shape, or a play has no `hosts`.
    P02,
    /// An unknown keyword, or one that is left out of the language.
    P03,
    /// A keyword's value is of the wrong form.
    P04,
    /// A task has no module, or several.
    P05,
    /// A module that isn't known.
    P06,
    /// An expression that can't be read.
    P07,
    /// The playbook passes a limit.
    P08,
    /// A second handler of a name in a play.
    P09,
    /// The inventory isn't JSON.
    I01,
    /// The inventory is malformed.
    I02,
    /// The inventory names a host as none can be named.
    I03,
    /// The inventory has a group below itself.
    I04,
    /// The inventory passes a limit.
    I05,
    /// The answers aren't JSON.
    A01,
    /// The answers have another shape than an object from host names to lists of objects.
    A02,
    /// The answers are past their limit.
    A03,
    /// A variable that is perhaps undefined.
    V01,
    /// A variable of another host that is perhaps undefined.
    V02,
    /// A field that is perhaps missing.
    V03,
    /// A value of the wrong kind, or an opaque value that is read.
    V04,
    /// A text that notifies no handler of the play.
    V05,
    /// A host or a group that isn't there.
    V06,
    /// An unknown, missing or malformed parameter.
    V07,
    /// A name clash or a reserved name.
    V08,
    /// What becomes of a result reads other hosts' variables or the batch.
    V09,
    /// A chain of names of `vars` that is too long or has a cycle.
    V10,
    /// Kinds that four rounds don't settle.
    V11,
    /// A handler that notifies itself or an earlier one.
    V12,
    /// More steps than plays may have.
    V13,
}

impl Code {
    /// The code as it is printed.
    pub fn text(self) -> &'static str
        ensures { result.now ≡ code_text self }
    {
        match self {
            Code::S01 => "S01",
            Code::S02 => "S02",
            Code::S03 => "S03",
            Code::S04 => "S04",
            Code::S05 => "S05",
            Code::P01 => "P01",
            Code::P02 => "P02",
            Code::P03 => "P03",
            Code::P04 => "P04",
            Code::P05 => "P05",
            Code::P06 => "P06",
            Code::P07 => "P07",
            Code::P08 => "P08",
            Code::P09 => "P09",
            Code::I01 => "I01",
            Code::I02 => "I02",
            Code::I03 => "I03",
            Code::I04 => "I04",
            Code::I05 => "I05",
            Code::A01 => "A01",
            Code::A02 => "A02",
            Code::A03 => "A03",
            Code::V01 => "V01",
            Code::V02 => "V02",
            Code::V03 => "V03",
            Code::V04 => "V04",
            Code::V05 => "V05",
            Code::V06 => "V06",
            Code::V07 => "V07",
            Code::V08 => "V08",
            Code::V09 => "V09",
            Code::V10 => "V10",
            Code::V11 => "V11",
            Code::V12 => "V12",
            Code::V13 => "V13",
        }
    }
}

/// One refusal: its code, the line of the book from 1, or 0 for none, and the host's name or none.
#[derive(Drop)]
pub struct Refusal {
    pub code: Code,
    pub line: u32,
    pub host: Option<String>,
}
