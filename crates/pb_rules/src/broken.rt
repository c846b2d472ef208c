// The rules in their order, and which of two broken ones is told.
ghost use Rattle.std.specs.Prelude.{◌≡◌};
ghost use Rattle.pb_rules.specs.Broken.{is_sooner, rank, sooner};

/// A rule of a book, in the order in which they are told on one line.
#[derive(Clone, Copy, PartialEq, Eq, Debug)]
pub enum Rule {
    /// The plays so far have at most 8,192 steps (V13).
    Steps,
    /// A task gives the parameters that it may and must (V07).
    Parameters,
    /// Names that are given and set don't clash, and none is reserved (V08).
    Names,
    /// Values of `vars` read others in chains of at most 8 (V10).
    Chains,
    /// Hosts and groups that are named are there (V06).
    Known,
    /// A notify text names a handler or a topic of the play (V05).
    Notified,
    /// A handler notifies later ones alone (V12).
    Order,
    /// `changed_when`, `failed_when` and `until` read the host's own alone (V09).
    Own,
}

/// A rule that a book breaks, and at which line.
#[derive(Clone, Copy, PartialEq, Eq, Debug)]
pub struct Broken {
    pub line: u32,
    pub rule: Rule,
}

impl Rule {
    // Its place in the order.
    fn rank(self) -> u8
        ensures { result ≡ rank self }
    {
        match self {
            Rule::Steps => 0,
            Rule::Parameters => 1,
            Rule::Names => 2,
            Rule::Chains => 3,
            Rule::Known => 4,
            Rule::Notified => 5,
            Rule::Order => 6,
            Rule::Own => 7,
        }
    }
}

impl Broken {
    fn is_sooner(self, other: Broken) -> bool
        ensures { result ≡ is_sooner self other }
    {
        self.line < other.line || (self.line == other.line && self.rule.rank() < other.rule.rank())
    }
}

// The one of the lesser line, and on one line the one whose rule comes first.
pub(crate) fn sooner(one: Option<Broken>, other: Option<Broken>) -> Option<Broken>
    ensures { result ≡ sooner one other }
{
    match (one, other) {
        (Some(first), Some(second)) => {
            if second.is_sooner(first) {
                Some(second)
            } else {
                Some(first)
            }
        }
        (Some(first), None) => Some(first),
        (None, found) => found,
    }
}
