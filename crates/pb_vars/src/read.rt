// Where an expression reads something, and questions to each such place.
ghost use Rattle.std.specs.Prelude.{◌≡◌};
ghost use Rattle.pb_syntax.specs.Words.{root_view};
ghost use Rattle.pb_vars.specs.ReadView.{read_view};
ghost use Rattle.pb_vars.specs.Reads.{is_own_root};

use pb_syntax::{Root, Term};

/// A place where an expression reads something, or tests whether it is there.
#[derive(Clone, Copy)]
pub enum Read<'e> {
    /// A value, with the fields that are read below it.
    Value(&'e Root, &'e [String]),
    /// What is tested to be there.
    Tested(&'e Root),
    /// `hostvars`, or `hostvars[host]`, without a variable behind it.
    Hostvars(Option<&'e Term>),
    /// A host that is looked for in the batch.
    InBatch(&'e Term),
}

/// A question to each place where an expression reads something.
pub trait Question {
    ghost use Rattle.std.specs.Prelude.{Bool};
    ghost use Rattle.pb_vars.specs.Reads.{Read as ReadData};

    ghost holds: { Self → ReadData → Bool };

    fn holds(&self, read: Read<'_>) -> bool
        ensures { result ≡ holds self.now (read_view read.entry) };
}

/// Whether it reads the host's own alone: neither `hostvars` nor the batch.
#[derive(Clone, Copy, Debug)]
pub struct IsOwn;

impl Question for IsOwn {
    ghost use Rattle.pb_vars.specs.Reads.{is_own};

    ghost holds = { λ _. is_own };

    fn holds(&self, read: Read<'_>) -> bool {
        match read {
            Read::Value(root, _) | Read::Tested(root) => is_own(root),
            Read::Hostvars(_) | Read::InBatch(_) => false,
        }
    }
}

// Whether the host's own stands there.
fn is_own(root: &Root) -> bool
    ensures { result ≡ is_own_root (root_view root.now) }
{
    match root {
        Root::Variable(name) => name.as_str() != "ansible_play_batch",
        Root::Other(_, _) => false,
        Root::Member(_) => true,
    }
}
