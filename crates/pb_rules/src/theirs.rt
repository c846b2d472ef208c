// Whether a book's tasks read some variables of other hosts.
ghost use Rattle.std.specs.Prelude.{◌≡◌, IfOk, map, not};
ghost use Rattle.pb_others.specs.Words.{book_reads_theirs, is_theirs};
ghost use Rattle.pb_play.specs.Words.{play_view};
ghost use Rattle.pb_syntax.specs.Words.{root_view};
ghost use Rattle.pb_rules.specs.Names.{names_in};

use crate::denied::any_denied;
use pb_play::Play;
use pb_syntax::Root;
use pb_vars::{Question, Read};
use std::alloc::{AllocError, Global};
use std::collections::BTreeSet;

// Whether it isn't one of these variables of another host, or of the host itself by its name.
#[derive(Clone, Copy)]
pub(crate) struct IsNotTheirs<'s, 'n> {
    names: &'s BTreeSet<&'n str>,
}

impl<'s, 'n> Question for IsNotTheirs<'s, 'n> {
    ghost use Rattle.pb_rules.specs.Names.{names_in};
    ghost use Rattle.pb_rules.specs.Theirs.{reads_not_theirs};

    ghost holds = { λ t. reads_not_theirs (names_in t.names.now) };

    fn holds(&self, read: Read<'_>) -> bool {
        match read {
            Read::Value(root, _) | Read::Tested(root) => is_not_theirs(root, self.names),
            Read::Hostvars(_) | Read::InBatch(_) => true,
        }
    }
}

// Whether what stands there is none of these variables of another host.
fn is_not_theirs(root: &Root, names: &BTreeSet<&str>) -> bool
    ensures { result ≡ not (is_theirs (names_in names.now) (root_view root.now)) }
{
    match root {
        Root::Other(_, name) => !names.contains(name.as_str()),
        Root::Variable(_) | Root::Member(_) => true,
    }
}

/// Whether some text of a task reads one of these variables of another host, or of its own host by
/// its name, also through values of `vars`.
///
/// # Errors
///
/// Want of memory.
pub fn reads_theirs(
    alloc: Global,
    plays: &[Play],
    names: &BTreeSet<&str>,
) -> Result<bool, AllocError>
    ensures { IfOk result (λ b. b
        ≡ book_reads_theirs (names_in names.now) (map play_view plays.now)) }
{
    any_denied(alloc, &IsNotTheirs { names }, plays)
}
