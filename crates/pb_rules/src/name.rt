// Whether a book's tasks read their host's own name, the variable `inventory_hostname`.
ghost use Rattle.std.specs.Prelude.{◌≡◌, IfOk, map};
ghost use Rattle.pb_alike.specs.Words.{book_reads_name};
ghost use Rattle.pb_play.specs.Words.{play_view};
ghost use Rattle.pb_syntax.specs.Words.{root_view};
ghost use Rattle.pb_rules.specs.Named.{is_no_name};

use crate::denied::any_denied;
use pb_play::Play;
use pb_syntax::Root;
use pb_vars::{Question, Read};
use std::alloc::{AllocError, Global};

// Whether it isn't the host's own name.
#[derive(Clone, Copy)]
pub(crate) struct IsNotName;

impl Question for IsNotName {
    ghost use Rattle.pb_rules.specs.Named.{reads_no_name};

    ghost holds = { λ _. reads_no_name };

    fn holds(&self, read: Read<'_>) -> bool {
        match read {
            Read::Value(root, _) | Read::Tested(root) => is_no_name(root),
            Read::Hostvars(_) | Read::InBatch(_) => true,
        }
    }
}

// Whether another value than the host's name stands there.
fn is_no_name(root: &Root) -> bool
    ensures { result ≡ is_no_name (root_view root.now) }
{
    match root {
        Root::Variable(name) => name.as_str() != "inventory_hostname",
        Root::Other(_, _) | Root::Member(_) => true,
    }
}

/// Whether some text of a task reads the host's own name, also through values of `vars`.
///
/// # Errors
///
/// Want of memory.
pub fn reads_name(alloc: Global, plays: &[Play]) -> Result<bool, AllocError>
    ensures { IfOk result (λ b. b ≡ book_reads_name (map play_view plays.now)) }
{
    any_denied(alloc, &IsNotName, plays)
}
