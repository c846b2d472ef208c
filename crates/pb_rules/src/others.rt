// Whether what a book's tasks read is their host's own.
ghost use Rattle.std.specs.Prelude.{◌≡◌, IfOk, map};
ghost use Rattle.pb_play.specs.Words.{play_view};
ghost use Rattle.pb_walks.specs.Words.{book_reads_others};

use crate::denied::any_denied;
use pb_play::Play;
use pb_vars::IsOwn;
use std::alloc::{AllocError, Global};

/// Whether some text of a task reads another host or who is active, also through values of `vars`.
///
/// # Errors
///
/// Want of memory.
pub fn reads_others(alloc: Global, plays: &[Play]) -> Result<bool, AllocError>
    ensures { IfOk result (λ b. b ≡ book_reads_others (map play_view plays.now)) }
{
    any_denied(alloc, &IsOwn, plays)
}
