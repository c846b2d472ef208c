// What is known where a host begins.
ghost use Rattle.std.specs.Prelude.{IfOk};
ghost use Rattle.pb_semantics.specs.Words.{recs};
ghost use Rattle.pb_semantics.specs.Well.{Well};
ghost use Rattle.pb_language.specs.Judgement.{live};
ghost use Rattle.pb_lattice.specs.Words.{IsKept, Stands, exit_of};
ghost use Rattle.pb_kind.specs.Words.{slots_view};
ghost use Rattle.pb_walks.specs.Words.{ExitsAgree};

use pb_kind::Slots;
use pb_lattice::{Environment, Environments};
use std::alloc::{AllocError, Global};

/// The environment of what is known before anything is run.
///
/// # Errors
///
/// Want of memory, also where the table isn't over a name.
pub fn entry_of(
    alloc: Global,
    known: &Slots,
    space: &mut Environments,
) -> Result<Environment, AllocError>
    requires { Well (recs (slots_view known.now.entries)) }
    ensures kept { IsKept space.old space.new }
    ensures stands { IfOk result (λ e. Stands space.new e) }
    ensures same { IfOk result (λ e.
        ExitsAgree (exit_of space.new e) (live (slots_view known.now.entries))) }
{
    let at = space.of_slots(alloc, known)?;
    Ok(at)
}
