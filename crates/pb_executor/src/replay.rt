// A run made anew from the events of another.
ghost use Rattle.std.specs.Prelude.{◌<◌, IfOk};
ghost use Rattle.pb_executor.specs.Replays.{Replays};
ghost use Rattle.pb_executor.specs.Sound.{IsSound};

use crate::run::Run;
use pb_run::Event;
use pb_verify::Checked;
use std::alloc::{AllocError, Global};

/// A run of what was accepted in which these events happened, in their order: each where it could,
/// and none of the others.
///
/// # Errors
///
/// Want of memory.
pub fn replay<'c>(
    alloc: Global,
    checked: &'c Checked,
    forks: usize,
    events: &[Event],
) -> Result<Run<'c>, AllocError>
    requires { 0 < forks }
    ensures replays { IfOk result (Replays checked.now forks events.now) }
    ensures sound { IfOk result IsSound }
{
    let mut run = Run::open(alloc, checked, forks)?;
    for event in events {
        run.follow(event)?;
    }
    run.history();
    Ok(run)
}
