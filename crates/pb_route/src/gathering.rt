// The task that gathers facts at the beginning of a play.
ghost use Rattle.std.specs.Prelude.{IfOk, Some};
ghost use Rattle.pb_sig.specs.Words.{modules_of};
ghost use Rattle.pb_route.specs.Routes.{Gathers};

use pb_sig::Registry;
use pb_task::{Task, Work};
use std::alloc::{AllocError, Global};

const SETUP: &str = "setup";

/// The task that gathers facts at that line: it calls the registry's `setup` with no arguments.
///
/// # Errors
///
/// Want of memory, also where the registry has no such module.
pub fn gathering_task(alloc: Global, registry: &Registry, line: u32) -> Result<Task, AllocError>
    ensures { IfOk result (λ t. Gathers (modules_of registry.now) (Some line) (Some t)) }
{
    let Some(setup) = registry.resolve(SETUP) else {
        return Err(AllocError);
    };
    Ok(Task {
        line,
        work: Work::Module(setup.clone()?),
        arguments: Vec::new(alloc),
        when: Vec::new(alloc),
        loop_over: None,
        register: None,
        vars: Vec::new(alloc),
        notify: Vec::new(alloc),
        changed_when: None,
        failed_when: None,
        attempts: None,
        ignore_errors: None,
    })
}
