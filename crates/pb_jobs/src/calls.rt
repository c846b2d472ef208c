// The calls that a task's passes make.
ghost use Rattle.std.specs.Prelude.{◌+◌, ◌++◌, ◌≡◌, ◌≤◌, ◌^◌, IfErr, IfOk, OnOk, length, map};
ghost use Rattle.std.specs.Prelude.{string_bytes};
ghost use Rattle.pb_language.specs.Cases.{action_name};
ghost use Rattle.pb_language.specs.Start.{call_count};
ghost use Rattle.pb_history.specs.Jobs.{pass_calls};
ghost use Rattle.pb_start.specs.Words.{action_view, entry_view, pass_view};
ghost use Rattle.pb_syntax.specs.Words.{Trees};
ghost use Rattle.pb_jobs.specs.Calls.{call_data, own_calls};

use crate::host_task::HostTask;
use crate::job::Call;
use pb_core::CoreFault;
use pb_sig::shared_name;
use pb_start::{Action, Entry, Pass};
use std::alloc::{AllocError, Global};
use std::sync::Arc;

// The calls of the passes, in their order.
pub(crate) fn calls_of(
    alloc: Global,
    host: usize,
    task: &HostTask<'_>,
    passes: &[Pass],
) -> Result<Vec<Call>, CoreFault>
    ensures calls { IfOk result (λ cs. (f : Trees) → map call_data cs.items
        ≡ pass_calls host (string_bytes task.now.name.now.value)
        (action_name (action_view f task.now.task.now.action)) (map pass_view passes.now)
        task.now.before) }
    ensures there { IfErr result (λ e. e ≡ CoreFault.NotThere → ⊥) }
    ensures full { IfErr result (λ e. e ≡ CoreFault.Full
        → 2 ^ 64 ≤ task.now.before + call_count (map pass_view passes.now)) }
{
    let mut calls = Vec::new(alloc);
    for pass in passes {
        add_call(&mut calls, host, task, pass)?;
    }
    Ok(calls)
}

fn add_call(
    calls: &mut Vec<Call>,
    host: usize,
    task: &HostTask<'_>,
    pass: &Pass,
) -> Result<(), CoreFault>
    ensures added { OnOk result ((f : Trees) → map call_data calls.new.items
        ≡ map call_data calls.old.items ++ own_calls host
        (string_bytes task.now.name.now.value)
        (action_name (action_view f task.now.task.now.action))
        (entry_view pass.now.entry) (task.now.before + length calls.old.items)) }
    ensures there { IfErr result (λ e. e ≡ CoreFault.NotThere → ⊥) }
    ensures full { IfErr result (λ e. e ≡ CoreFault.Full
        → 2 ^ 64 ≤ task.now.before + length calls.old.items) }
{
    let Entry::Calls(arguments) = &pass.entry else {
        return Ok(());
    };
    let Some(number) = task.before.checked_add(calls.len() as u64) else {
        return Err(CoreFault::Full);
    };
    let name = task.name.clone()?;
    let module = name_of(*calls.allocator(), &task.task.action)?;
    let args = arguments.clone()?;
    calls.reserve(1)?;
    calls.push_reserved(Call {
        host,
        name,
        number,
        module,
        args,
    });
    Ok(())
}

// The name of what the task does.
fn name_of(alloc: Global, action: &Action) -> Result<Arc<String>, AllocError>
    ensures { IfOk result (λ n. (f : Trees) → string_bytes n.value
        ≡ action_name (action_view f action.now)) }
{
    match action {
        Action::Call { module, .. } => {
            let name = module.shared_name().clone()?;
            Ok(name)
        }
        Action::Debug(_) => shared_name(alloc, "debug"),
        Action::SetFact(_) => shared_name(alloc, "set_fact"),
        Action::Assert { .. } => shared_name(alloc, "assert"),
        Action::Fail(_) => shared_name(alloc, "fail"),
    }
}
