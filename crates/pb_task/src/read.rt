// A task, read from its record.
ghost use Rattle.std.specs.Prelude.{◌≡◌, IfOk, IfSome, Ok, option_map};
ghost use Rattle.pb_semantics.specs.Words.{Gives};
ghost use Rattle.pb_value.specs.Words.{fields_view};
ghost use Rattle.pb_sig.specs.Words.{modules_of};
ghost use Rattle.pb_task.specs.Faults.{offence_of};
ghost use Rattle.pb_task.specs.Offences.{task_read};
ghost use Rattle.pb_task.specs.Standings.{standing_view};
ghost use Rattle.pb_task.specs.Tasks.{IsOrdered, IsResolved, task_view};

use crate::fault::{Code, TaskFault};
use crate::keyword::Standing;
use crate::limit::is_past_limits;
use crate::offence::form_offence;
use crate::task::Task;
use crate::text::task_of;
use crate::work::{doing_in, lone_work};
use pb_sig::Registry;
use pb_value::Fields;
use std::alloc::Global;

/// The task or the handler's work that the record is, at that line; none where it is
/// `meta: flush_handlers`.
///
/// # Errors
///
/// The least code that applies to the line, P03 to P08; or want of memory.
pub fn read_task(
    alloc: Global,
    registry: &Registry,
    standing: Standing,
    line: u32,
    fields: &Fields,
) -> Result<Option<Task>, TaskFault>
    ensures given { Gives (λ t. Ok (option_map task_view t)) offence_of result
        (task_read (modules_of registry.now) (standing_view standing) line
        (fields_view fields.now.entries)) }
    ensures resolved { IfOk result (λ t. IfSome t (IsResolved (modules_of registry.now))) }
    ensures ordered { IfOk result (λ t. IfSome t IsOrdered) }
{
    if let Some(code) = form_offence(registry, standing, fields) {
        return Err(TaskFault::Refused(code));
    }
    let Some((name, given)) = lone_work(standing, fields) else {
        return Err(TaskFault::Refused(Code::Work));
    };
    let Some(doing) = doing_in(registry, name) else {
        return Err(TaskFault::Refused(Code::Module));
    };
    let task = task_of(alloc, line, fields, doing, given)?;
    if is_past_limits(standing, fields) {
        return Err(TaskFault::Refused(Code::Limit));
    }
    Ok(task)
}
