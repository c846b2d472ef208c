// The steps of sections and of the parts of blocks.
ghost use Rattle.std.specs.Prelude.{◌≡◌, IfOk, Ok, option_map};
ghost use Rattle.pb_semantics.specs.Words.{Gives, rec};
ghost use Rattle.pb_language.specs.BookForm.{standing, step_in, steps_in, task_in};
ghost use Rattle.pb_value.specs.Words.{fields_view, items_view, view};
ghost use Rattle.pb_sig.specs.Words.{modules_of};
ghost use Rattle.pb_task.specs.Words.{standing_view, task_view};
ghost use Rattle.pb_play.specs.Faults.{offence_of};
ghost use Rattle.pb_play.specs.Parts.{block_at, step_with, steps_at};
ghost use Rattle.pb_play.specs.Plays.{step_view, steps_view};
ghost use Rattle.pb_play.specs.Sound.{AreSound, as_list, step_tasks, tasks_in};

use crate::block::head_in;
use crate::fault::PlayFault;
use crate::form::MOST_LINES;
use crate::play::{Block, Step};
use pb_sig::Registry;
use pb_task::{Code, Standing, Task, has_key, read_task};
use pb_value::{Fields, Value, field_of};
use std::alloc::Global;

// The steps of a section or of a part of a block, where it is there, and the line behind them.
#[cycle(steps)]
pub(crate) fn steps_at(
    alloc: Global,
    registry: &Registry,
    depth: u32,
    line: u32,
    part: Option<&Value>,
) -> Result<(Vec<Step>, u32), PlayFault>
    ensures given { Gives (λ r. Ok (steps_view r.0.items, r.1)) offence_of result
        (steps_at (modules_of registry.now) depth line (option_map (λ v. view v.now) part.entry)) }
    ensures sound { IfOk result (λ r. AreSound (modules_of registry.now) (tasks_in r.0.items)) }
{
    match part {
        Some(Value::List(items)) => steps_in(alloc, registry, depth, line, items),
        _ => Ok((Vec::new(alloc), line)),
    }
}

#[cycle(steps)]
fn steps_in(
    alloc: Global,
    registry: &Registry,
    depth: u32,
    line: u32,
    items: &[Value],
) -> Result<(Vec<Step>, u32), PlayFault>
    ensures given { Gives (λ r. Ok (steps_view r.0.items, r.1)) offence_of result
        (steps_in (modules_of registry.now) depth line (items_view items.now)) }
    ensures sound { IfOk result (λ r. AreSound (modules_of registry.now) (tasks_in r.0.items)) }
{
    let mut steps = Vec::new(alloc);
    let mut next = line;
    for item in items {
        let (step, after) = step_in(alloc, registry, depth, next, item)?;
        steps.push(step)?;
        next = after;
    }
    Ok((steps, next))
}

#[cycle(steps)]
fn step_in(
    alloc: Global,
    registry: &Registry,
    depth: u32,
    line: u32,
    item: &Value,
) -> Result<(Step, u32), PlayFault>
    ensures given { Gives (λ r. Ok (step_view r.0, r.1)) offence_of result
        (step_in (modules_of registry.now) depth line (view item.now)) }
    ensures sound { IfOk result (λ r. AreSound (modules_of registry.now) (step_tasks r.0)) }
{
    match item {
        Value::Rec(fields) => step_of(alloc, registry, depth, line, fields),
        _ => Err(PlayFault::at(line, Code::Shape)),
    }
}

#[cycle(steps)]
fn step_of(
    alloc: Global,
    registry: &Registry,
    depth: u32,
    line: u32,
    fields: &Fields,
) -> Result<(Step, u32), PlayFault>
    ensures given { Gives (λ r. Ok (step_view r.0, r.1)) offence_of result
        (step_in (modules_of registry.now) depth line (rec (fields_view fields.now.entries))) }
    ensures sound { IfOk result (λ r. AreSound (modules_of registry.now) (step_tasks r.0)) }
{
    if has_key(fields, "block") {
        block_in(alloc, registry, depth, line, fields)
    } else {
        task_in(alloc, registry, depth, line, fields)
    }
}

#[cycle(steps)]
fn block_in(
    alloc: Global,
    registry: &Registry,
    depth: u32,
    line: u32,
    fields: &Fields,
) -> Result<(Step, u32), PlayFault>
    ensures given { Gives (λ r. Ok (step_view r.0, r.1)) offence_of result
        (block_at (modules_of registry.now) depth line (fields_view fields.now.entries)) }
    ensures sound { IfOk result (λ r. AreSound (modules_of registry.now) (step_tasks r.0)) }
{
    let head = head_in(alloc, depth, line, fields)?;
    let inside = depth + 1;
    let (body, next) = steps_at(alloc, registry, inside, line + 1, field_of(fields, "block"))?;
    let (rescue, next) = steps_at(alloc, registry, inside, next, field_of(fields, "rescue"))?;
    let (always, next) = steps_at(alloc, registry, inside, next, field_of(fields, "always"))?;
    let block = Block {
        head,
        body,
        rescue,
        always,
    };
    Ok((Step::Block(block), next))
}

// A task, or a flush.
fn task_in(
    alloc: Global,
    registry: &Registry,
    depth: u32,
    line: u32,
    fields: &Fields,
) -> Result<(Step, u32), PlayFault>
    ensures given { Gives (λ r. Ok (step_view r.0, r.1)) offence_of result
        (task_in (modules_of registry.now) depth line (fields_view fields.now.entries)) }
    ensures sound { IfOk result (λ r. AreSound (modules_of registry.now) (step_tasks r.0)) }
{
    let step = match read_task(alloc, registry, standing(depth), line, fields) {
        Ok(task) => step_with(line, task),
        Err(fault) => return Err(PlayFault::of_task(line, fault)),
    };
    if line > MOST_LINES {
        return Err(PlayFault::at(line, Code::Limit));
    }
    Ok((step, line + 1))
}

fn step_with(line: u32, task: Option<Task>) -> Step
    ensures given { step_view result ≡ step_with line (option_map task_view task) }
    ensures tasks { step_tasks result ≡ as_list task }
{
    match task {
        None => Step::Flush(line),
        Some(task) => Step::Task(task),
    }
}

fn standing(depth: u32) -> Standing
    ensures { standing_view result ≡ standing depth }
{
    if depth == 0 {
        Standing::AtTop
    } else {
        Standing::InBlock
    }
}
