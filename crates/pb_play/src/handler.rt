// The handlers of a play.
ghost use Rattle.std.specs.Prelude.{[], ◌≡◌, ◌≤◌, IfOk, Ok, map, option_map};
ghost use Rattle.std.specs.Prelude.{string_bytes};
ghost use Rattle.pb_semantics.specs.Words.{Gives, is_among};
ghost use Rattle.pb_language.specs.BookForm.{handlers_in, handlers_of, is_second, most_lines};
ghost use Rattle.pb_value.specs.Words.{fields_view, items_view, view};
ghost use Rattle.pb_sig.specs.Words.{modules_of};
ghost use Rattle.pb_task.specs.Words.{task_view};
ghost use Rattle.pb_play.specs.Faults.{offence_of};
ghost use Rattle.pb_play.specs.Handlers.{handler_of, handler_read, is_named, names_met};
ghost use Rattle.pb_play.specs.Handlers.{work_read};
ghost use Rattle.pb_play.specs.Plays.{handler_view};
ghost use Rattle.pb_play.specs.Sound.{AreSound, IsSound, handler_tasks};

use crate::fault::PlayFault;
use crate::form::MOST_LINES;
use crate::play::Handler;
use pb_sig::Registry;
use pb_task::{Code, Standing, Task, read_task, text_in, topics_in};
use pb_value::{Fields, Value};
use std::alloc::{AllocError, Global};
use std::sync::Arc;

// The most handlers of a play.
const MOST_HANDLERS: usize = 256;

// The handlers from that line on, where they are there, and the line behind them.
pub(crate) fn handlers_at(
    alloc: Global,
    registry: &Registry,
    line: u32,
    handlers: Option<&Value>,
) -> Result<(Vec<Handler>, u32), PlayFault>
    ensures given { Gives (λ r. Ok (map handler_view r.0.items, r.1)) offence_of result
        (handlers_of (modules_of registry.now) line
        (option_map (λ v. view v.now) handlers.entry)) }
    ensures sound { IfOk result
        (λ r. AreSound (modules_of registry.now) (handler_tasks r.0.items)) }
{
    match handlers {
        Some(Value::List(items)) => handlers_in(alloc, registry, line, items),
        _ => Ok((Vec::new(alloc), line)),
    }
}

fn handlers_in(
    alloc: Global,
    registry: &Registry,
    line: u32,
    items: &[Value],
) -> Result<(Vec<Handler>, u32), PlayFault>
    ensures given { Gives (λ r. Ok (map handler_view r.0.items, r.1)) offence_of result
        (handlers_in (modules_of registry.now) line 0 [] (items_view items.now)) }
    ensures sound { IfOk result
        (λ r. AreSound (modules_of registry.now) (handler_tasks r.0.items)) }
{
    let mut handlers: Vec<Handler> = Vec::new(alloc);
    let mut next = line;
    for item in items {
        let handler = handler_in(alloc, registry, next, handlers.as_slice(), item)?;
        handlers.push(handler)?;
        next += 1;
    }
    Ok((handlers, next))
}

// The handler behind these.
fn handler_in(
    alloc: Global,
    registry: &Registry,
    line: u32,
    earlier: &[Handler],
    item: &Value,
) -> Result<Handler, PlayFault>
    ensures given { Gives (λ h. Ok (handler_view h)) offence_of result
        (handler_read (modules_of registry.now) line (map handler_view earlier.now)
        (view item.now)) }
    ensures sound { IfOk result (λ h. IsSound (modules_of registry.now) h.task) }
    ensures within { IfOk result (λ h. line ≤ most_lines) }
{
    match item {
        Value::Rec(fields) => handler_of(alloc, registry, line, earlier, fields),
        _ => Err(PlayFault::at(line, Code::Shape)),
    }
}

fn handler_of(
    alloc: Global,
    registry: &Registry,
    line: u32,
    earlier: &[Handler],
    fields: &Fields,
) -> Result<Handler, PlayFault>
    ensures given { Gives (λ h. Ok (handler_view h)) offence_of result
        (handler_of (modules_of registry.now) line (map handler_view earlier.now)
        (fields_view fields.now.entries)) }
    ensures sound { IfOk result (λ h. IsSound (modules_of registry.now) h.task) }
    ensures within { IfOk result (λ h. line ≤ most_lines) }
{
    let task = work_of(alloc, registry, line, fields)?;
    if line > MOST_LINES || earlier.len() >= MOST_HANDLERS {
        return Err(PlayFault::at(line, Code::Limit));
    }
    let name = text_in(fields, "name")?;
    if is_second(earlier, &name) {
        return Err(PlayFault::at(line, Code::Name));
    }
    let topics = topics_in(alloc, fields, "listen")?;
    Ok(Handler { task, name, topics })
}

// The task that a handler does. No handler is a flush.
fn work_of(
    alloc: Global,
    registry: &Registry,
    line: u32,
    fields: &Fields,
) -> Result<Task, PlayFault>
    ensures given { Gives (λ t. Ok (task_view t)) offence_of result
        (work_read (modules_of registry.now) line (fields_view fields.now.entries)) }
    ensures sound { IfOk result (IsSound (modules_of registry.now)) }
{
    match read_task(alloc, registry, Standing::AsHandler, line, fields) {
        Ok(Some(task)) => Ok(task),
        Ok(None) => Err(PlayFault::at(line, Code::Value)),
        Err(fault) => Err(PlayFault::of_task(line, fault)),
    }
}

// Whether one of the handlers has that name.
fn is_second(handlers: &[Handler], name: &Option<Arc<String>>) -> bool
    ensures { result ≡ is_second (names_met (map handler_view handlers.now))
        (option_map (λ n. string_bytes n.value) name.now) }
{
    match name {
        None => false,
        Some(name) => is_taken(handlers, name.as_str()),
    }
}

fn is_taken(handlers: &[Handler], name: &str) -> bool
    ensures { result ≡ is_among name.now (names_met (map handler_view handlers.now)) }
{
    for handler in handlers {
        if is_named(handler, name) {
            return true;
        }
    }
    false
}

fn is_named(handler: &Handler, name: &str) -> bool
    ensures { result ≡ is_named name.now (handler_view handler.now) }
{
    match &handler.name {
        None => false,
        Some(own) => name == own.as_str(),
    }
}
