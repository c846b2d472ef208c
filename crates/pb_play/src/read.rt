// The plays that a value is.
ghost use Rattle.std.specs.Prelude.{◌≡◌, IfOk, Ok, map, true};
ghost use Rattle.pb_semantics.specs.Words.{Gives, rec};
ghost use Rattle.pb_language.specs.BookForm.{book_from, gathering_in, play_in};
ghost use Rattle.pb_value.specs.Words.{fields_view, items_view, view};
ghost use Rattle.pb_sig.specs.Words.{modules_of};
ghost use Rattle.pb_play.specs.Counted.{is_counted};
ghost use Rattle.pb_play.specs.Faults.{offence_of};
ghost use Rattle.pb_play.specs.Heads.{play_head_view};
ghost use Rattle.pb_play.specs.Plays.{play_view};
ghost use Rattle.pb_play.specs.Sound.{AreSound, all_tasks, play_tasks, section_tasks};
ghost use Rattle.pb_play.specs.Sections.{gathering_at, play_with, plays_from, sections_in};
ghost use Rattle.pb_play.specs.Sections.{sections_view};

use crate::fault::PlayFault;
use crate::form::MOST_LINES;
use crate::handler::handlers_at;
use crate::head::{Head, play_head};
use crate::play::{Handler, Play, Step};
use crate::steps::steps_at;
use pb_sig::Registry;
use pb_task::Code;
use pb_value::{Fields, Value, field_of};
use std::alloc::Global;

// The line of the first play, and of a book that is refused whole.
const FIRST_LINE: u32 = 1;

const WHOLE_BOOK: u32 = 0;

// The sections of a play, and its handlers.
#[derive(Drop)]
struct Sections {
    pre_tasks: Vec<Step>,
    tasks: Vec<Step>,
    post_tasks: Vec<Step>,
    handlers: Vec<Handler>,
}

/// The plays of the book that the value is, each module that it names being the registry's.
///
/// Lines are counted from 1: each play, its task that gathers facts, then the blocks and tasks of
/// its sections and its handlers, as they run.
///
/// # Errors
///
/// The first line on which something is wrong with the least code that applies to it, P02 to P09;
/// or want of memory.
pub fn read_plays(alloc: Global, registry: &Registry, value: &Value) -> Result<Vec<Play>, PlayFault>
    ensures given { Gives (λ ps. Ok (map play_view ps.items)) offence_of result
        (book_from (modules_of registry.now) (view value.now)) }
    ensures counted { IfOk result (λ ps. is_counted (map play_view ps.items) ≡ true) }
    ensures sound { IfOk result (λ ps. AreSound (modules_of registry.now) (all_tasks ps.items)) }
{
    match value {
        Value::List(items) => plays_in(alloc, registry, items),
        _ => Err(PlayFault::at(WHOLE_BOOK, Code::Shape)),
    }
}

fn plays_in(alloc: Global, registry: &Registry, items: &[Value]) -> Result<Vec<Play>, PlayFault>
    ensures given { Gives (λ ps. Ok (map play_view ps.items)) offence_of result
        (plays_from (modules_of registry.now) (items_view items.now)) }
    ensures sound { IfOk result (λ ps. AreSound (modules_of registry.now) (all_tasks ps.items)) }
{
    let mut plays = Vec::new(alloc);
    let mut line = FIRST_LINE;
    for (earlier, item) in items.iter().enumerate() {
        let (play, next) = play_in(alloc, registry, earlier, line, item)?;
        plays.push(play)?;
        line = next;
    }
    Ok(plays)
}

// The play behind so many others, and the line behind it.
fn play_in(
    alloc: Global,
    registry: &Registry,
    earlier: usize,
    line: u32,
    item: &Value,
) -> Result<(Play, u32), PlayFault>
    ensures given { Gives (λ r. Ok (play_view r.0, r.1)) offence_of result
        (play_in (modules_of registry.now) earlier line (view item.now)) }
    ensures sound { IfOk result (λ r. AreSound (modules_of registry.now) (play_tasks r.0)) }
{
    match item {
        Value::Rec(fields) => play_of(alloc, registry, earlier, line, fields),
        _ => Err(PlayFault::at(line, Code::Shape)),
    }
}

fn play_of(
    alloc: Global,
    registry: &Registry,
    earlier: usize,
    line: u32,
    fields: &Fields,
) -> Result<(Play, u32), PlayFault>
    ensures given { Gives (λ r. Ok (play_view r.0, r.1)) offence_of result
        (play_in (modules_of registry.now) earlier line (rec (fields_view fields.now.entries))) }
    ensures sound { IfOk result (λ r. AreSound (modules_of registry.now) (play_tasks r.0)) }
{
    let head = play_head(alloc, earlier, line, fields)?;
    let (gathering, first) = gathering_at(line + 1, head.gathers)?;
    let (sections, next) = sections_in(alloc, registry, first, fields)?;
    Ok((play_with(line, head, gathering, sections), next))
}

// The line of the task that gathers facts, where there is one, and the line behind it.
fn gathering_at(line: u32, gathers: bool) -> Result<(Option<u32>, u32), PlayFault>
    ensures { Gives (λ r. Ok r) offence_of result (gathering_at line gathers) }
{
    if !gathers {
        return Ok((None, line));
    }
    if line > MOST_LINES {
        return Err(PlayFault::at(line, Code::Limit));
    }
    Ok((Some(line), line + 1))
}

// The sections and handlers from that line on, and the line behind them.
fn sections_in(
    alloc: Global,
    registry: &Registry,
    line: u32,
    fields: &Fields,
) -> Result<(Sections, u32), PlayFault>
    ensures given { Gives (λ r. Ok (sections_view r.0, r.1)) offence_of result
        (sections_in (modules_of registry.now) line (fields_view fields.now.entries)) }
    ensures sound { IfOk result (λ r. AreSound (modules_of registry.now) (section_tasks r.0)) }
{
    let (pre_tasks, next) = steps_at(alloc, registry, 0, line, field_of(fields, "pre_tasks"))?;
    let (tasks, next) = steps_at(alloc, registry, 0, next, field_of(fields, "tasks"))?;
    let (post_tasks, next) = steps_at(alloc, registry, 0, next, field_of(fields, "post_tasks"))?;
    let (handlers, next) = handlers_at(alloc, registry, next, field_of(fields, "handlers"))?;
    let sections = Sections {
        pre_tasks,
        tasks,
        post_tasks,
        handlers,
    };
    Ok((sections, next))
}

fn play_with(line: u32, head: Head, gathering: Option<u32>, sections: Sections) -> Play
    ensures given { play_view result
        ≡ play_with line (play_head_view head) gathering (sections_view sections) }
    ensures tasks { play_tasks result ≡ section_tasks sections }
{
    let Head {
        pattern,
        vars,
        strategy,
        serial,
        gathers: _,
        force_handlers,
    } = head;
    let Sections {
        pre_tasks,
        tasks,
        post_tasks,
        handlers,
    } = sections;
    Play {
        line,
        pattern,
        gathering,
        vars,
        strategy,
        serial,
        pre_tasks,
        tasks,
        post_tasks,
        handlers,
        force_handlers,
    }
}
