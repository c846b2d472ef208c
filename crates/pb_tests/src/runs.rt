// Runs of one task, taken and given by hand.
use pb_book::Book;
use pb_executor::drive::drive;
use pb_executor::replay::replay;
use pb_executor::{GiveError, Run};
use pb_finish::Answer;
use pb_inventory::Inventory;
use pb_jobs::Job;
use pb_run::{Event, Given, Taken};
use pb_runner::ScriptRunner;
use pb_sig::Registry;
use pb_value::read_json;
use pb_verify::Checked;
use pb_verify::verify::verify;
use std::alloc::Global;
use std::test::Fail;

pub const ONE_HOST: &[u8] = b"{\"all\":{\"hosts\":[\"h1\"]}}";

pub const ONE_PING: &[u8] = b"[{\"hosts\":\"all\",\"tasks\":[{\"ping\":null}]}]";

pub const PONG: &[u8] = b"{\"ping\":\"pong\"}";

/// The book accepted for the inventory; none where it is refused, or memory is.
pub fn checked_for(alloc: Global, book: &[u8], inventory: &[u8]) -> Option<Checked> {
    let registry = Registry::builtin(alloc).ok()?;
    let inventory = Inventory::read(alloc, inventory).ok()?;
    let book = Book::read(alloc, book, &registry).ok()?;
    verify(alloc, book, inventory, registry).ok()
}

/// The book accepted for one host; none where it is refused, or memory is.
pub fn accepted(alloc: Global, book: &[u8]) -> Option<Checked> {
    checked_for(alloc, book, ONE_HOST)
}

pub fn job_of(taken: Taken) -> Result<Job, &'static str> {
    match taken {
        Taken::Job(job) => Ok(job),
        _ => Err("no job"),
    }
}

/// One answer, of these bytes.
pub fn answer_of(alloc: Global, bytes: &[u8]) -> Result<Vec<Answer>, Fail> {
    let mut answers = Vec::new(alloc);
    answers.push(Answer::Object(read_json(alloc, bytes)?))?;
    Ok(answers)
}

pub fn error_of(given: &Result<Given, (GiveError, Job, Vec<Answer>)>) -> Option<GiveError> {
    match given {
        Ok(_) => None,
        Err(refused) => Some(refused.0),
    }
}

// The job of the first task, as its ticket names it.
fn first_job(alloc: Global) -> Job {
    Job {
        ticket: 0,
        host: 0,
        calls: Vec::new(alloc),
    }
}

fn give_pong(alloc: Global, run: &mut Run<'_>) -> Result<(), Fail> {
    let job = job_of(run.take()?)?;
    match run.give(job, answer_of(alloc, PONG)?) {
        Ok(_) => Ok(()),
        Err(_) => Err("the first give is refused")?,
    }
}

// A run of one ping whose job was taken and given.
fn ping_given<'c>(alloc: Global, checked: &'c Checked) -> Result<Run<'c>, Fail> {
    let mut run = Run::open(alloc, checked, 1)?;
    give_pong(alloc, &mut run)?;
    Ok(run)
}

/// What is compared of a run: its events, and its host's tasks that went well and that changed
/// something.
pub fn told(run: &Run<'_>) -> (usize, u64, u64) {
    let recap = run.recap(0);
    (run.history().len(), recap.ok, recap.changed)
}

// Why the pong of this job is refused, where it is.
fn error_of_give(alloc: Global, run: &mut Run<'_>, job: Job) -> Result<Option<GiveError>, Fail> {
    let answers = answer_of(alloc, PONG)?;
    Ok(error_of(&run.give(job, answers)))
}

fn given_twice(
    alloc: Global,
    run: &mut Run<'_>,
) -> Result<(Option<GiveError>, (usize, u64, u64)), Fail> {
    let again = error_of_give(alloc, run, first_job(alloc))?;
    Ok((again, told(run)))
}

#[test]
fn a_second_give_is_a_stranger(rt: HostRuntime) -> Result<(), Fail> {
    let checked = accepted(rt.alloc(), ONE_PING).ok_or("refused")?;
    let mut run = ping_given(rt.alloc(), &checked)?;
    let found = given_twice(rt.alloc(), &mut run)?;
    assert_eq!(rt; found, (Some(GiveError::Stranger), (2, 1, 0)));
    Ok(())
}

// Why the give of a stopped run is refused, whether the run is over then, and what is told of it.
fn stopped_and_given(
    alloc: Global,
    run: &mut Run<'_>,
) -> Result<(Option<GiveError>, bool, (usize, u64, u64)), Fail> {
    let job = job_of(run.take()?)?;
    run.stop();
    let late = error_of_give(alloc, run, job)?;
    let is_over = matches!(run.take()?, Taken::Stopped);
    let is_kept = matches!(run.history(), [Event::Start(0), Event::Stop]);
    Ok((late, is_over && is_kept, told(run)))
}

#[test]
fn a_stopped_run_gives_the_job_back(rt: HostRuntime) -> Result<(), Fail> {
    let checked = accepted(rt.alloc(), ONE_PING).ok_or("refused")?;
    let mut run = Run::open(rt.alloc(), &checked, 1)?;
    let found = stopped_and_given(rt.alloc(), &mut run)?;
    assert_eq!(rt; found, (Some(GiveError::Stopped), true, (2, 0, 0)));
    Ok(())
}

// Whether the history of a driven run is that of its one task, and what is told of it.
fn driven(alloc: Global, checked: &Checked) -> Result<(bool, (usize, u64, u64)), Fail> {
    // A number of 64 bits: so many calls can be counted.
    let _budget = checked.budget();
    let mut runner = ScriptRunner::read(alloc, b"{\"h1\":[{\"ping\":\"pong\"}]}")?;
    let mut run = Run::open(alloc, checked, 1)?;
    drive(&mut run, &mut runner)?;
    let is_done = matches!(
        run.history(),
        [Event::Start(0), Event::Give(0, _), Event::Turn]
    );
    Ok((is_done, told(&run)))
}

#[test]
fn drive_runs_to_the_end(rt: HostRuntime) -> Result<(), Fail> {
    let checked = accepted(rt.alloc(), ONE_PING).ok_or("refused")?;
    let found = driven(rt.alloc(), &checked)?;
    assert_eq!(rt; found, (true, (3, 1, 0)));
    Ok(())
}

// A task's events, one that can't happen behind each of them.
fn events_of_ping(alloc: Global) -> Result<Vec<Event>, Fail> {
    let first = answer_of(alloc, PONG)?;
    let again = answer_of(alloc, PONG)?;
    let events = vec![in alloc;
        Event::Start(0),
        Event::Turn,
        Event::Give(0, first),
        Event::Give(0, again),
        Event::Turn,
        Event::Stop,
    ]?;
    Ok(events)
}

fn replayed(
    alloc: Global,
    checked: &Checked,
    events: &[Event],
) -> Result<(bool, (usize, u64, u64)), Fail> {
    let run = replay(alloc, checked, 1, events)?;
    let is_kept = matches!(
        run.history(),
        [Event::Start(0), Event::Give(0, _), Event::Turn]
    );
    Ok((is_kept, told(&run)))
}

#[test]
fn a_run_is_made_anew_of_what_can_happen(rt: HostRuntime) -> Result<(), Fail> {
    let checked = accepted(rt.alloc(), ONE_PING).ok_or("refused")?;
    let events = events_of_ping(rt.alloc())?;
    let found = replayed(rt.alloc(), &checked, &events)?;
    assert_eq!(rt; found, (true, (3, 1, 0)));
    Ok(())
}
