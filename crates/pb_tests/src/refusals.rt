// Runs by hand in which an allocation may be refused: the refusal is told by name and changes
// nothing, and the same call made again is done. tests/refused_checks.py refuses each allocation in
// turn.
use crate::runs::{ONE_PING, PONG, accepted, job_of, told};
use pb_executor::{GiveError, Run};
use pb_finish::Answer;
use pb_jobs::Job;
use pb_run::{Event, Taken};
use pb_value::read_json;
use pb_verify::Checked;
use std::alloc::Global;
use std::mem;
use std::test::Fail;

// A command whose result is registered, and a debug of its output.
const COMMAND_AND_DEBUG: &[u8] =
    b"[{\"hosts\":\"all\",\"tasks\":[{\"command\":\"x\",\"register\":\"out\"},{\"debug\":{\"msg\":\"{{ out.stdout }}\"}}]}]";

const DONE: &[u8] =
    b"{\"changed\":true,\"rc\":0,\"stdout\":\"a\",\"stderr\":\"\",\"stdout_lines\":[\"a\"],\"stderr_lines\":[]}";

// Each of these is asked a second time where memory was refused the first time.

fn judged(alloc: Global, book: &[u8]) -> Option<Checked> {
    accepted(alloc, book).or_else(|| accepted(alloc, book))
}

fn opened<'c>(alloc: Global, checked: &'c Checked) -> Result<Run<'c>, Fail> {
    match Run::open(alloc, checked, 1) {
        Ok(run) => Ok(run),
        Err(_) => Ok(Run::open(alloc, checked, 1)?),
    }
}

fn taken(run: &mut Run<'_>) -> Result<Taken, Fail> {
    let events = run.history().len();
    match run.take() {
        Ok(taken) => Ok(taken),
        Err(_) if run.history().len() == events => Ok(run.take()?),
        Err(_) => Err("a refused take added an event")?,
    }
}

fn answers(alloc: Global, answer: &[u8]) -> Option<Vec<Answer>> {
    one_answer(alloc, answer).or_else(|| one_answer(alloc, answer))
}

fn one_answer(alloc: Global, answer: &[u8]) -> Option<Vec<Answer>> {
    let mut answers = Vec::new(alloc);
    answers
        .push(Answer::Object(read_json(alloc, answer).ok()?))
        .ok()?;
    Some(answers)
}

fn give(run: &mut Run<'_>, job: Job, answers: Vec<Answer>) -> Result<(), Fail> {
    let events = run.history().len();
    let ticket = job.ticket;
    let count = answers.len();
    let (fault, job, answers) = match run.give(job, answers) {
        Ok(_given) => return Ok(()),
        Err(refused) => refused,
    };
    let is_back = job.ticket == ticket && answers.len() == count;
    if !matches!(fault, GiveError::NoMemory) || !is_back || run.history().len() != events {
        return Err("a refused give changed something, or was refused for another cause")?;
    }
    match run.give(job, answers) {
        Ok(_given) => Ok(()),
        Err(_refused) => Err("the same give is refused again")?,
    }
}

// The next job is that of the ticket, with a call for each answer, and it is done.
fn next_done(run: &mut Run<'_>, ticket: usize, answers: Vec<Answer>) -> Result<(), Fail> {
    let job = job_of(taken(run)?)?;
    if job.ticket == ticket && job.calls.len() == answers.len() {
        give(run, job, answers)
    } else {
        Err("another job")?
    }
}

// What is told of the run of both tasks, by hand.
fn both_done(alloc: Global, run: &mut Run<'_>) -> Result<(usize, u64, u64), Fail> {
    next_done(run, 0, answers(alloc, DONE).ok_or("no answer")?)?;
    next_done(run, 2, Vec::new(alloc))?;
    match taken(run)? {
        Taken::Finished => Ok(told(run)),
        _ => Err("the run goes on")?,
    }
}

fn done_anew(alloc: Global, checked: &Checked) -> Result<(usize, u64, u64), Fail> {
    let mut run = opened(alloc, checked)?;
    let found = both_done(alloc, &mut run);
    mem::forget(run);
    found
}

#[test]
fn a_command_and_a_debug(rt: HostRuntime) -> Result<(), Fail> {
    let checked = judged(rt.alloc(), COMMAND_AND_DEBUG).ok_or("refused")?;
    let found = done_anew(rt.alloc(), &checked)?;
    assert_eq!(rt; found, (5, 2, 1));
    Ok(())
}

// What a refused give hands back is the first job with its answer, and the run is unchanged;
// stopped then, it takes and hands out no more.
fn stops_unchanged(run: &mut Run<'_>, job: Job, answers: Vec<Answer>) -> Result<bool, Fail> {
    let is_back = job.ticket == 0 && answers.len() == 1;
    let is_unchanged = matches!(run.history(), [Event::Start(0)]);
    run.stop();
    let is_stopped = matches!(run.history(), [Event::Start(0), Event::Stop]);
    let is_late = matches!(run.give(job, answers), Err((GiveError::Stopped, _, _)));
    let is_over = matches!(run.take()?, Taken::Stopped);
    Ok(is_back && is_unchanged && is_stopped && is_late && is_over)
}

// Whether the give of the first job is done, or is refused for want of memory, and then told so.
fn gives_or_stops<R: Eprint + AllocGlobal>(rt: &R, run: &mut Run<'_>) -> Result<bool, Fail> {
    let job = job_of(taken(run)?)?;
    match run.give(job, answers(rt.alloc(), PONG).ok_or("no answer")?) {
        Ok(_) => Ok(told(run) == (2, 1, 0)),
        Err((GiveError::NoMemory, job, answers)) => {
            let is_well = stops_unchanged(run, job, answers)?;
            eprintln!(rt; "give refused")?;
            Ok(is_well)
        }
        Err(_) => Err("refused for another cause")?,
    }
}

#[test]
fn a_refused_give_and_a_stop(rt: HostRuntime) -> Result<(), Fail> {
    let checked = judged(rt.alloc(), ONE_PING).ok_or("refused")?;
    let mut run = opened(rt.alloc(), &checked)?;
    assert!(rt; gives_or_stops(&rt, &mut run)?);
    Ok(())
}
