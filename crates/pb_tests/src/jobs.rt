// Jobs that are out beside one another, and calls that are made again.
use crate::runs::{ONE_PING, PONG, accepted, answer_of, checked_for, error_of, job_of};
use pb_executor::{GiveError, Run};
use pb_jobs::Job;
use pb_run::{Event, Given, Taken};
use pb_verify::Checked;
use std::alloc::Global;
use std::mem;
use std::test::Fail;

const TWO_HOSTS: &[u8] = b"{\"all\":{\"hosts\":[\"h1\",\"h2\"]}}";

// The host and the ticket of the job that is taken; none where there is no job.
fn place_of(taken: &Taken) -> Option<(usize, usize)> {
    match taken {
        Taken::Job(job) => Some((job.host, job.ticket)),
        _ => None,
    }
}

// Of three takes of a run of two hosts the first job, whether the second host's is the next, and
// whether the last one finds none.
fn taken_thrice(run: &mut Run<'_>) -> Result<(Option<(usize, usize)>, bool, bool), Fail> {
    let first = run.take()?;
    let second = run.take()?;
    let is_second = matches!(place_of(&second), Some((1, 1)));
    let is_idle = matches!(run.take()?, Taken::Idle);
    Ok((place_of(&first), is_second, is_idle))
}

#[test]
fn one_job_is_out_by_one_fork(rt: HostRuntime) -> Result<(), Fail> {
    let checked = checked_for(rt.alloc(), ONE_PING, TWO_HOSTS).ok_or("refused")?;
    let mut run = Run::open(rt.alloc(), &checked, 1)?;
    let found = taken_thrice(&mut run)?;
    assert_eq!(rt; found, (Some((0, 0)), false, true));
    Ok(())
}

#[test]
fn two_jobs_are_out_by_two_forks(rt: HostRuntime) -> Result<(), Fail> {
    let checked = checked_for(rt.alloc(), ONE_PING, TWO_HOSTS).ok_or("refused")?;
    let mut run = Run::open(rt.alloc(), &checked, 2)?;
    let found = taken_thrice(&mut run)?;
    assert_eq!(rt; found, (Some((0, 0)), true, true));
    Ok(())
}

// The second host's job, with the ticket of the first one's.
fn mistaken(alloc: Global) -> Job {
    Job {
        ticket: 0,
        host: 1,
        calls: Vec::new(alloc),
    }
}

// Why the second host's answers are refused under the first one's ticket, and whether the jobs can
// then be given in the other order.
fn crossed(alloc: Global, run: &mut Run<'_>) -> Result<(Option<GiveError>, bool), Fail> {
    let first = job_of(run.take()?)?;
    let second = job_of(run.take()?)?;
    let strange = error_of(&run.give(mistaken(alloc), answer_of(alloc, PONG)?));
    let is_second = matches!(run.give(second, answer_of(alloc, PONG)?), Ok(Given::Done));
    let is_first = matches!(run.give(first, answer_of(alloc, PONG)?), Ok(Given::Done));
    Ok((strange, is_second && is_first))
}

// Whether these are the events of two hosts that started in their order and ended in the other.
fn are_crossed(events: &[Event]) -> bool {
    matches!(
        events,
        [
            Event::Start(0),
            Event::Start(1),
            Event::Give(1, _),
            Event::Give(0, _)
        ]
    )
}

#[test]
fn jobs_end_in_any_order(rt: HostRuntime) -> Result<(), Fail> {
    let checked = checked_for(rt.alloc(), ONE_PING, TWO_HOSTS).ok_or("refused")?;
    let mut run = Run::open(rt.alloc(), &checked, 2)?;
    assert_eq!(rt;
        crossed(rt.alloc(), &mut run)?,
        (Some(GiveError::Stranger), true)
    );
    assert!(rt; are_crossed(run.history()));
    Ok(())
}

// A command that is asked until it says 0.
const ASKED_AGAIN: &[u8] =
    b"[{\"hosts\":\"all\",\"tasks\":[{\"command\":\"x\",\"register\":\"r\",\"until\":\"r.rc == 0\"}]}]";

const NOT_YET: &[u8] =
    b"{\"changed\":true,\"rc\":1,\"stdout\":\"\",\"stderr\":\"\",\"stdout_lines\":[],\"stderr_lines\":[]}";

const NOW: &[u8] =
    b"{\"changed\":true,\"rc\":0,\"stdout\":\"\",\"stderr\":\"\",\"stdout_lines\":[],\"stderr_lines\":[]}";

// The number of the one call of a job; none where it has another number of calls.
fn number_of(job: &Job) -> Option<u64> {
    match job.calls.as_slice() {
        [call] => Some(call.number),
        _ => None,
    }
}

// The job that makes the calls again.
fn again_of(given: Given) -> Result<Job, &'static str> {
    match given {
        Given::Again(job) => Ok(job),
        Given::Done => Err("the job has ended"),
    }
}

fn given(alloc: Global, run: &mut Run<'_>, job: Job, answer: &[u8]) -> Result<Given, Fail> {
    match run.give(job, answer_of(alloc, answer)?) {
        Ok(given) => Ok(given),
        Err(_) => Err("a give is refused")?,
    }
}

// Of the job that makes the calls again the ticket and the number of its call, and whether it then
// ends.
fn asked_twice(alloc: Global, run: &mut Run<'_>) -> Result<(usize, Option<u64>, bool), Fail> {
    let job = job_of(run.take()?)?;
    let again = again_of(given(alloc, run, job, NOT_YET)?)?;
    let ticket = again.ticket;
    let number = number_of(&again);
    let is_done = matches!(given(alloc, run, again, NOW)?, Given::Done);
    Ok((ticket, number, is_done))
}

fn asked_anew(alloc: Global, checked: &Checked) -> Result<(usize, Option<u64>, bool), Fail> {
    let mut run = Run::open(alloc, checked, 1)?;
    let found = asked_twice(alloc, &mut run);
    mem::forget(run);
    found
}

#[test]
fn calls_are_made_again(rt: HostRuntime) -> Result<(), Fail> {
    let checked = accepted(rt.alloc(), ASKED_AGAIN).ok_or("refused")?;
    let found = asked_anew(rt.alloc(), &checked)?;
    assert_eq!(rt; found, (1, Some(1), true));
    Ok(())
}
