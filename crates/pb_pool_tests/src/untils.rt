// Calls that are made again, of two hosts through two seats.
ghost use Rattle.std.specs.Prelude.{◌<◌, ◌≡◌, List, ℕ};
ghost use Rattle.pb_finish.specs.declared.answer.Answer.{Answer};
ghost use Rattle.pb_run.specs.declared.event.Event.{Event};
ghost use Rattle.pb_verify.specs.declared.checked.Accepted.{Accepted};

use crate::boards::{Counts, closed, counts, given, opened, pair_of};
use crate::books::{TWO_HOSTS, Told, answer_of, checked_for, job_of, told};
use pb_executor::{GiveError, Run};
use pb_jobs::Job;
use pb_pool::{Board, Rule, Seat};
use pb_run::{Event, Given, Taken};
use pb_verify::Checked;
use std::alloc::Global;
use std::marker::Brand;
use std::sync::Wait;
use std::sync::ledger::{Blank, Ledger};
use std::test::Fail;

/// A command that is asked until it says 0.
pub const ASKED_AGAIN: &[u8] =
    b"[{\"hosts\":\"all\",\"tasks\":[{\"command\":\"x\",\"register\":\"r\",\"until\":\"r.rc == 0\"}]}]";

pub const NOT_YET: &[u8] =
    b"{\"changed\":true,\"rc\":1,\"stdout\":\"\",\"stderr\":\"\",\"stdout_lines\":[],\"stderr_lines\":[]}";

pub const NOW: &[u8] =
    b"{\"changed\":true,\"rc\":0,\"stdout\":\"\",\"stderr\":\"\",\"stdout_lines\":[],\"stderr_lines\":[]}";

// The job that makes the calls again.
fn again_of(given: Result<Given, GiveError>) -> Result<Job, &'static str> {
    match given {
        Ok(Given::Again(job)) => Ok(job),
        _ => Err("the calls aren't made again"),
    }
}

// Whether both jobs have ended once the first seat's calls are made again, and those of the second
// seat once.
fn are_done<C: Ledger, G: Ledger, P: Rule, R: Wait>(
    rt: &R,
    alloc: Global,
    board: &Board<'_, C, G, P>,
    first: &mut Seat<C, G>,
    second: &mut Seat<C, G>,
) -> Result<bool, Fail>
    requires { (t k : ℕ) (xs : List Answer) → P.told t k xs }
{
    let one = job_of(board.take(rt, first)?)?;
    let two = job_of(board.take(rt, second)?)?;
    let again = again_of(given(rt, board, first, one, answer_of(alloc, NOT_YET)?))?;
    let is_second = matches!(
        given(rt, board, second, two, answer_of(alloc, NOW)?),
        Ok(Given::Done)
    );
    let is_first = matches!(
        given(rt, board, first, again, answer_of(alloc, NOW)?),
        Ok(Given::Done)
    );
    Ok(is_second && is_first)
}

// Whether the run has ended for both seats.
fn are_through<C: Ledger, G: Ledger, P: Rule, R: Wait>(
    rt: &R,
    board: &Board<'_, C, G, P>,
    first: &mut Seat<C, G>,
    second: &mut Seat<C, G>,
) -> Result<bool, Fail> {
    let is_first = matches!(board.take(rt, first)?, Taken::Finished);
    let is_second = matches!(board.take(rt, second)?, Taken::Finished);
    Ok(is_first && is_second)
}

fn is_start(event: &Event, host: usize) -> bool {
    matches!(event, Event::Start(started) if *started == host)
}

fn is_give(event: &Event, host: usize) -> bool {
    matches!(event, Event::Give(given, _) if *given == host)
}

// Whether these are the events of two hosts, of which the first one's calls were made again.
fn are_asked_again(events: &[Event]) -> bool {
    events.len() == 6
        && is_start(&events[0], 0)
        && is_start(&events[1], 1)
        && is_give(&events[2], 0)
        && is_give(&events[3], 1)
        && is_give(&events[4], 0)
        && matches!(events[5], Event::Turn)
}

/// Whether the run's events are these, and what is told of both hosts.
pub fn told_of(run: &Run<'_>) -> (bool, Told, Told) {
    (are_asked_again(run.history()), told(run, 0), told(run, 1))
}

// Whether both jobs and the run have ended, what each seat counts then, and what is told of the
// run.
fn asked_by_two<C: Ledger, G: Ledger, P: Rule, R: Wait>(
    rt: &R,
    alloc: Global,
    calls: Blank,
    gives: Blank,
    checked: &Checked,
) -> Result<(bool, [Counts; 2], (bool, Told, Told)), Fail>
    requires names { (calls.name ≡ C.name) × (gives.name ≡ G.name) }
    requires parts { (calls.parts ≡ C.parts) × (gives.parts ≡ G.parts) }
    requires two { (calls.parts ≡ 2) × (gives.parts ≡ 2) }
    requires free { (a : Accepted) (f : ℕ) (es : List Event) → P.of a f es }
    requires any { (t k : ℕ) (xs : List Answer) → P.told t k xs }
{
    let (board, seats) = opened::<C, G, P>(alloc, calls, gives, checked, 2)?;
    let (mut first, mut second) = pair_of(seats)?;
    let are_done = are_done(rt, alloc, &board, &mut first, &mut second)?;
    let are_through = are_through(rt, &board, &mut first, &mut second)?;
    let seen = [counts(&first), counts(&second)];
    let run = closed(alloc, board, first, second)?;
    Ok((are_done && are_through, seen, told_of(&run)))
}

#[test]
fn calls_are_made_again_through_two_seats(rt: HostRuntime) -> Result<(), Fail> {
    let alloc = rt.alloc();
    let checked = checked_for(alloc, ASKED_AGAIN, TWO_HOSTS).ok_or("refused")?;
    let (calls, gives) = (Blank::new(2), Blank::new(2));
    let found = asked_by_two::<Brand, Brand, Brand, HostRuntime>(
        &rt, alloc, calls, gives, &checked,
    )?;
    let done = (true, (1, 1, 0, 0), (1, 1, 0, 0));
    assert_eq!(rt; found, (true, [(2, 2), (1, 1)], done));
    Ok(())
}
