// A board by hand at which an allocation may be refused: the refusal is told by name and changes
// nothing, and the same call made again is done. tests/refused_checks.py refuses each allocation in
// turn.
ghost use Rattle.std.specs.Prelude.{◌<◌, ◌≡◌, IfOk, List, ℕ};
ghost use Rattle.pb_executor.specs.Words.{opened};
ghost use Rattle.pb_finish.specs.declared.answer.Answer.{Answer};
ghost use Rattle.pb_pool.specs.Kept.{AllTold};
ghost use Rattle.pb_run.specs.declared.event.Event.{Event};
ghost use Rattle.pb_verify.specs.declared.checked.Accepted.{Accepted};

use crate::boards::{Counts, counts, pair_of};
use crate::books::{TWO_HOSTS, Told, checked_again, job_of};
use crate::untils::{ASKED_AGAIN, NOT_YET, NOW, told_of};
use pb_executor::{GiveError, Run};
use pb_finish::Answer;
use pb_jobs::Job;
use pb_pool::{Board, Rule, Seat};
use pb_run::{Given, Taken};
use pb_value::read_json;
use pb_verify::Checked;
use std::alloc::{AllocError, Global};
use std::marker::Brand;
use std::sync::Wait;
use std::sync::ledger::{Blank, Ledger};
use std::test::Fail;

// Each of these is asked a second time where memory was refused the first time.

fn answers(alloc: Global, bytes: &[u8]) -> Option<Vec<Answer>> {
    one_answer(alloc, bytes).or_else(|| one_answer(alloc, bytes))
}

fn one_answer(alloc: Global, bytes: &[u8]) -> Option<Vec<Answer>> {
    let mut answers = Vec::new(alloc);
    answers
        .push(Answer::Object(read_json(alloc, bytes).ok()?))
        .ok()?;
    Some(answers)
}

fn fresh_run<'c>(alloc: Global, checked: &'c Checked) -> Result<Run<'c>, AllocError>
    ensures { IfOk result (λ r. r ≡ opened checked.now 2) }
{
    match Run::open(alloc, checked, 2) {
        Ok(run) => Ok(run),
        Err(_) => Run::open(alloc, checked, 2),
    }
}

fn room_for_two<C: Ledger, G: Ledger>(alloc: Global) -> Result<Vec<Seat<C, G>>, AllocError> {
    match Vec::with_capacity(alloc, 2) {
        Ok(seats) => Ok(seats),
        Err(_) => Vec::with_capacity(alloc, 2),
    }
}

fn taken<C: Ledger, G: Ledger, P: Rule, R: Wait + Eprint>(
    rt: &R,
    board: &Board<'_, C, G, P>,
    seat: &mut Seat<C, G>,
) -> Result<Taken, Fail> {
    let before = counts(seat);
    match board.take(rt, seat) {
        Ok(taken) => Ok(taken),
        Err(_) if counts(seat) == before => {
            eprintln!(rt; "take refused")?;
            Ok(board.take(rt, seat)?)
        }
        Err(_) => Err("a refused take counted")?,
    }
}

fn given<C: Ledger, G: Ledger, P: Rule, R: Wait + Eprint>(
    rt: &R,
    board: &Board<'_, C, G, P>,
    seat: &mut Seat<C, G>,
    job: Job,
    answers: Vec<Answer>,
) -> Result<Given, Fail>
    requires { (t k : ℕ) (xs : List Answer) → P.told t k xs }
{
    let before = counts(seat);
    let ticket = job.ticket;
    let count = answers.len();
    let (fault, job, answers) = match board.give(rt, seat, job, answers) {
        Ok(given) => return Ok(given),
        Err(refused) => refused,
    };
    let is_back = job.ticket == ticket && answers.len() == count && counts(seat) == before;
    if !matches!(fault, GiveError::NoMemory) || !is_back {
        return Err("a refused give changed something, or was refused for another cause")?;
    }
    let given = board.give(rt, seat, job, answers);
    told_refused(rt, given)
}

// Says of a give that was refused and made again what came of it.
fn told_refused<R: Eprint>(
    rt: &R,
    given: Result<Given, (GiveError, Job, Vec<Answer>)>,
) -> Result<Given, Fail> {
    let Ok(given) = given else {
        return Err("the same give is refused again")?;
    };
    match given {
        Given::Done => eprintln!(rt; "give refused")?,
        Given::Again(_) => eprintln!(rt; "give that asks again refused")?,
    }
    Ok(given)
}

// What becomes of this answer to the job.
fn answered<C: Ledger, G: Ledger, P: Rule, R: Wait + Eprint>(
    rt: &R,
    alloc: Global,
    board: &Board<'_, C, G, P>,
    seat: &mut Seat<C, G>,
    job: Job,
    answer: &[u8],
) -> Result<Given, Fail>
    requires { (t k : ℕ) (xs : List Answer) → P.told t k xs }
{
    match answers(alloc, answer) {
        Some(answers) => given(rt, board, seat, job, answers),
        None => Err("no answer")?,
    }
}

// The job that makes the calls again.
fn again_of(given: Given) -> Result<Job, &'static str> {
    match given {
        Given::Again(job) => Ok(job),
        Given::Done => Err("the job has ended"),
    }
}

// Whether both jobs have ended once the first seat's calls are made again, and those of the second
// seat once.
fn are_done<C: Ledger, G: Ledger, P: Rule, R: Wait + Eprint>(
    rt: &R,
    alloc: Global,
    board: &Board<'_, C, G, P>,
    first: &mut Seat<C, G>,
    second: &mut Seat<C, G>,
) -> Result<bool, Fail>
    requires { (t k : ℕ) (xs : List Answer) → P.told t k xs }
{
    let one = job_of(taken(rt, board, first)?)?;
    let two = job_of(taken(rt, board, second)?)?;
    let again = again_of(answered(rt, alloc, board, first, one, NOT_YET)?)?;
    let of_second = answered(rt, alloc, board, second, two, NOW)?;
    let of_first = answered(rt, alloc, board, first, again, NOW)?;
    Ok(matches!(of_second, Given::Done) && matches!(of_first, Given::Done))
}

// Whether the run has ended for both seats.
fn are_through<C: Ledger, G: Ledger, P: Rule, R: Wait + Eprint>(
    rt: &R,
    board: &Board<'_, C, G, P>,
    first: &mut Seat<C, G>,
    second: &mut Seat<C, G>,
) -> Result<bool, Fail> {
    let is_first = matches!(taken(rt, board, first)?, Taken::Finished);
    let is_second = matches!(taken(rt, board, second)?, Taken::Finished);
    Ok(is_first && is_second)
}

// The run of a board that is closed with its two seats.
fn closed<'c, C: Ledger, G: Ledger, P: Rule>(
    alloc: Global,
    board: Board<'c, C, G, P>,
    first: Seat<C, G>,
    second: Seat<C, G>,
) -> Result<Run<'c>, Fail> {
    let mut seats = room_for_two(alloc)?;
    seats.push(first)?;
    seats.push(second)?;
    match board.close(seats) {
        Ok(run) => Ok(run),
        Err(_) => Err("a seat is missing")?,
    }
}

// Whether both jobs and the run have ended, what each seat counts then, and what is told of the
// run.
type Found = (bool, [Counts; 2], (bool, Told, Told));

fn found_by_two<C: Ledger, G: Ledger, P: Rule, R: Wait + Eprint>(
    rt: &R,
    alloc: Global,
    board: Board<'_, C, G, P>,
    seats: Vec<Seat<C, G>>,
) -> Result<Found, Fail>
    requires { (t k : ℕ) (xs : List Answer) → P.told t k xs }
{
    let (mut first, mut second) = pair_of(seats)?;
    let are_done = are_done(rt, alloc, &board, &mut first, &mut second)?;
    let are_through = are_through(rt, &board, &mut first, &mut second)?;
    let seen = [counts(&first), counts(&second)];
    let run = closed(alloc, board, first, second)?;
    Ok((are_done && are_through, seen, told_of(&run)))
}

// What is found at a board over that run.
fn found_over<'c, C: Ledger, G: Ledger, P: Rule, R: Wait + Eprint>(
    rt: &R,
    alloc: Global,
    calls: Blank,
    gives: Blank,
    run: Run<'c>,
) -> Result<Found, Fail>
    requires names { (calls.name ≡ C.name) × (gives.name ≡ G.name) }
    requires parts { (calls.parts ≡ C.parts) × (gives.parts ≡ G.parts) }
    requires two { (calls.parts ≡ 2) × (gives.parts ≡ 2) }
    requires rule { P.of run.accepted run.forks run.history × AllTold P.told run.history }
    requires any { (t k : ℕ) (xs : List Answer) → P.told t k xs }
{
    match Board::<'c, C, G, P>::open(alloc, calls, gives, run, 2) {
        Ok((board, seats)) => found_by_two(rt, alloc, board, seats),
        Err(_) => Err("the same opening is refused again")?,
    }
}

// What is found at a board of the first two blanks; where it isn't opened, at one of the other two,
// over the run that came back.
fn found_of_blanks<C: Ledger, G: Ledger, D: Ledger, H: Ledger, P: Rule, R: Wait + Eprint>(
    rt: &R,
    alloc: Global,
    calls: Blank,
    gives: Blank,
    other_calls: Blank,
    other_gives: Blank,
    checked: &Checked,
) -> Result<Found, Fail>
    requires names { (calls.name ≡ C.name) × (gives.name ≡ G.name) }
    requires parts { (calls.parts ≡ C.parts) × (gives.parts ≡ G.parts) }
    requires two { (calls.parts ≡ 2) × (gives.parts ≡ 2) }
    requires others { (other_calls.name ≡ D.name) × (other_gives.name ≡ H.name)
        × (other_calls.parts ≡ D.parts) × (other_gives.parts ≡ H.parts)
        × (other_calls.parts ≡ 2) × (other_gives.parts ≡ 2) }
    requires free { (a : Accepted) (f : ℕ) (es : List Event) → P.of a f es }
    requires any { (t k : ℕ) (xs : List Answer) → P.told t k xs }
{
    let run = fresh_run(alloc, checked)?;
    match Board::<'_, C, G, P>::open(alloc, calls, gives, run, 2) {
        Ok((board, seats)) => found_by_two(rt, alloc, board, seats),
        Err((_, run)) => {
            eprintln!(rt; "open refused")?;
            found_over::<D, H, P, R>(rt, alloc, other_calls, other_gives, run)
        }
    }
}

#[test]
fn a_board_whose_calls_are_made_again(rt: HostRuntime) -> Result<(), Fail> {
    let alloc = rt.alloc();
    let checked = checked_again(alloc, ASKED_AGAIN, TWO_HOSTS).ok_or("refused")?;
    let (calls, gives) = (Blank::new(2), Blank::new(2));
    let (other_calls, other_gives) = (Blank::new(2), Blank::new(2));
    let found = found_of_blanks::<Brand, Brand, Brand, Brand, Brand, HostRuntime>(
        &rt,
        alloc,
        calls,
        gives,
        other_calls,
        other_gives,
        &checked,
    )?;
    let done = (true, (1, 1, 0, 0), (1, 1, 0, 0));
    assert_eq!(rt; found, (true, [(2, 2), (1, 1)], done));
    Ok(())
}
