// A board over a run in which nothing has happened, and its seats.
ghost use Rattle.std.specs.Prelude.{◌<◌, ◌≡◌, IfOk, List, ℕ, vec_len};
ghost use Rattle.pb_finish.specs.declared.answer.Answer.{Answer};
ghost use Rattle.pb_run.specs.declared.event.Event.{Event};
ghost use Rattle.pb_verify.specs.declared.checked.Accepted.{Accepted};

use pb_executor::{GiveError, Run};
use pb_finish::Answer;
use pb_jobs::Job;
use pb_pool::{Board, Rule, Seat};
use pb_run::Given;
use pb_verify::Checked;
use std::alloc::Global;
use std::sync::Wait;
use std::sync::ledger::{Blank, Ledger};
use std::test::Fail;

pub type Opened<'c, C, G, P> = (Board<'c, C, G, P>, Vec<Seat<C, G>>);

/// A board over a run of the book, with so many seats, as many of whose jobs may be out.
pub fn opened<'c, C: Ledger, G: Ledger, P: Rule>(
    alloc: Global,
    calls: Blank,
    gives: Blank,
    checked: &'c Checked,
    seats: usize,
) -> Result<Opened<'c, C, G, P>, Fail>
    requires names { (calls.name ≡ C.name) × (gives.name ≡ G.name) }
    requires parts { (calls.parts ≡ C.parts) × (gives.parts ≡ G.parts) }
    requires seats { (0 < seats) × (calls.parts ≡ seats) × (gives.parts ≡ seats) }
    requires free { (a : Accepted) (f : ℕ) (es : List Event) → P.of a f es }
    ensures { IfOk result (λ r. (r.0 ≡ seats) × (vec_len r.1 ≡ seats)) }
{
    let run = Run::open(alloc, checked, seats)?;
    match Board::open(alloc, calls, gives, run, seats) {
        Ok(opened) => Ok(opened),
        Err(_) => Err("want of memory")?,
    }
}

/// The two seats.
pub fn pair_of<C: Ledger, G: Ledger>(
    seats: Vec<Seat<C, G>>,
) -> Result<(Seat<C, G>, Seat<C, G>), &'static str> {
    let mut seats = seats;
    match (seats.pop(), seats.pop()) {
        (Some(second), Some(first)) => Ok((first, second)),
        _ => Err("a seat is missing"),
    }
}

/// How many calls a seat was handed, and how many jobs it answered.
pub type Counts = (u64, u64);

pub fn counts<C: Ledger, G: Ledger>(seat: &Seat<C, G>) -> Counts {
    (seat.handed(), seat.given())
}

/// The run of a board that is closed with its two seats.
pub fn closed<'c, C: Ledger, G: Ledger, P: Rule>(
    alloc: Global,
    board: Board<'c, C, G, P>,
    first: Seat<C, G>,
    second: Seat<C, G>,
) -> Result<Run<'c>, Fail> {
    match board.close(vec![in alloc; first, second]?) {
        Ok(run) => Ok(run),
        Err(_) => Err("a seat is missing")?,
    }
}

/// What becomes of these answers to the job.
pub fn given<C: Ledger, G: Ledger, P: Rule, R: Wait>(
    rt: &R,
    board: &Board<'_, C, G, P>,
    seat: &mut Seat<C, G>,
    job: Job,
    answers: Vec<Answer>,
) -> Result<Given, GiveError>
    requires { (t k : ℕ) (xs : List Answer) → P.told t k xs }
{
    match board.give(rt, seat, job, answers) {
        Ok(given) => Ok(given),
        Err((fault, _, _)) => Err(fault),
    }
}
