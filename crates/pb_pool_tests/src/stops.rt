// A stop by hand, with jobs out at two seats.
ghost use Rattle.std.specs.Prelude.{◌<◌, ◌≡◌, List, ℕ};
ghost use Rattle.pb_finish.specs.declared.answer.Answer.{Answer};
ghost use Rattle.pb_run.specs.declared.event.Event.{Event};
ghost use Rattle.pb_verify.specs.declared.checked.Accepted.{Accepted};

use crate::boards::{Counts, closed, counts, given, opened, pair_of};
use crate::books::{ONE_PING, PONG, TWO_HOSTS, Told, answer_of, checked_for, job_of, told};
use pb_executor::{GiveError, Run};
use pb_pool::{Board, Rule, Seat};
use pb_run::{Event, Taken};
use pb_verify::Checked;
use std::alloc::Global;
use std::marker::Brand;
use std::sync::Wait;
use std::sync::ledger::{Blank, Ledger};
use std::test::Fail;

// Whether, once the board is stopped, the first seat's answers come too late and the second seat is
// told that the run is stopped, with a job of each out.
fn are_stopped<C: Ledger, G: Ledger, P: Rule, R: Wait>(
    rt: &R,
    alloc: Global,
    board: &Board<'_, C, G, P>,
    first: &mut Seat<C, G>,
    second: &mut Seat<C, G>,
) -> Result<bool, Fail>
    requires { (t k : ℕ) (xs : List Answer) → P.told t k xs }
{
    let one = job_of(board.take(rt, first)?)?;
    let _two = job_of(board.take(rt, second)?)?;
    board.stop(rt);
    let late = given(rt, board, first, one, answer_of(alloc, PONG)?);
    let is_late = matches!(late, Err(GiveError::Stopped));
    let is_over = matches!(board.take(rt, second)?, Taken::Stopped);
    Ok(is_late && is_over)
}

fn told_of(run: &Run<'_>) -> (bool, Told, Told) {
    let is_stopped = matches!(
        run.history(),
        [Event::Start(0), Event::Start(1), Event::Stop]
    );
    (is_stopped, told(run, 0), told(run, 1))
}

// Whether both seats find the run stopped, what each counts then, and what is told of the run.
fn stopped_by_hand<C: Ledger, G: Ledger, P: Rule, R: Wait>(
    rt: &R,
    alloc: Global,
    calls: Blank,
    gives: Blank,
    checked: &Checked,
) -> Result<(bool, [Counts; 2], (bool, Told, Told)), Fail>
    requires names { (calls.name ≡ C.name) × (gives.name ≡ G.name) }
    requires parts { (calls.parts ≡ C.parts) × (gives.parts ≡ G.parts) }
    requires two { (calls.parts ≡ 2) × (gives.parts ≡ 2) }
    requires free { (a : Accepted) (f : ℕ) (es : List Event) → P.of a f es }
    requires any { (t k : ℕ) (xs : List Answer) → P.told t k xs }
{
    let (board, seats) = opened::<C, G, P>(alloc, calls, gives, checked, 2)?;
    let (mut first, mut second) = pair_of(seats)?;
    let are_stopped = are_stopped(rt, alloc, &board, &mut first, &mut second)?;
    let seen = [counts(&first), counts(&second)];
    let run = closed(alloc, board, first, second)?;
    Ok((are_stopped, seen, told_of(&run)))
}

#[test]
fn a_stop_through_two_seats(rt: HostRuntime) -> Result<(), Fail> {
    let alloc = rt.alloc();
    let checked = checked_for(alloc, ONE_PING, TWO_HOSTS).ok_or("refused")?;
    let (calls, gives) = (Blank::new(2), Blank::new(2));
    let found = stopped_by_hand::<Brand, Brand, Brand, HostRuntime>(
        &rt, alloc, calls, gives, &checked,
    )?;
    let none = (0, 0, 0, 0);
    assert_eq!(rt; found, (true, [(1, 0), (1, 0)], (true, none, none)));
    Ok(())
}
