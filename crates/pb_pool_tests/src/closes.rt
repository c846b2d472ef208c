// Boards that are closed with seats missing, and with all.
ghost use Rattle.std.specs.Prelude.{◌+◌, ◌<◌, ◌≡◌, IfOk, List, ℕ, vec_len};
ghost use Rattle.pb_run.specs.declared.event.Event.{Event};
ghost use Rattle.pb_verify.specs.declared.checked.Accepted.{Accepted};

use crate::boards::{Opened, opened};
use crate::books::{ONE_HOST, ONE_PING, checked_for};
use pb_pool::{Board, Rule, Seat};
use pb_verify::Checked;
use std::alloc::Global;
use std::marker::Brand;
use std::mem;
use std::sync::ledger::{Blank, Ledger};
use std::test::Fail;

// The board and its seats, the one at this place behind the others, once it was to be closed
// without that one.
fn held_back<'c, C: Ledger, G: Ledger, P: Rule>(
    board: Board<'c, C, G, P>,
    seats: Vec<Seat<C, G>>,
    at: usize,
) -> Result<Opened<'c, C, G, P>, Fail>
    requires { (at < vec_len seats) × (vec_len seats ≡ board) }
    ensures { IfOk result (λ r. (r.0 ≡ board.entry) × (vec_len r.1 ≡ vec_len seats)) }
{
    let mut others = seats;
    let seat = others.remove(at);
    match board.close(others) {
        Ok(run) => {
            mem::forget(run);
            Err("it closes with a seat missing")?
        }
        Err(out) => {
            let mut seats = out.seats;
            seats.push(seat)?;
            Ok((out.board, seats))
        }
    }
}

// How many events the run has that a board gives which is closed with all its seats.
fn events_of<C: Ledger, G: Ledger, P: Rule>(
    board: Board<'_, C, G, P>,
    seats: Vec<Seat<C, G>>,
) -> Result<usize, Fail> {
    match board.close(seats) {
        Ok(run) => Ok(run.history().len()),
        Err(_) => Err("a seat is missing")?,
    }
}

fn closed_of_two<C: Ledger, G: Ledger, P: Rule>(
    alloc: Global,
    calls: Blank,
    gives: Blank,
    checked: &Checked,
) -> Result<usize, Fail>
    requires names { (calls.name ≡ C.name) × (gives.name ≡ G.name) }
    requires parts { (calls.parts ≡ C.parts) × (gives.parts ≡ G.parts) }
    requires two { (calls.parts ≡ 2) × (gives.parts ≡ 2) }
    requires free { (a : Accepted) (f : ℕ) (es : List Event) → P.of a f es }
{
    let (board, seats) = opened::<C, G, P>(alloc, calls, gives, checked, 2)?;
    let (board, seats) = held_back(board, seats, 1)?;
    events_of(board, seats)
}

#[test]
fn one_of_two_seats_is_missing(rt: HostRuntime) -> Result<(), Fail> {
    let alloc = rt.alloc();
    let checked = checked_for(alloc, ONE_PING, ONE_HOST).ok_or("refused")?;
    let found = closed_of_two::<Brand, Brand, Brand>(
        alloc,
        Blank::new(2),
        Blank::new(2),
        &checked,
    )?;
    assert_eq!(rt; found, 0);
    Ok(())
}

fn closed_of_three<C: Ledger, G: Ledger, P: Rule>(
    alloc: Global,
    calls: Blank,
    gives: Blank,
    checked: &Checked,
) -> Result<usize, Fail>
    requires names { (calls.name ≡ C.name) × (gives.name ≡ G.name) }
    requires parts { (calls.parts ≡ C.parts) × (gives.parts ≡ G.parts) }
    requires three { (calls.parts ≡ 3) × (gives.parts ≡ 3) }
    requires free { (a : Accepted) (f : ℕ) (es : List Event) → P.of a f es }
{
    let (board, seats) = opened::<C, G, P>(alloc, calls, gives, checked, 3)?;
    let (board, seats) = held_back(board, seats, 0)?;
    // Each comes behind the others, so this is the second, and then the third.
    let (board, seats) = held_back(board, seats, 0)?;
    let (board, seats) = held_back(board, seats, 0)?;
    events_of(board, seats)
}

#[test]
fn each_of_three_seats_is_held_back(rt: HostRuntime) -> Result<(), Fail> {
    let alloc = rt.alloc();
    let checked = checked_for(alloc, ONE_PING, ONE_HOST).ok_or("refused")?;
    let found = closed_of_three::<Brand, Brand, Brand>(
        alloc,
        Blank::new(3),
        Blank::new(3),
        &checked,
    )?;
    assert_eq!(rt; found, 0);
    Ok(())
}
