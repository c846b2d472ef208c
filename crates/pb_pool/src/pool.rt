// Workers in threads, one at each seat of a board.
ghost use Rattle.std.specs.Prelude.{◌++◌, ◌+◌, ◌<◌, ◌≡◌, ◌≤◌, All, IfErr, IfOk, IfSome, OnErr};
ghost use Rattle.std.specs.Prelude.{OnOk, false, is_some, length, slice_index_or, sum_by, true};
ghost use Rattle.std.specs.Prelude.{vec_capacity};
ghost use Rattle.std.specs.Prelude.{vec_len};
ghost use Rattle.pb_run.specs.Recorded.{is_over, stop_events};
ghost use Rattle.pb_executor.specs.Words.{IsSound, state_of};
ghost use Rattle.pb_pool.specs.Pools.{AllMade, CanCount, IsPooled, MayAnswer, fault_run};
ghost use Rattle.pb_pool.specs.Seats.{handed_sum};

use crate::board::Board;
use crate::fault::PoolFault;
use crate::rule::Rule;
use crate::seat::Seat;
use crate::threads::{Crew, Shortage, work_all};
use crate::worker::Worker;
use pb_executor::Run;
use pb_runner::Runner;
use std::alloc::{AllocError, Global};
use std::marker::PhantomData;
use std::sync::Wait;
use std::sync::ledger::Ledger;
use std::thread::Threads;

// A worker for each seat, with its runner. For want of memory nothing has happened.
fn paired<C: Ledger, G: Ledger, P: Rule, W: Runner + Drop>(
    alloc: Global,
    seats: &mut Vec<Seat<C, G>>,
    runners: &mut Vec<W>,
) -> Result<Crew<C, G, P, W>, AllocError>
    requires same { vec_len seats.old ≡ vec_len runners.old }
    requires told { All (MayAnswer W.answers W.short P.of P.told) runners.old.items }
    requires few { CanCount P.of (sum_by W.calls runners.old.items) }
    ensures empty { OnOk result ((vec_len seats.new ≡ 0) × (vec_len runners.new ≡ 0)) }
    ensures room { IfOk result (λ c. (c.workers ≡ vec_len seats.old)
        × (c.workers ≤ vec_capacity seats.new) × (c.workers ≤ vec_capacity runners.new)) }
    ensures handed { IfOk result (λ c. c.handed ≡ handed_sum seats.old.items) }
    ensures made { IfOk result (λ c. c.made ≡ sum_by W.calls runners.old.items) }
    ensures err { OnErr result (seats.new ≡ seats.old) }
{
    let threads = Vec::with_capacity(alloc, seats.len())?;
    let mut workers = Vec::with_capacity(alloc, seats.len())?;
    while let Some(seat) = seats.pop() {
        let Some(runner) = runners.pop() else {
            unreachable!()
        };
        workers.push_reserved(Worker {
            seat,
            runner,
            is_short: false,
        });
    }
    Ok(Crew {
        workers,
        threads,
        rule: PhantomData,
    })
}

// The seats and the runners of the workers.
fn parted<C: Ledger, G: Ledger, W: Runner + Drop>(
    workers: Vec<Worker<C, G, W>>,
    seats: &mut Vec<Seat<C, G>>,
    runners: &mut Vec<W>,
)
    requires empty { (vec_len seats.old ≡ 0) × (vec_len runners.old ≡ 0) }
    requires room { (vec_len workers ≤ vec_capacity seats.old)
        × (vec_len workers ≤ vec_capacity runners.old) }
    ensures all { vec_len seats.new ≡ vec_len workers }
    ensures handed { handed_sum seats.new.items ≡ sum_by (λ w. w.seat.handed) workers.items }
    ensures made { sum_by W.calls runners.new.items
        ≡ sum_by (λ w. W.calls w.runner) workers.items }
{
    let mut workers = workers;
    while let Some(worker) = workers.pop() {
        let Worker {
            seat,
            runner,
            is_short: _,
        } = worker;
        seats.push_reserved(seat);
        runners.push_reserved(runner);
    }
}

/// Has a worker with one of the runners work at each seat, each in a thread of its own, until the
/// run has ended or is stopped. The runners come back.
///
/// # Errors
///
/// Want of memory, or of a thread; the run, which is stopped where it hasn't ended. For want of a
/// thread nothing has happened but that it is stopped: no job was taken and no call was made.
pub fn run_pool<'c, C, G, P, W, R>(
    rt: &R,
    alloc: Global,
    board: Board<'c, C, G, P>,
    seats: Vec<Seat<C, G>>,
    runners: Vec<W>,
) -> Result<(Run<'c>, Vec<W>), PoolFault<'c>>
where
    C: Ledger + Send + Sync,
    G: Ledger + Send + Sync,
    P: Rule + Send + Sync,
    W: Runner + Send + Drop,
    R: Threads + Wait + Sync,
    requires told { All (MayAnswer W.answers W.short P.of P.told) runners.items }
    requires seats { (vec_len seats ≡ board) × (vec_len runners ≡ board) }
    requires few { CanCount P.of (sum_by W.calls runners.items) }
    ensures made { IfOk result (λ r. AllMade P.of P.told (sum_by W.calls runners.items)
        (sum_by W.calls r.1.items) (handed_sum seats.items) r.0) }
    ensures fault { IfErr result (λ e. IfSome (fault_run e) (IsPooled P.of P.told)) }
    ensures some { IfErr result (λ e. is_some (fault_run e) ≡ true) }
{
    let mut seats = seats;
    let mut runners = runners;
    let Ok(crew) = paired(alloc, &mut seats, &mut runners) else {
        drop(runners);
        return Err(PoolFault::NoMemory(Some(closed(board, seats))));
    };
    let (workers, want) = work_all(rt, &board, crew);
    parted(workers, &mut seats, &mut runners);
    let run = closed(board, seats);
    let Some(want) = want else {
        return Ok((run, runners));
    };
    drop(runners);
    match want {
        Shortage::Memory => Err(PoolFault::NoMemory(Some(run))),
        Shortage::Thread => Err(PoolFault::NoThread(run)),
    }
}

// The run, stopped where it hasn't ended.
fn closed<'c, C: Ledger, G: Ledger, P: Rule>(
    board: Board<'c, C, G, P>,
    seats: Vec<Seat<C, G>>,
) -> Run<'c>
    requires { vec_len seats ≡ board }
    ensures { (p : IsPooled P.of P.told result) × (p.handed ≡ handed_sum seats.items) }
{
    let Ok(run) = board.close(seats) else {
        unreachable!()
    };
    stopped(run)
}

// The run, stopped where it hasn't ended.
pub(crate) fn stopped(left: Run<'_>) -> Run<'_>
    ensures history { result ≡ record left.entry {
      history = left.entry.history ++ stop_events (state_of left.entry);
    } }
    ensures over { is_over (state_of result) ≡ true }
    ensures sound { IsSound result }
{
    let mut left = left;
    left.stop();
    // Its contract says that the run is sound.
    let _events = left.history().len();
    left
}
