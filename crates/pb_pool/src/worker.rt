// A worker at a seat.
ghost use Rattle.std.specs.Prelude.{◌+◌, ◌≡◌, IfOk, OnOk, false, length};
ghost use Rattle.pb_pool.specs.Jobs.{IsRuledJob, IsWithinBudget};
ghost use Rattle.pb_pool.specs.Pools.{CanCount, CanGoOn, MayAnswer};

use crate::board::Board;
use crate::rule::Rule;
use crate::seat::Seat;
use pb_executor::GiveError;
use pb_jobs::Job;
use pb_run::{Given, Taken};
use pb_runner::{Runner, answers_of};
use std::alloc::AllocError;
use std::sync::Wait;
use std::sync::ledger::Ledger;

// A seat, who answers there, and whether memory ran short.
#[derive(Drop)]
pub(crate) struct Worker<C: Ledger, G: Ledger, W: Runner> {
    pub(crate) seat: Seat<C, G>,
    pub(crate) runner: W,
    pub(crate) is_short: bool,
}

// Works until there is nothing more to do, and comes back. For want of memory the board is stopped.
pub(crate) fn work<C: Ledger, G: Ledger, P: Rule, W: Runner, R: Wait>(
    rt: &R,
    board: &Board<'_, C, G, P>,
    worker: Worker<C, G, W>,
) -> Worker<C, G, W>
    requires told { MayAnswer W.answers W.short P.of P.told worker.runner }
    requires few { CanCount P.of (W.calls worker.runner) }
    ensures made { result.is_short ≡ false
        → W.calls result.runner + worker.seat.handed
        ≡ W.calls worker.runner + result.seat.handed }
{
    let mut worker = worker;
    for _ in rt.forever() {
        match take_and_end(rt, board, &mut worker.seat, &mut worker.runner) {
            Ok(true) => {}
            Ok(false) => return worker,
            Err(_) => {
                worker.is_short = true;
                board.stop(rt);
                return worker;
            }
        }
    }
    unreachable!()
}

// Takes a job and ends it; false where the run is over.
fn take_and_end<C: Ledger, G: Ledger, P: Rule, W: Runner, R: Wait>(
    rt: &R,
    board: &Board<'_, C, G, P>,
    seat: &mut Seat<C, G>,
    runner: &mut W,
) -> Result<bool, AllocError>
    requires told { MayAnswer W.answers W.short P.of P.told runner.old }
    requires few { CanGoOn P.of (W.calls runner.old) seat.old.handed }
    ensures made { OnOk result
        (W.calls runner.new + seat.old.handed ≡ W.calls runner.old + seat.new.handed) }
    ensures told { OnOk result (MayAnswer W.answers W.short P.of P.told runner.new) }
{
    let taken = board.take(rt, seat)?;
    let Taken::Job(job) = taken else {
        return Ok(false);
    };
    end(rt, board, seat, runner, job)
}

// Makes the calls of the job and gives the answers, once more as long as the calls are made again;
// false where the run was stopped meanwhile.
fn end<C: Ledger, G: Ledger, P: Rule, W: Runner, R: Wait>(
    rt: &R,
    board: &Board<'_, C, G, P>,
    seat: &mut Seat<C, G>,
    runner: &mut W,
    job: Job,
) -> Result<bool, AllocError>
    requires told { MayAnswer W.answers W.short P.of P.told runner.old }
    requires job { IsRuledJob P.of job }
    requires within { IsWithinBudget P.of seat.old.handed }
    requires few { CanGoOn P.of (W.calls runner.old + length job.calls.items) seat.old.handed }
    ensures made { OnOk result (W.calls runner.new + seat.old.handed
        ≡ W.calls runner.old + length job.calls.items + seat.new.handed) }
    ensures told { OnOk result (MayAnswer W.answers W.short P.of P.told runner.new) }
{
    let mut job = job;
    for _ in rt.forever() {
        let answers = answers_of(*job.calls.allocator(), runner, &job.calls)?;
        match board.give(rt, seat, job, answers) {
            Ok(Given::Done) => return Ok(true),
            Ok(Given::Again(next)) => job = next,
            Err((GiveError::Stopped, _, _)) => return Ok(false),
            // Somebody else answered it.
            Err((GiveError::Stranger, _, _)) => return Ok(true),
            Err((GiveError::NoMemory, _, _)) => return Err(AllocError),
        }
    }
    unreachable!()
}
