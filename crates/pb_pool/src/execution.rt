// A run of what was accepted from its beginning to its end, with a worker for each runner.
ghost use Rattle.std.specs.Prelude.{[], ◌+◌, ◌<◌, ◌^◌, ◌≡◌, All, IfErr, IfOk, IfSome, sum_by};
ghost use Rattle.std.specs.Prelude.{vec_len};
ghost use Rattle.pb_executor.specs.Words.{state_of};
ghost use Rattle.pb_pool.specs.Executed.{IsAnswerOfOne, IsExecuted, IsLeft, IsOpenedWith};
ghost use Rattle.pb_pool.specs.Kept.{AllTold};
ghost use Rattle.pb_pool.specs.Pools.{MayAnswer, fault_run};

use crate::board::Board;
use crate::fault::PoolFault;
use crate::pool::{run_pool, stopped};
use crate::rule::Rule;
use pb_executor::Run;
use pb_runner::Runner;
use pb_verify::Checked;
use std::alloc::Global;
use std::marker::Brand;
use std::sync::Wait;
use std::sync::ledger::{Blank, Ledger};
use std::thread::Threads;

/// Runs what was accepted to its end, with a worker for each runner, at most `forks` of whose jobs
/// are out at one time. Each call that is handed out is made once, and each host is given what a
/// runner answers to the calls of its job. The runners come back.
///
/// # Errors
///
/// Want of memory, or of a thread; the run, where one was opened, which is stopped where it hasn't
/// ended. For want of a thread nothing has happened but that it is stopped.
pub fn execute<'c, W, R>(
    rt: &R,
    alloc: Global,
    checked: &'c Checked,
    forks: usize,
    runners: Vec<W>,
) -> Result<(Run<'c>, Vec<W>), PoolFault<'c>>
where
    W: Runner + Send + Drop,
    R: Threads + Wait + Sync,
    requires some { (0 < forks) × (0 < vec_len runners) }
    requires few { sum_by W.calls runners.items + checked.now.budget < 2 ^ 64 }
    ensures executed { IfOk result (λ r. IsExecuted checked.now forks r.0) }
    ensures told { IfOk result (λ r. AllTold (IsAnswerOfOne W.answers W.short runners.items
        (IsOpenedWith checked.now forks)) r.0.history) }
    ensures made { IfOk result (λ r. sum_by W.calls r.1.items
        ≡ sum_by W.calls runners.items + (state_of r.0).handed) }
    ensures fault { IfErr result
        (λ e. IfSome (fault_run e) (IsLeft checked.now forks)) }
{
    let calls = Blank::new(runners.len() as u64);
    let gives = Blank::new(runners.len() as u64);
    execute_by::<Brand, Brand, Brand, W, R>(rt, alloc, calls, gives, checked, forks, runners)
}

// The same by ledgers of these blanks, for every rule.
fn execute_by<'c, C, G, P, W, R>(
    rt: &R,
    alloc: Global,
    calls: Blank,
    gives: Blank,
    checked: &'c Checked,
    forks: usize,
    runners: Vec<W>,
) -> Result<(Run<'c>, Vec<W>), PoolFault<'c>>
where
    C: Ledger + Send + Sync,
    G: Ledger + Send + Sync,
    P: Rule + Send + Sync,
    W: Runner + Send + Drop,
    R: Threads + Wait + Sync,
    requires blanks { (calls.name ≡ C.name) × (gives.name ≡ G.name)
        × (calls.parts ≡ C.parts) × (gives.parts ≡ G.parts) }
    requires some { (0 < forks) × (0 < vec_len runners)
        × (calls.parts ≡ vec_len runners) × (gives.parts ≡ vec_len runners) }
    requires of { P.of checked.now forks [] }
    requires book { (a : _) (f : _) (es : _) → P.of a f es → IsOpenedWith checked.now forks a f es }
    requires told { All (MayAnswer W.answers W.short P.of P.told) runners.items }
    requires few { sum_by W.calls runners.items + checked.now.budget < 2 ^ 64 }
    ensures executed { IfOk result (λ r. IsExecuted checked.now forks r.0) }
    ensures told { IfOk result (λ r. AllTold P.told r.0.history) }
    ensures made { IfOk result (λ r. sum_by W.calls r.1.items
        ≡ sum_by W.calls runners.items + (state_of r.0).handed) }
    ensures fault { IfErr result
        (λ e. IfSome (fault_run e) (IsLeft checked.now forks)) }
{
    let Ok(run) = Run::open(alloc, checked, forks) else {
        drop(runners);
        return Err(PoolFault::NoMemory(None));
    };
    let opened = Board::<'c, C, G, P>::open(alloc, calls, gives, run, runners.len());
    let (board, seats) = match opened {
        Ok(opened) => opened,
        Err((_, run)) => {
            drop(runners);
            return Err(PoolFault::NoMemory(Some(stopped(run))));
        }
    };
    match run_pool(rt, alloc, board, seats, runners) {
        Ok((left, runners)) => {
            // Whoever has the board may stop it.
            if left.is_stopped() {
                drop(runners);
                return Err(PoolFault::NoMemory(Some(left)));
            }
            Ok((left, runners))
        }
        Err(fault) => Err(fault),
    }
}
