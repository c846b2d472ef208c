// A runner that holds the first host's call until the second host's comes.
ghost use Rattle.std.specs.Prelude.{◌<◌, ◌≡◌, IfOk, sum_by, vec_len};

use crate::books::{ONE_PING, PONG, TWO_HOSTS, Told, checked_for, told};
use pb_finish::{Answer, Why};
use pb_jobs::Call;
use pb_pool::execute;
use pb_runner::Runner;
use pb_value::read_json;
use pb_verify::Checked;
use std::alloc::{AllocError, Global};
use std::sync::Wait;
use std::sync::atomic::{AtomicU64, Ordering};
use std::test::Fail;
use std::thread;
use std::thread::Threads;

const ALONE: &[u8] = b"{\"failed\":true,\"msg\":\"alone\"}";

// So often the first host's call is asked for again while the second one's doesn't come; more often
// where another worker is to make it.
const TURNS_ALONE: u64 = 100_000;

const TURNS: u64 = 100_000_000;

#[derive(Drop)]
struct Gate<'a> {
    alloc: Global,
    has_come: &'a AtomicU64,
    turns: u64,
    made: u64,
    is_short: bool,
}

// Waits until the second host's call has come; false where it doesn't within so many turns.
fn comes(has_come: &AtomicU64, turns: u64) -> bool {
    for _ in 0..turns {
        if has_come.load(Ordering::SeqCst) == 1 {
            return true;
        }
        thread::yield_now();
    }
    false
}

impl<'a> Gate<'a> {
    fn answer(&self, host: usize) -> &'static [u8] {
        if host == 1 {
            self.has_come.store(1, Ordering::SeqCst);
            return PONG;
        }
        if comes(self.has_come, self.turns) {
            PONG
        } else {
            ALONE
        }
    }
}

impl<'a> Runner for Gate<'a> {
    ghost calls = { λ r. r.made };

    ghost answers = { λ r c a s. Unit {0} };

    ghost short = { λ r. r.is_short };

    fn call(&mut self, call: &Call) -> Answer {
        self.made += 1;
        match read_json(self.alloc, self.answer(call.host)) {
            Ok(answer) => Answer::Object(answer),
            Err(_) => {
                self.is_short = true;
                Answer::Broken(Why::NoAnswer)
            }
        }
    }

    fn made(&self) -> u64 {
        self.made
    }

    fn is_short(&self) -> bool {
        self.is_short
    }
}

fn gates<'a>(
    alloc: Global,
    has_come: &'a AtomicU64,
    turns: u64,
    count: usize,
) -> Result<Vec<Gate<'a>>, AllocError>
    ensures count { IfOk result (λ gs. vec_len gs ≡ count) }
    ensures none { IfOk result (λ gs. sum_by (λ g. g.made) gs.items ≡ 0) }
{
    let mut gates = Vec::with_capacity(alloc, count)?;
    for _worker in 0..count {
        gates.push(Gate {
            alloc,
            has_come,
            turns,
            made: 0,
            is_short: false,
        })?;
    }
    Ok(gates)
}

// What is told of the run of both hosts by so many workers.
fn ran_by<R: Threads + Wait + Sync>(
    rt: &R,
    alloc: Global,
    checked: &Checked,
    workers: usize,
    turns: u64,
) -> Result<(Told, Told), Fail>
    requires { 0 < workers }
{
    // A number of 64 bits: so many calls can be counted.
    let _budget = checked.budget();
    let has_come = AtomicU64::new(0);
    let runners = gates(alloc, &has_come, turns, workers)?;
    match execute(rt, alloc, checked, workers, runners) {
        Ok((run, runners)) => {
            drop(runners);
            Ok((told(&run, 0), told(&run, 1)))
        }
        Err(_) => Err("no run")?,
    }
}

#[test]
fn two_workers_are_at_work_at_once(rt: HostRuntime) -> Result<(), Fail> {
    let checked = checked_for(rt.alloc(), ONE_PING, TWO_HOSTS).ok_or("refused")?;
    let found = ran_by(&rt, rt.alloc(), &checked, 2, TURNS)?;
    assert_eq!(rt; found, ((1, 0, 0, 0), (1, 0, 0, 0)));
    Ok(())
}

#[test]
fn one_worker_is_alone(rt: HostRuntime) -> Result<(), Fail> {
    let checked = checked_for(rt.alloc(), ONE_PING, TWO_HOSTS).ok_or("refused")?;
    let found = ran_by(&rt, rt.alloc(), &checked, 1, TURNS_ALONE)?;
    assert_eq!(rt; found, ((0, 0, 1, 0), (1, 0, 0, 0)));
    Ok(())
}
