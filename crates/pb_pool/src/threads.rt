// A thread for each worker of a pool.
ghost use Rattle.std.specs.Prelude.{◌+◌, ◌≡◌, ◌≤◌, None, false, sum_by, true, vec_capacity};
ghost use Rattle.std.specs.Prelude.{vec_len};
ghost use Rattle.pb_pool.specs.Pools.{CanCount, MayAnswer};

use crate::board::Board;
use crate::rule::Rule;
use crate::worker::{Worker, work};
use pb_runner::Runner;
use std::marker::{Model, PhantomData};
use std::snapshot::Snapshot;
use std::sync::Wait;
use std::sync::ledger::Ledger;
use std::thread;
use std::thread::{Promise, PromisedHandle, Scope, Threads};

// What wasn't there for a pool.
#[derive(Clone, Copy)]
pub(crate) enum Shortage {
    Memory,
    Thread,
}

// The worker that a thread began with: what is promised is that the one that comes back made the
// calls that its seat was handed meanwhile, unless its memory ran short.
#[derive(Drop)]
pub(crate) struct WorkerPromise<C: Ledger, G: Ledger, W: Runner> {
    worker: Snapshot<Worker<C, G, W>>,
}

impl<C: Ledger, G: Ledger, W: Runner> Promise<Worker<C, G, W>> for WorkerPromise<C, G, W> {
    ghost use Rattle.std.specs.Prelude.{◌+◌, ◌≡◌, false};

    ghost kept_by = { λ p w. w.is_short ≡ false
        → W.calls w.runner + p.worker.value.seat.handed
        ≡ W.calls p.worker.value.runner + w.seat.handed };
}

pub(crate) type WorkerThread<C, G, W> = PromisedHandle<Worker<C, G, W>, WorkerPromise<C, G, W>>;

// Workers, and room for the thread of each. What they answer is allowed, and they can count the
// calls of any run that the rule allows. Contracts see what they add up to.
#[derive(Drop)]
pub(crate) struct Crew<C: Ledger, G: Ledger, P: Rule, W: Runner> {
    pub(crate) workers: Vec<Worker<C, G, W>>,
    pub(crate) threads: Vec<WorkerThread<C, G, W>>,
    pub(crate) rule: PhantomData<P>,
}

impl<C: Ledger, G: Ledger, P: Rule, W: Runner> Model for Crew<C, G, P, W> {
    ghost use Rattle.std.specs.Prelude.{◌≡◌, ◌≤◌, All, sum_by, vec_capacity, vec_len};
    ghost use Rattle.pb_pool.specs.Pools.{CanCount, MayAnswer, Totals};

    ghost Value = { Totals };

    ghost view = { λ a. record {
      workers = vec_len a.workers;
      made = sum_by (λ w. W.calls w.runner) a.workers.items;
      handed = sum_by (λ w. w.seat.handed) a.workers.items;
    } };

    ghost invariant = { λ a. (vec_len a.threads ≡ 0)
        × (vec_len a.workers ≤ vec_capacity a.threads)
        × All (λ w. MayAnswer W.answers W.short P.of P.told w.runner) a.workers.items
        × CanCount P.of (sum_by (λ w. W.calls w.runner) a.workers.items) };
}

// Has each worker work in a thread of its own, and joins them all. They begin once all threads are
// there; where one can't be made, nothing happens but that the run is stopped.
pub(crate) fn work_all<C, G, P, W, R>(
    rt: &R,
    board: &Board<'_, C, G, P>,
    crew: Crew<C, G, P, W>,
) -> (Vec<Worker<C, G, W>>, Option<Shortage>)
where
    C: Ledger + Send + Sync,
    G: Ledger + Send + Sync,
    P: Rule + Send + Sync,
    W: Runner + Send + Drop,
    R: Threads + Wait + Sync,
    ensures all { vec_len result.0 ≡ crew.workers }
    ensures made { result.1 ≡ None
        → sum_by (λ w. W.calls w.runner) result.0.items + crew.handed
        ≡ crew.made + sum_by (λ w. w.seat.handed) result.0.items }
{
    thread::scope(
        thread::scope_env(),
        rt,
        move |scope| -> (Vec<Worker<C, G, W>>, Option<Shortage>)
            ensures { (vec_len result.0 ≡ crew.workers)
                × (result.1 ≡ None
                → sum_by (λ w. W.calls w.runner) result.0.items + crew.handed
                ≡ crew.made + sum_by (λ w. w.seat.handed) result.0.items) }
        { work_in(scope, rt, board, crew) },
    )
}

// The same in a scope that is there.
fn work_in<'s, E, C, G, P, W, R>(
    scope: &Scope<'s, E>,
    rt: &'s R,
    board: &'s Board<'_, C, G, P>,
    crew: Crew<C, G, P, W>,
) -> (Vec<Worker<C, G, W>>, Option<Shortage>)
where
    C: Ledger + Send + Sync,
    G: Ledger + Send + Sync,
    P: Rule + Send + Sync,
    W: Runner + Send + Drop + 's,
    R: Threads + Wait + Sync,
    ensures all { vec_len result.0 ≡ crew.workers }
    ensures made { result.1 ≡ None
        → sum_by (λ w. W.calls w.runner) result.0.items + crew.handed
        ≡ crew.made + sum_by (λ w. w.seat.handed) result.0.items }
{
    let (mut workers, threads, is_manned) = start_all(scope, rt, board, crew);
    let is_whole = join_all(rt, threads, &mut workers);
    if !is_manned {
        return (workers, Some(Shortage::Thread));
    }
    if !is_whole {
        return (workers, Some(Shortage::Memory));
    }
    (workers, None)
}

// Starts a thread for each worker, holding the run meanwhile: the workers that are left, with room
// for all, and the threads. Where one can't be made, its worker and those that are left stay, the
// run is stopped, and the answer is false.
fn start_all<'s, E, C, G, P, W, R>(
    scope: &Scope<'s, E>,
    rt: &'s R,
    board: &'s Board<'_, C, G, P>,
    crew: Crew<C, G, P, W>,
) -> (Vec<Worker<C, G, W>>, Vec<WorkerThread<C, G, W>>, bool)
where
    C: Ledger + Send + Sync,
    G: Ledger + Send + Sync,
    P: Rule + Send + Sync,
    W: Runner + Send + Drop + 's,
    R: Threads + Wait + Sync,
    ensures all { (vec_len result.0 + vec_len result.1 ≡ crew.workers)
        × (crew.workers ≤ vec_capacity result.0) }
    ensures none { result.2 ≡ true → vec_len result.0 ≡ 0 }
    ensures began { result.2 ≡ true
        → (sum_by (λ t. W.calls t.promise.worker.value.runner) result.1.items ≡ crew.made)
        × (sum_by (λ t. t.promise.worker.value.seat.handed) result.1.items ≡ crew.handed) }
{
    let Crew {
        mut workers,
        mut threads,
        rule: _,
    } = crew;
    let mut held = board.hold(rt);
    while let Some(worker) = workers.pop() {
        let begun = WorkerPromise {
            worker: Snapshot::of(&worker),
        };
        let part = move || -> Worker<C, G, W>
            requires { MayAnswer W.answers W.short P.of P.told worker.runner
                × CanCount P.of (W.calls worker.runner) }
            ensures { result.is_short ≡ false
                → W.calls result.runner + worker.seat.handed
                ≡ W.calls worker.runner + result.seat.handed }
        { work(rt, board, worker) };
        match scope.spawn_with(begun, part) {
            Ok(thread) => threads.push_reserved(thread),
            Err(refused) => {
                held.stop();
                drop(held);
                // It finds the run stopped.
                workers.push_reserved((refused.value)());
                return (workers, threads, false);
            }
        }
    }
    (workers, threads, true)
}

// Joins all threads; false where memory ran short for one of the workers.
fn join_all<C: Ledger, G: Ledger, W: Runner + Drop, R: Threads>(
    rt: &R,
    threads: Vec<WorkerThread<C, G, W>>,
    workers: &mut Vec<Worker<C, G, W>>,
) -> bool
    requires room { vec_len workers.old + vec_len threads ≤ vec_capacity workers.old }
    ensures all { vec_len workers.new ≡ vec_len workers.old + vec_len threads }
    ensures made { result ≡ true → sum_by (λ w. W.calls w.runner) workers.new.items
        + (sum_by (λ w. w.seat.handed) workers.old.items
        + sum_by (λ t. t.promise.worker.value.seat.handed) threads.items)
        ≡ sum_by (λ w. W.calls w.runner) workers.old.items
        + sum_by (λ t. W.calls t.promise.worker.value.runner) threads.items
        + sum_by (λ w. w.seat.handed) workers.new.items }
{
    let mut threads = threads;
    let mut is_whole = true;
    while let Some(thread) = threads.pop() {
        let worker = thread.join(rt);
        is_whole &= !worker.is_short;
        workers.push_reserved(worker);
    }
    is_whole
}
