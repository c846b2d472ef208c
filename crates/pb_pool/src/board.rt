// The board at which threads share one run.
ghost use Rattle.std.specs.Prelude.{◌+◌, ◌<◌, ◌≡◌, ◌≢◌, ◌↔◌, IfErr, IfOk, IsOk, OnErr, OnOk};
ghost use Rattle.std.specs.Prelude.{replicate, vec_len};
ghost use Rattle.pb_run.specs.declared.event.Taken.TheVariants as taken;
ghost use Rattle.pb_pool.specs.Jobs.{IsRuledGive, IsRuledTake, IsWithinBudget};
ghost use Rattle.pb_pool.specs.Kept.{AllTold, IsKept};
ghost use Rattle.pb_pool.specs.Seats.{given_more, given_sum, handed_sum, none, taken_more};

use crate::rule::Rule;
use crate::seat::Seat;
use crate::shared::SharedRun;
use pb_executor::{GiveError, Run};
use pb_finish::Answer;
use pb_jobs::Job;
use pb_run::{Given, Taken};
use std::alloc::{AllocError, Global};
use std::marker::Model;
use std::sync::ledger::{Blank, Ledger, Share};
use std::sync::{Condvar, Mutex, MutexGuard, Wait};

/// Where threads share one run: each has a seat, takes jobs and answers them. Contracts see how
/// many seats there are. Two ledgers count what the seats were handed and what they answered;
/// contracts hold for every rule.
#[derive(Drop)]
pub struct Board<'c, C: Ledger, G: Ledger, P: Rule> {
    shared: Mutex<SharedRun<'c, C, G, P>>,
    changed: Condvar,
    seats: usize,
}

impl<'c, C: Ledger, G: Ledger, P: Rule> Model for Board<'c, C, G, P> {
    ghost use Rattle.std.specs.Prelude.{◌<◌, ◌≡◌, ℕ};

    ghost Value = { ℕ };

    ghost view = { λ a. a.seats };

    ghost invariant = { λ a. (0 < a.seats) × (a.seats ≡ C.parts) × (a.seats ≡ G.parts) };
}

/// What comes back where a board isn't closed, since a seat is missing.
#[derive(Drop)]
pub struct SeatsOut<'c, C: Ledger, G: Ledger, P: Rule> {
    pub board: Board<'c, C, G, P>,
    pub seats: Vec<Seat<C, G>>,
}

impl<'c, C: Ledger, G: Ledger, P: Rule> Board<'c, C, G, P> {
    /// A board over the run, opened with all that has happened in it, and its seats, which counted
    /// nothing.
    ///
    /// # Errors
    ///
    /// Want of memory: the run comes back.
    pub fn open(
        alloc: Global,
        calls: Blank,
        gives: Blank,
        run: Run<'c>,
        seats: usize,
    ) -> Result<(Board<'c, C, G, P>, Vec<Seat<C, G>>), (AllocError, Run<'c>)>
        requires names { (calls.name ≡ C.name) × (gives.name ≡ G.name) }
        requires parts { (calls.parts ≡ C.parts) × (gives.parts ≡ G.parts) }
        requires seats { (0 < seats) × (calls.parts ≡ seats) × (gives.parts ≡ seats) }
        requires rule { P.of run.accepted run.forks run.history × AllTold P.told run.history }
        ensures seats { IfOk result (λ r. (r.0 ≡ seats) × (r.1.items ≡ replicate seats none)) }
        ensures back { IfErr result (λ e. e.1 ≡ run.entry) }
    {
        let (handed, mut calls) = calls.open::<C>();
        let (given, mut gives) = gives.open::<G>();
        let cut = match cut_seats(alloc, &mut calls, &mut gives, seats) {
            Ok(cut) => cut,
            Err(refused) => return Err((refused, run)),
        };
        let shared: SharedRun<'c, C, G, P> = SharedRun::open(run, handed, given);
        Ok((
            Board {
                shared: Mutex::new(shared),
                changed: Condvar::new(),
                seats,
            },
            cut,
        ))
    }

    /// What there is to do. It waits while nothing can be started and a job is out, and is never
    /// `Idle`. The calls of a job count for the seat.
    ///
    /// # Errors
    ///
    /// Want of memory: nothing has happened then.
    pub fn take<R: Wait>(&self, rt: &R, seat: &mut Seat<C, G>) -> Result<Taken, AllocError>
        ensures ruled { IfOk result (λ t. IsRuledTake P.of t) }
        ensures never_idle { IfOk result (λ t. t ≢ taken.Idle) }
        ensures seat { IfOk result (λ t. seat.new ≡ taken_more t seat.old) }
        ensures few { OnOk result (IsWithinBudget P.of seat.new.handed) }
        ensures err { OnErr result (seat.new ≡ seat.old) }
    {
        let taken = self.await_work(rt, seat);
        self.changed.notify_one();
        taken
    }

    // The run itself: until it is let go, no seat takes a job or answers one.
    pub(crate) fn hold<R: Wait>(&self, rt: &R) -> MutexGuard<'_, SharedRun<'c, C, G, P>> {
        self.shared.lock(rt)
    }

    // Waits until there is something to do. Whoever leaves wakes one that waits, who wakes the
    // next.
    fn await_work<R: Wait>(&self, rt: &R, seat: &mut Seat<C, G>) -> Result<Taken, AllocError>
        ensures ruled { IfOk result (λ t. IsRuledTake P.of t) }
        ensures never_idle { IfOk result (λ t. t ≢ taken.Idle) }
        ensures seat { IfOk result (λ t. seat.new ≡ taken_more t seat.old) }
        ensures few { OnOk result (IsWithinBudget P.of seat.new.handed) }
        ensures err { OnErr result (seat.new ≡ seat.old) }
    {
        let mut shared = self.shared.lock(rt);
        for _ in rt.forever() {
            match shared.take(seat)? {
                Taken::Idle => {}
                taken => return Ok(taken),
            }
            shared = self.changed.wait(rt, shared);
        }
        unreachable!()
    }

    /// The answers to a job, in the order of its calls. The job counts for the seat, and so do the
    /// calls that are made again.
    ///
    /// # Errors
    ///
    /// As `Run::give`: `Stopped`, `Stranger`, then want of memory. Job and answers come back, and
    /// nothing has happened.
    pub fn give<R: Wait>(
        &self,
        rt: &R,
        seat: &mut Seat<C, G>,
        job: Job,
        answers: Vec<Answer>,
    ) -> Result<Given, (GiveError, Job, Vec<Answer>)>
        requires { P.told job.ticket job.host answers.items }
        ensures ruled { IfOk result (λ g. IsRuledGive P.of g) }
        ensures seat { IfOk result (λ g. seat.new ≡ given_more g seat.old) }
        ensures few { OnOk result (IsWithinBudget P.of seat.new.handed) }
        ensures err { OnErr result (seat.new ≡ seat.old) }
        ensures back { IfErr result (λ e. (e.1 ≡ job) × (e.2 ≡ answers)) }
    {
        let given = self.shared.lock(rt).give(seat, job, answers);
        self.changed.notify_one();
        given
    }

    /// Stops the run; nothing where it is stopped or has ended.
    pub fn stop<R: Wait>(&self, rt: &R) {
        self.shared.lock(rt).stop();
        self.changed.notify_all();
    }

    /// The run, with all that its seats counted, exactly where no seat is missing.
    ///
    /// # Errors
    ///
    /// The board and the seats, where one is missing.
    pub fn close(self, seats: Vec<Seat<C, G>>) -> Result<Run<'c>, SeatsOut<'c, C, G, P>>
        ensures whole { IsOk result ↔ (vec_len seats ≡ self.entry) }
        ensures kept { IfOk result (λ r. (opened : _)
            × IsKept P.of P.told opened (handed_sum seats.items) (given_sum seats.items) r) }
        ensures back { IfErr result (λ o. (o.board ≡ self.entry) × (o.seats ≡ seats)) }
    {
        if seats.len() != self.seats {
            return Err(SeatsOut { board: self, seats });
        }
        let Board {
            shared,
            changed: _,
            seats: _,
        } = self;
        let (mut calls, mut gives) = gathered(seats);
        Ok(shared.into_inner().close(&mut calls, &mut gives))
    }
}

// Seats that counted nothing, a part of each share for each.
fn cut_seats<C: Ledger, G: Ledger>(
    alloc: Global,
    calls: &mut Share<C>,
    gives: &mut Share<G>,
    count: usize,
) -> Result<Vec<Seat<C, G>>, AllocError>
    requires parts { (calls.old.parts ≡ count) × (gives.old.parts ≡ count) }
    requires amounts { (calls.old.amount ≡ 0) × (gives.old.amount ≡ 0) }
    ensures seats { IfOk result (λ seats. seats.items ≡ replicate count none) }
    ensures calls { OnOk result ((calls.new.parts ≡ 0) × (calls.new.amount ≡ 0)) }
    ensures gives { OnOk result ((gives.new.parts ≡ 0) × (gives.new.amount ≡ 0)) }
{
    let mut seats = Vec::with_capacity(alloc, count)?;
    for _seat in 0..count {
        seats.push(Seat::cut(calls, gives))?;
    }
    Ok(seats)
}

// The shares of all seats.
fn gathered<C: Ledger, G: Ledger>(seats: Vec<Seat<C, G>>) -> (Share<C>, Share<G>)
    requires { 0 < vec_len seats }
    ensures parts { (result.0.parts ≡ vec_len seats) × (result.1.parts ≡ vec_len seats) }
    ensures calls { result.0.amount ≡ handed_sum seats.items }
    ensures gives { result.1.amount ≡ given_sum seats.items }
{
    let mut left = seats;
    let Some(first) = left.pop() else {
        unreachable!()
    };
    let (mut calls, mut gives) = first.into_shares();
    while let Some(seat) = left.pop() {
        let (more, also) = seat.into_shares();
        calls.merge(more);
        gives.merge(also);
    }
    (calls, gives)
}
