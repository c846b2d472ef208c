// The batches of a run, one after the other: its opening, and its Turns.
ghost use Rattle.std.specs.Prelude.{◌-◌, ◌<◌, ◌≡◌, [], ◌∷◌, ◌++◌, ℕ, All, IfErr, IfOk, None};
ghost use Rattle.std.specs.Prelude.{OnErr, OnOk, length, replicate};
ghost use Rattle.pb_language.specs.Machine.{turn};
ghost use Rattle.pb_core.specs.Hosts.{IsFresh};
ghost use Rattle.pb_core.specs.Cores.{AreEntriesAt, AreOfNoProgram, HasNoPlay, LeadsTo};
ghost use Rattle.pb_core.specs.Cores.{batches_left, scheduled_batches, tickets_of};
ghost use Rattle.pb_core.specs.Events.{IsDisabled, Opens, RunsBatch, Turns, TurnsAll};
ghost use Rattle.pb_core.specs.Formers.{before, before_turns};
ghost use Rattle.pb_core.specs.declared.index.ReadyIndex.{ReadyIndex};

use crate::active::is_any_here;
use crate::batch::{Batch, RunPlay, Schedule};
use crate::entries::{enter, entries_of, index_of, restore};
use crate::entry::{Entry, Former};
use crate::fault::CoreFault;
use crate::host::HostState;
use crate::index::ReadyIndex;
use crate::run::RunCore;
use std::alloc::{AllocError, Global};
use std::mem;
use std::sync::Arc;

/// Turns that happened one after the other, with what it takes to take them back.
#[derive(Drop)]
pub struct Turned {
    /// How many they are.
    pub turns: usize,
    // the batch that ran before them, and its index
    current: usize,
    index: ReadyIndex,
    // where hosts stood, in the order in which they began
    formers: Vec<Former>,
}

impl<P> RunCore<P> {
    // Where the hosts of the batch of that number begin its play.
    fn entries_at(&self, number: usize) -> Result<Vec<Entry>, CoreFault>
        requires { number < length (scheduled_batches self.now) }
        ensures entries { IfOk result (λ es. AreEntriesAt number self.now es.items) }
        ensures there { IfErr result (λ e. e ≡ CoreFault.NotThere → HasNoPlay number self.now) }
        ensures full { IfErr result (λ e. e ≡ CoreFault.Full → ⊥) }
    {
        let Some(play) = self.play_of_batch(number) else {
            return Err(CoreFault::NotThere);
        };
        let alloc = *self.hosts.allocator();
        let members = &self.schedule().batches[number].members;
        let entries = entries_of(alloc, &self.hosts, play, members)?;
        Ok(entries)
    }

    // The number of the batch that comes next, or past the last one where each host of the one
    // that runs left.
    fn next_batch(&self) -> usize
        requires { 0 < batches_left self.now }
        ensures leads { LeadsTo result self.now }
        ensures later { self.now.current < result }
    {
        let batches = &self.schedule().batches;
        if is_any_here(&self.hosts, &batches[self.current].members) {
            self.current + 1
        } else {
            batches.len()
        }
    }
}

impl<P: Drop> RunCore<P> {
    /// The batch is over: the next one begins, or the run ends where each of its hosts left.
    ///
    /// # Errors
    ///
    /// Want of memory; `NotThere` where the batch isn't over. Nothing has changed then.
    pub fn turn(&mut self) -> Result<(), CoreFault>
        ensures turns { OnOk result (Turns self.old self.new) }
        ensures fewer { OnOk result (batches_left self.new < batches_left self.old) }
        ensures tickets { OnOk result (tickets_of self.new ≡ tickets_of self.old) }
        ensures err { OnErr result (self.new ≡ self.old) }
        ensures there { IfErr result (λ e. e ≡ CoreFault.NotThere → IsDisabled turn self.old) }
        ensures full { IfErr result (λ e. e ≡ CoreFault.Full → ⊥) }
    {
        let mut formers = Vec::new(*self.hosts.allocator());
        self.turn_from(&mut formers)?;
        Ok(())
    }

    /// All Turns that can happen now, one after the other.
    ///
    /// # Errors
    ///
    /// Want of memory; `NotThere` where the batch isn't over. Nothing has changed then.
    pub fn turn_all(&mut self) -> Result<Turned, CoreFault>
        ensures turns { IfOk result (λ t. TurnsAll t.turns self.old self.new) }
        ensures back { IfOk result (λ t. before_turns t self.new ≡ self.old) }
        ensures tickets { OnOk result (tickets_of self.new ≡ tickets_of self.old) }
        ensures err { OnErr result (self.new ≡ self.old) }
        ensures there { IfErr result (λ e. e ≡ CoreFault.NotThere → IsDisabled turn self.old) }
        ensures full { IfErr result (λ e. e ≡ CoreFault.Full → ⊥) }
    {
        if !self.can_turn() {
            return Err(CoreFault::NotThere);
        }
        let current = self.current;
        let mut formers = Vec::new(*self.hosts.allocator());
        let index = self.turn_from(&mut formers)?;
        let mut turns = 1;
        while self.can_turn() {
            match self.turn_from(&mut formers) {
                Ok(_) => turns += 1,
                Err(fault) => {
                    self.stand_back(current, index, formers);
                    return Err(fault);
                }
            }
        }
        Ok(Turned {
            turns,
            current,
            index,
            formers,
        })
    }

    /// Those Turns, the last that happened, are taken back.
    pub fn turn_back(&mut self, turned: Turned)
        ensures back { self.new ≡ before_turns turned self.old }
        ensures tickets { tickets_of self.new ≡ tickets_of self.old }
    {
        let Turned {
            current,
            index,
            formers,
            ..
        } = turned;
        self.stand_back(current, index, formers);
    }

    // The batch of that number runs again, with that index, and the hosts stand as they did.
    fn stand_back(&mut self, current: usize, index: ReadyIndex, formers: Vec<Former>)
        ensures { self.new ≡ before current index formers.items self.old }
    {
        self.current = current;
        self.index = index;
        restore(&mut self.hosts, formers);
    }

    // One Turn happens, and where its hosts stood is kept behind the others. What comes back is the
    // index of the batch that is over.
    fn turn_from(&mut self, formers: &mut Vec<Former>) -> Result<ReadyIndex, CoreFault>
        ensures turns { OnOk result (Turns self.old self.new) }
        ensures fewer { OnOk result (batches_left self.new < batches_left self.old) }
        ensures tickets { OnOk result (tickets_of self.new ≡ tickets_of self.old) }
        ensures back { (number : ℕ) (index : ReadyIndex)
            → before number index formers.new.items self.new
            ≡ before number index formers.old.items self.old }
        ensures index { IfOk result (λ x. x ≡ self.old.index) }
        ensures err { OnErr result (self.new ≡ self.old) }
        ensures there { IfErr result (λ e. e ≡ CoreFault.NotThere → IsDisabled turn self.old) }
        ensures full { IfErr result (λ e. e ≡ CoreFault.Full → ⊥) }
    {
        if !self.can_turn() {
            return Err(CoreFault::NotThere);
        }
        let next = self.next_batch();
        let index = self.begin_batch(next, formers)?;
        Ok(index)
    }

    // The batch of that number begins, or the run ends past the last one; where its hosts stood is
    // kept behind the others. What comes back is the index that was.
    fn begin_batch(
        &mut self,
        number: usize,
        formers: &mut Vec<Former>,
    ) -> Result<ReadyIndex, CoreFault>
        ensures runs { OnOk result (RunsBatch number self.old self.new) }
        ensures left { OnOk result
            (batches_left self.new ≡ length (scheduled_batches self.old) - number) }
        ensures tickets { OnOk result (tickets_of self.new ≡ tickets_of self.old) }
        ensures back { (number : ℕ) (index : ReadyIndex)
            → before number index formers.new.items self.new
            ≡ before number index formers.old.items self.old }
        ensures index { IfOk result (λ x. x ≡ self.old.index) }
        ensures err { OnErr result (self.new ≡ self.old) }
        ensures there { IfErr result (λ e. e ≡ CoreFault.NotThere → HasNoPlay number self.old) }
        ensures full { IfErr result (λ e. e ≡ CoreFault.Full → ⊥) }
    {
        let alloc = *self.hosts.allocator();
        if number >= self.schedule().batches.len() {
            self.current = number;
            return Ok(mem::replace(&mut self.index, ReadyIndex::new(alloc)));
        }
        let entries = self.entries_at(number)?;
        let index = index_of(alloc, &entries)?;
        formers.reserve(entries.len())?;
        self.current = number;
        enter(&mut self.hosts, entries, formers);
        Ok(mem::replace(&mut self.index, index))
    }

    /// A run of so many hosts in which nothing has happened yet.
    ///
    /// # Errors
    ///
    /// Want of memory; `NotThere` where the first batch is of no play.
    pub fn open(
        alloc: Global,
        plays: Vec<RunPlay>,
        batches: Vec<Batch>,
        hosts: usize,
        forks: usize,
    ) -> Result<RunCore<P>, CoreFault>
        ensures opens { IfOk result (Opens plays.items batches.items hosts forks) }
        ensures tickets { IfOk result (λ c. tickets_of c ≡ replicate hosts None) }
        ensures there { IfErr result (λ e. e ≡ CoreFault.NotThere
            → AreOfNoProgram plays.items batches.items) }
        ensures full { IfErr result (λ e. e ≡ CoreFault.Full → ⊥) }
    {
        let current = batches.len();
        let schedule = shared(alloc, Schedule { plays, batches })?;
        let hosts = hosts_of(alloc, hosts)?;
        let mut core = RunCore {
            schedule,
            current,
            hosts,
            index: ReadyIndex::new(alloc),
            forks,
            handed: 0,
            is_stopped: false,
        };
        core.begin_batch(0, &mut Vec::new(alloc))?;
        Ok(core)
    }
}

fn shared(alloc: Global, schedule: Schedule) -> Result<Arc<Schedule>, AllocError>
    ensures { IfOk result (λ s. s.value ≡ schedule) }
{
    let shared = Arc::new(alloc, schedule)?;
    Ok(shared)
}

// So many hosts before their first play.
fn hosts_of<P: Drop>(alloc: Global, count: usize) -> Result<Vec<HostState<P>>, AllocError>
    ensures fresh { IfOk result (λ xs. All IsFresh xs.items) }
    ensures count { IfOk result (λ xs. length xs.items ≡ count) }
{
    let mut hosts = Vec::with_capacity(alloc, count)?;
    for _ in 0..count {
        let host = HostState::new(alloc)?;
        add_host(&mut hosts, host)?;
    }
    Ok(hosts)
}

fn add_host<P: Drop>(hosts: &mut Vec<HostState<P>>, host: HostState<P>) -> Result<(), AllocError>
    ensures { OnOk result (hosts.new.items ≡ hosts.old.items ++ host ∷ []) }
{
    hosts.push(host)?;
    Ok(())
}
