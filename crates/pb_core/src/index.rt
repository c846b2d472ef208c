// The hosts that wait before a task and those whose task runs, by the places of their tasks.
ghost use Rattle.std.specs.Prelude.{◌≡◌, List, OnErr, OnOk, false, not};
ghost use Rattle.pb_core.specs.Activities.{Activity, all_idle_in, always, can_start_in, first_in};
ghost use Rattle.pb_core.specs.Activities.{is_not_behind, next_in, none_behind, number_of};
ghost use Rattle.pb_core.specs.Activities.{starting_of};
ghost use Rattle.pb_core.specs.Indexes.{AddsPlace, BeginsIn, GoesOnIn, HasPlaces, HoldsOnly};
ghost use Rattle.pb_core.specs.Indexes.{IsIndexOf, LeavesIn, PutsIn, TakesOut};

use std::alloc::{AllocError, Global};
use std::collections::BTreeSet;

/// The hosts that aren't idle, by the places of their tasks, and those at one place in host order.
#[derive(Drop)]
pub struct ReadyIndex {
    // the place and the number of each host that waits before a task
    waiting: BTreeSet<(usize, usize)>,
    // and of each whose task runs
    running: BTreeSet<(usize, usize)>,
}

// The host at the lowest place, and that place.
fn lowest_in(places: &BTreeSet<(usize, usize)>) -> Option<(usize, usize)>
    ensures { (hosts : List Activity) → HasPlaces places.now hosts
        → starting_of result ≡ first_in always 0 hosts }
{
    match places.first() {
        Some(first) => Some((first.1, first.0)),
        None => None,
    }
}

fn take_out(places: &mut BTreeSet<(usize, usize)>, host: usize, place: usize)
    ensures { TakesOut host place places.old places.new }
{
    places.remove(&(place, host));
}

fn put_in(
    places: &mut BTreeSet<(usize, usize)>,
    host: usize,
    place: usize,
) -> Result<(), AllocError>
    ensures put { OnOk result (PutsIn host place places.old places.new) }
    ensures added { OnOk result (AddsPlace host place places.old places.new) }
    ensures err { OnErr result (places.new ≡ places.old) }
{
    places.insert((place, host))?;
    Ok(())
}

// Whether a host stands before that place.
fn is_behind(lowest: Option<(usize, usize)>, place: usize) -> bool
    ensures { result ≡ not (is_not_behind place (starting_of lowest)) }
{
    match lowest {
        Some((_, at)) => at < place,
        None => false,
    }
}

impl ReadyIndex {
    /// Of hosts that are all idle.
    pub fn new(alloc: Global) -> ReadyIndex
        ensures { HoldsOnly (λ place host. false) result }
    {
        ReadyIndex {
            waiting: BTreeSet::new(alloc),
            running: BTreeSet::new(alloc),
        }
    }

    /// The host that starts next, where one can: the one at the lowest place, ties by host order.
    pub fn next(&self, forks: usize, is_linear: bool) -> Option<usize>
        ensures { (hosts : List Activity) → IsIndexOf self.now hosts
            → result ≡ number_of (next_in forks is_linear hosts) }
    {
        let Some((host, place)) = lowest_in(&self.waiting) else {
            return None;
        };
        if self.can_start(place, forks, is_linear) {
            Some(host)
        } else {
            None
        }
    }

    /// Whether a host that waits before that place may start: fewer than `forks` hosts run, and in
    /// a linear play none is behind it.
    pub fn can_start(&self, place: usize, forks: usize, is_linear: bool) -> bool
        ensures { (hosts : List Activity) → IsIndexOf self.now hosts
            → result ≡ can_start_in forks is_linear hosts place }
    {
        if self.running.len() >= forks {
            return false;
        }
        if !is_linear {
            return true;
        }
        self.has_none_behind(place)
    }

    // Whether no host stands before that place.
    fn has_none_behind(&self, place: usize) -> bool
        ensures { (hosts : List Activity) → IsIndexOf self.now hosts
            → result ≡ none_behind place hosts }
    {
        if is_behind(lowest_in(&self.waiting), place) {
            return false;
        }
        !is_behind(lowest_in(&self.running), place)
    }

    /// Whether all hosts are idle.
    pub fn is_idle(&self) -> bool
        ensures { (hosts : List Activity) → IsIndexOf self.now hosts
            → result ≡ all_idle_in hosts }
    {
        if let Some(_) = lowest_in(&self.waiting) {
            return false;
        }
        self.running.len() == 0
    }

    /// One more host waits before a task at that place.
    ///
    /// # Errors
    ///
    /// Want of memory; the index is then as it was.
    pub fn wait(&mut self, host: usize, place: usize) -> Result<(), AllocError>
        ensures waits { OnOk result (AddsPlace host place self.old.waiting self.new.waiting) }
        ensures running { self.new.running ≡ self.old.running }
        ensures err { OnErr result (self.new ≡ self.old) }
    {
        put_in(&mut self.waiting, host, place)?;
        Ok(())
    }

    /// The task of a host that waits before that place begins.
    ///
    /// # Errors
    ///
    /// Want of memory; the index is then as it was.
    pub fn begin(&mut self, host: usize, place: usize) -> Result<(), AllocError>
        ensures begins { OnOk result (BeginsIn host place self.old self.new) }
        ensures err { OnErr result (self.new ≡ self.old) }
    {
        put_in(&mut self.running, host, place)?;
        take_out(&mut self.waiting, host, place);
        Ok(())
    }

    /// The task of a host at one place ends, and the host waits before another, or is idle.
    ///
    /// # Errors
    ///
    /// Want of memory; the index is then as it was.
    pub fn go_on(&mut self, host: usize, from: usize, to: Option<usize>) -> Result<(), AllocError>
        ensures goes { OnOk result (GoesOnIn host from to self.old self.new) }
        ensures err { OnErr result (self.new ≡ self.old) }
    {
        match to {
            Some(place) => {
                put_in(&mut self.waiting, host, place)?;
                take_out(&mut self.running, host, from);
                Ok(())
            }
            None => {
                self.leave(host, from);
                Ok(())
            }
        }
    }

    /// The task of a host at that place ends, and the host is idle.
    pub fn leave(&mut self, host: usize, from: usize)
        ensures { LeavesIn host from self.old self.new }
    {
        take_out(&mut self.running, host, from);
    }
}
