// The nodes of a play with their tasks where they stand, of which its steps are made.
ghost use Rattle.std.specs.Prelude.{◌≡◌, ◌≤◌, IfOk, OnOk, map};
ghost use Rattle.pb_semantics.specs.Limits.{most_play_steps};
ghost use Rattle.pb_language.specs.Sites.{steps_of};
ghost use Rattle.pb_play.specs.Plays.{play_view};
ghost use Rattle.pb_reads.specs.Reached.{names_in};
ghost use Rattle.pb_route.specs.Station.{IsStation, station_task};
ghost use Rattle.pb_steps.specs.Nodes.{AreNodes};
ghost use Rattle.pb_steps.specs.Uses.{Adds, Among, SomeUses, Uses};

use pb_flow::Graph;
use pb_play::Play;
use pb_reads::{reads_of, writes_of};
use pb_route::{Station, stations_of};
use pb_task::Task;
use std::alloc::{AllocError, Global};
use std::collections::BTreeSet;

/// The nodes of a play with their tasks where they stand, of which its steps are made.
#[derive(Drop)]
pub struct PlayNodes<'p> {
    pub(crate) play: &'p Play,
    // The task that gathers its facts, where it has one.
    pub(crate) gathering: Option<&'p Task>,
    pub(crate) graph: Graph<'p>,
    pub(crate) stations: Vec<Station<'p>>,
}

impl<'p> PlayNodes<'p> {
    /// Those of a play of at most 8,192 steps, with the task that gathers its facts, where it has
    /// one.
    ///
    /// # Errors
    ///
    /// Want of memory, also where a chain of names of `vars` is too long or has a cycle, and where
    /// facts are gathered and no task for it is given.
    pub fn of(
        alloc: Global,
        play: &'p Play,
        gathering: Option<&'p Task>,
    ) -> Result<PlayNodes<'p>, AllocError>
        requires few { steps_of (play_view play.now) ≤ most_play_steps }
        ensures nodes { IfOk result AreNodes }
        ensures play { IfOk result (λ ns. ns.play ≡ play.entry) }
        ensures gathering { IfOk result (λ ns. ns.gathering ≡ gathering.entry) }
    {
        let graph = Graph::of(alloc, play)?;
        let stations = stations_of(alloc, play, &graph.tasks, gathering)?;
        Ok(PlayNodes {
            play,
            gathering,
            graph,
            stations,
        })
    }

    /// Adds the names of the variables that its tasks read, register or set.
    ///
    /// # Errors
    ///
    /// Want of memory.
    pub fn add_names<'s>(
        &'s self,
        alloc: Global,
        names: &mut BTreeSet<&'s str>,
    ) -> Result<(), AllocError>
        requires nodes { AreNodes self.now }
        ensures { OnOk result (Adds (SomeUses (map station_task self.now.stations.items))
            (names_in names.old) (names_in names.new)) }
    {
        for station in &self.stations {
            add_used(alloc, station, names)?;
        }
        Ok(())
    }
}

fn add_used<'s>(
    alloc: Global,
    station: &'s Station<'_>,
    names: &mut BTreeSet<&'s str>,
) -> Result<(), AllocError>
    requires station { IsStation station.now }
    ensures { OnOk result (Adds (Uses (station_task station.now))
        (names_in names.old) (names_in names.new)) }
{
    let reads = reads_of(alloc, station)?;
    add_all(&reads, names)?;
    let writes = writes_of(alloc, station)?;
    add_all(&writes, names)
}

fn add_all<'s>(more: &BTreeSet<&'s str>, names: &mut BTreeSet<&'s str>) -> Result<(), AllocError>
    ensures { OnOk result (Adds (Among (names_in more.now))
        (names_in names.old) (names_in names.new)) }
{
    for name in more.iter() {
        let _ = names.insert(*name)?;
    }
    Ok(())
}
