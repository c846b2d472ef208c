// A play with the paths through it, and its tasks where they stand.
ghost use Rattle.std.specs.Prelude.{◌≡◌, ◌≤◌, ℕ, All, IfOk, IfSome, Option, length, map};
ghost use Rattle.std.specs.Prelude.{option_map};
ghost use Rattle.pb_semantics.specs.Limits.{most_play_steps};
ghost use Rattle.pb_language.specs.Book.{Registry};
ghost use Rattle.pb_language.specs.Plays.{play_row};
ghost use Rattle.pb_language.specs.Sites.{steps_of};
ghost use Rattle.pb_play.specs.Words.{AreSound, play_view};
ghost use Rattle.pb_play.specs.Sound.{play_tasks};
ghost use Rattle.pb_template.specs.Words.{entries_view};
ghost use Rattle.pb_flow.specs.Words.{AreVisitedSound, IsVisitedSound, node_task};
ghost use Rattle.pb_route.specs.Words.{IsStation, station_task};
ghost use Rattle.pb_route.specs.Routes.{ArePaths, ArePathsOf, Gathers, IsDone};

use crate::station::Station;
use pb_flow::laws::{
    edges_are_those_of_the_row, edges_carry_what_the_row_does, steps_have_tasks_and_links,
};
use pb_flow::{Graph, Node, Visited, Way};
use pb_judgement::SharedResults;
use pb_lattice::FlowGraph;
use pb_play::Play;
use pb_task::Task;
use std::alloc::{AllocError, Global};
use std::marker::Model;

/// A play with the paths through it, and its tasks where they stand. Contracts see the edges, how a
/// host goes along each, and the tasks of the nodes from 1 on.
#[derive(Drop)]
pub struct Route<'p> {
    graph: FlowGraph,
    ways: Vec<Way>,
    stations: Vec<Station<'p>>,
}

impl<'p> Model for Route<'p> {
    ghost use Rattle.pb_route.specs.Routes.{ArePaths, Paths};
    ghost use Rattle.pb_kind.specs.contracts.kind.Kind as kind;
    ghost use Rattle.pb_value.specs.contracts.value.Value as value;
    ghost use Rattle.pb_syntax.specs.contracts.expr.Expr as expr;
    ghost use Rattle.std.specs.Coded.{codes};

    ghost Value = { Paths };

    ghost coded = { Prim.hlevel (
      codes,
      kind.the_row.coded,
      value.the_row.coded,
      expr.the_row.coded,
    ) };

    ghost view = { λ r. record {
      graph = r.graph;
      ways = r.ways.items;
      stations = r.stations.items;
    } };

    ghost invariant = { λ r. ArePaths (record {
      graph = r.graph;
      ways = r.ways.items;
      stations = r.stations.items;
    }) };
}

impl<'p> Route<'p> {
    /// The paths of a play of at most 8,192 steps, with the task that gathers its facts, where it
    /// has one.
    ///
    /// # Errors
    ///
    /// Want of memory, also where a chain of names of `vars` is too long or has a cycle, and where
    /// facts are gathered and no task for it is given.
    pub fn of(
        alloc: Global,
        play: &'p Play,
        gathering: Option<&'p Task>,
    ) -> Result<Route<'p>, AllocError>
        requires few { steps_of (play_view play.now) ≤ most_play_steps }
        ensures { IfOk result (λ r. (ms : Registry) → AreSound ms (play_tasks play.now)
            → Gathers ms play.now.gathering (option_map (λ t. t.now) gathering.entry)
            → ArePathsOf (play_row ms (play_view play.now)) r) }
    {
        steps_have_tasks_and_links();
        edges_are_those_of_the_row();
        edges_carry_what_the_row_does();
        let graph = Graph::of(alloc, play)?;
        let flow = graph.flow(alloc)?;
        let stations = stations_of(alloc, play, &graph.tasks, gathering)?;
        Ok(Route {
            graph: flow.graph,
            ways: flow.ways,
            stations,
        })
    }

    /// The edges.
    pub fn graph(&self) -> &FlowGraph
        ensures graph { result.now ≡ self.now.graph }
        ensures paths { ArePaths self.now }
    {
        &self.graph
    }

    /// How a host goes along each edge.
    pub fn ways(&self) -> &[Way]
        ensures { result.now ≡ self.now.ways }
    {
        self.ways.as_slice()
    }

    /// The tasks of the nodes, from 1 on.
    pub fn stations(&self) -> &[Station<'p>]
        ensures stations { result.now ≡ self.now.stations }
        ensures paths { ArePaths self.now }
    {
        self.stations.as_slice()
    }
}

/// The tasks of the nodes of the play, where they stand.
///
/// # Errors
///
/// As of [`Route::of`].
pub fn stations_of<'p>(
    alloc: Global,
    play: &'p Play,
    nodes: &[Node<'p>],
    gathering: Option<&'p Task>,
) -> Result<Vec<Station<'p>>, AllocError>
    ensures stations { IfOk result (λ ss. All IsStation ss.items) }
    ensures number { IfOk result (λ ss. length ss.items ≡ length nodes.now) }
    ensures tasks { IfOk result (λ ss. (ms : Registry)
        → AreVisitedSound ms play.now.gathering nodes.now
        → Gathers ms play.now.gathering (option_map (λ t. t.now) gathering.entry)
        → map station_task ss.items
        ≡ map (node_task ms (entries_view play.now.vars.items)) nodes.now) }
{
    let mut stations = Vec::with_capacity(alloc, nodes.len())?;
    let mut shared = SharedResults::nothing(alloc);
    for node in nodes {
        let (station, further) = station_of(alloc, play, node, gathering, shared)?;
        shared = further;
        stations.push(station)?;
    }
    Ok(stations)
}

// The task of the node, where it stands, and what is worked out by then.
fn station_of<'p>(
    alloc: Global,
    play: &'p Play,
    node: &Node<'p>,
    gathering: Option<&'p Task>,
    shared: SharedResults<'p>,
) -> Result<(Station<'p>, SharedResults<'p>), AllocError>
    ensures station { IfOk result (λ r. IsStation r.0) }
    ensures task { IfOk result (λ r. (ms : Registry)
        → IsVisitedSound ms play.now.gathering node.now.visited
        → Gathers ms play.now.gathering (option_map (λ t. t.now) gathering.entry)
        → station_task r.0 ≡ node_task ms (entries_view play.now.vars.items) node.now) }
{
    let Some(task) = task_of(&node.visited, gathering) else {
        return Err(AllocError);
    };
    Station::of(alloc, task, &node.around, node.place, &play.vars, shared)
}

// The task that is done there: where facts are gathered the one that is given for it.
fn task_of<'p>(visited: &Visited<'p>, gathering: Option<&'p Task>) -> Option<&'p Task>
    ensures { IfSome result (λ t. (ms : Registry) (line : Option ℕ)
        → IsVisitedSound ms line visited.now
        → Gathers ms line (option_map (λ t. t.now) gathering.entry)
        → IsDone ms visited.now t.now) }
{
    match visited {
        Visited::Task(task) => Some(*task),
        Visited::Gathering(_) => gathering,
    }
}
