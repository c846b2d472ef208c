// The graph of a play.
ghost use Rattle.std.specs.Prelude.{◌+◌, ◌≡◌, ◌≤◌, IfOk, length, map, option_map, true};
ghost use Rattle.pb_semantics.specs.Limits.{most_play_steps};
ghost use Rattle.pb_language.specs.Book.{Registry};
ghost use Rattle.pb_language.specs.Plays.{play_row};
ghost use Rattle.pb_language.specs.Sites.{steps_of};
ghost use Rattle.pb_machine.specs.Steps.{leaving, moving, play_steps, to_node};
ghost use Rattle.pb_play.specs.Plays.{play_view};
ghost use Rattle.pb_play.specs.Sound.{AreSound, play_tasks};
ghost use Rattle.pb_template.specs.Entries.{entries_view};
ghost use Rattle.pb_flow.specs.Ahead.{all_lead_on};
ghost use Rattle.pb_flow.specs.Exits.{exits_at, line_at, node_at, place_at};
ghost use Rattle.pb_flow.specs.Flow.{begins_at};
ghost use Rattle.pb_flow.specs.Nodes.{AreVisitedSound, move_view, node_step, target_view};
ghost use Rattle.pb_flow.specs.Nodes.{visited_view};

use crate::build::{put_gathering, put_sections};
use crate::scene::Scene;
use crate::steps::count_of;
use crate::tail::Tail;
use pb_play::{BlockHead, Play};
use pb_task::Task;
use std::alloc::{AllocError, Global};
use std::sync::Arc;

/// What stands round a task.
#[derive(Drop)]
pub struct Around<'p> {
    /// The blocks that it stands in, the outermost first.
    pub blocks: Vec<&'p BlockHead>,
    /// Whether errors are ignored, where the task doesn't say.
    pub ignores: bool,
    /// Whether it stands in the `block` part of a block with a `rescue`.
    pub rescued: bool,
    /// In how many `rescue` parts it stands.
    pub depth: usize,
}

/// What is done at a node.
#[derive(Drop)]
pub enum Visited<'p> {
    /// Facts are gathered, at that line.
    Gathering(u32),
    /// The task, or the work of a handler.
    Task(&'p Task),
}

/// What happens to the text of a failure on the way from one task to the next.
#[derive(Clone, Copy, PartialEq, Eq, Debug)]
pub enum Move {
    /// It is kept for the `rescue` part that begins, inside so many others.
    Rescuing(usize),
    /// It is held while the `always` part runs that begins, inside so many others that run after a
    /// failure.
    Holding(usize),
    /// That part is done: the text that it held is the failure's again.
    Releasing(usize),
}

/// Where a host goes, and what happens on the way.
#[derive(Drop)]
pub struct Target {
    /// The first one first.
    pub moves: Vec<Move>,
    /// The node; none where the host then leaves.
    pub to: Option<u32>,
}

/// A task in one of its ways: one outside of `always` parts has one node, one inside has two for
/// each such part, and a handler has one for each flush, or two where the flush is forced.
#[derive(Drop)]
pub struct Node<'p> {
    pub visited: Visited<'p>,
    pub around: Arc<Around<'p>>,
    /// Its place in running order, which both modes of an `always` part share.
    pub place: u32,
    /// Of a handler its number; where it wasn't notified, it is passed over.
    pub handler: Option<u32>,
    /// Where the host goes on, also past a handler.
    pub ok: Target,
    /// Where a failure leads.
    pub failed: Target,
}

/// Where a host goes from a node. Each node is a higher one.
#[derive(Clone, Copy, PartialEq, Eq, Debug)]
pub struct Exits {
    pub ok: Option<u32>,
    pub failed: Option<u32>,
}

/// The nodes of a play: 0 is its start, the last its end, and between them stand the tasks.
#[derive(Drop)]
pub struct Graph<'p> {
    /// The node after the start.
    pub begin: Option<u32>,
    /// Those from 1 on, without the end.
    pub tasks: Vec<Node<'p>>,
    /// Each node leads to higher ones.
    ghost leads: { all_lead_on begin tasks.items ≡ true },
}

impl<'p> Graph<'p> {
    /// The graph of a play of at most 8,192 steps.
    ///
    /// # Errors
    ///
    /// Want of memory.
    pub fn of(alloc: Global, play: &'p Play) -> Result<Graph<'p>, AllocError>
        requires few { steps_of (play_view play.now) ≤ most_play_steps }
        ensures begin { IfOk result (λ g. (ms : Registry)
            → g.begin ≡ begins_at (play_row ms (play_view play.now))) }
        ensures steps { IfOk result (λ g. (ms : Registry)
            → map (node_step ms (entries_view play.now.vars.items)) g.tasks.items
            ≡ play_steps (play_row ms (play_view play.now))) }
        ensures sound { IfOk result (λ g. (ms : Registry) → AreSound ms (play_tasks play.now)
            → AreVisitedSound ms play.now.gathering g.tasks.items) }
    {
        let (begin, tasks) = nodes_of(alloc, play)?;
        Ok(Graph { begin, tasks })
    }

    /// How many nodes there are.
    pub fn nodes(&self) -> usize
        ensures { result ≡ length self.now.tasks.items + 2 }
    {
        self.tasks.len() + 2
    }

    /// Where a host goes from the node.
    pub fn exits(&self, node: usize) -> Exits
        ensures { result ≡ exits_at self.now.begin self.now.tasks.items node }
    {
        if node == 0 {
            return Exits {
                ok: self.begin,
                failed: None,
            };
        }
        match self.node_at(node) {
            Some(it) => Exits {
                ok: it.ok.to,
                failed: it.failed.to,
            },
            None => Exits {
                ok: None,
                failed: None,
            },
        }
    }

    /// The line of the node's task; none at the start and at the end.
    pub fn line_of(&self, node: usize) -> Option<u32>
        ensures { result ≡ line_at self.now.tasks.items node }
    {
        match self.node_at(node) {
            Some(it) => Some(it.visited.line()),
            None => None,
        }
    }

    /// The place of the node's task; none at the start and at the end.
    pub fn place_of(&self, node: usize) -> Option<u32>
        ensures { result ≡ place_at self.now.tasks.items node }
    {
        match self.node_at(node) {
            Some(it) => Some(it.place),
            None => None,
        }
    }

    fn node_at(&self, node: usize) -> Option<&Node<'p>>
        ensures { option_map (λ n. n.now) result ≡ node_at self.now.tasks.items node }
    {
        if node == 0 {
            return None;
        }
        self.tasks.get(node - 1)
    }
}

// Where a host begins, and the nodes without the start and the end.
fn nodes_of<'p>(alloc: Global, play: &'p Play) -> Result<(Option<u32>, Vec<Node<'p>>), AllocError>
    requires few { steps_of (play_view play.now) ≤ most_play_steps }
    ensures begin { IfOk result (λ g. (ms : Registry)
        → g.0 ≡ begins_at (play_row ms (play_view play.now))) }
    ensures steps { IfOk result (λ g. (ms : Registry)
        → map (node_step ms (entries_view play.now.vars.items)) g.1.items
        ≡ play_steps (play_row ms (play_view play.now))) }
    ensures sound { IfOk result (λ g. (ms : Registry) → AreSound ms (play_tasks play.now)
        → AreVisitedSound ms play.now.gathering g.1.items) }
{
    let scene = Scene::of(alloc, play)?;
    let mut tail = Tail::behind(alloc, count_of(play));
    let end = Target::to_node(alloc, tail.front);
    let first = put_sections(&mut tail, &scene, play, &end)?;
    let begin = put_gathering(&mut tail, &scene, play.gathering, &first)?;
    Ok((begin.to, tail.into_nodes()))
}

impl Target {
    // To the node, with nothing on the way.
    pub(crate) fn to_node(alloc: Global, node: u32) -> Target
        ensures { target_view result ≡ to_node node }
    {
        Target {
            moves: Vec::new(alloc),
            to: Some(node),
        }
    }

    // To where a host leaves.
    pub(crate) fn leaving(alloc: Global) -> Target
        ensures { target_view result ≡ leaving }
    {
        Target {
            moves: Vec::new(alloc),
            to: None,
        }
    }

    pub(crate) fn copy(&self) -> Result<Target, AllocError>
        ensures { IfOk result (λ t. target_view t ≡ target_view self.now) }
    {
        let mut moves = Vec::new(*self.moves.allocator());
        moves.extend_from_slice(&self.moves)?;
        Ok(Target { moves, to: self.to })
    }

    // The same, where that happens first.
    pub(crate) fn after(&self, first: Move) -> Result<Target, AllocError>
        ensures { IfOk result (λ t. target_view t
            ≡ moving (move_view first) (target_view self.now)) }
    {
        let mut target = self.copy()?;
        target.moves.insert(0, first)?;
        Ok(target)
    }
}

impl<'p> Visited<'p> {
    fn line(&self) -> u32
        ensures { result ≡ (visited_view self.now).line }
    {
        match self {
            Visited::Gathering(line) => *line,
            Visited::Task(task) => task.line,
        }
    }
}
