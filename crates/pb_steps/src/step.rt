// The steps of a play, made of its nodes.
ghost use Rattle.std.specs.Prelude.{[], ◌≡◌, All, IfOk, length, map, option_map, true};
ghost use Rattle.pb_flow.specs.Words.{target_view, visited_view};
ghost use Rattle.pb_steps.specs.Leads.{all_lead_on};

use crate::nodes::PlayNodes;
use crate::uses::{handlers_named, slots_of};
use pb_flow::{Graph, Node, Target, Visited};
use pb_machine::{steps_lead_along_links, steps_lead_on};
use pb_play::Handler;
use pb_reads::{reads_of, writes_of};
use pb_route::Station;
use pb_slots::Slots;
use std::alloc::{AllocError, Global};

/// A task in one of its ways: its node's number is its place among the steps, from 1 on.
#[derive(Drop)]
pub struct Step {
    /// The line of the task in the book.
    pub line: u32,
    /// Its place in running order, which both modes of an `always` part share.
    pub place: u32,
    /// Of a handler its number; where it wasn't notified, it is passed over.
    pub handler: Option<u32>,
    /// Where the host goes on, also past a handler.
    pub ok: Target,
    /// Where a failure leads.
    pub failed: Target,
    /// The slots of the variables that it reads, of any host, also through values of `vars`.
    pub reads: Vec<usize>,
    /// The slots of the variables that it registers or sets.
    pub writes: Vec<usize>,
    /// The numbers of the handlers that it notifies where it is changed, text by text.
    pub notifies: Vec<usize>,
}

/// The steps of a play, and where a host begins it.
#[derive(Drop)]
pub struct PlaySteps {
    pub begin: Target,
    pub steps: Vec<Step>,
    /// How many handlers the play has.
    pub handlers: usize,
    /// Each step leads to higher ones.
    ghost leads: { all_lead_on begin steps.items ≡ true },
}

impl PlaySteps {
    ghost use Rattle.pb_language.specs.Book.{Registry};
    ghost use Rattle.pb_language.specs.Plays.{names_of_handlers, play_row};
    ghost use Rattle.pb_machine.specs.Steps.{play_steps};
    ghost use Rattle.pb_play.specs.Plays.{play_view};
    ghost use Rattle.pb_play.specs.Sound.{AreSound, play_tasks};
    ghost use Rattle.pb_route.specs.Routes.{Gathers};
    ghost use Rattle.pb_slots.specs.Words.{names_of_slots};
    ghost use Rattle.pb_steps.specs.Nodes.{AreNodes};
    ghost use Rattle.pb_steps.specs.Outlines.{plan_view, play_plan};
    ghost use Rattle.pb_steps.specs.Uses.{AreUsed};

    /// The steps of a play, where variables have those slots.
    ///
    /// # Errors
    ///
    /// Want of memory.
    pub fn of(alloc: Global, nodes: PlayNodes<'_>, slots: &Slots) -> Result<PlaySteps, AllocError>
        requires nodes { AreNodes nodes }
        ensures plan { IfOk result (λ p. (ms : Registry)
            → plan_view p ≡ play_plan ms (play_view nodes.entry.play.now)) }
        ensures uses { IfOk result (λ p. (ms : Registry)
            → AreSound ms (play_tasks nodes.entry.play.now)
            → Gathers ms nodes.entry.play.now.gathering
            (option_map (λ t. t.now) nodes.entry.gathering)
            → AreUsed (names_of_slots slots.now)
            (names_of_handlers (play_view nodes.entry.play.now).handlers) p.steps.items
            (map (λ s. s.task) (play_steps (play_row ms (play_view nodes.entry.play.now))))) }
        ensures handlers { IfOk result
            (λ p. p.handlers ≡ length nodes.entry.play.now.handlers.items) }
    {
        steps_lead_along_links();
        steps_lead_on();
        let PlayNodes {
            play,
            gathering: _,
            graph,
            stations,
        } = nodes;
        let Graph {
            begin: first,
            tasks,
        } = graph;
        let scene = Scene {
            alloc,
            handlers: &play.handlers,
            slots,
        };
        let begin = begin_at(alloc, first);
        let steps = scene.steps(tasks, &stations)?;
        Ok(PlaySteps {
            begin,
            steps,
            handlers: play.handlers.len(),
        })
    }
}

// To where a host begins, with nothing on the way.
fn begin_at(alloc: Global, first: Option<u32>) -> Target
    ensures { target_view result ≡ record { moves = []; to = first } }
{
    Target {
        moves: Vec::new(alloc),
        to: first,
    }
}

// What is the same for all steps of a play.
#[derive(Drop)]
struct Scene<'s> {
    alloc: Global,
    handlers: &'s [Handler],
    slots: &'s Slots,
}

impl Scene<'_> {
    ghost use Rattle.pb_language.specs.Book.{Registry};
    ghost use Rattle.pb_language.specs.Expression.{Parts};
    ghost use Rattle.pb_flow.specs.Words.{node_step};
    ghost use Rattle.pb_route.specs.Station.{IsStation, station_task};
    ghost use Rattle.pb_rules.specs.Handlers.{handlers_names};
    ghost use Rattle.pb_slots.specs.Words.{names_of_slots};
    ghost use Rattle.pb_steps.specs.Outlines.{outline, outline_view};
    ghost use Rattle.pb_steps.specs.Uses.{AreUsed, IsUsed};

    // The steps of the nodes, at which those tasks stand.
    fn steps(&self, nodes: Vec<Node<'_>>, stations: &[Station<'_>]) -> Result<Vec<Step>, AllocError>
        requires number { length stations.now ≡ length nodes.items }
        requires stations { All IsStation stations.now }
        ensures outlines { IfOk result (λ ss. (ms : Registry) (vars : Parts)
            → map outline_view ss.items
            ≡ map (λ n. outline (node_step ms vars n)) nodes.entry.items) }
        ensures uses { IfOk result (λ ss. AreUsed (names_of_slots self.now.slots.now)
            (handlers_names self.now.handlers.now) ss.items (map station_task stations.now)) }
    {
        let mut steps = Vec::with_capacity(self.alloc, nodes.len())?;
        for node in nodes {
            let step = self.step(node, &stations[steps.len()])?;
            steps.push(step)?;
        }
        Ok(steps)
    }

    fn step(&self, node: Node<'_>, station: &Station<'_>) -> Result<Step, AllocError>
        requires station { IsStation station.now }
        ensures outline { IfOk result (λ s. (ms : Registry) (vars : Parts)
            → outline_view s ≡ outline (node_step ms vars node.entry)) }
        ensures uses { IfOk result (λ s. IsUsed (names_of_slots self.now.slots.now)
            (handlers_names self.now.handlers.now) s (station_task station.now)) }
    {
        let read = reads_of(self.alloc, station)?;
        let reads = slots_of(self.alloc, &read, self.slots)?;
        let written = writes_of(self.alloc, station)?;
        let writes = slots_of(self.alloc, &written, self.slots)?;
        let notifies = handlers_named(self.alloc, self.handlers, &station.task.notify)?;
        let line = line_of(&node.visited);
        Ok(Step {
            line,
            place: node.place,
            handler: node.handler,
            ok: node.ok,
            failed: node.failed,
            reads,
            writes,
            notifies,
        })
    }
}

fn line_of(visited: &Visited<'_>) -> u32
    ensures { result ≡ (visited_view visited.now).line }
{
    match visited {
        Visited::Gathering(line) => *line,
        Visited::Task(task) => task.line,
    }
}
