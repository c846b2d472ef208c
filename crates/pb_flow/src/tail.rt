// The last nodes of a play, before which more are put.
ghost use Rattle.std.specs.Prelude.{◌<◌, ◌≡◌, ◌≤◌, ◌∷◌, IfOk, OnOk, Option, [], reverse, suc, ℕ};
ghost use Rattle.pb_semantics.specs.Limits.{most_play_steps};
ghost use Rattle.pb_language.specs.Book.{Registry};
ghost use Rattle.pb_language.specs.Expression.{Parts};
ghost use Rattle.pb_machine.specs.Steps.{to_node};
ghost use Rattle.pb_flow.specs.Build.{tail_steps, task_of};
ghost use Rattle.pb_flow.specs.Nodes.{AreVisitedSound, IsVisitedSound, target_view};

use crate::graph::{Around, Node, Target, Visited};
use crate::steps::Count;
use std::alloc::{AllocError, Global};
use std::sync::Arc;

// The last nodes of a play, in front of which more are put.
#[derive(Drop)]
pub(crate) struct Tail<'p> {
    // The last first.
    nodes: Vec<Node<'p>>,
    // The number of the one in front, or of the end while there is none.
    pub(crate) front: u32,
    // How many places there are before it.
    pub(crate) place: u32,
}

impl<'p> Tail<'p> {
    // The end alone, behind so many nodes and places.
    pub(crate) fn behind(alloc: Global, count: Count) -> Tail<'p>
        requires few { count.steps ≤ most_play_steps }
        requires places { count.places ≤ most_play_steps }
        ensures front { result.front ≡ suc count.steps }
        ensures place { result.place ≡ count.places }
        ensures nodes { result.nodes.items ≡ [] }
    {
        Tail {
            nodes: Vec::new(alloc),
            front: count.steps as u32 + 1,
            place: count.places as u32,
        }
    }

    // The nodes in their order.
    pub(crate) fn into_nodes(self) -> Vec<Node<'p>>
        ensures { result.items ≡ reverse self.entry.nodes.items }
    {
        let mut nodes = self.nodes;
        nodes.reverse();
        nodes
    }

    // Puts a node in front, and says how it is reached.
    pub(crate) fn put(
        &mut self,
        visited: Visited<'p>,
        around: &Arc<Around<'p>>,
        handler: Option<u32>,
        ok: &Target,
        failed: &Target,
    ) -> Result<Target, AllocError>
        requires room { 0 < self.old.front }
        requires places { 0 < self.old.place }
        ensures front { OnOk result (suc self.new.front ≡ self.old.front) }
        ensures place { OnOk result (suc self.new.place ≡ self.old.place) }
        ensures at { IfOk result (λ at. target_view at ≡ to_node self.new.front) }
        ensures steps { OnOk result ((ms : Registry) (vars : Parts) → tail_steps ms vars self.new
            ≡ record {
              task = task_of ms vars around.now.value self.new.place visited.entry;
              handler = handler;
              ok = target_view ok.now;
              failed = target_view failed.now;
            } ∷ tail_steps ms vars self.old) }
        ensures sound { OnOk result ((ms : Registry) (line : Option ℕ)
            → IsVisitedSound ms line visited.entry → AreVisitedSound ms line self.old.nodes.items
            → AreVisitedSound ms line self.new.nodes.items) }
    {
        let alloc = *self.nodes.allocator();
        let node = Node {
            visited,
            around: around.clone()?,
            place: self.place - 1,
            handler,
            ok: ok.copy()?,
            failed: failed.copy()?,
        };
        self.nodes.push(node)?;
        self.front -= 1;
        self.place -= 1;
        Ok(Target::to_node(alloc, self.front))
    }
}
