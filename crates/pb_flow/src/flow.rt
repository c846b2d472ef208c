// The edges of a graph, as those of one whose least solution is asked for.
ghost use Rattle.std.specs.Prelude.{◌-◌, ◌++◌, ◌≡◌, ◌≤◌, All, IfOk, OnOk, true};
ghost use Rattle.pb_flow.specs.Ahead.{edge_to, flow_edges, flow_ways, is_ahead, node_edges};
ghost use Rattle.pb_flow.specs.Ahead.{node_ways, way_to};

use crate::graph::{Graph, Node};
use pb_lattice::FlowGraph;
use std::alloc::{AllocError, Global};

/// How a host goes along an edge.
#[derive(Clone, Copy, PartialEq, Eq, Debug)]
pub enum Way {
    /// The play begins.
    Begins,
    /// The task goes on.
    Goes,
    /// The task fails.
    Fails,
    /// The handler wasn't notified.
    Passes,
}

/// All edges of a play.
#[derive(Drop)]
pub struct Flow {
    pub graph: FlowGraph,
    /// For each edge how a host goes along it.
    pub ways: Vec<Way>,
}

impl<'p> Graph<'p> {
    /// The edges from the start and from each node, in the order of their sources.
    ///
    /// # Errors
    ///
    /// Want of memory.
    pub fn flow(&self, alloc: Global) -> Result<Flow, AllocError>
        ensures graph { IfOk result
            (λ f. f.graph ≡ flow_edges self.now.begin self.now.tasks.items) }
        ensures ways { IfOk result
            (λ f. f.ways.items ≡ flow_ways self.now.begin self.now.tasks.items) }
    {
        let mut flow = Flow {
            graph: FlowGraph::new(alloc, self.tasks.len() + 2),
            ways: Vec::new(alloc),
        };
        flow.link(0, self.begin, Way::Begins)?;
        for (index, node) in self.tasks.iter().enumerate() {
            flow.link_node(index + 1, node)?;
        }
        Ok(flow)
    }
}

impl Flow {
    // Takes in the edges from a node behind all sources so far.
    fn link_node(&mut self, source: usize, node: &Node) -> Result<(), AllocError>
        requires ok { is_ahead source (self.old.graph.count - 1) node.now.ok.to ≡ true }
        requires failed { is_ahead source (self.old.graph.count - 1) node.now.failed.to ≡ true }
        requires in_order { All (λ e. e.source ≤ source) self.old.graph.edges }
        ensures graph { OnOk result (self.new.graph ≡ record self.old.graph {
          edges = self.old.graph.edges ++ node_edges source node.now;
        }) }
        ensures ways { OnOk result (self.new.ways.items
            ≡ self.old.ways.items ++ node_ways node.now) }
        ensures in_order { OnOk result (All (λ e. e.source ≤ source) self.new.graph.edges) }
    {
        if node.handler.is_some() {
            self.link(source, node.ok.to, Way::Passes)?;
        }
        self.link(source, node.ok.to, Way::Goes)?;
        self.link(source, node.failed.to, Way::Fails)
    }

    // Takes in the edge to that node, where there is one.
    fn link(&mut self, source: usize, target: Option<u32>, way: Way) -> Result<(), AllocError>
        requires ahead { is_ahead source (self.old.graph.count - 1) target ≡ true }
        requires in_order { All (λ e. e.source ≤ source) self.old.graph.edges }
        ensures graph { OnOk result (self.new.graph ≡ record self.old.graph {
          edges = self.old.graph.edges ++ edge_to source target;
        }) }
        ensures ways { OnOk result (self.new.ways.items
            ≡ self.old.ways.items ++ way_to way target) }
        ensures in_order { OnOk result (All (λ e. e.source ≤ source) self.new.graph.edges) }
    {
        if let Some(target) = target {
            self.graph.link(source, target as usize)?;
            self.ways.push(way)?;
        }
        Ok(())
    }
}
