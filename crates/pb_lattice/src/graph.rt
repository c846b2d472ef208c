// Graphs whose edges lead upwards.
ghost use Rattle.std.specs.Prelude.{◌≡◌, ◌≤◌, ◌<◌, [], ◌∷◌, ◌++◌, All, OnErr, OnOk};
ghost use Rattle.pb_lattice.specs.Graph.{Rises};

use std::alloc::{AllocError, Global};
use std::marker::Model;

/// An edge between two nodes, each by its number.
#[derive(Clone, Copy)]
pub struct Edge {
    pub source: usize,
    pub target: usize,
}

/// A graph whose edges lead from a node to a higher one and stand in the order of their sources.
/// It has one node at least. Contracts see how many nodes there are, and the edges.
#[derive(Drop)]
pub struct FlowGraph {
    count: usize,
    edges: Vec<Edge>,
}

impl Model for FlowGraph {
    ghost use Rattle.pb_lattice.specs.Graph.{Graph, Rises};

    ghost Value = { Graph };

    ghost view = { λ g. record { count = g.count; edges = g.edges.items } };

    ghost invariant = { λ g. Rises (record { count = g.count; edges = g.edges.items }) };
}

impl FlowGraph {
    /// So many nodes, and no edge.
    pub fn new(alloc: Global, count: usize) -> FlowGraph
        requires some { 1 ≤ count }
        ensures { result ≡ record { count = count; edges = [] } }
    {
        FlowGraph {
            count,
            edges: Vec::new(alloc),
        }
    }

    /// Takes in an edge after the others.
    ///
    /// # Errors
    ///
    /// Want of memory; the graph stays as it was.
    pub fn link(&mut self, source: usize, target: usize) -> Result<(), AllocError>
        requires up { source < target }
        requires inside { target < self.old.count }
        requires in_order { All (λ e. e.source ≤ source) self.old.edges }
        ensures ok { OnOk result (self.new ≡ record self.old {
          edges = self.old.edges ++ (record { source = source; target = target }) ∷ [];
        }) }
        ensures err { OnErr result (self.new ≡ self.old) }
    {
        self.edges.push(Edge { source, target })?;
        Ok(())
    }

    /// How many nodes it has.
    pub fn count(&self) -> usize
        ensures count { result ≡ self.now.count }
        ensures some { 1 ≤ result }
    {
        self.count
    }

    /// Its edges, in their order.
    pub fn edges(&self) -> &[Edge]
        ensures edges { result.now ≡ self.now.edges }
        ensures rises { Rises self.now }
    {
        self.edges.as_slice()
    }
}
