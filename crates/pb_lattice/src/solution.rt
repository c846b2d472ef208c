// Least solutions on a graph.
ghost use Rattle.std.specs.Prelude.{◌≡◌, ◌≤◌, ◌<◌, ℕ, All, IfOk, length};
ghost use Rattle.std.specs.Prelude.{slice_index_or, vec_len};
ghost use Rattle.pb_lattice.specs.Solution.{Covers};
ghost use Rattle.pb_lattice.specs.Space.{Extends};

use crate::graph::FlowGraph;
use crate::lattice::Lattice;
use crate::transfer::Transfer;
use std::alloc::{AllocError, Global};

/// The least values that cover the entry at node 0 and every edge, a value for each node.
///
/// # Errors
///
/// Want of memory.
pub fn solve<L: Lattice + Drop, T: Transfer<L>>(
    alloc: Global,
    graph: &FlowGraph,
    transfer: &T,
    entry: L,
    space: &mut L::Space,
) -> Result<Vec<L>, AllocError>
    requires entry { L.stands space.old entry }
    requires edges { length graph.now.edges ≤ T.edges transfer.now }
    ensures kept { Extends L.stands L.meaning space.old space.new }
    ensures number { IfOk result (λ vs. vec_len vs ≡ graph.now.count) }
    ensures stands { IfOk result (λ vs. All (L.stands space.new) vs.items) }
    ensures covers { IfOk result (λ vs. Covers L.well L.below
        (λ e. L.carried (T.step transfer.now e)) graph.now (L.meaning space.old entry)
        (λ n. L.meaning space.new (slice_index_or vs.items n entry))) }
    ensures least { IfOk result (λ vs. (w : ℕ → L.Meaning) → Covers L.well L.below
        (λ e. L.carried (T.step transfer.now e)) graph.now (L.meaning space.old entry) w
        → (n : ℕ) → n < graph.now.count
        → L.below (L.meaning space.new (slice_index_or vs.items n entry)) (w n)) }
{
    L::stands_well();
    L::below_itself();
    L::below_through();
    T::goes_up();
    T::stays_well();
    let mut values = start(alloc, graph.count(), entry, space)?;
    let edges = graph.edges();
    for i in 0..edges.len() {
        let edge = edges[i];
        let given = transfer.along(alloc, i, &values[edge.source], space)?;
        let joined = values[edge.target].join(alloc, &given, space)?;
        values[edge.target] = joined;
    }
    Ok(values)
}

// The entry at node 0, and the lowest value at each other node.
fn start<L: Lattice + Drop>(
    alloc: Global,
    count: usize,
    entry: L,
    space: &L::Space,
) -> Result<Vec<L>, AllocError>
    requires some { 1 ≤ count }
    requires entry { L.stands space.now entry }
    ensures number { IfOk result (λ vs. vec_len vs ≡ count) }
    ensures first { IfOk result (λ vs. slice_index_or vs.items 0 entry ≡ entry) }
    ensures stand { IfOk result (λ vs. (n : ℕ) → n < count
        → L.stands space.now (slice_index_or vs.items n entry)) }
    ensures lowest { IfOk result (λ vs. (n : ℕ) → 1 ≤ n → n < count → (m : L.Meaning)
        → L.well m → L.below (L.meaning space.now (slice_index_or vs.items n entry)) m) }
{
    let mut values = Vec::new(alloc);
    values.push(entry)?;
    for _ in 1..count {
        values.push(L::bottom(space))?;
    }
    Ok(values)
}
