// Orders of a graph whose nodes are numbered: each node before its children.
ghost use Rattle.pb_inventory.specs.Graph.{HasCycle, IsGraph, IsOrder};
ghost use Rattle.pb_inventory.specs.Orders.{IsQueue, times};
ghost use Rattle.std.specs.List.{sum_by};
ghost use Rattle.std.specs.Prelude.{◌≡◌, ℕ, ◌+◌, ◌-◌, ◌^◌, ◌<◌, ◌≤◌, ◌≢◌, EachIndex, IfOk};
ghost use Rattle.std.specs.Prelude.{MatchBool, MatchOption, OnOk, length, map, slice_index};
ghost use Rattle.std.specs.Prelude.{slice_set, take, vec_len};

use std::alloc::{AllocError, Global};

// Each node before its children, or none where some node is its own descendant.
pub(crate) fn parents_first(
    alloc: Global,
    children: &[Vec<usize>],
) -> Result<Option<Vec<usize>>, AllocError>
    requires graph { IsGraph (map (λ v. v.items) children.now) }
    ensures order { IfOk result (λ o. MatchOption o (HasCycle (map (λ v. v.items) children.now))
        (λ v. IsOrder (map (λ v. v.items) children.now) v.items)) }
{
    let mut counts = count_parents(alloc, children)?;
    let mut order = nodes_at_zero(alloc, counts.as_slice())?;
    let mut taken = 0;
    while taken < order.len() {
        let node = order[taken];
        lower_counts(counts.as_mut_slice(), &mut order, children[node].as_slice())?;
        taken += 1;
    }
    if is_all_zero(counts.as_slice()) {
        Ok(Some(order))
    } else {
        Ok(None)
    }
}

// How often each node stands among all children. No number of edges is past a `u128`.
fn count_parents(alloc: Global, children: &[Vec<usize>]) -> Result<Vec<u128>, AllocError>
    requires graph { IsGraph (map (λ v. v.items) children.now) }
    ensures len { IfOk result (λ counts. vec_len counts ≡ length children.now) }
    ensures counted { IfOk result (λ counts. (c : ℕ) → c < length children.now
        → slice_index counts.items c ≡ sum_by (times c) (map (λ v. v.items) children.now)) }
{
    let mut counts = vec![in alloc; 0u128; children.len()]?;
    for list in children {
        raise_counts(counts.as_mut_slice(), list.as_slice());
    }
    Ok(counts)
}

// One more for each child.
fn raise_counts(counts: &mut [u128], children: &[usize])
    requires nodes { EachIndex children.now (λ k. slice_index children.now k < length counts.old) }
    requires room { (c : ℕ) → slice_index counts.old c + length children.now < 2 ^ 128 }
    ensures raised { (c : ℕ) → c < length counts.old
        → slice_index counts.new c ≡ slice_index counts.old c + times c children.now }
{
    for child in children {
        counts[*child] += 1;
    }
}

// The nodes whose count is 0.
fn nodes_at_zero(alloc: Global, counts: &[u128]) -> Result<Vec<usize>, AllocError>
    ensures queue { IfOk result (λ queue. IsQueue counts.now queue.items) }
{
    let mut queue = Vec::new(alloc);
    for (node, count) in counts.iter().enumerate() {
        if *count == 0 {
            queue.push(node)?;
        }
    }
    Ok(queue)
}

fn is_all_zero(counts: &[u128]) -> bool
    ensures { MatchBool result (EachIndex counts.now (λ c. slice_index counts.now c ≡ 0))
        ((c : ℕ) × (c < length counts.now) × (slice_index counts.now c ≢ 0)) }
{
    counts.iter().all(|count| *count == 0)
}

// One less for each child; those that reach 0 join the queue.
fn lower_counts(
    counts: &mut [u128],
    queue: &mut Vec<usize>,
    children: &[usize],
) -> Result<(), AllocError>
    requires nodes { EachIndex children.now (λ k. slice_index children.now k < length counts.old) }
    requires enough { (c : ℕ) → c < length counts.old
        → times c children.now ≤ slice_index counts.old c }
    requires queue { IsQueue counts.old queue.old.items }
    ensures lowered { OnOk result ((c : ℕ) → c < length counts.old
        → slice_index counts.new c + times c children.now ≡ slice_index counts.old c) }
    ensures queue { OnOk result (IsQueue counts.new queue.new.items) }
    ensures kept { OnOk result (take (vec_len queue.old) queue.new.items ≡ queue.old.items) }
{
    for child in children {
        lower_count(counts, queue, *child)?;
    }
    Ok(())
}

// One less for a node, which joins the queue where it reaches 0.
fn lower_count(counts: &mut [u128], queue: &mut Vec<usize>, node: usize) -> Result<(), AllocError>
    requires node { node < length counts.old }
    requires positive { 0 < slice_index counts.old node }
    requires queue { IsQueue counts.old queue.old.items }
    ensures lowered { counts.new ≡ slice_set counts.old node (slice_index counts.old node - 1) }
    ensures queue { OnOk result (IsQueue counts.new queue.new.items) }
    ensures kept { OnOk result (take (vec_len queue.old) queue.new.items ≡ queue.old.items) }
{
    counts[node] -= 1;
    if counts[node] == 0 {
        queue.push(node)?;
    }
    Ok(())
}
