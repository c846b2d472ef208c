// A tree that is built of all slots at once: a node for each of them, and one for each fork above.
ghost use Rattle.std.specs.Prelude.{◌≡◌, ◌≤◌, IfOk, length};
ghost use Rattle.pb_semantics.specs.Well.{WellSlots};
ghost use Rattle.pb_kind.specs.Words.{is_always, kind_view, slots_view};
ghost use Rattle.pb_lattice.specs.Arena.{IsGrown, names_of};
ghost use Rattle.pb_lattice.specs.Bulk.{IsBuilt, pairs_view};
ghost use Rattle.pb_lattice.specs.Trees.{known, slots_over};

use crate::tree::{Nodes, Part};
use pb_kind::{Kind, Slot, Slots};
use std::alloc::{AllocError, Global};

// The tree over the names in which those slots are known, and nothing else; want of memory also
// where a slot's name is none of them.
pub(crate) fn tree_of(
    alloc: Global,
    nodes: &mut Nodes,
    names: &[String],
    slots: &Slots,
) -> Result<u32, AllocError>
    requires { WellSlots (slots_view slots.now.entries) }
    ensures grown { IsGrown nodes.old nodes.new }
    ensures built { IfOk result (λ i. IsBuilt (names_of names.now) (slots_view slots.now.entries)
        nodes.new i) }
{
    let pairs = pairs_of(alloc, slots)?;
    build(nodes, names, &pairs)
}

// The names and the slots, in their order.
fn pairs_of<'s>(
    alloc: Global,
    slots: &'s Slots,
) -> Result<Vec<(&'s String, &'s Slot<Kind>)>, AllocError>
    ensures { IfOk result (λ ps. pairs_view ps.items ≡ slots_view slots.now.entries) }
{
    let mut pairs = Vec::with_capacity(alloc, slots.len())?;
    for (name, slot) in slots.iter() {
        pairs.push((name, slot))?;
    }
    Ok(pairs)
}

// The tree over the names in which just those slots are known. A slot that goes to the wrong half
// finds no name there.
fn build(
    nodes: &mut Nodes,
    names: &[String],
    pairs: &[(&String, &Slot<Kind>)],
) -> Result<u32, AllocError>
    requires { WellSlots (pairs_view pairs.now) }
    ensures grown { IsGrown nodes.old nodes.new }
    ensures built { IfOk result (λ i. IsBuilt (names_of names.now) (pairs_view pairs.now)
        nodes.new i) }
{
    if pairs.is_empty() {
        return Ok(nodes.bare());
    }
    if names.len() <= 1 {
        let slot = only_slot(names, pairs)?;
        return nodes.add(Part::Known(slot), None);
    }
    let half = names.len() / 2;
    let split = first_from(pairs, names[half].as_str());
    let left = build(nodes, &names[..half], &pairs[..split])?;
    let right = build(nodes, &names[half..], &pairs[split..])?;
    nodes.add(Part::Fork(left, right), None)
}

// How many of them stand before the name.
fn first_from(pairs: &[(&String, &Slot<Kind>)], name: &str) -> usize
    ensures { result ≤ length pairs.now }
{
    pairs.partition_point(|pair| pair.0.as_str() < name)
}

// A copy of the only slot, where it stands under the only name; want of memory where not.
fn only_slot(names: &[String], pairs: &[(&String, &Slot<Kind>)]) -> Result<Slot<Kind>, AllocError>
    ensures one { IfOk result (λ s. length (names_of names.now) ≡ 1) }
    ensures slots { IfOk result (λ s. slots_over (known (is_always s.presence) (kind_view s.kind))
        (names_of names.now) ≡ pairs_view pairs.now) }
{
    if names.len() != 1 || pairs.len() != 1 {
        return Err(AllocError);
    }
    let (name, slot) = pairs[0];
    if name.as_str() != names[0].as_str() {
        return Err(AllocError);
    }
    Ok(Slot {
        presence: slot.presence,
        kind: slot.kind.clone()?,
    })
}
