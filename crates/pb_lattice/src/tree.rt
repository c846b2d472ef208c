// Trees of what is known of names, in one table: a copy of a tree is a number, and a tree with one
// name changed shares all that is beside the path to the name.
ghost use Rattle.std.specs.Prelude.{◌≡◌, ◌&&◌, ◌<◌, ◌||◌, List, false, length, not, true, IfOk};
ghost use Rattle.std.specs.Prelude.{IsTrue};
ghost use Rattle.pb_semantics.specs.Words.{below as below_of, is_among, join as join_of, slot_at};
ghost use Rattle.pb_semantics.specs.Well.{Well};
ghost use Rattle.pb_kind.specs.Words.{is_always, kind_view, spot_view};
ghost use Rattle.pb_language.specs.Judgement.{live};
ghost use Rattle.pb_language.specs.Expression.{Name};
ghost use Rattle.pb_lattice.specs.Lost.{is_surely, lost_marks};
ghost use Rattle.pb_lattice.specs.Trees.{IsAscending, WellTree, are_alike, bare, fits, slots_over};
ghost use Rattle.pb_lattice.specs.Trees.{tree_below};
ghost use Rattle.pb_lattice.specs.Arena.{IsGrown, IsMade, IsNew, are_made_below, are_parts_below};
ghost use Rattle.pb_lattice.specs.Arena.{IsJoined, IsMeeting, IsPut, IsSplit, MayJoin, names_of};
ghost use Rattle.pb_lattice.specs.Arena.{part_view, tree_at};

use pb_kind::below::below;
use pb_kind::join::join;
use pb_kind::{Kind, Slot};
use std::alloc::{AllocError, Global};
use std::marker::Model;

// One level of a tree: what is below it has a smaller place.
#[derive(Drop)]
pub(crate) enum Part {
    Bare,
    Known(Slot<Kind>),
    Fork(u32, u32),
}

// A level, and the two trees that it was made as the join of.
#[derive(Drop)]
pub(crate) struct Node {
    part: Part,
    of: Option<(u32, u32)>,
}

// The table. At its first place stands the tree of which nothing is known.
#[derive(Drop)]
pub(crate) struct Nodes {
    nodes: Vec<Node>,
}

// What two trees join to.
enum Meeting {
    First,
    Known(Slot<Kind>),
    Forks((u32, u32), (u32, u32)),
}

impl Model for Nodes {
    ghost use Rattle.std.specs.Prelude.{List};
    ghost use Rattle.std.specs.Coded.{codes};
    ghost use Rattle.pb_kind.specs.contracts.kind.Kind as kind;
    ghost use Rattle.pb_lattice.specs.declared.tree.Node.{Node};

    ghost Value = { List Node };

    ghost coded = { Prim.hlevel (codes, kind.the_row.coded) };

    ghost use Rattle.pb_lattice.specs.Arena.{IsTable};

    ghost view = { λ t. t.nodes.items };

    ghost invariant = { λ t. IsTable t.nodes.items };
}

impl Nodes {
    // A table with the tree of which nothing is known.
    pub(crate) fn new(alloc: Global) -> Result<Nodes, AllocError>
        ensures first { IfOk result (λ t. IsNew bare t 0) }
        ensures lone { IfOk result (λ t. length t ≡ 1) }
    {
        let mut nodes = Vec::new(alloc);
        let first = Node {
            part: Part::Bare,
            of: None,
        };
        nodes.push(first)?;
        Ok(Nodes { nodes })
    }

    // The place of the tree of which nothing is known.
    pub(crate) fn bare(&self) -> u32
        ensures { IsNew bare self.now result }
    {
        let _nodes = &self.nodes;
        0
    }

    // One level of the tree at the place.
    fn part(&self, place: u32) -> &Part
        requires { place < length self.now }
        ensures means { tree_at self.now place ≡ part_view (tree_at self.now) result.now }
        ensures below { are_parts_below place result.now ≡ true }
        ensures well { WellTree (tree_at self.now place) }
    {
        let node = &self.nodes[place as usize];
        &node.part
    }

    // The trees over the first half of the names and over the rest.
    fn halves(&self, place: u32) -> (u32, u32)
        requires { place < length self.now }
        ensures left { result.0 < length self.now }
        ensures right { result.1 < length self.now }
        ensures well { WellTree (tree_at self.now result.0) × WellTree (tree_at self.now result.1) }
        ensures split { IsSplit (tree_at self.now place) (tree_at self.now result.0)
            (tree_at self.now result.1) }
    {
        match self.part(place) {
            Part::Fork(left, right) => (*left, *right),
            _ => (place, place),
        }
    }

    // Whether it is seen at once that the first tree is below the second: both are one, or the
    // second was made as the join of the first and a third.
    fn is_at_once_below(&self, low: u32, high: u32) -> bool
        requires low { low < length self.now }
        requires high { high < length self.now }
        ensures below { IsTrue result
            → tree_below (tree_at self.now low) (tree_at self.now high) ≡ true }
        ensures well { WellTree (tree_at self.now low) × WellTree (tree_at self.now high) }
    {
        let node = &self.nodes[high as usize];
        match node.of {
            _ if low == high => true,
            Some((first, second)) => first == low || second == low,
            None => false,
        }
    }

    // A new tree, whose parts are in the table already, as those that it was made of are.
    pub(crate) fn add(&mut self, part: Part, of: Option<(u32, u32)>) -> Result<u32, AllocError>
        requires parts { are_parts_below (length self.old) part ≡ true }
        requires before { are_made_below (length self.old) of ≡ true }
        requires well { WellTree (part_view (tree_at self.old) part) }
        requires made { IsMade (tree_at self.old) (part_view (tree_at self.old) part) of }
        ensures grown { IsGrown self.old self.new }
        ensures new { IfOk result (λ i. IsNew (part_view (tree_at self.old) part) self.new i) }
    {
        let Ok(place) = u32::try_from(self.nodes.len()) else {
            return Err(AllocError);
        };
        self.nodes.reserve(1)?;
        self.nodes.push_reserved(Node { part, of });
        Ok(place)
    }
}

// Whether the first tree is below the second.
pub(crate) fn is_below(nodes: &Nodes, first: u32, second: u32) -> bool
    requires first { first < length nodes.now }
    requires second { second < length nodes.now }
    ensures { result ≡ tree_below (tree_at nodes.now first) (tree_at nodes.now second) }
{
    if nodes.is_at_once_below(first, second) {
        return true;
    }
    match (nodes.part(first), nodes.part(second)) {
        (Part::Bare, Part::Bare) => true,
        (Part::Bare, Part::Known(high)) => !high.presence.is_always(),
        (Part::Bare, Part::Fork(left, right)) => {
            is_below(nodes, first, *left) && is_below(nodes, first, *right)
        }
        (Part::Known(low), Part::Known(high)) => is_slot_below(low, high),
        (Part::Fork(left, right), Part::Bare) => {
            is_below(nodes, *left, second) && is_below(nodes, *right, second)
        }
        (Part::Fork(left, right), Part::Fork(high_left, high_right)) => {
            is_below(nodes, *left, *high_left) && is_below(nodes, *right, *high_right)
        }
        _ => false,
    }
}

fn is_slot_below(low: &Slot<Kind>, high: &Slot<Kind>) -> bool
    ensures { result ≡ ((is_always low.now.presence || not (is_always high.now.presence))
        && below_of (kind_view low.now.kind) (kind_view high.now.kind)) }
{
    (low.presence.is_always() || !high.presence.is_always()) && below(&low.kind, &high.kind)
}

// A least tree above both.
#[cycle(join)]
pub(crate) fn join_trees(
    alloc: Global,
    nodes: &mut Nodes,
    first: u32,
    second: u32,
) -> Result<u32, AllocError>
    requires first { first < length nodes.old }
    requires second { second < length nodes.old }
    requires alike { are_alike (tree_at nodes.old first) (tree_at nodes.old second) ≡ true }
    ensures grown { IsGrown nodes.old nodes.new }
    ensures joined { IfOk result (λ i. IsJoined (tree_at nodes.old first)
        (tree_at nodes.old second) nodes.new i) }
{
    if nodes.is_at_once_below(first, second) {
        return Ok(second);
    }
    if nodes.is_at_once_below(second, first) {
        return Ok(first);
    }
    match meeting_of(alloc, nodes, first, second)? {
        Meeting::First => Ok(first),
        Meeting::Known(slot) => nodes.add(Part::Known(slot), Some((first, second))),
        Meeting::Forks(left, right) => {
            let (left, right) = join_halves(alloc, nodes, left, right)?;
            nodes.add(Part::Fork(left, right), Some((first, second)))
        }
    }
}

#[cycle(join)]
fn join_halves(
    alloc: Global,
    nodes: &mut Nodes,
    left: (u32, u32),
    right: (u32, u32),
) -> Result<(u32, u32), AllocError>
    requires left { MayJoin nodes.old left }
    requires right { MayJoin nodes.old right }
    ensures grown { IsGrown nodes.old nodes.new }
    ensures left { IfOk result (λ p. IsJoined (tree_at nodes.old left.0)
        (tree_at nodes.old left.1) nodes.new p.0) }
    ensures right { IfOk result (λ p. IsJoined (tree_at nodes.old right.0)
        (tree_at nodes.old right.1) nodes.new p.1) }
{
    let joined_left = join_trees(alloc, nodes, left.0, left.1)?;
    let joined_right = join_trees(alloc, nodes, right.0, right.1)?;
    Ok((joined_left, joined_right))
}

// One level of two trees over the same names.
fn meeting_of(alloc: Global, nodes: &Nodes, first: u32, second: u32) -> Result<Meeting, AllocError>
    requires first { first < length nodes.now }
    requires second { second < length nodes.now }
    requires alike { are_alike (tree_at nodes.now first) (tree_at nodes.now second) ≡ true }
    ensures { IfOk result (λ m. IsMeeting (tree_at nodes.now) first second m) }
{
    match (nodes.part(first), nodes.part(second)) {
        (Part::Bare, Part::Known(slot)) => Ok(Meeting::Known(maybe(slot)?)),
        (Part::Known(slot), Part::Bare) => Ok(Meeting::Known(maybe(slot)?)),
        (Part::Known(slot), Part::Known(other)) => {
            Ok(Meeting::Known(join_slots(alloc, slot, other)?))
        }
        (Part::Bare, Part::Fork(left, right)) => {
            Ok(Meeting::Forks((first, *left), (first, *right)))
        }
        (Part::Fork(left, right), Part::Bare) => {
            Ok(Meeting::Forks((*left, second), (*right, second)))
        }
        (Part::Fork(left, right), Part::Fork(other_left, other_right)) => {
            Ok(Meeting::Forks((*left, *other_left), (*right, *other_right)))
        }
        _ => Ok(Meeting::First),
    }
}

fn maybe(slot: &Slot<Kind>) -> Result<Slot<Kind>, AllocError>
    ensures presence { IfOk result (λ s. is_always s.presence ≡ false) }
    ensures kind { IfOk result (λ s. kind_view s.kind ≡ kind_view slot.now.kind) }
{
    Ok(Slot::maybe(slot.kind.clone()?))
}

fn join_slots(
    alloc: Global,
    slot: &Slot<Kind>,
    other: &Slot<Kind>,
) -> Result<Slot<Kind>, AllocError>
    ensures presence { IfOk result (λ s. is_always s.presence
        ≡ (is_always slot.now.presence && is_always other.now.presence)) }
    ensures kind { IfOk result (λ s. kind_view s.kind
        ≡ join_of (kind_view slot.now.kind) (kind_view other.now.kind)) }
{
    let kind = join(alloc, &slot.kind, &other.kind)?;
    if slot.presence.is_always() && other.presence.is_always() {
        Ok(Slot::always(kind))
    } else {
        Ok(Slot::maybe(kind))
    }
}

// What the tree over the names says of one of them.
pub(crate) fn find<'n>(
    nodes: &'n Nodes,
    place: u32,
    names: &[String],
    name: &str,
) -> Option<&'n Slot<Kind>>
    requires place { place < length nodes.now }
    requires ascending { IsAscending (names_of names.now) }
    requires fits { fits (tree_at nodes.now place) (names_of names.now) ≡ true }
    ensures { spot_view result
        ≡ slot_at name.now (slots_over (tree_at nodes.now place) (names_of names.now)) }
{
    match nodes.part(place) {
        Part::Bare => None,
        Part::Known(slot) => {
            if name == names[0].as_str() {
                Some(slot)
            } else {
                None
            }
        }
        Part::Fork(left, right) => {
            let half = names.len() / 2;
            if name < names[half].as_str() {
                find(nodes, *left, &names[..half], name)
            } else {
                find(nodes, *right, &names[half..], name)
            }
        }
    }
}

// Whether it is one of the names.
pub(crate) fn has(names: &[String], name: &str) -> bool
    requires ascending { IsAscending (names_of names.now) }
    ensures { result ≡ is_among name.now (names_of names.now) }
{
    if names.len() <= 1 {
        return names.len() == 1 && name == names[0].as_str();
    }
    let half = names.len() / 2;
    if name < names[half].as_str() {
        has(&names[..half], name)
    } else {
        has(&names[half..], name)
    }
}

// The tree over the names with that slot under one of them.
pub(crate) fn put(
    nodes: &mut Nodes,
    place: u32,
    names: &[String],
    name: &str,
    slot: Slot<Kind>,
) -> Result<u32, AllocError>
    requires place { place < length nodes.old }
    requires ascending { IsAscending (names_of names.now) }
    requires fits { fits (tree_at nodes.old place) (names_of names.now) ≡ true }
    requires among { is_among name.now (names_of names.now) ≡ true }
    requires well { Well (kind_view slot.kind) }
    ensures grown { IsGrown nodes.old nodes.new }
    ensures put { IfOk result (λ i. IsPut (tree_at nodes.old place) (names_of names.now) name.now
        (is_always slot.presence) (kind_view slot.kind) nodes.new i) }
{
    if names.len() <= 1 {
        return nodes.add(Part::Known(slot), None);
    }
    let half = names.len() / 2;
    let (left, right) = nodes.halves(place);
    if name < names[half].as_str() {
        let left = put(nodes, left, &names[..half], name, slot)?;
        nodes.add(Part::Fork(left, right), None)
    } else {
        let right = put(nodes, right, &names[half..], name, slot)?;
        nodes.add(Part::Fork(left, right), None)
    }
}

// Marks each name that is certainly there in the first tree and not in the second. The marks stand
// beside the names that the trees are over.
pub(crate) fn mark_lost(nodes: &Nodes, before: u32, after: u32, mark: u32, marks: &mut [u32])
    requires before { before < length nodes.now }
    requires after { after < length nodes.now }
    ensures { (ns : List Name) → IsAscending ns → length ns ≡ length marks.old
        → fits (tree_at nodes.now before) ns ≡ true → fits (tree_at nodes.now after) ns ≡ true
        → marks.new ≡ lost_marks mark (live (slots_over (tree_at nodes.now before) ns))
        (live (slots_over (tree_at nodes.now after) ns)) ns marks.old }
{
    if before == after {
        return;
    }
    match nodes.part(before) {
        Part::Bare => {}
        Part::Known(slot) => {
            if slot.presence.is_always() && !is_certain(nodes, after) {
                if let Some(first) = marks.first_mut() {
                    *first = mark;
                }
            }
        }
        Part::Fork(left, right) => {
            let (first, rest) = nodes.halves(after);
            let half = marks.len() / 2;
            let (low, high) = marks.split_at_mut(half);
            mark_lost(nodes, *left, first, mark, low);
            mark_lost(nodes, *right, rest, mark, high);
        }
    }
}

// Whether the tree is that of one name that is certainly there.
fn is_certain(nodes: &Nodes, place: u32) -> bool
    requires { place < length nodes.now }
    ensures { result ≡ is_surely (tree_at nodes.now place) }
{
    match nodes.part(place) {
        Part::Known(slot) => slot.presence.is_always(),
        _ => false,
    }
}
