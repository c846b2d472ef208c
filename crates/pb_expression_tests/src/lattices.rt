// Kinds as a lattice: the lowest kind, joins, the order, and code over any lattice; least solutions
// on graphs, over kinds and over numbers that stand in a list.
ghost use Rattle.std.specs.Prelude.{◌≡◌, ◌≤◌, ◌<◌, ◌+◌, ℕ, IfOk, IfSome, length, min, slice_index};
ghost use Rattle.std.specs.Option.{option_map_or};
ghost use Rattle.pb_lattice.specs.Words.{Extends, IsWell};

use pb_kind::Kind;
use pb_lattice::{FlowGraph, Lattice, Transfer, solve};
use std::alloc::{AllocError, Global};
use std::collections::BTreeSet;
use std::sync::Arc;
use std::test::Fail;

fn one_host(alloc: Global, name: &str) -> Result<Kind, Fail>
    ensures { IfOk result IsWell }
{
    let mut names = BTreeSet::new(alloc);
    names.insert(String::from_str(alloc, name)?)?;
    Ok(Kind::Host(Arc::new(alloc, names)?))
}

fn two_hosts(alloc: Global, name: &str, other: &str) -> Result<Kind, Fail>
    ensures { IfOk result IsWell }
{
    let mut names = BTreeSet::new(alloc);
    names.insert(String::from_str(alloc, name)?)?;
    names.insert(String::from_str(alloc, other)?)?;
    Ok(Kind::Host(Arc::new(alloc, names)?))
}

fn texts(alloc: Global, most: usize) -> Result<Kind, Fail>
    ensures { IfOk result IsWell }
{
    Ok(Kind::of_item(alloc, Kind::Text, most)?)
}

// Whether the least kind above both is that one.
fn joins_to(alloc: Global, first: &Kind, second: &Kind, expected: &Kind) -> Result<bool, Fail>
    requires first { IsWell first.now }
    requires second { IsWell second.now }
{
    let joined = first.join(alloc, second, &mut ())?;
    Ok(joined.le(expected, &()) && expected.le(&joined, &()))
}

#[test]
fn lowest_kind(rt: HostRuntime) {
    let lowest = Kind::bottom(&());
    assert!(rt;
        lowest.le(&Kind::Null, &()) && lowest.le(&Kind::Any, &()) && lowest.le(&lowest, &())
    );
    assert!(rt; !Kind::Null.le(&lowest, &()) && !Kind::Any.le(&lowest, &()));
}

#[test]
fn order_of_kinds(rt: HostRuntime) -> Result<(), Fail> {
    let web = one_host(rt.alloc(), "web1")?;
    let both = two_hosts(rt.alloc(), "db1", "web1")?;
    assert!(rt; web.le(&both, &()) && both.le(&Kind::Text, &()) && web.le(&Kind::Text, &()));
    assert!(rt; !both.le(&web, &()) && !Kind::Text.le(&both, &()));
    Ok(())
}

#[test]
fn joins_of_kinds(rt: HostRuntime) -> Result<(), Fail> {
    let web = one_host(rt.alloc(), "web1")?;
    let db = one_host(rt.alloc(), "db1")?;
    let both = two_hosts(rt.alloc(), "db1", "web1")?;
    assert!(rt; joins_to(rt.alloc(), &web, &db, &both)?);
    assert!(rt; joins_to(rt.alloc(), &Kind::Text, &web, &Kind::Text)?);
    assert!(rt; joins_to(rt.alloc(), &Kind::Int, &Kind::Bool, &Kind::Any)?);
    Ok(())
}

#[test]
fn joins_of_lists(rt: HostRuntime) -> Result<(), Fail> {
    let few = texts(rt.alloc(), 2)?;
    let more = texts(rt.alloc(), 5)?;
    assert!(rt; joins_to(rt.alloc(), &few, &more, &more)?);
    assert!(rt; joins_to(rt.alloc(), &more, &few, &more)?);
    Ok(())
}

// The join of both onto the lowest value, in whatever lattice.
fn joined_anew<L: Lattice + Drop>(
    alloc: Global,
    first: &L,
    second: &L,
    space: &mut L::Space,
) -> Result<L, AllocError>
    requires first { L.stands space.old first.now }
    requires second { L.stands space.old second.now }
    ensures kept { Extends L.stands L.meaning space.old space.new }
    ensures above { IfOk result (λ j.
        L.below (L.meaning space.old first.now) (L.meaning space.new j)
        × L.below (L.meaning space.old second.now) (L.meaning space.new j)) }
{
    L::stands_well();
    L::below_through();
    let alone = L::bottom(space).join(alloc, first, space)?;
    let both = alone.join(alloc, second, space)?;
    Ok(both)
}

// In whatever lattice, a join of a value with itself comes to the same as the value.
fn joined_twice<L: Lattice + Drop>(
    alloc: Global,
    value: &L,
    space: &mut L::Space,
) -> Result<L, AllocError>
    requires { L.stands space.old value.now }
    ensures { IfOk result (λ j. L.same (L.meaning space.new j) (L.meaning space.old value.now)) }
{
    L::stands_well();
    L::below_itself();
    L::same_both_ways();
    let both = value.join(alloc, value, space)?;
    Ok(both)
}

#[test]
fn over_any_lattice(rt: HostRuntime) -> Result<(), Fail> {
    let joined = joined_anew(rt.alloc(), &Kind::Null, &Kind::Null, &mut ())?;
    assert!(rt; joined.le(&Kind::Null, &()) && !joined.le(&Kind::bottom(&()), &()));
    let again = joined_twice(rt.alloc(), &Kind::Int, &mut ())?;
    assert!(rt; again.le(&Kind::Int, &()) && Kind::Int.le(&again, &()));
    Ok(())
}

// Hands kinds on, each joined with itself, along whatever edge.
#[derive(Drop)]
struct Onward {}

impl Transfer<Kind> for Onward {
    ghost edges = { λ _. 1000 };

    ghost step = { λ _ _. tt };

    fn along(
        &self,
        alloc: Global,
        _edge: usize,
        at: &Kind,
        space: &mut (),
    ) -> Result<Kind, AllocError> {
        Kind::below_itself();
        at.join(alloc, at, space)
    }

    fn goes_up() {}

    fn stays_well() {}
}

#[test]
fn one_node(rt: HostRuntime) -> Result<(), Fail> {
    let graph = FlowGraph::new(rt.alloc(), 1);
    let values = solve(rt.alloc(), &graph, &Onward {}, Kind::Int, &mut ())?;
    assert!(rt; values.len() == 1);
    assert!(rt; values[0].le(&Kind::Int, &()) && Kind::Int.le(&values[0], &()));
    Ok(())
}

// A number: that at a place of a list, or 0.
#[derive(Drop)]
struct Written {
    place: Option<usize>,
}

impl Written {
    fn number(&self, list: &Vec<u32>) -> u32
        requires { IfSome self.now.place (λ i. i < length list.now.items) }
        ensures { result ≡ option_map_or (slice_index list.now.items) self.now.place 0 }
    {
        match self.place {
            Some(place) => list[place],
            None => 0,
        }
    }
}

fn put_down(list: &mut Vec<u32>, number: u32) -> Result<Written, AllocError>
    ensures grown { (n : ℕ) → n < length list.old.items → (n < length list.new.items)
        × (slice_index list.new.items n ≡ slice_index list.old.items n) }
    ensures stands { IfOk result (λ v. IfSome v.place (λ i. i < length list.new.items)) }
    ensures number { IfOk result (λ v.
        option_map_or (slice_index list.new.items) v.place 0 ≡ number) }
{
    let place = list.len();
    list.push(number)?;
    Ok(Written { place: Some(place) })
}

// Numbers in their order; a step adds to a number, up to 1000.
impl Lattice for Written {
    type Space = Vec<u32>;

    type Step = u32;

    ghost Meaning = { ℕ };

    ghost meaning = { λ list v. option_map_or (slice_index list.items) v.place 0 };

    ghost stands = { λ list v. IfSome v.place (λ i. i < length list.items) };

    ghost well = { λ _. Unit {0} };

    ghost below = { λ a b. a ≤ b };

    ghost same = { λ a b. a ≡ b };

    ghost carried = { λ more a. min (a + more) 1000 };

    fn bottom(_space: &Vec<u32>) -> Written {
        Written { place: None }
    }

    fn join(
        &self,
        _alloc: Global,
        other: &Written,
        space: &mut Vec<u32>,
    ) -> Result<Written, AllocError> {
        let number = self.number(space).max(other.number(space));
        put_down(space, number)
    }

    fn le(&self, other: &Written, space: &Vec<u32>) -> bool {
        self.number(space) <= other.number(space)
    }

    fn stands_well() {}

    fn below_itself() {}

    fn below_through() {}

    fn same_both_ways() {}
}

// What each edge adds.
#[derive(Drop)]
struct Additions {
    numbers: Vec<u32>,
}

impl Transfer<Written> for Additions {
    ghost edges = { λ t. length t.numbers.items };

    ghost step = { λ t e. slice_index t.numbers.items e };

    fn along(
        &self,
        _alloc: Global,
        edge: usize,
        at: &Written,
        space: &mut Vec<u32>,
    ) -> Result<Written, AllocError> {
        let number = at
            .number(space)
            .saturating_add(self.numbers[edge])
            .min(1000);
        put_down(space, number)
    }

    fn goes_up() {}

    fn stays_well() {}
}

// Four nodes with two ways from the first to the last, and a node to which no edge leads.
fn diamond(alloc: Global) -> Result<FlowGraph, AllocError>
    ensures { IfOk result (λ g. length g.edges ≡ 4) }
{
    let mut graph = FlowGraph::new(alloc, 5);
    graph.link(0, 1)?;
    graph.link(0, 2)?;
    graph.link(1, 3)?;
    graph.link(2, 3)?;
    Ok(graph)
}

// By node 1 it is 3 + 5 + 1, and by node 2 it is 3 + 2 + 10.
#[test]
fn greatest_sums(rt: HostRuntime) -> Result<(), Fail> {
    let graph = diamond(rt.alloc())?;
    let additions = Additions {
        numbers: vec![in rt.alloc(); 5, 2, 1, 10]?,
    };
    let mut list = Vec::new(rt.alloc());
    let entry = put_down(&mut list, 3)?;
    let values = solve(rt.alloc(), &graph, &additions, entry, &mut list)?;
    assert!(rt; values.len() == 5);
    assert!(rt; values[0].number(&list) == 3);
    assert!(rt; values[1].number(&list) == 8 && values[2].number(&list) == 5);
    assert!(rt; values[3].number(&list) == 15 && values[4].number(&list) == 0);
    Ok(())
}
