// Plays as graphs: where a host goes from each task, and how many steps there are.
use crate::plays::plays_of;
use pb_flow::{Exits, Flow, Graph, MOST_STEPS, Move, Node, Target, Way, steps_of};
use pb_play::Play;
use std::alloc::Global;
use std::test::Fail;

// A block with a `rescue` and an `always`, a task, and two handlers.
const RESCUED: &str = r#"[{"hosts":"all","tasks":[
    {"block":[{"ping":null}],"rescue":[{"ping":null}],"always":[{"ping":null}]},{"ping":null}],
    "handlers":[{"name":"a","ping":null},{"name":"b","ping":null}]}]"#;

const FORCED: &str = r#"[{"hosts":"all","force_handlers":true,"tasks":[{"ping":null}],
    "handlers":[{"name":"a","ping":null}]}]"#;

// A block with a `rescue` and an `always` in the `always` part of a block, and that one in the body
// of a block with a `rescue`.
const HELD: &str = r#"[{"hosts":"all","tasks":[
    {"block":[
        {"block":[{"ping":null}],"always":[
            {"block":[{"ping":null}],"rescue":[{"ping":null}],"always":[{"ping":null}]}]}],
    "rescue":[{"ping":null}]}]}]"#;

// Twelve `always` parts in one another, round two tasks.
const NESTED: &str = r#"[{"hosts":"all","tasks":[
    {"block":[],"always":[{"block":[],"always":[{"block":[],"always":[{"block":[],"always":[
    {"block":[],"always":[{"block":[],"always":[{"block":[],"always":[{"block":[],"always":[
    {"block":[],"always":[{"block":[],"always":[{"block":[],"always":[{"block":[],"always":[
    {"ping":null},{"ping":null}
    ]}]}]}]}]}]}]}]}]}]}]}]}]}]"#;

// The same round three.
const PAST: &str = r#"[{"hosts":"all","tasks":[
    {"block":[],"always":[{"block":[],"always":[{"block":[],"always":[{"block":[],"always":[
    {"block":[],"always":[{"block":[],"always":[{"block":[],"always":[{"block":[],"always":[
    {"block":[],"always":[{"block":[],"always":[{"block":[],"always":[{"block":[],"always":[
    {"ping":null},{"ping":null},{"ping":null}
    ]}]}]}]}]}]}]}]}]}]}]}]}]}]"#;

fn graph_of<'p>(alloc: Global, play: &'p Play) -> Result<Graph<'p>, Fail> {
    if steps_of(play) > MOST_STEPS {
        return Err(Fail::from("too many steps"));
    }
    let graph = Graph::of(alloc, play)?;
    Ok(graph)
}

fn first_of(alloc: Global, text: &str) -> Result<Vec<Play>, Fail> {
    match plays_of(alloc, text) {
        Ok(plays) => Ok(plays),
        Err(_) => Err(Fail::from("no plays")),
    }
}

// Whether a host goes there from the node, and there where its task fails.
fn leads(graph: &Graph, node: usize, ok: Option<u32>, failed: Option<u32>) -> bool {
    graph.exits(node) == Exits { ok, failed }
}

fn stands_at(graph: &Graph, node: usize, line: u32, place: u32) -> bool {
    graph.line_of(node) == Some(line) && graph.place_of(node) == Some(place)
}

fn is_the_end(graph: &Graph, node: usize) -> bool {
    leads(graph, node, None, None) && graph.line_of(node).is_none() && graph.nodes() - 1 == node
}

#[test]
fn ways_through_a_block(rt: HostRuntime) -> Result<(), Fail> {
    let plays = first_of(rt.alloc(), RESCUED)?;
    for play in plays.iter() {
        let graph = graph_of(rt.alloc(), play)?;
        assert!(rt; leads(&graph, 0, Some(1), None) && graph.line_of(0).is_none());
        assert!(rt; leads(&graph, 1, Some(3), Some(2)) && stands_at(&graph, 1, 3, 0));
        assert!(rt; leads(&graph, 2, Some(3), Some(4)) && stands_at(&graph, 2, 4, 1));
        assert!(rt; leads(&graph, 3, Some(5), None) && stands_at(&graph, 3, 5, 2));
        assert!(rt; leads(&graph, 4, None, None) && stands_at(&graph, 4, 5, 2));
        assert!(rt; leads(&graph, 5, Some(6), None) && stands_at(&graph, 5, 6, 3));
    }
    assert!(rt; plays.len() == 1);
    Ok(())
}

#[test]
fn ways_through_a_flush(rt: HostRuntime) -> Result<(), Fail> {
    let plays = first_of(rt.alloc(), RESCUED)?;
    for play in plays.iter() {
        let graph = graph_of(rt.alloc(), play)?;
        assert!(rt; leads(&graph, 6, Some(7), None) && stands_at(&graph, 6, 7, 4));
        assert!(rt; leads(&graph, 7, Some(8), None) && stands_at(&graph, 7, 8, 5));
        assert!(rt; is_the_end(&graph, 8) && steps_of(play) == 7);
    }
    assert!(rt; plays.len() == 1);
    Ok(())
}

#[test]
fn ways_through_a_forced_flush(rt: HostRuntime) -> Result<(), Fail> {
    let plays = first_of(rt.alloc(), FORCED)?;
    for play in plays.iter() {
        let graph = graph_of(rt.alloc(), play)?;
        assert!(rt; leads(&graph, 1, Some(2), Some(3)) && stands_at(&graph, 1, 2, 0));
        assert!(rt; leads(&graph, 2, Some(4), None) && stands_at(&graph, 2, 3, 1));
        assert!(rt; leads(&graph, 3, None, None) && stands_at(&graph, 3, 3, 1));
        assert!(rt; is_the_end(&graph, 4) && steps_of(play) == 3);
    }
    assert!(rt; plays.len() == 1);
    Ok(())
}

fn node_at<'g, 'p>(graph: &'g Graph<'p>, node: usize) -> Option<&'g Node<'p>> {
    graph.tasks.get(node.checked_sub(1)?)
}

fn is_way(target: &Target, moves: &[Move], to: Option<u32>) -> bool {
    target.moves.as_slice() == moves && target.to == to
}

// Whether a host goes there from the node, with those moves on the way, the first one first.
fn goes(graph: &Graph, node: usize, moves: &[Move], to: u32) -> bool {
    match node_at(graph, node) {
        Some(it) => is_way(&it.ok, moves, Some(to)),
        None => false,
    }
}

// Whether it goes there where its task fails, with those moves on the way.
fn fails(graph: &Graph, node: usize, moves: &[Move], to: Option<u32>) -> bool {
    match node_at(graph, node) {
        Some(it) => is_way(&it.failed, moves, to),
        None => false,
    }
}

// The nodes are the inner body, then the block in the `always` part as it runs else, the same as it
// runs after a failure (node 6 on), and the outer `rescue`; of that block they are its body, its
// `rescue`, and its `always` as it runs else and after a failure.
#[test]
fn moves_in_an_always_part(rt: HostRuntime) -> Result<(), Fail> {
    let plays = first_of(rt.alloc(), HELD)?;
    for play in plays.iter() {
        let graph = graph_of(rt.alloc(), play)?;
        assert!(rt; goes(&graph, 1, &[], 2) && fails(&graph, 1, &[Move::Holding(0)], Some(6)));
        assert!(rt; goes(&graph, 2, &[], 4) && fails(&graph, 2, &[Move::Rescuing(0)], Some(3)));
        assert!(rt; goes(&graph, 3, &[], 4) && fails(&graph, 3, &[Move::Holding(0)], Some(5)));
        assert!(rt; goes(&graph, 4, &[], 11) && fails(&graph, 4, &[Move::Rescuing(0)], Some(10)));
        assert!(rt; goes(&graph, 5, &[Move::Releasing(0), Move::Rescuing(0)], 10));
        assert!(rt; fails(&graph, 5, &[Move::Rescuing(0)], Some(10)));
    }
    assert!(rt; plays.len() == 1);
    Ok(())
}

#[test]
fn moves_in_an_always_part_after_a_failure(rt: HostRuntime) -> Result<(), Fail> {
    let plays = first_of(rt.alloc(), HELD)?;
    for play in plays.iter() {
        let graph = graph_of(rt.alloc(), play)?;
        assert!(rt; goes(&graph, 6, &[], 8) && fails(&graph, 6, &[Move::Rescuing(0)], Some(7)));
        assert!(rt; goes(&graph, 7, &[], 8) && fails(&graph, 7, &[Move::Holding(1)], Some(9)));
        assert!(rt; goes(&graph, 8, &[Move::Releasing(0), Move::Rescuing(0)], 10));
        assert!(rt; goes(&graph, 9, &[Move::Releasing(1), Move::Rescuing(0)], 10));
        assert!(rt; fails(&graph, 8, &[Move::Rescuing(0)], Some(10)));
        assert!(rt; fails(&graph, 9, &[Move::Rescuing(0)], Some(10)));
    }
    assert!(rt; plays.len() == 1);
    Ok(())
}

#[test]
fn moves_behind_a_rescue(rt: HostRuntime) -> Result<(), Fail> {
    let plays = first_of(rt.alloc(), HELD)?;
    for play in plays.iter() {
        let graph = graph_of(rt.alloc(), play)?;
        assert!(rt; goes(&graph, 10, &[], 11) && is_the_end(&graph, 11));
        assert!(rt; fails(&graph, 10, &[Move::Holding(0), Move::Releasing(0)], None));
    }
    assert!(rt; plays.len() == 1);
    Ok(())
}

// Whether the edge of that number leads between those nodes, in that way.
fn is_edge(flow: &Flow, index: usize, source: usize, target: usize, way: Way) -> bool {
    match (flow.graph.edges().get(index), flow.ways.get(index)) {
        (Some(edge), Some(it)) => edge.source == source && edge.target == target && *it == way,
        _ => false,
    }
}

#[test]
fn edges_of_a_forced_flush(rt: HostRuntime) -> Result<(), Fail> {
    let plays = first_of(rt.alloc(), FORCED)?;
    for play in plays.iter() {
        let flow = graph_of(rt.alloc(), play)?.flow(rt.alloc())?;
        assert!(rt; is_edge(&flow, 0, 0, 1, Way::Begins));
        assert!(rt; is_edge(&flow, 1, 1, 2, Way::Goes) && is_edge(&flow, 2, 1, 3, Way::Fails));
        assert!(rt; is_edge(&flow, 3, 2, 4, Way::Passes) && is_edge(&flow, 4, 2, 4, Way::Goes));
        assert!(rt; flow.ways.len() == 5);
    }
    assert!(rt; plays.len() == 1);
    Ok(())
}

#[test]
fn most_steps(rt: HostRuntime) -> Result<(), Fail> {
    for play in first_of(rt.alloc(), NESTED)?.iter() {
        assert!(rt; steps_of(play) == 8_192);
        assert!(rt; graph_of(rt.alloc(), play)?.nodes() == 8_194);
    }
    for play in first_of(rt.alloc(), PAST)?.iter() {
        assert!(rt; steps_of(play) == 8_193);
    }
    Ok(())
}
