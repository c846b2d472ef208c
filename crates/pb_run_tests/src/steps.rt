// The steps of plays: where they stand and lead, what they read and write, and whom they notify.
ghost use Rattle.std.specs.Prelude.{IfOk};
ghost use Rattle.pb_steps.specs.Nodes.{AreNodes};

use pb_flow::{MOST_STEPS, Move, Target, steps_of};
use pb_play::{Play, read_plays};
use pb_route::gathering_task;
use pb_sig::Registry;
use pb_slots::Slots;
use pb_steps::{PlayNodes, PlaySteps, Step};
use pb_task::Task;
use pb_value::read_json;
use std::alloc::Global;
use std::collections::BTreeSet;
use std::test::Fail;

// A task that may be rescued, its `rescue`, a fact, and two handlers; `line` is a name of `vars`.
const RESCUED: &str = r#"[{"hosts":"all","vars":{"line":"echo {{ word }}"},"tasks":[
    {"block":[{"command":{"cmd":"{{ line }}"},"register":"out","notify":["say","ask"]}],
    "rescue":[{"debug":{"msg":"{{ word }}"}}]},
    {"set_fact":{"code":"{{ out.rc }}"},"when":"ready"}],
    "handlers":[{"name":"ask","ping":null},{"name":"say","debug":{"msg":"{{ code }}"}}]}]"#;

const GATHERED: &str = r#"[{"hosts":"all","gather_facts":true,"tasks":[{"ping":null}]}]"#;

fn play_of(alloc: Global, registry: &Registry, text: &str) -> Result<Play, Fail> {
    match read_plays(alloc, registry, &read_json(alloc, text.as_bytes())?) {
        Ok(mut plays) => match plays.pop() {
            Some(play) => Ok(play),
            None => Err("no play")?,
        },
        Err(_) => Err("no plays")?,
    }
}

fn nodes_of<'p>(
    alloc: Global,
    play: &'p Play,
    gathering: Option<&'p Task>,
) -> Result<PlayNodes<'p>, Fail>
    ensures { IfOk result AreNodes }
{
    if steps_of(play) > MOST_STEPS {
        Err("too many steps")?;
    }
    Ok(PlayNodes::of(alloc, play, gathering)?)
}

fn slots_of(alloc: Global, nodes: &PlayNodes<'_>) -> Result<Slots, Fail>
    requires { AreNodes nodes.now }
{
    let mut names = BTreeSet::new(alloc);
    nodes.add_names(alloc, &mut names)?;
    Ok(Slots::of(alloc, &names)?)
}

// The slots of what a play uses, and its steps.
fn planned(
    alloc: Global,
    play: &Play,
    gathering: Option<&Task>,
) -> Result<(Slots, PlaySteps), Fail> {
    let nodes = nodes_of(alloc, play, gathering)?;
    let slots = slots_of(alloc, &nodes)?;
    let steps = PlaySteps::of(alloc, nodes, &slots)?;
    Ok((slots, steps))
}

fn of_rescued(alloc: Global) -> Result<(Slots, PlaySteps), Fail> {
    let registry = Registry::builtin(alloc)?;
    planned(alloc, &play_of(alloc, &registry, RESCUED)?, None)
}

// The step of a node, which are counted from 1 on.
fn step_at(plan: &PlaySteps, node: usize) -> Result<&Step, Fail> {
    match node.checked_sub(1) {
        Some(place) => match plan.steps.get(place) {
            Some(step) => Ok(step),
            None => Err("no step")?,
        },
        None => Err("no step")?,
    }
}

fn stands(step: &Step, line: u32, place: u32, handler: Option<u32>) -> bool {
    step.line == line && step.place == place && step.handler == handler
}

fn is_target(target: &Target, moves: &[Move], to: Option<u32>) -> bool {
    target.moves.as_slice() == moves && target.to == to
}

fn uses(step: &Step, reads: &[usize], writes: &[usize]) -> bool {
    step.reads.as_slice() == reads && step.writes.as_slice() == writes
}

#[test]
fn slots_of_what_is_read_and_written(rt: HostRuntime) -> Result<(), Fail> {
    let (slots, plan) = of_rescued(rt.alloc())?;
    assert!(rt; slots.count() == 4);
    assert!(rt; slots.name(0) == Some("code") && slots.name(1) == Some("out"));
    assert!(rt; slots.name(2) == Some("ready") && slots.name(3) == Some("word"));
    assert!(rt; plan.steps.len() == 5);
    assert!(rt; uses(step_at(&plan, 1)?, &[3], &[1]) && uses(step_at(&plan, 2)?, &[3], &[]));
    assert!(rt; uses(step_at(&plan, 3)?, &[1, 2], &[0]) && uses(step_at(&plan, 4)?, &[], &[]));
    assert!(rt; uses(step_at(&plan, 5)?, &[0], &[]));
    Ok(())
}

#[test]
fn lines_and_places_of_steps(rt: HostRuntime) -> Result<(), Fail> {
    let (_, plan) = of_rescued(rt.alloc())?;
    assert!(rt; stands(step_at(&plan, 1)?, 3, 0, None));
    assert!(rt; stands(step_at(&plan, 2)?, 4, 1, None));
    assert!(rt; stands(step_at(&plan, 3)?, 5, 2, None));
    assert!(rt; stands(step_at(&plan, 4)?, 6, 3, Some(0)));
    assert!(rt; stands(step_at(&plan, 5)?, 7, 4, Some(1)));
    assert!(rt; plan.handlers == 2);
    Ok(())
}

#[test]
fn targets_of_steps(rt: HostRuntime) -> Result<(), Fail> {
    let (_, plan) = of_rescued(rt.alloc())?;
    assert!(rt; is_target(&plan.begin, &[], Some(1)));
    let rescued = step_at(&plan, 1)?;
    assert!(rt; is_target(&rescued.ok, &[], Some(3)));
    assert!(rt; is_target(&rescued.failed, &[Move::Rescuing(0)], Some(2)));
    let fact = step_at(&plan, 3)?;
    assert!(rt; is_target(&fact.ok, &[], Some(4)) && is_target(&fact.failed, &[], None));
    let last = step_at(&plan, 5)?;
    assert!(rt; is_target(&last.ok, &[], Some(6)));
    Ok(())
}

#[test]
fn handlers_that_are_notified(rt: HostRuntime) -> Result<(), Fail> {
    let (_, plan) = of_rescued(rt.alloc())?;
    assert!(rt; step_at(&plan, 1)?.notifies.as_slice() == [1, 0].as_slice());
    assert!(rt; step_at(&plan, 2)?.notifies.is_empty());
    Ok(())
}

#[test]
fn facts_are_gathered_first(rt: HostRuntime) -> Result<(), Fail> {
    let alloc = rt.alloc();
    let registry = Registry::builtin(alloc)?;
    let play = play_of(alloc, &registry, GATHERED)?;
    let gathering = gathering_task(alloc, &registry, 2)?;
    let (slots, plan) = planned(alloc, &play, Some(&gathering))?;
    assert!(rt; plan.steps.len() == 2 && plan.handlers == 0);
    let setup = step_at(&plan, 1)?;
    assert!(rt; stands(setup, 2, 0, None) && uses(setup, &[], &[0, 1, 2, 3, 4, 5, 6]));
    assert!(rt; slots.count() == 7 && slots.name(0) == Some("ansible_distribution"));
    assert!(rt; slots.slot("ansible_facts") == Some(1));
    assert!(rt; stands(step_at(&plan, 2)?, 3, 1, None) && uses(step_at(&plan, 2)?, &[], &[]));
    Ok(())
}
