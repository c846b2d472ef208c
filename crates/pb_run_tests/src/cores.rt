// A run of two hosts over a play of two tasks, event by event. What is expected is what the rules
// say of it.
ghost use Rattle.std.specs.Prelude.{◌≡◌, IfOk, None, Some, true};
ghost use Rattle.pb_steps.specs.Words.{all_lead_on};

use pb_core::{Batch, CoreFault, HostState, RunCore, RunPlay, TaskOutcome, TaskStatus, Turned};
use pb_flow::Target;
use pb_position::Location;
use pb_start::Prepared;
use pb_steps::{PlaySteps, Step};
use std::alloc::{AllocError, Global};
use std::test::Fail;

fn target(alloc: Global, to: Option<u32>) -> Target
    ensures { result.to ≡ to }
{
    Target {
        moves: Vec::new(alloc),
        to,
    }
}

// A task that leads to a node, and whose failure lets the host leave.
fn step(alloc: Global, place: u32, next: u32) -> Step
    ensures ok { result.ok.to ≡ Some next }
    ensures failed { result.failed.to ≡ None }
{
    Step {
        line: place,
        place,
        handler: None,
        ok: target(alloc, Some(next)),
        failed: target(alloc, None),
        reads: Vec::new(alloc),
        writes: Vec::new(alloc),
        notifies: Vec::new(alloc),
    }
}

fn steps(alloc: Global, begin: &Target) -> Result<Vec<Step>, AllocError>
    requires { begin.now.to ≡ Some 1 }
    ensures { IfOk result (λ ss. all_lead_on begin.now ss.items ≡ true) }
{
    let first = step(alloc, 0, 2);
    let second = step(alloc, 1, 3);
    let mut steps = Vec::with_capacity(alloc, 2)?;
    steps.push_reserved(first);
    steps.push_reserved(second);
    Ok(steps)
}

// A play of two steps, with these tasks.
pub(crate) fn play(alloc: Global, tasks: Vec<Prepared>) -> Result<RunPlay, AllocError> {
    let begin = target(alloc, Some(1));
    let steps = steps(alloc, &begin)?;
    let plan = PlaySteps {
        begin,
        steps,
        handlers: 1,
    };
    Ok(RunPlay {
        plan,
        tasks,
        is_linear: true,
    })
}

// Two batches of the first play: both hosts, and then the second one alone.
pub(crate) fn two_batches(alloc: Global) -> Result<Vec<Batch>, AllocError> {
    let both = Batch {
        play: 0,
        members: vec![in alloc; 0, 1]?,
    };
    let second = Batch {
        play: 0,
        members: vec![in alloc; 1]?,
    };
    let mut batches = Vec::new(alloc);
    batches.reserve(2)?;
    batches.push_reserved(both);
    batches.push_reserved(second);
    Ok(batches)
}

// The two batches of that play. Passes are numbers.
fn open(alloc: Global, forks: usize) -> Result<RunCore<u32>, Fail> {
    let mut plays = Vec::new(alloc);
    plays.reserve(1)?;
    plays.push_reserved(play(alloc, Vec::new(alloc))?);
    let batches = two_batches(alloc)?;
    match RunCore::open(alloc, plays, batches, 2, forks) {
        Ok(core) => Ok(core),
        Err(_) => Err("not opened")?,
    }
}

fn outcome(alloc: Global, is_changed: bool, has_failed: bool) -> TaskOutcome {
    TaskOutcome {
        status: TaskStatus {
            is_skipped: false,
            is_changed,
            has_failed,
            is_ignored: false,
            is_rescued: false,
        },
        text: None,
        notified: Vec::new(alloc),
    }
}

fn done(answer: Result<(), CoreFault>) -> Result<(), Fail> {
    match answer {
        Ok(()) => Ok(()),
        Err(_) => Err("refused")?,
    }
}

fn turn_all(core: &mut RunCore<u32>) -> Result<Turned, Fail> {
    match core.turn_all() {
        Ok(turned) => Ok(turned),
        Err(_) => Err("refused")?,
    }
}

fn is_not_there(answer: Result<(), CoreFault>) -> bool {
    match answer {
        Err(CoreFault::NotThere) => true,
        Err(CoreFault::Memory(_)) | Err(CoreFault::Full) | Ok(()) => false,
    }
}

pub(crate) fn host_at<P>(core: &RunCore<P>, host: usize) -> Result<&HostState<P>, Fail> {
    let hosts = core.hosts();
    if host < hosts.len() {
        Ok(&hosts[host])
    } else {
        Err("no such host")?
    }
}

#[test]
fn two_hosts_go_on_together(rt: HostRuntime) -> Result<(), Fail> {
    let alloc = rt.alloc();
    let mut core = open(alloc, 5)?;
    assert!(rt; host_at(&core, 0)?.position.location() == Location::Node(1));
    assert!(rt; core.ready() == Some(0));
    assert!(rt; core.can_start(1));
    done(core.begin(0, 7, 0, 1))?;
    assert!(rt; core.ready() == Some(1));
    done(core.begin(1, 8, 1, 1))?;
    assert!(rt; core.ready().is_none());
    done(core.settle(0, outcome(alloc, true, false)))?;
    assert!(rt; host_at(&core, 0)?.position.location() == Location::Node(2));
    // under `linear` it waits for the other
    assert!(rt; core.ready().is_none());
    assert!(rt; !core.can_start(0));
    done(core.settle(1, outcome(alloc, false, false)))?;
    assert!(rt; core.ready() == Some(0));
    let first = host_at(&core, 0)?;
    assert!(rt; first.recap.changed == 1);
    Ok(())
}

#[test]
fn a_host_that_fails_leaves(rt: HostRuntime) -> Result<(), Fail> {
    let alloc = rt.alloc();
    let mut core = open(alloc, 1)?;
    done(core.begin(0, 7, 0, 1))?;
    // one fork alone
    assert!(rt; core.ready().is_none());
    done(core.again(0, 1))?;
    done(core.settle(0, outcome(alloc, false, false)))?;
    assert!(rt; core.ready() == Some(1));
    done(core.begin(1, 8, 1, 1))?;
    done(core.settle(1, outcome(alloc, false, true)))?;
    assert!(rt; host_at(&core, 1)?.position.location() == Location::Left);
    assert!(rt; host_at(&core, 1)?.recap.failed == 1);
    assert!(rt; core.ready() == Some(0));
    assert!(rt; !core.can_turn());
    done(core.begin(0, 9, 2, 1))?;
    done(core.settle(0, outcome(alloc, false, false)))?;
    assert!(rt; host_at(&core, 0)?.position.location() == Location::End);
    assert!(rt; host_at(&core, 0)?.recap.ok == 2);
    assert!(rt; core.can_turn());
    assert!(rt; core.active(alloc)?.len() == 1);
    // the second batch has no host that is left, so the run ends
    let turned = turn_all(&mut core)?;
    assert!(rt; turned.turns == 2);
    assert!(rt; core.has_ended());
    assert!(rt; core.batch().is_none());
    assert!(rt; core.play().is_none());
    assert!(rt; core.ready().is_none());
    // taken back, it is in its first batch again
    core.turn_back(turned);
    assert!(rt; core.can_turn());
    assert!(rt; core.active(alloc)?.len() == 1);
    done(core.turn())?;
    assert!(rt; core.batch().is_some());
    assert!(rt; core.can_turn());
    Ok(())
}

#[test]
fn events_out_of_place_are_refused(rt: HostRuntime) -> Result<(), Fail> {
    let alloc = rt.alloc();
    let mut core = open(alloc, 5)?;
    assert!(rt; is_not_there(core.begin(2, 7, 0, 1)));
    assert!(rt; is_not_there(core.again(0, 1)));
    assert!(rt; is_not_there(core.leave(0, true)));
    assert!(rt; is_not_there(core.settle(0, outcome(alloc, false, false))));
    assert!(rt; is_not_there(core.turn()));
    done(core.begin(0, 7, 0, 1))?;
    assert!(rt; is_not_there(core.begin(0, 7, 1, 1)));
    let mut notifies = outcome(alloc, true, false);
    notifies.notified.push(1)?;
    assert!(rt; is_not_there(core.settle(0, notifies)));
    done(core.leave(0, false))?;
    assert!(rt; host_at(&core, 0)?.recap.unreachable == 1);
    assert!(rt; !core.is_stopped());
    core.stop();
    assert!(rt; core.is_stopped());
    assert!(rt; core.ready().is_none());
    assert!(rt; !core.can_turn());
    Ok(())
}
