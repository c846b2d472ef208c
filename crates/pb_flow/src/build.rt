// The nodes of a play, put one in front of the other, from its end to its start.
ghost use Rattle.std.specs.Prelude.{◌*◌, ◌+◌, ◌<◌, ◌≡◌, ◌≤◌, IfOk, None, OnOk, Option, Some, []};
ghost use Rattle.std.specs.Prelude.{cond, false, length, true, ℕ};
ghost use Rattle.pb_language.specs.Book.{Registry, no_steps};
ghost use Rattle.pb_language.specs.Expression.{Parts};
ghost use Rattle.pb_language.specs.Plays.{is_given, places_in};
ghost use Rattle.pb_language.specs.Sites.{gathering_steps, section_steps, sections_steps, steps_in};
ghost use Rattle.pb_machine.specs.Steps.{Target as FlatTarget, leaving, saved_target};
ghost use Rattle.pb_play.specs.Plays.{play_view, step_view, steps_view};
ghost use Rattle.pb_play.specs.Sound.{step_tasks, tasks_in};
ghost use Rattle.pb_flow.specs.Build.{IsPut, StaySound, all_sections_row, block_alone};
ghost use Rattle.pb_flow.specs.Build.{block_tasks, ended_steps_row, flush_row, gathering_row};
ghost use Rattle.pb_flow.specs.Build.{one_section_row, sections_tasks, steps_row};
ghost use Rattle.pb_flow.specs.Nodes.{AreVisitedSound, target_view};
ghost use Rattle.pb_flow.specs.Places.{section_places, sections_places};

use crate::graph::{Move, Target, Visited};
use crate::scene::{Part, Scene};
use crate::steps::is_given;
use crate::tail::Tail;
use pb_play::{Block, Play, Step};
use std::alloc::{AllocError, Global};

// Puts the handlers of a flush in front, from the last to the first. Behind them a host goes on
// there; where one fails it leaves.
fn put_flush<'p>(
    tail: &mut Tail<'p>,
    scene: &Scene<'p>,
    after: &Target,
) -> Result<Target, AllocError>
    requires room { length scene.now.handlers.now ≤ tail.old.front }
    requires places { length scene.now.handlers.now ≤ tail.old.place }
    ensures place { OnOk result (tail.new.place + length scene.now.handlers.now ≡ tail.old.place) }
    ensures front { OnOk result (tail.new.front + length scene.now.handlers.now ≡ tail.old.front) }
    ensures put { IfOk result (λ at. (ms : Registry) (vars : Parts) (m : ℕ) (hurt : FlatTarget)
        → IsPut ms vars (flush_row ms vars scene.now tail.new.place) m (target_view after.now) hurt
        tail.old tail.new (target_view at)) }
    ensures sound { OnOk result (StaySound scene.now.handlers.now [] tail.old tail.new) }
{
    let handlers = scene.handlers;
    let leaving = Target::leaving(scene.alloc);
    let mut next = after.copy()?;
    for index in (0..handlers.len()).rev() {
        let work = Visited::Task(&handlers[index].task);
        next = tail.put(
            work,
            &scene.part.around,
            Some(index as u32),
            &next,
            &leaving,
        )?;
    }
    Ok(next)
}

// Puts steps in front, from the last to the first, and says where a host enters them.
#[cycle(put)]
fn put_steps<'p>(
    tail: &mut Tail<'p>,
    scene: &Scene<'p>,
    part: &Part<'p>,
    steps: &'p [Step],
    ok: &Target,
    failed: &Target,
) -> Result<Target, AllocError>
    requires room { steps_in (length scene.now.handlers.now) 0 (steps_view steps.now)
        ≤ tail.old.front }
    requires places { places_in (length scene.now.handlers.now) (steps_view steps.now)
        ≤ tail.old.place }
    ensures front { OnOk result (tail.new.front
        + steps_in (length scene.now.handlers.now) 0 (steps_view steps.now) ≡ tail.old.front) }
    ensures place { OnOk result (tail.new.place
        + places_in (length scene.now.handlers.now) (steps_view steps.now) ≡ tail.old.place) }
    ensures put { IfOk result (λ at. (ms : Registry) (vars : Parts)
        → IsPut ms vars (steps_row ms vars scene.now part.now.around.value tail.new.place
        (steps_view steps.now)) part.now.held
        (target_view ok.now) (target_view failed.now) tail.old tail.new (target_view at)) }
    ensures sound { OnOk result
        (StaySound scene.now.handlers.now (tasks_in steps.now) tail.old tail.new) }
{
    let mut next = ok.copy()?;
    for index in (0..steps.len()).rev() {
        next = put_step(tail, scene, part, &steps[index], &next, failed)?;
    }
    Ok(next)
}

#[cycle(put)]
fn put_step<'p>(
    tail: &mut Tail<'p>,
    scene: &Scene<'p>,
    part: &Part<'p>,
    step: &'p Step,
    ok: &Target,
    failed: &Target,
) -> Result<Target, AllocError>
    requires room { steps_in (length scene.now.handlers.now) 0 (step_view step.now no_steps)
        ≤ tail.old.front }
    requires places { places_in (length scene.now.handlers.now) (step_view step.now no_steps)
        ≤ tail.old.place }
    ensures front { OnOk result (tail.new.front
        + steps_in (length scene.now.handlers.now) 0 (step_view step.now no_steps)
        ≡ tail.old.front) }
    ensures place { OnOk result (tail.new.place
        + places_in (length scene.now.handlers.now) (step_view step.now no_steps)
        ≡ tail.old.place) }
    ensures put { IfOk result (λ at. (ms : Registry) (vars : Parts)
        → IsPut ms vars (steps_row ms vars scene.now part.now.around.value tail.new.place
        (step_view step.now no_steps)) part.now.held
        (target_view ok.now) (target_view failed.now) tail.old tail.new (target_view at)) }
    ensures sound { OnOk result
        (StaySound scene.now.handlers.now (step_tasks step.now) tail.old tail.new) }
{
    match step {
        Step::Task(task) => tail.put(Visited::Task(task), &part.around, None, ok, failed),
        Step::Flush(_) => put_flush(tail, scene, ok),
        Step::Block(block) => put_block(tail, scene, part, block, ok, failed),
    }
}

// Puts the parts of a block in front: the `always` part as it runs after a failure, which is held
// until it is done, the same at the same places as it runs else, then the `rescue` and the body.
#[cycle(put)]
fn put_block<'p>(
    tail: &mut Tail<'p>,
    scene: &Scene<'p>,
    part: &Part<'p>,
    block: &'p Block<Step>,
    ok: &Target,
    failed: &Target,
) -> Result<Target, AllocError>
    requires room { steps_in (length scene.now.handlers.now) 0 (block_alone block.now)
        ≤ tail.old.front }
    requires places { places_in (length scene.now.handlers.now) (block_alone block.now)
        ≤ tail.old.place }
    ensures front { OnOk result (tail.new.front
        + steps_in (length scene.now.handlers.now) 0 (block_alone block.now) ≡ tail.old.front) }
    ensures place { OnOk result (tail.new.place
        + places_in (length scene.now.handlers.now) (block_alone block.now) ≡ tail.old.place) }
    ensures put { IfOk result (λ at. (ms : Registry) (vars : Parts)
        → IsPut ms vars (steps_row ms vars scene.now part.now.around.value tail.new.place
        (block_alone block.now)) part.now.held
        (target_view ok.now) (target_view failed.now) tail.old tail.new (target_view at)) }
    ensures sound { OnOk result
        (StaySound scene.now.handlers.now (block_tasks block.now) tail.old tail.new) }
{
    let hurt = part.always(block)?;
    let always = hurt.released()?;
    let rescue = part.rescue(block)?;
    let body = part.body(block)?;
    let place = tail.place;
    let out = failed.after(Move::Releasing(part.held))?;
    let last = put_steps(tail, scene, &hurt, &block.always, &out, failed)?;
    let fails = last.after(Move::Holding(part.held))?;
    tail.place = place;
    let on = put_steps(tail, scene, &always, &block.always, ok, failed)?;
    let inside = put_steps(tail, scene, &rescue, &block.rescue, &on, &fails)?;
    let saved = failure_of(block, part.around.depth, &inside, &fails)?;
    put_steps(tail, scene, &body, &block.body, &on, &saved)
}

// Where a failure of the body leads: into the `rescue`, if there is one.
fn failure_of(
    block: &Block<Step>,
    depth: usize,
    inside: &Target,
    outside: &Target,
) -> Result<Target, AllocError>
    ensures { IfOk result (λ t. target_view t
        ≡ saved_target depth (is_given (steps_view block.now.rescue.items))
        (target_view inside.now) (target_view outside.now)) }
{
    if is_given(&block.rescue) {
        inside.after(Move::Rescuing(depth))
    } else {
        outside.copy()
    }
}

// Puts a section in front, with the flush at its end; where it is empty there is none.
fn put_section<'p>(
    tail: &mut Tail<'p>,
    scene: &Scene<'p>,
    steps: &'p [Step],
    forces: bool,
    after: &Target,
) -> Result<Target, AllocError>
    requires room { section_steps (length scene.now.handlers.now) (cond forces 2 1)
        (steps_view steps.now) ≤ tail.old.front }
    requires places { section_places (length scene.now.handlers.now) (steps_view steps.now)
        ≤ tail.old.place }
    ensures front { OnOk result (tail.new.front
        + section_steps (length scene.now.handlers.now) (cond forces 2 1) (steps_view steps.now)
        ≡ tail.old.front) }
    ensures place { OnOk result (tail.new.place
        + section_places (length scene.now.handlers.now) (steps_view steps.now)
        ≡ tail.old.place) }
    ensures put { IfOk result (λ at. (ms : Registry) (vars : Parts)
        → IsPut ms vars (one_section_row ms vars scene.now forces tail.new.place
        (steps_view steps.now)) 0 (target_view after.now) leaving
        tail.old tail.new (target_view at)) }
    ensures sound { OnOk result
        (StaySound scene.now.handlers.now (tasks_in steps.now) tail.old tail.new) }
{
    if !is_given(steps) {
        return after.copy();
    }
    if forces {
        put_forced(tail, scene, steps, after)
    } else {
        put_ended(tail, scene, steps, after)
    }
}

// Puts steps in front of a flush that isn't forced.
fn put_ended<'p>(
    tail: &mut Tail<'p>,
    scene: &Scene<'p>,
    steps: &'p [Step],
    after: &Target,
) -> Result<Target, AllocError>
    requires room { steps_in (length scene.now.handlers.now) 0 (steps_view steps.now)
        + length scene.now.handlers.now ≤ tail.old.front }
    requires places { places_in (length scene.now.handlers.now) (steps_view steps.now)
        + length scene.now.handlers.now ≤ tail.old.place }
    ensures front { OnOk result (tail.new.front
        + (steps_in (length scene.now.handlers.now) 0 (steps_view steps.now)
        + length scene.now.handlers.now) ≡ tail.old.front) }
    ensures place { OnOk result (tail.new.place
        + (places_in (length scene.now.handlers.now) (steps_view steps.now)
        + length scene.now.handlers.now) ≡ tail.old.place) }
    ensures put { IfOk result (λ at. (ms : Registry) (vars : Parts)
        → IsPut ms vars (ended_steps_row ms vars scene.now false tail.new.place
        (steps_view steps.now)) 0 (target_view after.now) leaving
        tail.old tail.new (target_view at)) }
    ensures sound { OnOk result
        (StaySound scene.now.handlers.now (tasks_in steps.now) tail.old tail.new) }
{
    let leaving = Target::leaving(scene.alloc);
    let flush = put_flush(tail, scene, after)?;
    put_steps(tail, scene, &scene.part, steps, &flush, &leaving)
}

// Puts steps in front of a flush that is forced: it stands there as it runs after a failure, and at
// the same places as it runs else.
fn put_forced<'p>(
    tail: &mut Tail<'p>,
    scene: &Scene<'p>,
    steps: &'p [Step],
    after: &Target,
) -> Result<Target, AllocError>
    requires room { steps_in (length scene.now.handlers.now) 0 (steps_view steps.now)
        + 2 * length scene.now.handlers.now ≤ tail.old.front }
    requires places { places_in (length scene.now.handlers.now) (steps_view steps.now)
        + length scene.now.handlers.now ≤ tail.old.place }
    ensures front { OnOk result (tail.new.front
        + (steps_in (length scene.now.handlers.now) 0 (steps_view steps.now)
        + 2 * length scene.now.handlers.now) ≡ tail.old.front) }
    ensures place { OnOk result (tail.new.place
        + (places_in (length scene.now.handlers.now) (steps_view steps.now)
        + length scene.now.handlers.now) ≡ tail.old.place) }
    ensures put { IfOk result (λ at. (ms : Registry) (vars : Parts)
        → IsPut ms vars (ended_steps_row ms vars scene.now true tail.new.place
        (steps_view steps.now)) 0 (target_view after.now) leaving
        tail.old tail.new (target_view at)) }
    ensures sound { OnOk result
        (StaySound scene.now.handlers.now (tasks_in steps.now) tail.old tail.new) }
{
    let leaving = Target::leaving(scene.alloc);
    let behind = tail.place;
    let failed = put_flush(tail, scene, &leaving)?;
    tail.place = behind;
    let ok = put_flush(tail, scene, after)?;
    put_steps(tail, scene, &scene.part, steps, &ok, &failed)
}

// Puts the sections in front, the last one first.
pub(crate) fn put_sections<'p>(
    tail: &mut Tail<'p>,
    scene: &Scene<'p>,
    play: &'p Play,
    after: &Target,
) -> Result<Target, AllocError>
    requires room { sections_steps (length scene.now.handlers.now)
        (cond play.now.force_handlers 2 1) (play_view play.now) ≤ tail.old.front }
    requires places { sections_places (length scene.now.handlers.now) (play_view play.now)
        ≤ tail.old.place }
    ensures front { OnOk result (tail.new.front
        + sections_steps (length scene.now.handlers.now) (cond play.now.force_handlers 2 1)
        (play_view play.now) ≡ tail.old.front) }
    ensures place { OnOk result (tail.new.place
        + sections_places (length scene.now.handlers.now) (play_view play.now)
        ≡ tail.old.place) }
    ensures put { IfOk result (λ at. (ms : Registry) (vars : Parts)
        → IsPut ms vars (all_sections_row ms vars scene.now tail.new.place (play_view play.now))
        0 (target_view after.now) leaving
        tail.old tail.new (target_view at)) }
    ensures sound { OnOk result
        (StaySound scene.now.handlers.now (sections_tasks play.now) tail.old tail.new) }
{
    let forces = play.force_handlers;
    let post_tasks = put_section(tail, scene, &play.post_tasks, forces, after)?;
    let tasks = put_section(tail, scene, &play.tasks, forces, &post_tasks)?;
    put_section(tail, scene, &play.pre_tasks, forces, &tasks)
}

// Puts the task in front that gathers facts, where there is one; where it fails the host leaves.
pub(crate) fn put_gathering<'p>(
    tail: &mut Tail<'p>,
    scene: &Scene<'p>,
    gathering: Option<u32>,
    after: &Target,
) -> Result<Target, AllocError>
    requires room { gathering_steps gathering ≤ tail.old.front }
    requires places { gathering_steps gathering ≤ tail.old.place }
    ensures front { OnOk result (tail.new.front + gathering_steps gathering ≡ tail.old.front) }
    ensures place { OnOk result (tail.new.place + gathering_steps gathering ≡ tail.old.place) }
    ensures put { IfOk result (λ at. (ms : Registry) (vars : Parts)
        → IsPut ms vars (gathering_row ms vars scene.now tail.new.place gathering)
        0 (target_view after.now) leaving
        tail.old tail.new (target_view at)) }
    ensures sound { OnOk result ((ms : Registry) → AreVisitedSound ms gathering tail.old.nodes.items
        → AreVisitedSound ms gathering tail.new.nodes.items) }
{
    let leaving = Target::leaving(scene.alloc);
    match gathering {
        Some(line) => tail.put(
            Visited::Gathering(line),
            &scene.part.around,
            None,
            after,
            &leaving,
        ),
        None => after.copy(),
    }
}
