// The plays of a book, each with its hosts and the paths through it.
ghost use Rattle.std.specs.Prelude.{◌≡◌, ◌≤◌, All, IfOk, length, map, option_map};
ghost use Rattle.std.specs.Prelude.{slice_get};
ghost use Rattle.pb_semantics.specs.Limits.{most_play_steps};
ghost use Rattle.pb_language.specs.Book.{Registry as Modules};
ghost use Rattle.pb_language.specs.Plays.{program_of};
ghost use Rattle.pb_language.specs.Sites.{steps_of};
ghost use Rattle.pb_inventory.specs.Words.{inventory_view};
ghost use Rattle.pb_play.specs.Words.{AreSound, all_tasks, play_view};
ghost use Rattle.pb_sig.specs.Words.{modules_of};
ghost use Rattle.pb_tables.specs.Words.{AreScenes};
ghost use Rattle.pb_route.specs.Words.{Gathers};
ghost use Rattle.pb_verify.specs.Scenes.{AllGather, gathered_at};

use pb_inventory::Inventory;
use pb_play::Play;
use pb_route::gathering_task;
use pb_sig::Registry;
use pb_tables::Scene;
use pb_task::Task;
use std::alloc::{AllocError, Global};

/// For each play the task that gathers its facts, where it has one.
///
/// # Errors
///
/// Want of memory, also where a play gathers facts and the registry has no `setup`.
pub fn gathering_tasks(
    alloc: Global,
    registry: &Registry,
    plays: &[Play],
) -> Result<Vec<Option<Task>>, AllocError>
    ensures { IfOk result (λ ts. AllGather (modules_of registry.now) plays.now ts.items) }
{
    let mut tasks = Vec::with_capacity(alloc, plays.len())?;
    for play in plays {
        tasks.push(gathering_of(alloc, registry, play)?)?;
    }
    Ok(tasks)
}

fn gathering_of(alloc: Global, registry: &Registry, play: &Play) -> Result<Option<Task>, AllocError>
    ensures { IfOk result (λ t. Gathers (modules_of registry.now) play.now.gathering t) }
{
    match play.gathering {
        Some(line) => Ok(Some(gathering_task(alloc, registry, line)?)),
        None => Ok(None),
    }
}

// The plays, each with its hosts and the paths through it.
//
// # Errors
//
// Want of memory, as of `Scene::of`.
pub(crate) fn scenes_of<'s>(
    alloc: Global,
    inventory: &'s Inventory,
    plays: &'s [Play],
    gathering: &'s [Option<Task>],
) -> Result<Vec<Scene<'s>>, AllocError>
    requires few { All (λ p. steps_of (play_view p) ≤ most_play_steps) plays.now }
    ensures inventory { IfOk result (λ ss.
        All (λ s. s.cast.inventory.now ≡ inventory.entry.now) ss.items) }
    ensures scenes { IfOk result (λ ss. (ms : Modules)
        → AreSound ms (all_tasks plays.entry.now)
        → AllGather ms plays.entry.now gathering.entry.now
        → AreScenes inventory.entry.now (program_of ms (inventory_view inventory.entry.now)
        (map play_view plays.entry.now)) ss.items) }
{
    let mut scenes = Vec::with_capacity(alloc, plays.len())?;
    for (index, play) in plays.iter().enumerate() {
        let task = gathering_at(gathering, index);
        scenes.push(Scene::of(alloc, inventory, play, task)?)?;
    }
    Ok(scenes)
}

/// The task that gathers the facts of the play of that number, where it has one.
pub fn gathering_at<'s>(gathering: &'s [Option<Task>], play: usize) -> Option<&'s Task>
    ensures { option_map (λ t. t.now) result ≡ gathered_at gathering.entry.now play }
{
    match gathering.get(play) {
        Some(Some(task)) => Some(task),
        _ => None,
    }
}
