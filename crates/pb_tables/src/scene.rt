// A play with its hosts and the paths through it.
ghost use Rattle.std.specs.Prelude.{◌≡◌, ◌≤◌, [], IfOk, option_map};
ghost use Rattle.pb_semantics.specs.Limits.{most_play_steps};
ghost use Rattle.pb_language.specs.Book.{Registry};
ghost use Rattle.pb_language.specs.Plays.{pattern_hosts, play_with};
ghost use Rattle.pb_language.specs.Sites.{steps_of};
ghost use Rattle.pb_inventory.specs.Words.{inventory_view};
ghost use Rattle.pb_play.specs.Sound.{play_tasks};
ghost use Rattle.pb_play.specs.Words.{AreSound, play_view};
ghost use Rattle.pb_route.specs.Words.{Gathers};
ghost use Rattle.pb_tables.specs.Scenes.{IsScene};

use pb_hosts::Cast;
use pb_inventory::Inventory;
use pb_play::Play;
use pb_route::Route;
use pb_task::Task;
use std::alloc::{AllocError, Global};

/// A play with its hosts and the paths through it.
#[derive(Drop)]
pub struct Scene<'s> {
    pub cast: Cast<'s>,
    pub route: Route<'s>,
}

impl<'s> Scene<'s> {
    /// The play, of at most 8,192 steps, on the hosts that its pattern finds, with the task that
    /// gathers its facts, where it has one.
    ///
    /// # Errors
    ///
    /// Want of memory, also where a chain of names of `vars` is too long or has a cycle, where a
    /// word of the pattern names nothing, and where facts are gathered and no task for it is given.
    pub fn of(
        alloc: Global,
        inventory: &'s Inventory,
        play: &'s Play,
        gathering: Option<&'s Task>,
    ) -> Result<Scene<'s>, AllocError>
        requires few { steps_of (play_view play.now) ≤ most_play_steps }
        ensures inventory { IfOk result (λ s. s.cast.inventory ≡ inventory.entry) }
        ensures scene { IfOk result (λ s. (ms : Registry)
            → AreSound ms (play_tasks play.entry.now)
            → Gathers ms play.entry.now.gathering (option_map (λ t. t.now) gathering.entry)
            → IsScene inventory.entry.now (play_with ms (play_view play.entry.now) (pattern_hosts
            (inventory_view inventory.entry.now) [] (play_view play.entry.now).pattern)) s) }
    {
        Ok(Scene {
            cast: Cast::of(alloc, inventory, play)?,
            route: Route::of(alloc, play, gathering)?,
        })
    }
}
