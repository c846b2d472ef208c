// The tasks of a play's steps as they run.
ghost use Rattle.std.specs.Prelude.{IfOk, map, option_map};
ghost use Rattle.pb_language.specs.Book.{Registry};
ghost use Rattle.pb_language.specs.Plays.{play_row};
ghost use Rattle.pb_machine.specs.Steps.{play_steps};
ghost use Rattle.pb_play.specs.Plays.{play_view};
ghost use Rattle.pb_play.specs.Sound.{AreSound, play_tasks};
ghost use Rattle.pb_route.specs.Routes.{Gathers};
ghost use Rattle.pb_steps.specs.Nodes.{AreNodes};
ghost use Rattle.pb_steps.specs.Tasks.{ArePrepared};

use crate::nodes::PlayNodes;
use pb_prepare::prepare;
use pb_slots::Slots;
use pb_start::Prepared;
use std::alloc::{AllocError, Global};

impl PlayNodes<'_> {
    /// The tasks of the steps as they run, in the order of the steps, where variables have those
    /// slots.
    ///
    /// # Errors
    ///
    /// Want of memory.
    pub fn prepared(&self, alloc: Global, slots: &Slots) -> Result<Vec<Prepared>, AllocError>
        requires nodes { AreNodes self.now }
        ensures { IfOk result (λ ts. (ms : Registry) → AreSound ms (play_tasks self.now.play.now)
            → Gathers ms self.now.play.now.gathering
            (option_map (λ t. t.now) self.now.gathering)
            → ArePrepared ts.items
            (map (λ s. s.task) (play_steps (play_row ms (play_view self.now.play.now))))) }
    {
        let mut tasks = Vec::with_capacity(alloc, self.stations.len())?;
        for station in &self.stations {
            let task = prepare(alloc, station, slots)?;
            tasks.push(task)?;
        }
        Ok(tasks)
    }
}
