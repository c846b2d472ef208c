// All lines of a book.
ghost use Rattle.std.specs.Prelude.{[], ◌≡◌, ◌∷◌, IfOk, OnOk, map, option_map};
ghost use Rattle.pb_language.specs.Book.{no_steps};
ghost use Rattle.pb_language.specs.Sites.{gathering_sites, handler_sites, play_sites, sites_of};
ghost use Rattle.pb_play.specs.Plays.{handler_view, play_view, step_view, steps_view};
ghost use Rattle.pb_play.specs.Sound.{all_tasks, handler_tasks, play_tasks, step_tasks, tasks_in};
ghost use Rattle.pb_rules.specs.Sites.{ArePut, site_in, site_view};
ghost use Rattle.pb_rules.specs.Sites.{sites_round, task_list, tasks_at};

use crate::site::{Around, Site, Thing};
use pb_play::{Handler, Play, Step};
use std::alloc::{AllocError, Global};
use std::sync::Arc;

// Each play, its task that gathers facts, then the blocks and tasks of its sections and its
// handlers, as they run.
pub(crate) fn sites_of<'p>(alloc: Global, plays: &'p [Play]) -> Result<Vec<Site<'p>>, AllocError>
    ensures lines { IfOk result (λ ss. map site_view ss.items
        ≡ sites_of (map play_view plays.now)) }
    ensures tasks { IfOk result (λ ss. tasks_at ss.items ≡ all_tasks plays.now) }
{
    let mut sites = Vec::new(alloc);
    for play in plays {
        put_play(alloc, &mut sites, play)?;
    }
    Ok(sites)
}

fn put_play<'p>(alloc: Global, sites: &mut Vec<Site<'p>>, play: &'p Play) -> Result<(), AllocError>
    ensures { OnOk result (ArePut sites.old.items sites.new.items (play_sites (play_view play.now))
        (play_tasks play.now)) }
{
    let around = Around::of_play(alloc, play)?;
    put(sites, &around, Thing::Play)?;
    put_gathering(sites, &around, play.gathering)?;
    put_steps(alloc, sites, &around, &play.pre_tasks)?;
    put_steps(alloc, sites, &around, &play.tasks)?;
    put_steps(alloc, sites, &around, &play.post_tasks)?;
    put_handlers(sites, &around, &play.handlers)
}

fn put<'p>(
    sites: &mut Vec<Site<'p>>,
    around: &Arc<Around<'p>>,
    thing: Thing<'p>,
) -> Result<(), AllocError>
    ensures { OnOk result (ArePut sites.old.items sites.new.items
        (site_in around.now.value thing.entry ∷ []) (task_list thing.entry)) }
{
    sites.push(Site {
        thing,
        around: around.clone()?,
    })?;
    Ok(())
}

fn put_gathering<'p>(
    sites: &mut Vec<Site<'p>>,
    around: &Arc<Around<'p>>,
    gathering: Option<u32>,
) -> Result<(), AllocError>
    requires { around.now.value.blocks.items ≡ [] }
    ensures { OnOk result (ArePut sites.old.items sites.new.items
        (gathering_sites (play_view around.now.value.play.now) gathering) []) }
{
    match gathering {
        Some(line) => put(sites, around, Thing::Gathering(line)),
        None => Ok(()),
    }
}

#[cycle(put)]
fn put_steps<'p>(
    alloc: Global,
    sites: &mut Vec<Site<'p>>,
    around: &Arc<Around<'p>>,
    steps: &'p [Step],
) -> Result<(), AllocError>
    ensures { OnOk result (ArePut sites.old.items sites.new.items
        (sites_round around.now.value (steps_view steps.now)) (tasks_in steps.now)) }
{
    for step in steps {
        put_step(alloc, sites, around, step)?;
    }
    Ok(())
}

#[cycle(put)]
fn put_step<'p>(
    alloc: Global,
    sites: &mut Vec<Site<'p>>,
    around: &Arc<Around<'p>>,
    step: &'p Step,
) -> Result<(), AllocError>
    ensures { OnOk result (ArePut sites.old.items sites.new.items
        (sites_round around.now.value (step_view step.now no_steps)) (step_tasks step.now)) }
{
    match step {
        Step::Task(task) => put(sites, around, Thing::Task(task)),
        Step::Flush(line) => put(sites, around, Thing::Flush(*line)),
        Step::Block(block) => {
            put(sites, around, Thing::Block(&block.head))?;
            let inside = around.inside(alloc, &block.head)?;
            put_steps(alloc, sites, &inside, &block.body)?;
            put_steps(alloc, sites, &inside, &block.rescue)?;
            put_steps(alloc, sites, &inside, &block.always)
        }
    }
}

fn put_handlers<'p>(
    sites: &mut Vec<Site<'p>>,
    around: &Arc<Around<'p>>,
    handlers: &'p [Handler],
) -> Result<(), AllocError>
    requires { around.now.value.blocks.items ≡ [] }
    ensures { OnOk result (ArePut sites.old.items sites.new.items
        (handler_sites (play_view around.now.value.play.now) 0 (map handler_view handlers.now))
        (handler_tasks handlers.now)) }
{
    for (number, handler) in handlers.iter().enumerate() {
        put(sites, around, Thing::Handler(number, &handler.task))?;
    }
    Ok(())
}
