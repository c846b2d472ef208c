// How many nodes and places a play has, as far as they are counted.
ghost use Rattle.std.specs.Prelude.{◌*◌, ◌+◌, ◌≡◌, cond, length, min, suc};
ghost use Rattle.pb_semantics.specs.Limits.{most_play_steps};
ghost use Rattle.pb_language.specs.Book.{no_steps};
ghost use Rattle.pb_language.specs.Plays.{is_given, places_in};
ghost use Rattle.pb_language.specs.Sites.{gathering_steps, section_steps, steps_in, steps_of};
ghost use Rattle.pb_play.specs.Plays.{play_view, step_view, steps_view};
ghost use Rattle.pb_flow.specs.Places.{play_places, section_places};

use pb_play::{Play, Step};

/// How many steps a play may have.
pub const MOST_STEPS: u64 = 8_192;

/// How many steps the play has, or one more than it may have where there are more: a task counts 2
/// to the number of `always` parts it stands in, and so does each handler of a flush.
pub fn steps_of(play: &Play) -> u64
    ensures { result ≡ min (suc most_play_steps) (steps_of (play_view play.now)) }
{
    count_of(play).steps
}

// So many steps, and the places that they have: both modes of an `always` part have the same ones.
#[derive(Clone, Copy)]
pub(crate) struct Count {
    pub(crate) steps: u64,
    pub(crate) places: u64,
}

pub(crate) fn count_of(play: &Play) -> Count
    ensures steps { result.steps ≡ min (suc most_play_steps) (steps_of (play_view play.now)) }
    ensures places { result.places ≡ min (suc most_play_steps) (play_places (play_view play.now)) }
{
    let handlers = play.handlers.len() as u64;
    let gathering = gathering_count(play.gathering);
    let pre_tasks = section_count(&play.pre_tasks, handlers, play.force_handlers);
    let tasks = section_count(&play.tasks, handlers, play.force_handlers);
    let post_tasks = section_count(&play.post_tasks, handlers, play.force_handlers);
    gathering.and(pre_tasks.and(tasks.and(post_tasks)))
}

fn gathering_count(gathering: Option<u32>) -> Count
    ensures steps { result.steps ≡ min (suc most_play_steps) (gathering_steps gathering) }
    ensures places { result.places ≡ min (suc most_play_steps) (gathering_steps gathering) }
{
    match gathering {
        Some(_) => Count::of(1),
        None => Count::of(0),
    }
}

// A section that isn't empty ends with a flush; one that is forced has two modes.
fn section_count(steps: &[Step], handlers: u64, forces: bool) -> Count
    ensures steps { result.steps ≡ min (suc most_play_steps)
        (section_steps handlers (cond forces 2 1) (steps_view steps.now)) }
    ensures places { result.places ≡ min (suc most_play_steps)
        (section_places handlers (steps_view steps.now)) }
{
    if !is_given(steps) {
        return Count::of(0);
    }
    count_in(steps, handlers).and(flush_count(handlers, forces))
}

fn flush_count(handlers: u64, forces: bool) -> Count
    ensures steps { result.steps ≡ min (suc most_play_steps) (cond forces 2 1 * handlers) }
    ensures places { result.places ≡ min (suc most_play_steps) handlers }
{
    let flush = Count::of(handlers);
    if forces { flush.twice() } else { flush }
}

// Whether there is a step.
pub(crate) fn is_given(steps: &[Step]) -> bool
    ensures { result ≡ is_given (steps_view steps.now) }
{
    !steps.is_empty()
}

#[cycle(count)]
fn count_in(steps: &[Step], handlers: u64) -> Count
    ensures steps { result.steps
        ≡ min (suc most_play_steps) (steps_in handlers 0 (steps_view steps.now)) }
    ensures places { result.places
        ≡ min (suc most_play_steps) (places_in handlers (steps_view steps.now)) }
{
    let mut count = Count::of(0);
    for step in steps {
        count = count.and(step_count(step, handlers));
    }
    count
}

#[cycle(count)]
fn step_count(step: &Step, handlers: u64) -> Count
    ensures steps { result.steps
        ≡ min (suc most_play_steps) (steps_in handlers 0 (step_view step.now no_steps)) }
    ensures places { result.places
        ≡ min (suc most_play_steps) (places_in handlers (step_view step.now no_steps)) }
{
    match step {
        Step::Task(_) => Count::of(1),
        Step::Flush(_) => Count::of(handlers),
        Step::Block(block) => {
            let body = count_in(&block.body, handlers);
            let rescue = count_in(&block.rescue, handlers);
            let always = count_in(&block.always, handlers);
            body.and(rescue.and(always.twice()))
        }
    }
}

impl Count {
    // So many steps, each with its place.
    fn of(number: u64) -> Count
        ensures steps { result.steps ≡ min (suc most_play_steps) number }
        ensures places { result.places ≡ min (suc most_play_steps) number }
    {
        let number = number.min(MOST_STEPS + 1);
        Count {
            steps: number,
            places: number,
        }
    }

    fn and(self, other: Count) -> Count
        ensures steps { result.steps ≡ min (suc most_play_steps) (self.steps + other.steps) }
        ensures places { result.places ≡ min (suc most_play_steps) (self.places + other.places) }
    {
        Count {
            steps: sum(self.steps, other.steps),
            places: sum(self.places, other.places),
        }
    }

    // The same in two modes.
    fn twice(self) -> Count
        ensures steps { result.steps ≡ min (suc most_play_steps) (self.steps + self.steps) }
        ensures places { result.places ≡ self.places }
    {
        Count {
            steps: sum(self.steps, self.steps),
            places: self.places,
        }
    }
}

fn sum(a: u64, b: u64) -> u64
    ensures { result ≡ min (suc most_play_steps) (a + b) }
{
    a.saturating_add(b).min(MOST_STEPS + 1)
}
