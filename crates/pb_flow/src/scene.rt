// What is the same in a whole play, and where the steps of its parts stand.
ghost use Rattle.std.specs.Prelude.{◌≡◌, ◌≤◌, vec_len};

use crate::graph::Around;
use crate::steps::is_given;
use pb_play::{Block, BlockHead, Handler, Play, Step};
use std::alloc::{AllocError, Global};
use std::sync::Arc;

// What is the same in the whole play.
#[derive(Drop)]
pub(crate) struct Scene<'p> {
    pub(crate) alloc: Global,
    pub(crate) handlers: &'p [Handler],
    // Where its sections and its handlers stand.
    pub(crate) part: Part<'p>,
    ghost outermost: { part.held ≡ 0 },
}

// Where steps of a play stand. No more blocks than stand round them hold a failure there, and no
// more have them in their `rescue` part.
#[derive(Drop)]
pub(crate) struct Part<'p> {
    pub(crate) around: Arc<Around<'p>>,
    // How many failures are held by the `always` parts round them.
    pub(crate) held: usize,
    ghost holders: { held ≤ vec_len around.value.blocks },
    ghost rescuers: { around.value.depth ≤ vec_len around.value.blocks },
}

impl<'p> Scene<'p> {
    ghost use Rattle.std.specs.Prelude.{IfOk};
    ghost use Rattle.pb_language.specs.Book.{Registry};
    ghost use Rattle.pb_language.specs.Plays.{play_surroundings};
    ghost use Rattle.pb_template.specs.Entries.{entries_view};
    ghost use Rattle.pb_play.specs.Plays.{play_view};
    ghost use Rattle.pb_flow.specs.Nodes.{around_view};

    pub(crate) fn of(alloc: Global, play: &'p Play) -> Result<Scene<'p>, AllocError>
        ensures handlers { IfOk result (λ s. s.handlers.now ≡ play.now.handlers.items) }
        ensures around { IfOk result (λ s. (ms : Registry)
            → around_view ms (entries_view play.now.vars.items) s.part.around.value
            ≡ play_surroundings ms (play_view play.now)) }
    {
        let around = Around {
            blocks: Vec::new(alloc),
            ignores: false,
            rescued: false,
            depth: 0,
        };
        let part = Part {
            around: Arc::new(alloc, around)?,
            held: 0,
        };
        Ok(Scene {
            alloc,
            handlers: &play.handlers,
            part,
        })
    }
}

impl<'p> Part<'p> {
    ghost use Rattle.std.specs.Prelude.{◌-◌, ◌||◌, IfOk, suc};
    ghost use Rattle.pb_language.specs.Book.{Registry};
    ghost use Rattle.pb_language.specs.Expression.{Parts};
    ghost use Rattle.pb_language.specs.Plays.{inside, is_given};
    ghost use Rattle.pb_play.specs.Plays.{head_view, steps_view};
    ghost use Rattle.pb_flow.specs.Build.{in_block};
    ghost use Rattle.pb_flow.specs.Nodes.{around_view};

    // The body of a block in it.
    pub(crate) fn body(&self, block: &'p Block<Step>) -> Result<Part<'p>, AllocError>
        ensures around { IfOk result (λ p. (ms : Registry) (vars : Parts)
            → around_view ms vars p.around.value ≡ record (in_block ms vars self.now block.now) {
              rescued = self.now.around.value.rescued
                  || is_given (steps_view block.now.rescue.items);
            }) }
        ensures held { IfOk result (λ p. p.held ≡ self.now.held) }
    {
        let rescued = self.is_rescued(block);
        self.inside(&block.head, rescued, self.around.depth)
    }

    // The `rescue` part of a block in it.
    pub(crate) fn rescue(&self, block: &'p Block<Step>) -> Result<Part<'p>, AllocError>
        ensures around { IfOk result (λ p. (ms : Registry) (vars : Parts)
            → around_view ms vars p.around.value ≡ record (in_block ms vars self.now block.now)
            { depth = suc self.now.around.value.depth }) }
        ensures held { IfOk result (λ p. p.held ≡ self.now.held) }
    {
        let depth = self.around.depth + 1;
        self.inside(&block.head, self.around.rescued, depth)
    }

    // The `always` part of a block in it, as it runs after a failure, which it holds.
    pub(crate) fn always(&self, block: &'p Block<Step>) -> Result<Part<'p>, AllocError>
        ensures around { IfOk result (λ p. (ms : Registry) (vars : Parts)
            → around_view ms vars p.around.value ≡ in_block ms vars self.now block.now) }
        ensures held { IfOk result (λ p. p.held ≡ suc self.now.held) }
    {
        let part = self.inside(&block.head, self.around.rescued, self.around.depth)?;
        Ok(Part {
            around: part.around,
            held: self.held + 1,
        })
    }

    // The same, as it runs after no failure.
    pub(crate) fn released(&self) -> Result<Part<'p>, AllocError>
        ensures around { IfOk result (λ p. p.around.value ≡ self.now.around.value) }
        ensures held { IfOk result (λ p. p.held ≡ self.now.held - 1) }
    {
        Ok(Part {
            around: self.around.clone()?,
            held: self.held.saturating_sub(1),
        })
    }

    // Whether a failure of the body of a block in it is rescued.
    fn is_rescued(&self, block: &Block<Step>) -> bool
        ensures { result ≡ self.now.around.value.rescued
            || is_given (steps_view block.now.rescue.items) }
    {
        self.around.rescued || is_given(&block.rescue)
    }

    // A part of a block in it.
    fn inside(
        &self,
        head: &'p BlockHead,
        rescued: bool,
        depth: usize,
    ) -> Result<Part<'p>, AllocError>
        requires { depth ≤ suc self.now.around.value.depth }
        ensures around { IfOk result (λ p. (ms : Registry) (vars : Parts)
            → around_view ms vars p.around.value
            ≡ record (inside (around_view ms vars self.now.around.value) (head_view head.now))
            { rescued = rescued; depth = depth }) }
        ensures held { IfOk result (λ p. p.held ≡ self.now.held) }
        ensures blocks { IfOk result (λ p. vec_len p.around.value.blocks
            ≡ suc (vec_len self.now.around.value.blocks)) }
    {
        let outer: &Around = &self.around;
        let alloc = *outer.blocks.allocator();
        let mut blocks = Vec::new(alloc);
        blocks.extend_from_slice(&outer.blocks)?;
        blocks.push(head)?;
        let around = Around {
            blocks,
            ignores: head.ignore_errors.unwrap_or(outer.ignores),
            rescued,
            depth,
        };
        Ok(Part {
            around: Arc::new(alloc, around)?,
            held: self.held,
        })
    }
}
