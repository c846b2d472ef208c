// A line of a book, with what stands round it.
ghost use Rattle.std.specs.Prelude.{◌++◌, ◌∷◌, [], ◌≡◌, IfOk, option_map};
ghost use Rattle.pb_language.specs.Plays.{append_expressions, append_parts};
ghost use Rattle.pb_language.specs.Rules.{is_task_line, task_at_site};
ghost use Rattle.pb_syntax.specs.Words.{exprs_view};
ghost use Rattle.pb_template.specs.Words.{entries_view};
ghost use Rattle.pb_task.specs.Words.{task_view};
ghost use Rattle.pb_vars.specs.Words.{HaveSame, in_scope};
ghost use Rattle.pb_rules.specs.Sites.{conditions_round, scope_round, site_view, task_of};

use pb_play::{BlockHead, Play};
use pb_task::Task;
use pb_template::Entry;
use pb_vars::InScope;
use std::alloc::{AllocError, Global};
use std::sync::Arc;

// What stands at a line.
#[derive(Clone, Copy)]
pub(crate) enum Thing<'p> {
    Play,
    Block(&'p BlockHead),
    // Notified handlers run, at that line.
    Flush(u32),
    // Facts are gathered, at that line.
    Gathering(u32),
    Task(&'p Task),
    // The work of a handler, with its number.
    Handler(usize, &'p Task),
}

// What stands round steps.
#[derive(Drop)]
pub(crate) struct Around<'p> {
    pub(crate) play: &'p Play,
    // The blocks that they stand in, the outermost first.
    pub(crate) blocks: Vec<&'p BlockHead>,
}

// A line, and what stands round it.
#[derive(Drop)]
pub(crate) struct Site<'p> {
    pub(crate) thing: Thing<'p>,
    pub(crate) around: Arc<Around<'p>>,
}

impl<'p> Around<'p> {
    // Round the sections and handlers of a play stands no block.
    pub(crate) fn of_play(alloc: Global, play: &'p Play) -> Result<Arc<Around<'p>>, AllocError>
        ensures play { IfOk result (λ a. a.value.play ≡ play.entry) }
        ensures blocks { IfOk result (λ a. a.value.blocks.items ≡ []) }
    {
        let around = Around {
            play,
            blocks: Vec::new(alloc),
        };
        Ok(Arc::new(alloc, around)?)
    }

    // What stands round the steps of a block.
    pub(crate) fn inside(
        &self,
        alloc: Global,
        head: &'p BlockHead,
    ) -> Result<Arc<Around<'p>>, AllocError>
        ensures play { IfOk result (λ a. a.value.play ≡ self.now.play) }
        ensures conditions { IfOk result (λ a. conditions_round a.value
            ≡ append_expressions (conditions_round self.now) (exprs_view head.now.when.items)) }
        ensures scope { IfOk result (λ a. scope_round a.value
            ≡ append_parts (entries_view head.now.vars.items) (scope_round self.now)) }
    {
        let mut blocks = Vec::new(alloc);
        blocks.extend_from_slice(&self.blocks)?;
        blocks.push(head)?;
        let around = Around {
            play: self.play,
            blocks,
        };
        Ok(Arc::new(alloc, around)?)
    }

    // The values of `vars` in scope there, the blocks' over the play's.
    fn scope(&self, alloc: Global) -> Result<InScope<'p>, AllocError>
        ensures { IfOk result (λ s. HaveSame (in_scope s) (scope_round self.now)) }
    {
        let nothing = InScope::nothing(alloc);
        let mut scope = nothing.with(alloc, &self.play.vars)?;
        for index in 0..self.blocks.len() {
            let head: &'p BlockHead = self.blocks[index];
            scope = scope.with(alloc, &head.vars)?;
        }
        Ok(scope)
    }
}

impl<'p> Site<'p> {
    pub(crate) fn line(&self) -> u32
        ensures { result ≡ (site_view self.now).line }
    {
        match self.thing {
            Thing::Play => self.around.play.line,
            Thing::Block(head) => head.line,
            Thing::Flush(line) => line,
            Thing::Gathering(line) => line,
            Thing::Task(task) => task.line,
            Thing::Handler(_, task) => task.line,
        }
    }

    // The task or handler at the line.
    pub(crate) fn task(&self) -> Option<&'p Task>
        ensures task { option_map (λ t. t.now) result ≡ task_of self.now.thing }
        ensures meaning { option_map (λ t. task_view t.now) result
            ≡ task_at_site (site_view self.now).thing }
    {
        match self.thing {
            Thing::Task(task) => Some(task),
            Thing::Handler(_, task) => Some(task),
            Thing::Play | Thing::Block(_) | Thing::Flush(_) | Thing::Gathering(_) => None,
        }
    }

    // The values of `vars` that are given at the line.
    pub(crate) fn vars(&self) -> &'p [Entry]
        ensures { entries_view result.now ≡ (site_view self.now).vars }
    {
        match self.thing {
            Thing::Play => &self.around.play.vars,
            Thing::Block(head) => &head.vars,
            Thing::Task(task) => &task.vars,
            Thing::Handler(_, task) => &task.vars,
            Thing::Flush(_) | Thing::Gathering(_) => &[],
        }
    }

    // Whether tasks run at the line.
    pub(crate) fn is_task_line(&self) -> bool
        ensures { result ≡ is_task_line (site_view self.now).thing }
    {
        match self.thing {
            Thing::Play | Thing::Block(_) => false,
            Thing::Flush(_) | Thing::Gathering(_) | Thing::Task(_) | Thing::Handler(_, _) => true,
        }
    }

    // The values of `vars` in scope at the line, its own over those round it.
    pub(crate) fn scope(&self, alloc: Global) -> Result<InScope<'p>, AllocError>
        ensures { IfOk result (λ s. HaveSame (in_scope s) (site_view self.now).scope) }
    {
        match self.thing {
            Thing::Play => {
                let nothing = InScope::nothing(alloc);
                nothing.with(alloc, self.vars())
            }
            Thing::Block(_)
            | Thing::Flush(_)
            | Thing::Gathering(_)
            | Thing::Task(_)
            | Thing::Handler(_, _) => {
                let outer = self.around.scope(alloc)?;
                outer.with(alloc, self.vars())
            }
        }
    }
}
