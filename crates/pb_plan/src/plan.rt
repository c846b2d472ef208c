// The plans of a book that was accepted.
ghost use Rattle.std.specs.Prelude.{[], ◌≡◌, ◌≤◌, All, IfOk, length, map};
ghost use Rattle.pb_semantics.specs.Limits.{most_play_steps};
ghost use Rattle.pb_language.specs.Book.{Registry};
ghost use Rattle.pb_language.specs.Expression.{Name};
ghost use Rattle.pb_language.specs.Sites.{steps_of};
ghost use Rattle.pb_sig.specs.Modules.{modules_of};
ghost use Rattle.pb_play.specs.Plays.{play_view};
ghost use Rattle.pb_play.specs.Sound.{AreSound, all_tasks};
ghost use Rattle.pb_book.specs.Books.{book_view};
ghost use Rattle.pb_reads.specs.Reached.{names_in};
ghost use Rattle.pb_slots.specs.Words.{names_of_slots};
ghost use Rattle.pb_steps.specs.Nodes.{AreNodes};
ghost use Rattle.pb_steps.specs.Uses.{Adds, Among};
ghost use Rattle.pb_steps.specs.Words.{plan_view, play_plan};
ghost use Rattle.pb_verify.specs.Scenes.{AllGather};
ghost use Rattle.pb_plan.specs.Nodes.{AreNodesOf, AreTasksOf, AreUsesOf, SomeNodesUse};
ghost use Rattle.pb_plan.specs.Plays.{AllPrepared, AllUsed, SomePlayUses};

use pb_play::Play;
use pb_slots::Slots;
use pb_start::Prepared;
use pb_steps::{PlayNodes, PlaySteps};
use pb_task::Task;
use pb_verify::{Checked, gathering_at, gathering_tasks};
use std::alloc::{AllocError, Global};
use std::collections::BTreeSet;

/// The plan of each play, in the order of the book, with the tasks of its steps as they run; and
/// the slots of the book's variables.
#[derive(Drop)]
pub struct Plan {
    pub plays: Vec<PlaySteps>,
    /// Of each play its tasks, in the order of its steps.
    pub tasks: Vec<Vec<Prepared>>,
    pub slots: Slots,
}

impl Plan {
    /// The plan of each play of a book that was accepted. A variable has a slot where some step
    /// reads, registers or sets it, of whatever host.
    ///
    /// # Errors
    ///
    /// Want of memory.
    pub fn of(alloc: Global, checked: &Checked) -> Result<Plan, AllocError>
        ensures plays { IfOk result (λ p. map plan_view p.plays.items
            ≡ map (play_plan (modules_of checked.now.registry)) (book_view checked.now.book)) }
        ensures uses { IfOk result (λ p. AllUsed (modules_of checked.now.registry)
            (names_of_slots p.slots) p.plays.items (book_view checked.now.book)) }
        ensures tasks { IfOk result (λ p. AllPrepared (modules_of checked.now.registry)
            p.tasks.items (book_view checked.now.book)) }
        ensures handlers { IfOk result (λ p. map (λ s. s.handlers) p.plays.items
            ≡ map (λ q. length q.handlers) (book_view checked.now.book)) }
        ensures whole { IfOk result (λ p. (n : Name)
            → SomePlayUses (modules_of checked.now.registry) (book_view checked.now.book) n
            → Among (names_of_slots p.slots) n) }
        ensures sound { IfOk result (λ p. (n : Name) → Among (names_of_slots p.slots) n
            → SomePlayUses (modules_of checked.now.registry) (book_view checked.now.book) n) }
    {
        checked.budget();
        let plays = checked.book().plays();
        let gathering = gathering_tasks(alloc, checked.registry(), plays)?;
        let nodes = nodes_of_plays(alloc, plays, &gathering)?;
        let slots = slots_of_plays(alloc, &nodes)?;
        let tasks = tasks_of_plays(alloc, &nodes, &slots)?;
        let plays = steps_of_plays(alloc, nodes, &slots)?;
        Ok(Plan {
            plays,
            tasks,
            slots,
        })
    }
}

fn nodes_of_plays<'p>(
    alloc: Global,
    plays: &'p [Play],
    gathering: &'p [Option<Task>],
) -> Result<Vec<PlayNodes<'p>>, AllocError>
    requires few { All (λ p. steps_of (play_view p) ≤ most_play_steps) plays.now }
    ensures nodes { IfOk result (λ ns. All AreNodes ns.items) }
    ensures plays { IfOk result (λ ns. (ms : Registry) → AreSound ms (all_tasks plays.now)
        → AllGather ms plays.now gathering.now → AreNodesOf ms plays.now ns.items) }
{
    let mut nodes = Vec::with_capacity(alloc, plays.len())?;
    for (index, play) in plays.iter().enumerate() {
        let task = gathering_at(gathering, index);
        nodes.push(PlayNodes::of(alloc, play, task)?)?;
    }
    Ok(nodes)
}

fn slots_of_plays(alloc: Global, plays: &[PlayNodes<'_>]) -> Result<Slots, AllocError>
    requires nodes { All AreNodes plays.now }
    ensures { IfOk result (λ s. Adds (SomeNodesUse plays.now) [] (names_of_slots s)) }
{
    let mut names = BTreeSet::new(alloc);
    for nodes in plays {
        nodes.add_names(alloc, &mut names)?;
    }
    Slots::of(alloc, &names)
}

fn tasks_of_plays(
    alloc: Global,
    plays: &[PlayNodes<'_>],
    slots: &Slots,
) -> Result<Vec<Vec<Prepared>>, AllocError>
    requires nodes { All AreNodes plays.now }
    ensures { IfOk result (λ ts. (ms : Registry) → AreTasksOf ms ts.items plays.now) }
{
    let mut tasks = Vec::with_capacity(alloc, plays.len())?;
    for nodes in plays {
        let prepared = nodes.prepared(alloc, slots)?;
        tasks.push(prepared)?;
    }
    Ok(tasks)
}

fn steps_of_plays(
    alloc: Global,
    plays: Vec<PlayNodes<'_>>,
    slots: &Slots,
) -> Result<Vec<PlaySteps>, AllocError>
    requires nodes { All AreNodes plays.items }
    ensures plans { IfOk result (λ ps. (ms : Registry) → map plan_view ps.items
        ≡ map (λ n. play_plan ms (play_view n.play.now)) plays.entry.items) }
    ensures uses { IfOk result (λ ps. (ms : Registry)
        → AreUsesOf ms (names_of_slots slots.now) ps.items plays.entry.items) }
    ensures handlers { IfOk result (λ ps. map (λ s. s.handlers) ps.items
        ≡ map (λ n. length n.play.now.handlers.items) plays.entry.items) }
{
    let mut planned = Vec::with_capacity(alloc, plays.len())?;
    for nodes in plays {
        planned.push(PlaySteps::of(alloc, nodes, slots)?)?;
    }
    Ok(planned)
}
