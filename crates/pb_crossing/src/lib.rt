// Which types may go to another thread and be shared with one: each law by name.
#![tactic(auto)]

ghost use Rattle.std.specs.Thread.{IsSend, IsSync};
ghost use denote.Ref.{NamedLft};
ghost use Rattle.pb_value.specs.contracts.value.Value as value;
ghost use Rattle.pb_kind.specs.contracts.kind.Kind as kind;
ghost use Rattle.pb_syntax.specs.contracts.expr.Expr as expression;
ghost use Rattle.pb_sig.specs.contracts.registry.Registry as registry;
ghost use Rattle.pb_task.specs.contracts.task.Task as task;
ghost use Rattle.pb_play.specs.contracts.play.Play as play;
ghost use Rattle.pb_book.specs.contracts.book.Book as book;
ghost use Rattle.pb_inventory.specs.contracts.inventory.Inventory as inventory;
ghost use Rattle.pb_verify.specs.contracts.checked.Checked as checked;
ghost use Rattle.pb_facts.specs.contracts.facts.Facts as facts;
ghost use Rattle.pb_finish.specs.contracts.answer.Answer as answer;
ghost use Rattle.pb_jobs.specs.contracts.job.Job as job;
ghost use Rattle.pb_core.specs.contracts.batch.Schedule as schedule;
ghost use Rattle.pb_jobs.specs.contracts.machine.Machine as machine;
ghost use Rattle.pb_executor.specs.contracts.run.Run as run;

/// A value may go to another thread, and be shared with one.
#[tactic(auto, using(crate::proofs::ValuesCross::crosses))]
pub fn values_cross()
    ensures goes { IsSend value.the_row }
    ensures shared { IsSync value.the_row }
{}

/// A kind may go to another thread, and be shared with one.
#[tactic(auto, using(crate::proofs::KindsCross::crosses))]
pub fn kinds_cross()
    ensures goes { IsSend kind.the_row }
    ensures shared { IsSync kind.the_row }
{}

/// An expression may go to another thread, and be shared with one.
#[tactic(auto, using(crate::proofs::ExpressionsCross::crosses))]
pub fn expressions_cross()
    ensures goes { IsSend expression.the_row }
    ensures shared { IsSync expression.the_row }
{}

/// The modules of a run may go to another thread, and be shared with one.
#[tactic(auto, using(crate::proofs::ModulesCross::crosses))]
pub fn registries_cross()
    ensures goes { IsSend registry.the_row }
    ensures shared { IsSync registry.the_row }
{}

/// A task may go to another thread, and be shared with one.
#[tactic(auto, using(crate::proofs::TasksCross::crosses))]
pub fn tasks_cross()
    ensures goes { IsSend task.the_row }
    ensures shared { IsSync task.the_row }
{}

/// A play may go to another thread, and be shared with one.
#[tactic(auto, using(crate::proofs::PlaysCross::crosses))]
pub fn plays_cross()
    ensures goes { IsSend play.the_row }
    ensures shared { IsSync play.the_row }
{}

/// A book may go to another thread, and be shared with one.
#[tactic(auto, using(crate::proofs::BooksCross::crosses))]
pub fn books_cross()
    ensures goes { IsSend book.the_row }
    ensures shared { IsSync book.the_row }
{}

/// An inventory may go to another thread, and be shared with one.
#[tactic(auto, using(crate::proofs::InventoriesCross::crosses))]
pub fn inventories_cross()
    ensures goes { IsSend inventory.the_row }
    ensures shared { IsSync inventory.the_row }
{}

/// A book that was accepted may go to another thread, and be shared with one.
#[tactic(auto, using(crate::proofs::CheckedCross::crosses))]
pub fn accepted_cross()
    ensures goes { IsSend checked.the_row }
    ensures shared { IsSync checked.the_row }
{}

/// What the hosts of a run hold may go to another thread, and be shared with one.
#[tactic(auto, using(crate::proofs::FactsCross::crosses))]
pub fn facts_cross()
    ensures goes { IsSend facts.the_row }
    ensures shared { IsSync facts.the_row }
{}

/// An answer of a module may go to another thread, and be shared with one.
#[tactic(auto, using(crate::proofs::AnswersCross::crosses))]
pub fn answers_cross()
    ensures goes { IsSend answer.the_row }
    ensures shared { IsSync answer.the_row }
{}

/// A job may go to another thread, and be shared with one.
#[tactic(auto, using(crate::proofs::AnswersCross::crosses))]
pub fn jobs_cross()
    ensures goes { IsSend job.the_row }
    ensures shared { IsSync job.the_row }
{}

/// What a run goes through may go to another thread, and be shared with one.
#[tactic(auto, using(crate::proofs::SchedulesCross::crosses))]
pub fn schedules_cross()
    ensures goes { IsSend schedule.the_row }
    ensures shared { IsSync schedule.the_row }
{}

/// The machine of a run may go to another thread, and be shared with one.
#[tactic(auto, using(crate::proofs::MachinesCross::crosses))]
pub fn machines_cross()
    ensures goes { (life : NamedLft) → IsSend (machine.the_row life) }
    ensures shared { (life : NamedLft) → IsSync (machine.the_row life) }
{}

/// A run may go to another thread, and be shared with one.
pub fn runs_cross()
    ensures goes { (life : NamedLft) → IsSend (run.the_row life) }
    ensures shared { (life : NamedLft) → IsSync (run.the_row life) }
{}
