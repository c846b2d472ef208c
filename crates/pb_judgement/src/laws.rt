// What a task stands for does what the task does, and its results are judged as it says.
ghost use Rattle.std.specs.Prelude.{◌≡◌, ℕ};
ghost use Rattle.pb_language.specs.Book.{Registry};
ghost use Rattle.pb_language.specs.Plays.{Surroundings, task_at};
ghost use Rattle.pb_task.specs.Words.{Resolves, task_view};
ghost use Rattle.pb_task.specs.declared.task.Task.{Task};
ghost use Rattle.pb_judgement.specs.Ends.{Does, IsJudgedIn};
ghost use Rattle.pb_judgement.specs.Surrounded.{manner_at};

/// A task in its surroundings does what is read of it, where the module that it calls is the
/// registry's of that name, and its results are judged as it and its surroundings say.
pub fn reads_as_it_does()
    ensures does { (ms : Registry) (s : Surroundings) (p : ℕ) (t : Task) → s.registry ≡ ms
        → Resolves ms t.work → Does t.work (task_at s p (task_view t)) }
    ensures judged { (s : Surroundings) (p : ℕ) (t : Task)
        → IsJudgedIn (manner_at s t) (task_at s p (task_view t)) }
{}
