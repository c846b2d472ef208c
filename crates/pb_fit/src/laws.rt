// What is asked of conditions in several lists, and which parts of a task are asked what.
ghost use Rattle.std.specs.Prelude.{◌≡◌, ℕ, Bool, Option, option_map, true};
ghost use Rattle.pb_language.specs.Expansion.{all_expanded};
ghost use Rattle.pb_language.specs.Expression.{Expressions};
ghost use Rattle.pb_language.specs.Judgement.{keyword_fault, until_fault};
ghost use Rattle.pb_language.specs.Narrow.{narrow_each};
ghost use Rattle.pb_language.specs.Plays.{Surroundings, action_of, append_expressions};
ghost use Rattle.pb_language.specs.Plays.{expanded_attempts, expanded_list, expanded_option};
ghost use Rattle.pb_language.specs.Plays.{task_with};
ghost use Rattle.pb_language.specs.Scope.{Scope};
ghost use Rattle.pb_language.specs.Task.{Attempts};
ghost use Rattle.pb_language.specs.Words.{conditions_fault, first};
ghost use Rattle.pb_syntax.specs.Words.{Trees, expr_view, exprs_view};
ghost use Rattle.pb_task.specs.Words.{attempts_view, task_view, work_view};
ghost use Rattle.pb_task.specs.declared.task.Task.{Task};
ghost use Rattle.pb_template.specs.Words.{entries_view};

/// Conditions in two lists are asked, and teach, as those of the one list behind the other.
pub fn conditions_follow_each_other()
    ensures fault { (c : Scope) (es fs : Expressions)
        → conditions_fault c (append_expressions es fs)
        ≡ first (conditions_fault c es) (conditions_fault (narrow_each c es true) fs) }
    ensures taught { (c : Scope) (es fs : Expressions) (a : Bool)
        → narrow_each c (append_expressions es fs) a ≡ narrow_each (narrow_each c es a) fs a }
    ensures expanded { (f : Trees) (es fs : Expressions)
        → all_expanded f (append_expressions es fs)
        ≡ append_expressions (all_expanded f es) (all_expanded f fs) }
{}

/// `until` is asked as a keyword that judges an answer.
pub fn until_is_asked_as_a_keyword()
    ensures { (c : Scope) (f : Trees) (o : Option Attempts)
        → until_fault c (expanded_attempts f o)
        ≡ keyword_fault c (expanded_list f (option_map (λ a. a.until) o)) }
{}

/// A task in its surroundings is asked what is read of its parts, the conditions round it before
/// its own.
pub fn tasks_are_asked_by_their_parts()
    ensures does { (s : Surroundings) (p : ℕ) (t : Task) (f : Trees)
        → (task_with s p (task_view t) f).action
        ≡ action_of s.registry f (work_view t.work (entries_view t.arguments.items)) }
    ensures conditions { (s : Surroundings) (p : ℕ) (t : Task) (f : Trees)
        → (task_with s p (task_view t) f).conditions
        ≡ append_expressions (all_expanded f s.conditions)
        (all_expanded f (exprs_view t.when.items)) }
    ensures loops { (s : Surroundings) (p : ℕ) (t : Task) (f : Trees)
        → (task_with s p (task_view t) f).loop
        ≡ expanded_option f (option_map expr_view t.loop_over) }
    ensures changed { (s : Surroundings) (p : ℕ) (t : Task) (f : Trees)
        → (task_with s p (task_view t) f).changed_when
        ≡ expanded_list f (option_map (λ es. exprs_view es.items) t.changed_when) }
    ensures failed { (s : Surroundings) (p : ℕ) (t : Task) (f : Trees)
        → (task_with s p (task_view t) f).failed_when
        ≡ expanded_list f (option_map (λ es. exprs_view es.items) t.failed_when) }
    ensures repeats { (s : Surroundings) (p : ℕ) (t : Task) (f : Trees)
        → (task_with s p (task_view t) f).attempts
        ≡ expanded_attempts f (option_map attempts_view t.attempts) }
{}
