// Whether all that expressions of tasks read answers a question, also through names of `vars`.
ghost use Rattle.std.specs.Prelude.{◌≡◌, option_map};
ghost use Rattle.pb_language.specs.Expansion.{trees};
ghost use Rattle.pb_language.specs.Plays.{append_expressions};
ghost use Rattle.pb_language.specs.Rules.{asserted_expressions, give_expressions};
ghost use Rattle.pb_language.specs.Rules.{list_expressions, option_expressions, part_expressions};
ghost use Rattle.pb_language.specs.Rules.{task_expressions, until_expressions, work_expressions};
ghost use Rattle.pb_syntax.specs.Words.{expr_view, exprs_view};
ghost use Rattle.pb_template.specs.Words.{entries_view};
ghost use Rattle.pb_task.specs.Words.{asserted_view, attempts_view, task_view, work_view};
ghost use Rattle.pb_vars.specs.Words.{AreAnswers, expanded_every_read, in_scope};
ghost use Rattle.pb_rules.specs.Sites.{conditions_round};

use crate::site::Around;
use pb_syntax::Expr;
use pb_task::{Asserted, Attempts, Task, Work};
use pb_template::Entry;
use pb_vars::{Answers, InScope, Question};

// All that a task reads: its list, the conditions round it and its own, its work, and what is made
// of the result.
pub(crate) fn task_holds<Q: Question>(
    scope: &InScope<'_>,
    answers: &Answers,
    question: &Q,
    around: &Around<'_>,
    task: &Task,
) -> bool
    requires answered { AreAnswers (in_scope scope.now) (Q.holds question.now) answers.now }
    ensures { result ≡ expanded_every_read (trees (in_scope scope.now)) (Q.holds question.now)
        (task_expressions (append_expressions (conditions_round around.now)
        (exprs_view task.now.when.items)) (task_view task.now)) }
{
    if !option_holds(scope, answers, question, &task.loop_over) {
        return false;
    }
    if !conditions_hold(scope, answers, question, around, task) {
        return false;
    }
    work_holds(scope, answers, question, &task.work, &task.arguments)
        && give_holds(scope, answers, question, task)
}

// What `changed_when`, `failed_when` and `until` read.
pub(crate) fn give_holds<Q: Question>(
    scope: &InScope<'_>,
    answers: &Answers,
    question: &Q,
    task: &Task,
) -> bool
    requires answered { AreAnswers (in_scope scope.now) (Q.holds question.now) answers.now }
    ensures { result ≡ expanded_every_read (trees (in_scope scope.now)) (Q.holds question.now)
        (give_expressions (task_view task.now)) }
{
    if !list_holds(scope, answers, question, &task.changed_when) {
        return false;
    }
    list_holds(scope, answers, question, &task.failed_when)
        && until_holds(scope, answers, question, &task.attempts)
}

// The conditions round a task, and its own.
fn conditions_hold<Q: Question>(
    scope: &InScope<'_>,
    answers: &Answers,
    question: &Q,
    around: &Around<'_>,
    task: &Task,
) -> bool
    requires answered { AreAnswers (in_scope scope.now) (Q.holds question.now) answers.now }
    ensures { result ≡ expanded_every_read (trees (in_scope scope.now)) (Q.holds question.now)
        (append_expressions (conditions_round around.now) (exprs_view task.now.when.items)) }
{
    round_holds(scope, answers, question, around) && all_hold(scope, answers, question, &task.when)
}

// The conditions of the blocks.
fn round_holds<Q: Question>(
    scope: &InScope<'_>,
    answers: &Answers,
    question: &Q,
    around: &Around<'_>,
) -> bool
    requires answered { AreAnswers (in_scope scope.now) (Q.holds question.now) answers.now }
    ensures { result ≡ expanded_every_read (trees (in_scope scope.now)) (Q.holds question.now)
        (conditions_round around.now) }
{
    for head in &around.blocks {
        if !all_hold(scope, answers, question, &head.when) {
            return false;
        }
    }
    true
}

fn work_holds<Q: Question>(
    scope: &InScope<'_>,
    answers: &Answers,
    question: &Q,
    work: &Work,
    arguments: &[Entry],
) -> bool
    requires answered { AreAnswers (in_scope scope.now) (Q.holds question.now) answers.now }
    ensures { result ≡ expanded_every_read (trees (in_scope scope.now)) (Q.holds question.now)
        (work_expressions (work_view work.now (entries_view arguments.now))) }
{
    match work {
        Work::Assert(asserted) => {
            entries_hold(scope, answers, question, arguments)
                && asserted_holds(scope, answers, question, asserted)
        }
        Work::Module(_) | Work::Debug | Work::SetFact | Work::Fail => {
            entries_hold(scope, answers, question, arguments)
        }
    }
}

fn asserted_holds<Q: Question>(
    scope: &InScope<'_>,
    answers: &Answers,
    question: &Q,
    asserted: &Asserted,
) -> bool
    requires answered { AreAnswers (in_scope scope.now) (Q.holds question.now) answers.now }
    ensures { result ≡ expanded_every_read (trees (in_scope scope.now)) (Q.holds question.now)
        (asserted_expressions (asserted_view asserted.now)) }
{
    match asserted {
        Asserted::Conditions(conditions) => all_hold(scope, answers, question, conditions),
        Asserted::NotGiven | Asserted::Malformed => true,
    }
}

fn until_holds<Q: Question>(
    scope: &InScope<'_>,
    answers: &Answers,
    question: &Q,
    attempts: &Option<Attempts>,
) -> bool
    requires answered { AreAnswers (in_scope scope.now) (Q.holds question.now) answers.now }
    ensures { result ≡ expanded_every_read (trees (in_scope scope.now)) (Q.holds question.now)
        (until_expressions (option_map attempts_view attempts.now)) }
{
    match attempts {
        Some(attempts) => all_hold(scope, answers, question, &attempts.until),
        None => true,
    }
}

fn list_holds<Q: Question>(
    scope: &InScope<'_>,
    answers: &Answers,
    question: &Q,
    exprs: &Option<Vec<Expr>>,
) -> bool
    requires answered { AreAnswers (in_scope scope.now) (Q.holds question.now) answers.now }
    ensures { result ≡ expanded_every_read (trees (in_scope scope.now)) (Q.holds question.now)
        (list_expressions (option_map (λ es. exprs_view es.items) exprs.now)) }
{
    match exprs {
        Some(exprs) => all_hold(scope, answers, question, exprs),
        None => true,
    }
}

fn option_holds<Q: Question>(
    scope: &InScope<'_>,
    answers: &Answers,
    question: &Q,
    expr: &Option<Expr>,
) -> bool
    requires answered { AreAnswers (in_scope scope.now) (Q.holds question.now) answers.now }
    ensures { result ≡ expanded_every_read (trees (in_scope scope.now)) (Q.holds question.now)
        (option_expressions (option_map expr_view expr.now)) }
{
    match expr {
        Some(expr) => scope.holds(question, answers, expr),
        None => true,
    }
}

fn entries_hold<Q: Question>(
    scope: &InScope<'_>,
    answers: &Answers,
    question: &Q,
    entries: &[Entry],
) -> bool
    requires answered { AreAnswers (in_scope scope.now) (Q.holds question.now) answers.now }
    ensures { result ≡ expanded_every_read (trees (in_scope scope.now)) (Q.holds question.now)
        (part_expressions (entries_view entries.now)) }
{
    for entry in entries {
        if !scope.holds(question, answers, &entry.value) {
            return false;
        }
    }
    true
}

fn all_hold<Q: Question>(
    scope: &InScope<'_>,
    answers: &Answers,
    question: &Q,
    exprs: &[Expr],
) -> bool
    requires answered { AreAnswers (in_scope scope.now) (Q.holds question.now) answers.now }
    ensures { result ≡ expanded_every_read (trees (in_scope scope.now)) (Q.holds question.now)
        (exprs_view exprs.now) }
{
    for expr in exprs {
        if !scope.holds(question, answers, expr) {
            return false;
        }
    }
    true
}
