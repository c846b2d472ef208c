// The roots of what a task reads where it stands.
ghost use Rattle.std.specs.Prelude.{◌++◌, ◌≡◌, IfOk, OnOk, codes, option_map};
ghost use Rattle.pb_language.specs.Book.{Registry};
ghost use Rattle.pb_language.specs.Expression.{Parts};
ghost use Rattle.pb_language.specs.Plays.{append_expressions};
ghost use Rattle.pb_language.specs.Expansion.{part_named};
ghost use Rattle.pb_language.specs.Rules.{asserted_expressions, give_expressions};
ghost use Rattle.pb_language.specs.Rules.{list_expressions, option_expressions, part_expressions};
ghost use Rattle.pb_language.specs.Rules.{until_expressions};
ghost use Rattle.pb_syntax.specs.Words.{expr_view, exprs_view};
ghost use Rattle.pb_template.specs.Words.{entries_view};
ghost use Rattle.pb_task.specs.Words.{asserted_view, attempts_view, task_view, work_view};
ghost use Rattle.pb_flow.specs.Words.{around_view};
ghost use Rattle.pb_reads.specs.Done.{done_expressions, evaluated};
ghost use Rattle.pb_reads.specs.Roots.{all_roots};
ghost use Rattle.pb_reads.specs.Round.{conditions_round};
ghost use Rattle.pb_reads.specs.RootsView.{roots_view};

use crate::roots::{put_all_roots, put_roots};
use pb_flow::Around;
use pb_syntax::{Expr, Root};
use pb_task::{Asserted, Attempts, Task, Work};
use pb_template::{Entry, value_named};
use std::alloc::{AllocError, Global};

/// The roots of all that the task evaluates: its list, the conditions round it and its own, its
/// work, and what is made of the result.
///
/// # Errors
///
/// Want of memory.
pub fn task_roots<'p>(
    alloc: Global,
    task: &'p Task,
    around: &Around<'p>,
) -> Result<Vec<&'p Root>, AllocError>
    ensures { IfOk result (λ rs. (ms : Registry) (vars : Parts) → roots_view rs.items
        ≡ all_roots (evaluated
        (append_expressions (around_view ms vars around.now).conditions
        (exprs_view task.now.when.items)) (task_view task.now))) }
{
    let mut roots = Vec::new(alloc);
    put_option_roots(&task.loop_over, &mut roots)?;
    put_condition_roots(task, around, &mut roots)?;
    put_done_roots(task, &mut roots)?;
    Ok(roots)
}

// Those of the conditions round a task, and of its own.
fn put_condition_roots<'p>(
    task: &'p Task,
    around: &Around<'p>,
    roots: &mut Vec<&'p Root>,
) -> Result<(), AllocError>
    ensures { OnOk result (roots_view roots.new.items ≡ roots_view roots.old.items
        ++ all_roots (append_expressions (conditions_round around.now)
        (exprs_view task.now.when.items))) }
{
    put_block_roots(around, roots)?;
    put_all_roots(&task.when, roots)
}

// Those of the conditions of the blocks.
fn put_block_roots<'p>(around: &Around<'p>, roots: &mut Vec<&'p Root>) -> Result<(), AllocError>
    ensures { OnOk result (roots_view roots.new.items
        ≡ roots_view roots.old.items ++ all_roots (conditions_round around.now)) }
{
    for head in &around.blocks {
        put_all_roots(&head.when, roots)?;
    }
    Ok(())
}

// Those of its work, and of what is made of the result.
fn put_done_roots<'p>(task: &'p Task, roots: &mut Vec<&'p Root>) -> Result<(), AllocError>
    ensures { OnOk result (roots_view roots.new.items ≡ roots_view roots.old.items
        ++ all_roots (append_expressions (done_expressions (task_view task.now).work)
        (give_expressions (task_view task.now)))) }
{
    put_work_roots(&task.work, &task.arguments, roots)?;
    put_give_roots(task, roots)
}

fn put_work_roots<'p>(
    work: &'p Work,
    arguments: &'p [Entry],
    roots: &mut Vec<&'p Root>,
) -> Result<(), AllocError>
    ensures { OnOk result (roots_view roots.new.items ≡ roots_view roots.old.items
        ++ all_roots (done_expressions (work_view work.now (entries_view arguments.now)))) }
{
    match work {
        Work::Module(_) | Work::SetFact => put_entry_roots(arguments, roots),
        Work::Debug | Work::Fail => put_value_roots(arguments, "msg", roots),
        Work::Assert(asserted) => put_assert_roots(asserted, arguments, roots),
    }
}

fn put_assert_roots<'p>(
    asserted: &'p Asserted,
    arguments: &'p [Entry],
    roots: &mut Vec<&'p Root>,
) -> Result<(), AllocError>
    ensures { OnOk result (roots_view roots.new.items ≡ roots_view roots.old.items
        ++ all_roots (append_expressions (asserted_expressions (asserted_view asserted.now))
        (option_expressions (part_named (codes "fail_msg") (entries_view arguments.now))))) }
{
    put_asserted_roots(asserted, roots)?;
    put_value_roots(arguments, "fail_msg", roots)
}

// Those of the argument of that name, where it is given.
fn put_value_roots<'p>(
    arguments: &'p [Entry],
    name: &str,
    roots: &mut Vec<&'p Root>,
) -> Result<(), AllocError>
    ensures { OnOk result (roots_view roots.new.items ≡ roots_view roots.old.items ++ all_roots
        (option_expressions (part_named name.now (entries_view arguments.now)))) }
{
    match value_named(arguments, name) {
        Some(value) => put_roots(value, roots),
        None => Ok(()),
    }
}

fn put_asserted_roots<'p>(
    asserted: &'p Asserted,
    roots: &mut Vec<&'p Root>,
) -> Result<(), AllocError>
    ensures { OnOk result (roots_view roots.new.items ≡ roots_view roots.old.items
        ++ all_roots (asserted_expressions (asserted_view asserted.now))) }
{
    match asserted {
        Asserted::Conditions(conditions) => put_all_roots(conditions, roots),
        Asserted::NotGiven | Asserted::Malformed => Ok(()),
    }
}

// Those of `changed_when`, `failed_when` and `until`.
fn put_give_roots<'p>(task: &'p Task, roots: &mut Vec<&'p Root>) -> Result<(), AllocError>
    ensures { OnOk result (roots_view roots.new.items ≡ roots_view roots.old.items
        ++ all_roots (give_expressions (task_view task.now))) }
{
    put_list_roots(&task.changed_when, roots)?;
    put_ending_roots(task, roots)
}

fn put_ending_roots<'p>(task: &'p Task, roots: &mut Vec<&'p Root>) -> Result<(), AllocError>
    ensures { OnOk result (roots_view roots.new.items ≡ roots_view roots.old.items
        ++ all_roots (append_expressions (list_expressions (task_view task.now).failed_when)
        (until_expressions (task_view task.now).attempts))) }
{
    put_list_roots(&task.failed_when, roots)?;
    put_until_roots(&task.attempts, roots)
}

fn put_until_roots<'p>(
    attempts: &'p Option<Attempts>,
    roots: &mut Vec<&'p Root>,
) -> Result<(), AllocError>
    ensures { OnOk result (roots_view roots.new.items ≡ roots_view roots.old.items
        ++ all_roots (until_expressions (option_map attempts_view attempts.now))) }
{
    match attempts {
        Some(attempts) => put_all_roots(&attempts.until, roots),
        None => Ok(()),
    }
}

fn put_list_roots<'p>(
    exprs: &'p Option<Vec<Expr>>,
    roots: &mut Vec<&'p Root>,
) -> Result<(), AllocError>
    ensures { OnOk result (roots_view roots.new.items ≡ roots_view roots.old.items ++ all_roots
        (list_expressions (option_map (λ es. exprs_view es.items) exprs.now))) }
{
    match exprs {
        Some(exprs) => put_all_roots(exprs, roots),
        None => Ok(()),
    }
}

fn put_option_roots<'p>(expr: &'p Option<Expr>, roots: &mut Vec<&'p Root>) -> Result<(), AllocError>
    ensures { OnOk result (roots_view roots.new.items ≡ roots_view roots.old.items
        ++ all_roots (option_expressions (option_map expr_view expr.now))) }
{
    match expr {
        Some(expr) => put_roots(expr, roots),
        None => Ok(()),
    }
}

fn put_entry_roots<'p>(entries: &'p [Entry], roots: &mut Vec<&'p Root>) -> Result<(), AllocError>
    ensures { OnOk result (roots_view roots.new.items ≡ roots_view roots.old.items
        ++ all_roots (part_expressions (entries_view entries.now))) }
{
    for entry in entries {
        put_roots(&entry.value, roots)?;
    }
    Ok(())
}
