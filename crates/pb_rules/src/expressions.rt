// Chains of `vars` (V10), the hosts and groups that are named (V06), and others' values in what is
// made of results (V09).
ghost use Rattle.std.specs.Prelude.{◌≡◌, IfOk, not};
ghost use Rattle.pb_language.specs.Expansion.{trees};
ghost use Rattle.pb_language.specs.Plays.{append_expressions};
ghost use Rattle.pb_language.specs.Rules.{breaks_chains, breaks_give, breaks_known};
ghost use Rattle.pb_language.specs.Rules.{expanded_known, expanded_reads, give_expressions};
ghost use Rattle.pb_language.specs.Rules.{task_expressions};
ghost use Rattle.pb_inventory.specs.Words.{inventory_view};
ghost use Rattle.pb_syntax.specs.Words.{exprs_view};
ghost use Rattle.pb_task.specs.Words.{task_view};
ghost use Rattle.pb_vars.specs.Words.{HaveSame, in_scope};
ghost use Rattle.pb_rules.specs.Sites.{conditions_round, site_view};

use crate::known::IsKnown;
use crate::pattern::has_unknown_word;
use crate::reads::{give_holds, task_holds};
use crate::site::{Around, Site, Thing};
use pb_task::Task;
use pb_vars::{InScope, IsOwn};
use std::alloc::{AllocError, Global};

// Values of `vars` in scope at a task read others in a chain that is too long, or in a cycle.
pub(crate) fn breaks_chains(
    alloc: Global,
    scope: &InScope<'_>,
    site: &Site<'_>,
) -> Result<bool, AllocError>
    requires scope { HaveSame (in_scope scope.now) (site_view site.now).scope }
    ensures { IfOk result (λ b. b ≡ breaks_chains (site_view site.now)) }
{
    if !site.is_task_line() {
        return Ok(false);
    }
    scope.has_long_chain(alloc)
}

// A play's pattern, or what a task reads, names a host or group that isn't there.
pub(crate) fn breaks_known(
    alloc: Global,
    known: &IsKnown<'_>,
    scope: &InScope<'_>,
    site: &Site<'_>,
) -> Result<bool, AllocError>
    requires scope { HaveSame (in_scope scope.now) (site_view site.now).scope }
    ensures { IfOk result (λ b. b ≡ breaks_known (inventory_view known.now.inventory.now)
        (site_view site.now) (site_view site.now).thing) }
{
    match site.thing {
        Thing::Play => has_unknown_word(alloc, known.inventory, &site.around.play.pattern),
        Thing::Task(task) => reads_unknown(alloc, known, scope, &site.around, task),
        Thing::Handler(_, task) => reads_unknown(alloc, known, scope, &site.around, task),
        Thing::Block(_) | Thing::Flush(_) | Thing::Gathering(_) => Ok(false),
    }
}

fn reads_unknown(
    alloc: Global,
    known: &IsKnown<'_>,
    scope: &InScope<'_>,
    around: &Around<'_>,
    task: &Task,
) -> Result<bool, AllocError>
    ensures { IfOk result (λ b. b ≡ not (expanded_known (inventory_view known.now.inventory.now)
        (trees (in_scope scope.now)) (task_expressions (append_expressions
        (conditions_round around.now) (exprs_view task.now.when.items)) (task_view task.now)))) }
{
    let answers = scope.answers(alloc, known)?;
    Ok(!task_holds(scope, &answers, known, around, task))
}

// What is made of a task's result reads `hostvars` or the batch.
pub(crate) fn breaks_give(
    alloc: Global,
    scope: &InScope<'_>,
    site: &Site<'_>,
) -> Result<bool, AllocError>
    requires scope { HaveSame (in_scope scope.now) (site_view site.now).scope }
    ensures { IfOk result (λ b. b ≡ breaks_give (site_view site.now)) }
{
    match site.task() {
        Some(task) => reads_others(alloc, scope, task),
        None => Ok(false),
    }
}

fn reads_others(alloc: Global, scope: &InScope<'_>, task: &Task) -> Result<bool, AllocError>
    ensures { IfOk result (λ b. b
        ≡ expanded_reads (trees (in_scope scope.now)) (give_expressions (task_view task.now))) }
{
    let answers = scope.answers(alloc, &IsOwn)?;
    Ok(!give_holds(scope, &answers, &IsOwn, task))
}
