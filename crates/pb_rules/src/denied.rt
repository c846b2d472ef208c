// Whether a book's tasks read something of which a question doesn't hold.
ghost use Rattle.std.specs.Prelude.{◌≡◌, IfOk, map, not};
ghost use Rattle.pb_language.specs.Expansion.{trees};
ghost use Rattle.pb_language.specs.Plays.{append_expressions};
ghost use Rattle.pb_language.specs.Rules.{task_expressions};
ghost use Rattle.pb_language.specs.Sites.{sites_of};
ghost use Rattle.pb_play.specs.Words.{play_view};
ghost use Rattle.pb_syntax.specs.Words.{exprs_view};
ghost use Rattle.pb_task.specs.Words.{task_view};
ghost use Rattle.pb_vars.specs.Words.{expanded_every_read, in_scope};
ghost use Rattle.pb_rules.specs.Denied.{any_denied, site_denied};
ghost use Rattle.pb_rules.specs.Sites.{conditions_round, site_view};

use crate::reads::task_holds;
use crate::site::{Around, Site, Thing};
use crate::sites::sites_of;
use pb_play::Play;
use pb_task::Task;
use pb_vars::{InScope, Question};
use std::alloc::{AllocError, Global};

// Whether some text of a task reads something of which it doesn't hold, also through values of
// `vars`.
pub(crate) fn any_denied<Q: Question>(
    alloc: Global,
    question: &Q,
    plays: &[Play],
) -> Result<bool, AllocError>
    ensures { IfOk result (λ b. b
        ≡ any_denied (Q.holds question.now) (sites_of (map play_view plays.now))) }
{
    let sites = sites_of(alloc, plays)?;
    any_site_denied(alloc, question, &sites)
}

fn any_site_denied<Q: Question>(
    alloc: Global,
    question: &Q,
    sites: &[Site<'_>],
) -> Result<bool, AllocError>
    ensures { IfOk result (λ b. b
        ≡ any_denied (Q.holds question.now) (map site_view sites.now)) }
{
    for site in sites {
        if site_denied(alloc, question, site)? {
            return Ok(true);
        }
    }
    Ok(false)
}

fn site_denied<Q: Question>(
    alloc: Global,
    question: &Q,
    site: &Site<'_>,
) -> Result<bool, AllocError>
    ensures { IfOk result (λ b. b ≡ site_denied (Q.holds question.now) (site_view site.now)) }
{
    let scope = site.scope(alloc)?;
    match site.thing {
        Thing::Task(task) => task_denied(alloc, question, &scope, &site.around, task),
        Thing::Handler(_, task) => task_denied(alloc, question, &scope, &site.around, task),
        Thing::Play | Thing::Block(_) | Thing::Flush(_) | Thing::Gathering(_) => Ok(false),
    }
}

fn task_denied<Q: Question>(
    alloc: Global,
    question: &Q,
    scope: &InScope<'_>,
    around: &Around<'_>,
    task: &Task,
) -> Result<bool, AllocError>
    ensures { IfOk result (λ b. b ≡ not (expanded_every_read (trees (in_scope scope.now))
        (Q.holds question.now) (task_expressions (append_expressions (conditions_round around.now)
        (exprs_view task.now.when.items)) (task_view task.now)))) }
{
    let answers = scope.answers(alloc, question)?;
    Ok(!task_holds(scope, &answers, question, around, task))
}
