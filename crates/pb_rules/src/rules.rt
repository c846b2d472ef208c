// The first rule that a book breaks.
ghost use Rattle.std.specs.Prelude.{◌≡◌, IfOk, map, option_map};
ghost use Rattle.pb_language.specs.Book.{Registry as Modules};
ghost use Rattle.pb_language.specs.Rules.{rules_offence};
ghost use Rattle.pb_inventory.specs.Words.{inventory_view};
ghost use Rattle.pb_play.specs.Words.{AreSound, all_tasks, play_view};
ghost use Rattle.pb_sig.specs.Words.{modules_of};
ghost use Rattle.pb_rules.specs.Broken.{broken_at, first_broken, refusal_of, site_broken, sooner};
ghost use Rattle.pb_rules.specs.Names.{names_in};
ghost use Rattle.pb_rules.specs.Rules.{all_asked, steps_broken};
ghost use Rattle.pb_rules.specs.Sites.{IsResolvedThere, site_view, task_of, tasks_at};

use crate::broken::{Broken, Rule, sooner};
use crate::expressions::{breaks_chains, breaks_give, breaks_known};
use crate::known::IsKnown;
use crate::names::{breaks_names, given_names};
use crate::notify::{breaks_notify, breaks_order};
use crate::parameters::breaks_parameters;
use crate::site::Site;
use crate::sites::sites_of;
use crate::steps::line_past_steps;
use pb_inventory::Inventory;
use pb_play::Play;
use pb_sig::Registry;
use std::alloc::{AllocError, Global};
use std::collections::BTreeSet;

/// The first rule that a book breaks: the least line, and on one line the first in the order of
/// `Rule`. For each task the values of `vars` in scope are put together anew; for each of V10, V06
/// and V09 it then goes over them as often as their longest chain has names, and once more.
///
/// # Errors
///
/// Want of memory.
pub fn first_broken(
    alloc: Global,
    registry: &Registry,
    inventory: &Inventory,
    plays: &[Play],
) -> Result<Option<Broken>, AllocError>
    requires resolved { AreSound (modules_of registry.now) (all_tasks plays.now) }
    ensures { IfOk result (λ o. option_map refusal_of o ≡ rules_offence (modules_of registry.now)
        (inventory_view inventory.now) (map play_view plays.now)) }
{
    let sites = sites_of(alloc, plays)?;
    let given = given_names(alloc, &sites)?;
    let known = IsKnown::of(alloc, inventory)?;
    let found = first_at(alloc, &known, &given, &sites)?;
    Ok(with_steps(line_past_steps(plays), found))
}

// V13 too, at the line of the play that is the first past its steps.
fn with_steps(past: Option<u32>, found: Option<Broken>) -> Option<Broken>
    ensures { result ≡ sooner (steps_broken past) found }
{
    match past {
        Some(line) => sooner(
            Some(Broken {
                line,
                rule: Rule::Steps,
            }),
            found,
        ),
        None => found,
    }
}

fn first_at(
    alloc: Global,
    known: &IsKnown<'_>,
    given: &BTreeSet<&str>,
    sites: &[Site<'_>],
) -> Result<Option<Broken>, AllocError>
    ensures { IfOk result (λ o. (ms : Modules) → AreSound ms (tasks_at sites.now)
        → o ≡ first_broken (all_asked ms (inventory_view known.now.inventory.now)
        (names_in given.now)) (map site_view sites.now)) }
{
    let mut first = None;
    for site in sites {
        let broken = broken_at(alloc, known, given, site)?;
        first = sooner(first, broken);
    }
    Ok(first)
}

fn broken_at(
    alloc: Global,
    known: &IsKnown<'_>,
    given: &BTreeSet<&str>,
    site: &Site<'_>,
) -> Result<Option<Broken>, AllocError>
    ensures { IfOk result (λ o. (ms : Modules) → IsResolvedThere ms (task_of site.now.thing)
        → o ≡ broken_at (site_view site.now).line
        (site_broken (all_asked ms (inventory_view known.now.inventory.now) (names_in given.now))
        (site_view site.now))) }
{
    let line = site.line();
    match rule_at(alloc, known, given, site)? {
        Some(rule) => Ok(Some(Broken { line, rule })),
        None => Ok(None),
    }
}

// The first rule that is broken there.
fn rule_at(
    alloc: Global,
    known: &IsKnown<'_>,
    given: &BTreeSet<&str>,
    site: &Site<'_>,
) -> Result<Option<Rule>, AllocError>
    ensures { IfOk result (λ o. (ms : Modules) → IsResolvedThere ms (task_of site.now.thing)
        → o ≡ site_broken (all_asked ms (inventory_view known.now.inventory.now)
        (names_in given.now)) (site_view site.now)) }
{
    if breaks_parameters(site) {
        return Ok(Some(Rule::Parameters));
    }
    if breaks_names(site, given) {
        return Ok(Some(Rule::Names));
    }
    let scope = site.scope(alloc)?;
    if breaks_chains(alloc, &scope, site)? {
        return Ok(Some(Rule::Chains));
    }
    if breaks_known(alloc, known, &scope, site)? {
        return Ok(Some(Rule::Known));
    }
    if breaks_notify(site) {
        return Ok(Some(Rule::Notified));
    }
    if breaks_order(site) {
        return Ok(Some(Rule::Order));
    }
    if breaks_give(alloc, &scope, site)? {
        return Ok(Some(Rule::Own));
    }
    Ok(None)
}
