// The variables that a task reads where it stands, and those that it registers or sets.
ghost use Rattle.std.specs.Prelude.{◌++◌, ◌≡◌, IfOk, OnOk, option_map, string_bytes, true};
ghost use Rattle.pb_semantics.specs.Words.{is_among};
ghost use Rattle.pb_language.specs.Expression.{Name};
ghost use Rattle.pb_language.specs.Rules.{option_names, part_names, set_names};
ghost use Rattle.pb_task.specs.Words.{task_view};
ghost use Rattle.pb_template.specs.Words.{entries_view};
ghost use Rattle.pb_transfer.specs.Words.{sets_view};
ghost use Rattle.pb_route.specs.Words.{IsStation, station_task};
ghost use Rattle.pb_reads.specs.Reached.{names_in};
ghost use Rattle.pb_reads.specs.Uses.{Reads, names_set, written_by};

use crate::names::{add_name, names_read};
use crate::task::task_roots;
use pb_route::Station;
use pb_task::{Task, Work};
use pb_template::Entry;
use pb_transfer::Set;
use pb_vars::laws::trees_are_whole;
use std::alloc::{AllocError, Global};
use std::collections::BTreeSet;
use std::sync::Arc;

/// The variables that the task reads, of any host, also through values of `vars`.
///
/// # Errors
///
/// Want of memory.
pub fn reads_of<'s>(
    alloc: Global,
    station: &'s Station<'_>,
) -> Result<BTreeSet<&'s str>, AllocError>
    requires station { IsStation station.now }
    ensures sound { IfOk result (λ ns. (n : Name) → is_among n (names_in ns) ≡ true
        → Reads (station_task station.now) n) }
    ensures whole { IfOk result (λ ns. (n : Name) → Reads (station_task station.now) n
        → is_among n (names_in ns) ≡ true) }
{
    trees_are_whole();
    let roots = task_roots(alloc, station.task, &station.around)?;
    names_read(alloc, &station.vars, roots.as_slice())
}

/// The variables that the task registers or sets.
///
/// # Errors
///
/// Want of memory.
pub fn writes_of<'s>(
    alloc: Global,
    station: &'s Station<'_>,
) -> Result<BTreeSet<&'s str>, AllocError>
    requires station { IsStation station.now }
    ensures { IfOk result (λ ns. (n : Name) → is_among n (names_in ns)
        ≡ is_among n (written_by (station_task station.now))) }
{
    let mut names = BTreeSet::new(alloc);
    add_facts(&mut names, station.facts.as_slice())?;
    add_set_names(&mut names, station.task)?;
    add_register(&mut names, &station.task.register)?;
    Ok(names)
}

fn add_register<'s>(
    names: &mut BTreeSet<&'s str>,
    register: &'s Option<Arc<String>>,
) -> Result<(), AllocError>
    ensures { OnOk result ((n : Name) → is_among n (names_in names.new) ≡ is_among n
        (option_names (option_map (λ r. string_bytes r.value) register.now)
        ++ names_in names.old)) }
{
    match register {
        Some(name) => add_name(names, name.as_str()),
        None => Ok(()),
    }
}

// Adds the names that `set_fact` sets.
fn add_set_names<'s>(names: &mut BTreeSet<&'s str>, task: &'s Task) -> Result<(), AllocError>
    ensures { OnOk result ((n : Name) → is_among n (names_in names.new)
        ≡ is_among n (set_names (task_view task.now).work ++ names_in names.old)) }
{
    match &task.work {
        Work::SetFact => add_entry_names(names, task.arguments.as_slice()),
        Work::Module(_) | Work::Debug | Work::Assert(_) | Work::Fail => Ok(()),
    }
}

fn add_entry_names<'s>(
    names: &mut BTreeSet<&'s str>,
    entries: &'s [Entry],
) -> Result<(), AllocError>
    ensures { OnOk result ((n : Name) → is_among n (names_in names.new)
        ≡ is_among n (part_names (entries_view entries.now) ++ names_in names.old)) }
{
    for entry in entries {
        add_name(names, entry.name.as_str())?;
    }
    Ok(())
}

fn add_facts<'s>(names: &mut BTreeSet<&'s str>, facts: &'s [Set]) -> Result<(), AllocError>
    ensures { OnOk result ((n : Name) → is_among n (names_in names.new)
        ≡ is_among n (names_set (sets_view facts.now) ++ names_in names.old)) }
{
    for fact in facts {
        add_name(names, fact.name.as_str())?;
    }
    Ok(())
}
