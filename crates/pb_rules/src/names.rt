// Names that are registered and set don't clash with those that `vars` give, and none is reserved
// (V08).
ghost use Rattle.std.specs.Prelude.{◌++◌, ◌||◌, ◌≡◌, IfOk, OnOk, map, option_map};
ghost use Rattle.pb_semantics.specs.Words.{is_among};
ghost use Rattle.pb_language.specs.Rules.{any_among, breaks_names, part_names, reserved_names};
ghost use Rattle.pb_language.specs.Rules.{set_names, vars_names, written_names};
ghost use Rattle.pb_language.specs.Words.{Name};
ghost use Rattle.pb_template.specs.Words.{entries_view};
ghost use Rattle.pb_task.specs.Words.{task_view, work_view};
ghost use Rattle.std.specs.Str.{bytes_eq};
ghost use Rattle.pb_rules.specs.Names.{names_in, register_names};
ghost use Rattle.pb_rules.specs.Sites.{site_view};

use crate::site::Site;
use pb_inventory::is_reserved;
use pb_task::{Task, Work};
use pb_template::Entry;
use std::alloc::{AllocError, Global};
use std::collections::BTreeSet;

// The names that the `vars` of these lines give.
pub(crate) fn given_names<'p>(
    alloc: Global,
    sites: &[Site<'p>],
) -> Result<BTreeSet<&'p str>, AllocError>
    ensures { IfOk result (λ g. (n : Name) → is_among n (names_in g)
        ≡ is_among n (vars_names (map site_view sites.now))) }
{
    let mut names = BTreeSet::new(alloc);
    for site in sites {
        add_names(&mut names, site.vars())?;
    }
    Ok(names)
}

fn add_names<'p>(names: &mut BTreeSet<&'p str>, entries: &'p [Entry]) -> Result<(), AllocError>
    ensures { OnOk result ((n : Name) → is_among n (names_in names.new)
        ≡ is_among n (names_in names.old) || is_among n (part_names (entries_view entries.now))) }
{
    for entry in entries {
        add_name(names, entry.name.as_str())?;
    }
    Ok(())
}

/// Adds the name to those of the set.
///
/// # Errors
///
/// Want of memory.
pub fn add_name<'p>(names: &mut BTreeSet<&'p str>, name: &'p str) -> Result<(), AllocError>
    ensures { OnOk result ((n : Name) → is_among n (names_in names.new)
        ≡ is_among n (names_in names.old) || bytes_eq n name.now) }
{
    let _ = names.insert(name)?;
    Ok(())
}

// A name is registered or set at the line that is reserved or given by some `vars`, or the line's
// own `vars` give one that is reserved.
pub(crate) fn breaks_names(site: &Site<'_>, given: &BTreeSet<&str>) -> bool
    ensures { result ≡ breaks_names (names_in given.now) (site_view site.now) }
{
    writes_taken(site.task(), given) || gives_reserved(site.vars())
}

fn writes_taken(task: Option<&Task>, given: &BTreeSet<&str>) -> bool
    ensures { result ≡ any_among (written_names (option_map (λ t. task_view t.now) task.entry))
        (reserved_names ++ names_in given.now) }
{
    match task {
        Some(task) => registers_taken(task, given)
            || sets_taken(&task.work, &task.arguments, given),
        None => false,
    }
}

fn registers_taken(task: &Task, given: &BTreeSet<&str>) -> bool
    ensures { result ≡ any_among (register_names (task_view task.now))
        (reserved_names ++ names_in given.now) }
{
    match &task.register {
        Some(name) => is_taken(name.as_str(), given),
        None => false,
    }
}

fn sets_taken(work: &Work, arguments: &[Entry], given: &BTreeSet<&str>) -> bool
    ensures { result ≡ any_among (set_names (work_view work.now (entries_view arguments.now)))
        (reserved_names ++ names_in given.now) }
{
    match work {
        Work::SetFact => any_taken(arguments, given),
        Work::Module(_) | Work::Debug | Work::Assert(_) | Work::Fail => false,
    }
}

fn any_taken(arguments: &[Entry], given: &BTreeSet<&str>) -> bool
    ensures { result ≡ any_among (part_names (entries_view arguments.now))
        (reserved_names ++ names_in given.now) }
{
    for argument in arguments {
        if is_taken(argument.name.as_str(), given) {
            return true;
        }
    }
    false
}

fn is_taken(name: &str, given: &BTreeSet<&str>) -> bool
    ensures { result ≡ is_among name.now (reserved_names ++ names_in given.now) }
{
    is_reserved(name) || given.contains(name)
}

fn gives_reserved(entries: &[Entry]) -> bool
    ensures { result ≡ any_among (part_names (entries_view entries.now)) reserved_names }
{
    for entry in entries {
        if is_reserved(entry.name.as_str()) {
            return true;
        }
    }
    false
}
