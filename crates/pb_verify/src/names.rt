// The names of all variables that hosts can have.
ghost use Rattle.std.specs.Prelude.{◌≡◌, IfOk};
ghost use Rattle.pb_lattice.specs.Words.{IsAscending, names_of};

use pb_inventory::Inventory;
use pb_play::{Play, Step};
use pb_task::{Task, Work};
use pb_value::Fields;
use std::alloc::{AllocError, Global};
use std::collections::BTreeSet;

// The names that tasks which gather facts write.
const FACTS: [&str; 7] = [
    "ansible_facts",
    "ansible_hostname",
    "ansible_system",
    "ansible_os_family",
    "ansible_distribution",
    "ansible_processor_vcpus",
    "ansible_memtotal_mb",
];

// The names of all variables, in the order of their bytes, each once: those of the inventory, those
// that tasks register or set, and those of facts.
//
// # Errors
//
// Want of memory.
pub(crate) fn names_of(
    alloc: Global,
    inventory: &Inventory,
    plays: &[Play],
) -> Result<Vec<String>, AllocError>
    ensures { IfOk result (λ v. IsAscending (names_of v.items)) }
{
    let mut names = BTreeSet::new(alloc);
    for name in FACTS {
        names.insert(name)?;
    }
    for base in 0..inventory.bases() {
        for layer in inventory.layers_of(base) {
            put_layer(layer, &mut names)?;
        }
    }
    for host in 0..inventory.hosts() {
        let (_, own) = inventory.base_of(host);
        put_layer(own, &mut names)?;
    }
    for play in plays {
        put_play(play, &mut names)?;
    }
    listed(alloc, &names)
}

fn put_layer<'n>(layer: &'n Fields, names: &mut BTreeSet<&'n str>) -> Result<(), AllocError> {
    for (name, _) in layer.iter() {
        names.insert(name.as_str())?;
    }
    Ok(())
}

fn put_play<'n>(play: &'n Play, names: &mut BTreeSet<&'n str>) -> Result<(), AllocError> {
    put_steps(&play.pre_tasks, names)?;
    put_steps(&play.tasks, names)?;
    put_steps(&play.post_tasks, names)?;
    for handler in &play.handlers {
        put_task(&handler.task, names)?;
    }
    Ok(())
}

#[cycle(steps)]
fn put_steps<'n>(steps: &'n [Step], names: &mut BTreeSet<&'n str>) -> Result<(), AllocError> {
    for step in steps {
        put_step(step, names)?;
    }
    Ok(())
}

#[cycle(steps)]
fn put_step<'n>(step: &'n Step, names: &mut BTreeSet<&'n str>) -> Result<(), AllocError> {
    match step {
        Step::Task(task) => put_task(task, names),
        Step::Block(block) => {
            put_steps(&block.body, names)?;
            put_steps(&block.rescue, names)?;
            put_steps(&block.always, names)
        }
        Step::Flush(_) => Ok(()),
    }
}

// What the task registers and what it sets.
fn put_task<'n>(task: &'n Task, names: &mut BTreeSet<&'n str>) -> Result<(), AllocError> {
    if let Some(name) = &task.register {
        names.insert(name.as_str())?;
    }
    if let Work::SetFact = &task.work {
        for argument in &task.arguments {
            names.insert(argument.name.as_str())?;
        }
    }
    Ok(())
}

fn listed(alloc: Global, names: &BTreeSet<&str>) -> Result<Vec<String>, AllocError>
    ensures { IfOk result (λ v. IsAscending (names_of v.items)) }
{
    let mut list = Vec::with_capacity(alloc, names.len())?;
    for name in names.iter() {
        list.push(String::from_str(alloc, name)?)?;
    }
    Ok(list)
}
