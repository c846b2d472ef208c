// What is told of an inventory: its hosts with their groups and variables, and its groups.
ghost use Rattle.std.specs.Prelude.{◌<◌, ◌≡◌, IfOk, Some, length, map, nat_lt, option_map};
ghost use Rattle.std.specs.Prelude.{slice_get, string_bytes, true};
ghost use Rattle.std.specs.List.{list_all};
ghost use Rattle.pb_language.specs.Setting.{names_list};
ghost use Rattle.pb_value.specs.Words.{fields_view, items_view, view};
ghost use Rattle.pb_inventory.specs.Views.{layered};
ghost use Rattle.pb_inventory.specs.Words.{inventory_in, inventory_view, offence_of};
ghost use Rattle.pb_probe.specs.Told.{groups_told, host_told, hosts_told, inventory_told};
ghost use Rattle.pb_probe.specs.Told.{names_at, told_of};

use crate::records::{lay, put_list, put_record, put_text, said};
use pb_inventory::{Inventory, InventoryFault};
use pb_value::{Fields, Value, put_field};
use std::alloc::{AllocError, Global};
use std::sync::Arc;

/// What is told of the inventory that the text is, or why it is none.
pub fn told_of(alloc: Global, text: &str) -> Result<Fields, AllocError>
    ensures { IfOk result (λ fs. fields_view fs.entries ≡ told_of (inventory_in text.now)) }
{
    match Inventory::read(alloc, text.as_bytes()) {
        Ok(inventory) => inventory_told(alloc, &inventory),
        Err(fault) => fault_told(alloc, fault),
    }
}

// The word for a fault; want of memory is none.
fn fault_told(alloc: Global, fault: InventoryFault) -> Result<Fields, AllocError>
    ensures { IfOk result (λ fs. option_map told_of (offence_of fault)
        ≡ Some (fields_view fs.entries)) }
{
    match fault {
        InventoryFault::NotJson => said(alloc, "fault", "not_json"),
        InventoryFault::Form => said(alloc, "fault", "form"),
        InventoryFault::HostName => said(alloc, "fault", "host_name"),
        InventoryFault::Cycle => said(alloc, "fault", "cycle"),
        InventoryFault::Limit => said(alloc, "fault", "limit"),
        InventoryFault::NoMemory => Err(AllocError),
    }
}

fn inventory_told(alloc: Global, inventory: &Inventory) -> Result<Fields, AllocError>
    ensures { IfOk result (λ fs. fields_view fs.entries
        ≡ inventory_told (inventory_view inventory.now)) }
{
    let mut told = Fields::new(alloc);
    put_record(alloc, &mut told, "groups", groups_told(alloc, inventory)?)?;
    put_list(alloc, &mut told, "hosts", hosts_told(alloc, inventory)?)?;
    Ok(told)
}

// The hosts in host order.
fn hosts_told(alloc: Global, inventory: &Inventory) -> Result<Vec<Value>, AllocError>
    ensures { IfOk result (λ items. items_view items.items
        ≡ hosts_told (inventory_view inventory.now)) }
{
    let mut hosts = Vec::with_capacity(alloc, inventory.hosts())?;
    for host in 0..inventory.hosts() {
        let told = host_told(alloc, inventory, host)?;
        hosts.push(Value::of_fields(alloc, told)?)?;
    }
    Ok(hosts)
}

// The host's name, its groups and its variables.
fn host_told(alloc: Global, inventory: &Inventory, host: usize) -> Result<Fields, AllocError>
    requires { host < length (inventory_view inventory.now).hosts }
    ensures { IfOk result (λ fs. option_map (host_told (inventory_view inventory.now).groups)
        (slice_get (inventory_view inventory.now).hosts host)
        ≡ Some (fields_view fs.entries)) }
{
    let mut told = Fields::new(alloc);
    let groups = names_told(alloc, inventory.group_names(host))?;
    put_list(alloc, &mut told, "groups", groups)?;
    put_text(alloc, &mut told, "name", inventory.host_name(host))?;
    let variables = merged(alloc, inventory.vars_of(host))?;
    put_record(alloc, &mut told, "vars", variables)?;
    Ok(told)
}

fn names_told(alloc: Global, names: &[Arc<String>]) -> Result<Vec<Value>, AllocError>
    ensures { IfOk result (λ items. items_view items.items
        ≡ names_list (map (λ n. string_bytes n.value) names.now)) }
{
    let mut told = Vec::with_capacity(alloc, names.len())?;
    for name in names {
        told.push(Value::Text(name.clone()?))?;
    }
    Ok(told)
}

// The variables of all layers; the last one that has a name gives its value.
fn merged(alloc: Global, layers: &[Arc<Fields>]) -> Result<Fields, AllocError>
    ensures { IfOk result (λ fs. fields_view fs.entries
        ≡ layered (map (λ layer. fields_view layer.value.entries) layers.now)) }
{
    let mut variables = Fields::new(alloc);
    for layer in layers {
        lay(&mut variables, layer)?;
    }
    Ok(variables)
}

// The groups with the names of their hosts.
fn groups_told(alloc: Global, inventory: &Inventory) -> Result<Fields, AllocError>
    ensures { IfOk result (λ fs. fields_view fs.entries
        ≡ groups_told (inventory_view inventory.now).groups) }
{
    let mut told = Fields::new(alloc);
    for (name, places) in inventory.groups().iter() {
        let members = members_told(alloc, inventory, places)?;
        put_field(&mut told, name.clone()?, Value::of_items(alloc, members)?)?;
    }
    Ok(told)
}

// The names of the hosts at these places.
fn members_told(
    alloc: Global,
    inventory: &Inventory,
    places: &[usize],
) -> Result<Vec<Value>, AllocError>
    requires { list_all (λ i. nat_lt i (length (inventory_view inventory.now).hosts)) places.now
        ≡ true }
    ensures { IfOk result (λ items. items_view items.items
        ≡ names_list (names_at (inventory_view inventory.now).hosts places.now)) }
{
    let mut names = Vec::with_capacity(alloc, places.len())?;
    for place in places {
        let name = String::from_str(alloc, inventory.host_name(*place))?;
        names.push(Value::of_text(alloc, name)?)?;
    }
    Ok(names)
}
