// The values that stay the same in a whole run.
ghost use Rattle.std.specs.Prelude.{◌<◌, ◌≡◌, All, IfOk, List, OnOk, Some, length, map};
ghost use Rattle.std.specs.Prelude.{option_map, slice_get, string_bytes};
ghost use Rattle.pb_inventory.specs.Numbered.{named};
ghost use Rattle.pb_inventory.specs.Words.{inventory_view};
ghost use Rattle.pb_language.specs.Expression.{Name};
ghost use Rattle.pb_language.specs.Program.{Inventory as InventoryData, memberships_of};
ghost use Rattle.pb_language.specs.Setting.{group_fields, names_list};
ghost use Rattle.pb_language.specs.World.{HostVariables};
ghost use Rattle.pb_semantics.specs.Words.{list, put_field, rec, text};
ghost use Rattle.pb_value.specs.Words.{fields_view, view};
ghost use Rattle.pb_world.specs.Constants.{AreConstants, host_groups, host_names, names_data};
ghost use Rattle.pb_world.specs.Constants.{text_in};
ghost use Rattle.pb_world.specs.Hosts.{names_of_hosts};

use pb_inventory::Inventory;
use pb_value::{Fields, Value, put_field};
use std::alloc::{AllocError, Global};
use std::sync::Arc;

/// The values of the names that are always there and stay the same in a whole run, each made once.
#[derive(Drop)]
pub struct Constants {
    // `groups`
    pub(crate) groups: Value,
    // in host order
    pub(crate) hosts: Vec<HostConstants>,
}

/// Those of a host.
#[derive(Drop)]
pub struct HostConstants {
    // `inventory_hostname`
    pub(crate) name: Value,
    // `group_names`
    pub(crate) group_names: Value,
}

impl Constants {
    /// Those of the inventory. The text of a host's name is shared by all lists that it stands in.
    ///
    /// # Errors
    ///
    /// Want of memory, also where a value would weigh more than `MOST_VALUE`.
    pub fn of(alloc: Global, inventory: &Inventory) -> Result<Constants, AllocError>
        ensures constants { IfOk result (λ c. AreConstants (inventory_view inventory.now) c) }
        ensures count { IfOk result
            (λ c. length c.hosts.items ≡ length (inventory_view inventory.now).hosts) }
    {
        let hosts = hosts_of(alloc, inventory)?;
        let groups = groups_of(alloc, inventory, hosts.as_slice())?;
        Ok(Constants { groups, hosts })
    }

    /// The host's name, which its value shares.
    pub fn host_name(&self, host: usize) -> Option<&Arc<String>>
        ensures { (i : InventoryData) (h : HostVariables) → AreConstants i self.now
            → slice_get i.hosts host ≡ Some h
            → option_map (λ t. string_bytes t.now.value) result ≡ Some h.name }
    {
        if host >= self.hosts.len() {
            return None;
        }
        text_of(&self.hosts[host].name)
    }
}

// The text that the value is, where it is one.
fn text_of(value: &Value) -> Option<&Arc<String>>
    ensures { option_map (λ t. string_bytes t.now.value) result ≡ text_in (view value.now) }
{
    match value {
        Value::Text(text) => Some(text),
        _ => None,
    }
}

/// `ansible_play_batch`, where these are the active hosts of the batch.
///
/// # Errors
///
/// Want of memory.
pub fn play_batch_of(
    alloc: Global,
    constants: &Constants,
    members: &[usize],
) -> Result<Value, AllocError>
    requires { All (λ k. k < length constants.now.hosts.items) members.now }
    ensures { IfOk result (λ v. (i : InventoryData) → AreConstants i constants.now
        → view v ≡ names_data i members.now) }
{
    names_of(alloc, constants.hosts.as_slice(), members)
}

// The names of these hosts.
fn names_of(alloc: Global, hosts: &[HostConstants], members: &[usize]) -> Result<Value, AllocError>
    requires { All (λ k. k < length hosts.now) members.now }
    ensures { IfOk result (λ v. (ns : List Name) → host_names hosts.now ≡ map text ns
        → view v ≡ list (names_list (named ns members.now))) }
{
    let mut names = Vec::with_capacity(alloc, members.len())?;
    for member in members {
        names.push(hosts[*member].name.clone()?)?;
    }
    Value::of_items(alloc, names)
}

// The list of these texts, which it shares.
fn texts_of(alloc: Global, texts: &[Arc<String>]) -> Result<Value, AllocError>
    ensures { IfOk result (λ v. view v
        ≡ list (names_list (map (λ t. string_bytes t.value) texts.now))) }
{
    let mut items = Vec::with_capacity(alloc, texts.len())?;
    for text in texts {
        items.push(Value::Text(text.clone()?))?;
    }
    Value::of_items(alloc, items)
}

fn hosts_of(alloc: Global, inventory: &Inventory) -> Result<Vec<HostConstants>, AllocError>
    ensures names { IfOk result (λ hs. host_names hs.items
        ≡ map text (names_of_hosts (inventory_view inventory.now).hosts)) }
    ensures group_names { IfOk result (λ hs. host_groups hs.items
        ≡ map (λ n. list (names_list (memberships_of n (inventory_view inventory.now).groups)))
        (names_of_hosts (inventory_view inventory.now).hosts)) }
{
    let mut hosts = Vec::with_capacity(alloc, inventory.hosts())?;
    for host in 0..inventory.hosts() {
        hosts.push(host_of(alloc, inventory, host)?)?;
    }
    Ok(hosts)
}

fn host_of(alloc: Global, inventory: &Inventory, host: usize) -> Result<HostConstants, AllocError>
    requires { host < length (inventory_view inventory.now).hosts }
    ensures name { IfOk result (λ x. option_map (λ h. text h.name)
        (slice_get (inventory_view inventory.now).hosts host)
        ≡ Some (view x.name)) }
    ensures group_names { IfOk result (λ x. option_map
        (λ h. list (names_list (memberships_of h.name (inventory_view inventory.now).groups)))
        (slice_get (inventory_view inventory.now).hosts host)
        ≡ Some (view x.group_names)) }
{
    let name = String::from_str(alloc, inventory.host_name(host))?;
    Ok(HostConstants {
        name: Value::of_text(alloc, name)?,
        group_names: texts_of(alloc, inventory.group_names(host))?,
    })
}

// The record of all groups, each a list of its hosts.
fn groups_of(
    alloc: Global,
    inventory: &Inventory,
    hosts: &[HostConstants],
) -> Result<Value, AllocError>
    requires names { host_names hosts.now
        ≡ map text (names_of_hosts (inventory_view inventory.now).hosts) }
    ensures { IfOk result (λ v. view v ≡ rec (group_fields (inventory_view inventory.now).groups)) }
{
    let mut fields = Fields::new(alloc);
    for group in (0..inventory.groups().len()).rev() {
        put_group(alloc, inventory, hosts, group, &mut fields)?;
    }
    Value::of_fields(alloc, fields)
}

// Puts the group at that place.
fn put_group(
    alloc: Global,
    inventory: &Inventory,
    hosts: &[HostConstants],
    group: usize,
    fields: &mut Fields,
) -> Result<(), AllocError>
    requires group { group < length (inventory_view inventory.now).groups }
    requires names { host_names hosts.now
        ≡ map text (names_of_hosts (inventory_view inventory.now).hosts) }
    ensures { OnOk result (option_map
        (λ g. put_field g.name (list (names_list g.hosts)) (fields_view fields.old.entries))
        (slice_get (inventory_view inventory.now).groups group)
        ≡ Some (fields_view fields.new.entries)) }
{
    match inventory.groups().get_index(group) {
        Some((name, members)) => {
            let list = names_of(alloc, hosts, members.as_slice())?;
            put_field(fields, name.clone()?, list)
        }
        None => unreachable!(),
    }
}
