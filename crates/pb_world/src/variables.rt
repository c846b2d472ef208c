// The variables of a run's hosts: the inventory's, and over them what the run has set in slots.
ghost use Rattle.std.specs.Prelude.{◌<◌, ◌↔◌, ◌≡◌, IsTrue, Some, length, map, option_map};
ghost use Rattle.std.specs.Prelude.{slice_get};
ghost use Rattle.pb_semantics.specs.Words.{field_value};
ghost use Rattle.pb_inventory.specs.Words.{inventory_view, layered};
ghost use Rattle.pb_slots.specs.Words.{names_of_slots};
ghost use Rattle.pb_value.specs.Words.{fields_view, view};
ghost use Rattle.pb_world.specs.Layers.{AreOnce};

use pb_facts::{Facts, slots_are_variables};
use pb_inventory::Inventory;
use pb_slots::Slots;
use pb_value::{Fields, Value, field_of};
use std::sync::Arc;

/// The variables of a run's hosts: those of the inventory, and over them what the run has set in
/// slots. All of it is borrowed, and nothing is copied.
#[derive(Drop)]
pub struct Variables<'r> {
    pub inventory: &'r Inventory,
    pub slots: &'r Slots,
    pub facts: &'r Facts,
    /// There is a row for each host.
    ghost each_host: { facts.now.hosts ≡ length (inventory_view inventory.now).hosts },
    /// There is an entry for each slot.
    ghost each_slot: { facts.now.slots ≡ length (names_of_slots slots.now) },
}

impl Variables<'_> {
    ghost use Rattle.pb_world.specs.Variables.{variables_at};

    /// The value of a variable of the host; none where it has no such variable.
    pub fn value(&self, host: usize, name: &str) -> Option<&Value>
        requires { host < length (inventory_view self.now.inventory.now).hosts }
        ensures { option_map (λ v. view v.now) result
            ≡ field_value name.now (variables_at self.now host) }
    {
        match self.slots.slot(name) {
            Some(slot) => self.value_in(host, slot, name),
            None => {
                slots_are_variables();
                value_given(self.inventory.vars_of(host), name)
            }
        }
    }

    /// The same, where a slot is looked at first: if it has the name, no other one is looked for.
    pub fn value_at(&self, host: usize, slot: u32, name: &str) -> Option<&Value>
        requires { host < length (inventory_view self.now.inventory.now).hosts }
        ensures { option_map (λ v. view v.now) result
            ≡ field_value name.now (variables_at self.now host) }
    {
        let slot = slot as usize;
        if has_name(self.slots.name(slot), name) {
            return self.value_in(host, slot, name);
        }
        self.value(host, name)
    }

    // Of a name that has that slot.
    fn value_in(&self, host: usize, slot: usize, name: &str) -> Option<&Value>
        requires host { host < length (inventory_view self.now.inventory.now).hosts }
        requires slot { slice_get (names_of_slots self.now.slots.now) slot ≡ Some name.now }
        ensures { option_map (λ v. view v.now) result
            ≡ field_value name.now (variables_at self.now host) }
    {
        slots_are_variables();
        match self.facts.get(host, slot) {
            Some(value) => Some(value),
            None => value_given(self.inventory.vars_of(host), name),
        }
    }
}

fn has_name(found: Option<&str>, name: &str) -> bool
    ensures { IsTrue result ↔ (option_map (λ n. n.now) found.entry ≡ Some name.now) }
{
    match found {
        Some(found) => found == name,
        None => false,
    }
}

// The value of the name in the last of the layers that has it.
fn value_given<'l>(layers: &'l [Arc<Fields>], name: &str) -> Option<&'l Value>
    ensures { option_map (λ v. view v.now) result
        ≡ field_value name.now (layered (map (λ l. fields_view l.value.entries) layers.now)) }
{
    for index in (0..layers.len()).rev() {
        if let Some(value) = value_in_layer(&layers[index], name) {
            return Some(value);
        }
    }
    None
}

// The value of the name in a layer, which has each name once.
fn value_in_layer<'l>(layer: &'l Fields, name: &str) -> Option<&'l Value>
    ensures value { option_map (λ v. view v.now) result
        ≡ field_value name.now (fields_view layer.now.entries) }
    ensures once { AreOnce (fields_view layer.now.entries) }
{
    layer.iter();
    field_of(layer, name)
}
