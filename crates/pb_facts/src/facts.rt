// The values of all hosts' slots, in one block.
ghost use Rattle.std.specs.Prelude.{◌≡◌, ◌<◌, IfOk, None, map, option_map, replicate};
ghost use Rattle.pb_facts.specs.Words.{IsBlock, empty_held, row_of, value_at, with_value};
ghost use Rattle.pb_value.specs.Words.{view};

use pb_value::Value;
use std::alloc::{AllocError, Global};
use std::marker::Model;

/// What hosts hold in numbered slots: of each host and slot a value, or none. Contracts see how
/// many hosts and slots there are, and what each host holds, slot by slot.
#[derive(Drop)]
pub struct Facts {
    hosts: usize,
    slots: usize,
    // host by host
    values: Vec<Option<Value>>,
}

impl Model for Facts {
    ghost use Rattle.std.specs.Prelude.{◌≡◌, ◌*◌, length};
    ghost use Rattle.std.specs.Coded.{codes};
    ghost use Rattle.pb_value.specs.contracts.value.Value as value;
    ghost use Rattle.pb_facts.specs.Facts.{Held};
    ghost use Rattle.pb_facts.specs.Rows.{rows};

    ghost Value = { Held };

    ghost coded = { Prim.hlevel (codes, value.the_row.coded) };

    ghost view = { λ f. record {
      hosts = f.hosts;
      slots = f.slots;
      rows = rows f.hosts f.slots f.values.items;
    } };

    ghost invariant = { λ f. length f.values.items ≡ f.hosts * f.slots };
}

impl Facts {
    /// So many slots of so many hosts, with nothing in them.
    ///
    /// # Errors
    ///
    /// Want of memory.
    pub fn new(alloc: Global, hosts: usize, slots: usize) -> Result<Facts, AllocError>
        ensures { IfOk result (λ facts. facts ≡ empty_held hosts slots) }
    {
        // More entries than can be counted have no room either.
        let values = empty_values(alloc, hosts.saturating_mul(slots))?;
        Ok(Facts {
            hosts,
            slots,
            values,
        })
    }

    /// How many hosts there are.
    pub fn hosts(&self) -> usize
        ensures count { result ≡ self.now.hosts }
        ensures rows { IsBlock self.now }
    {
        self.hosts
    }

    /// How many slots each host has.
    pub fn slots(&self) -> usize
        ensures { result ≡ self.now.slots }
    {
        self.slots
    }

    /// What is in a slot of a host.
    pub fn get(&self, host: usize, slot: usize) -> Option<&Value>
        requires host { host < self.now.hosts }
        requires slot { slot < self.now.slots }
        ensures { option_map (λ v. v.now) result ≡ value_at self.now host slot }
    {
        self.values[host * self.slots + slot].as_ref()
    }

    /// Sets a slot of a host, in place of what was in it. It takes no memory.
    pub fn set(&mut self, host: usize, slot: usize, value: Value)
        requires host { host < self.old.hosts }
        requires slot { slot < self.old.slots }
        ensures { self.new ≡ with_value self.old host slot value }
    {
        let index = host * self.slots + slot;
        self.values[index] = Some(value);
    }

    /// What a host holds, slot by slot, in values that share their parts with these.
    ///
    /// # Errors
    ///
    /// Want of memory.
    pub fn snapshot_of(&self, alloc: Global, host: usize) -> Result<Vec<Option<Value>>, AllocError>
        requires { host < self.now.hosts }
        ensures { IfOk result (λ values. map (option_map view) values.items
            ≡ map (option_map view) (row_of self.now host)) }
    {
        let mut values = Vec::with_capacity(alloc, self.slots)?;
        for slot in 0..self.slots {
            values.push(copy_of(self.get(host, slot))?)?;
        }
        Ok(values)
    }
}

// So many entries with nothing in them, in one block.
fn empty_values(alloc: Global, count: usize) -> Result<Vec<Option<Value>>, AllocError>
    ensures { IfOk result (λ values. values.items ≡ replicate count None) }
{
    let mut values = Vec::with_capacity(alloc, count)?;
    for entry in 0..count {
        values.push(None)?;
    }
    Ok(values)
}

fn copy_of(value: Option<&Value>) -> Result<Option<Value>, AllocError>
    ensures { IfOk result (λ copy. option_map view copy
        ≡ option_map view (option_map (λ v. v.now) value.entry)) }
{
    match value {
        Some(found) => Ok(Some(found.clone()?)),
        None => Ok(None),
    }
}
