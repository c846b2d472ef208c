// The slots of names, and the names at slots.
ghost use Rattle.std.specs.Prelude.{◌≡◌, IfOk, length, map, option_map, slice_get};
ghost use Rattle.pb_slots.specs.Words.{names_of_slots, slot_in};

use crate::slots::Slots;
use std::alloc::{AllocError, Global};
use std::collections::BTreeSet;

impl Slots {
    /// Those names.
    ///
    /// # Errors
    ///
    /// Want of memory.
    pub fn of(alloc: Global, names: &BTreeSet<&str>) -> Result<Slots, AllocError>
        ensures { IfOk result (λ s. names_of_slots s ≡ map (λ n. n.now) names.now.keys) }
    {
        let mut all = Vec::with_capacity(alloc, names.len())?;
        for name in names.iter() {
            all.push(String::from_str(alloc, name)?)?;
        }
        Ok(Slots { names: all })
    }

    /// How many there are.
    pub fn count(&self) -> usize
        ensures { result ≡ length (names_of_slots self.now) }
    {
        self.names.len()
    }

    /// The slot of the name, where it has one.
    pub fn slot(&self, name: &str) -> Option<usize>
        ensures { result ≡ slot_in (names_of_slots self.now) name.now }
    {
        match self.names.binary_search_by(|each| each.as_str().cmp(name)) {
            Ok(slot) => Some(slot),
            Err(_) => None,
        }
    }

    /// The name at that slot.
    pub fn name(&self, slot: usize) -> Option<&str>
        ensures { option_map (λ n. n.now) result ≡ slice_get (names_of_slots self.now) slot }
    {
        match self.names.get(slot) {
            Some(name) => Some(name.as_str()),
            None => None,
        }
    }
}
