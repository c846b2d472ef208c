// What hosts' variables look like to others.
ghost use Rattle.std.specs.Prelude.{◌≡◌, ◌<◌, IfOk, OnOk, length, option_map, slice_get, Some};
ghost use Rattle.pb_semantics.specs.Words.{recs};
ghost use Rattle.pb_semantics.specs.Well.{Well};
ghost use Rattle.pb_language.specs.Kinds.{known_slots};
ghost use Rattle.pb_language.specs.Wells.{WellViews};
ghost use Rattle.pb_walks.proofs.WellProp.{well_views_prop};
ghost use Rattle.pb_kind.specs.Words.{slots_view};
ghost use Rattle.pb_value.specs.Words.{fields_view};
ghost use Rattle.pb_inventory.specs.Words.{inventory_view};
ghost use Rattle.pb_hosts.specs.Tables.{slots_of_each, views_with};

use crate::given::known_of_each;
use pb_inventory::Inventory;
use pb_kind::below::find;
use pb_kind::{Kind, Slot, Slots};
use std::alloc::{AllocError, Global};
use std::sync::Arc;

/// What is known of the variables of each host of an inventory, as other hosts see them.
#[derive(Drop)]
pub struct Views<'i> {
    pub inventory: &'i Inventory,
    // In host order; hosts that look alike may share what is known of them.
    hosts: Vec<Arc<Slots>>,
    ghost each: { length hosts.items ≡ length (inventory_view inventory.now).hosts },
    ghost well: { WellViews (views_with inventory.now hosts.items) } by { well_views_prop _ },
}

impl<'i> Views<'i> {
    ghost use Rattle.std.specs.List.{All};
    ghost use Rattle.pb_semantics.specs.Words.{slot_at};
    ghost use Rattle.pb_language.specs.Scope.{has_view, view_of};
    ghost use Rattle.pb_language.specs.Tables.{known_views};
    ghost use Rattle.pb_kind.specs.Words.{spot_view};
    ghost use Rattle.pb_walks.specs.Words.{ViewsAgree};
    ghost use Rattle.pb_hosts.specs.Shown.{views_view};
    ghost use Rattle.pb_hosts.specs.Tables.{host_names, shared_slots, slots_in, views_from};

    /// What the inventory says, and for each host the first of which it says the same: these share
    /// what is known.
    ///
    /// # Errors
    ///
    /// Want of memory.
    pub fn of(
        alloc: Global,
        inventory: &'i Inventory,
    ) -> Result<(Views<'i>, Vec<usize>), AllocError>
        ensures inventory { IfOk result (λ r. r.0.inventory ≡ inventory.entry) }
        ensures views { IfOk result (λ r. views_view r.0
            ≡ known_views (inventory_view inventory.entry.now).hosts) }
        ensures firsts { IfOk result (λ r. shared_slots (slots_in (views_view r.0)) r.1.items
            ≡ slots_in (views_view r.0)) }
    {
        let (hosts, firsts) = known_of_each(alloc, inventory)?;
        Ok((Views { inventory, hosts }, firsts))
    }

    /// What is known where the slots are those of each host, in host order. Hosts may share them.
    pub fn of_hosts(inventory: &'i Inventory, hosts: Vec<Arc<Slots>>) -> Views<'i>
        requires each { length hosts.items ≡ length (inventory_view inventory.now).hosts }
        requires well { All (λ m. Well (recs (slots_view m.value.entries))) hosts.items }
        ensures inventory { result.inventory ≡ inventory.entry }
        ensures views { views_view result ≡ views_from
            (host_names (inventory_view inventory.entry.now)) (slots_of_each hosts.items) }
    {
        Views { inventory, hosts }
    }

    /// The same, which shares what is known of each host.
    ///
    /// # Errors
    ///
    /// Want of memory.
    pub fn copy(&self, alloc: Global) -> Result<Views<'i>, AllocError>
        ensures inventory { IfOk result (λ v. v.inventory ≡ self.entry.now.inventory) }
        ensures views { IfOk result (λ v. views_view v ≡ views_view self.entry.now) }
    {
        let hosts = copies(alloc, &self.hosts)?;
        Ok(Views {
            inventory: self.inventory,
            hosts,
        })
    }

    /// What is known of the variables of each host, in host order.
    pub fn into_hosts(self) -> Vec<Arc<Slots>>
        ensures all { length result.items ≡ length (inventory_view self.entry.inventory.now).hosts }
        ensures views { views_view self.entry ≡ views_with self.entry.inventory.now result.items }
    {
        self.hosts
    }

    /// What is known of the variables of the host at that place.
    pub fn slots(&self, host: usize) -> &Slots
        requires { host < length (inventory_view self.now.inventory.now).hosts }
        ensures slots { option_map (λ v. v.slots) (slice_get (views_view self.now) host)
            ≡ Some (slots_view result.now.entries) }
        ensures named { option_map (λ h. view_of h.name (views_view self.now))
            (slice_get (inventory_view self.now.inventory.now).hosts host)
            ≡ Some (slots_view result.now.entries) }
        ensures well { Well (recs (slots_view result.now.entries)) }
    {
        &self.hosts[host]
    }

    /// Whether there is a host of that name.
    pub fn has_host(&self, host: &str) -> bool
        ensures { result ≡ has_view host.now (views_view self.now) }
    {
        self.inventory.place_of(host).is_some()
    }

    /// What is known of the variable of the host of that name.
    pub fn other(&self, host: &str, name: &str) -> Option<&Slot<Kind>>
        ensures { spot_view result ≡ slot_at name.now (view_of host.now (views_view self.now)) }
    {
        match self.inventory.place_of(host) {
            Some(place) => find(&self.hosts[place], name),
            None => None,
        }
    }
}

// Of each host the same slots, which are shared.
fn copies(alloc: Global, hosts: &[Arc<Slots>]) -> Result<Vec<Arc<Slots>>, AllocError>
    ensures { IfOk result (λ v. slots_of_each v.items ≡ slots_of_each hosts.now) }
{
    let mut copies = Vec::with_capacity(alloc, hosts.len())?;
    for slots in hosts {
        copies.push(slots.clone()?)?;
    }
    Ok(copies)
}
