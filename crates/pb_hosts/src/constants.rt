// What is known of names that are the same for a host in each play.
ghost use Rattle.std.specs.Prelude.{◌≡◌, ◌<◌, IfOk, List, OnOk, length, true};
ghost use Rattle.pb_semantics.specs.Words.{put_slot, recs, slot_at, spot};
ghost use Rattle.pb_language.specs.Program.{memberships_of};
ghost use Rattle.pb_language.specs.Setting.{group_slots};
ghost use Rattle.pb_language.specs.World.{Group};
ghost use Rattle.pb_kind.specs.Words.{is_always, kind_view, slots_view, spot_view};
ghost use Rattle.pb_inventory.specs.Words.{inventory_view};
ghost use Rattle.pb_outlook.specs.Standing.{failure_spot};
ghost use Rattle.pb_hosts.specs.Casts.{constant_slots};
ghost use Rattle.pb_hosts.specs.Equal.{same_spot};

use crate::names::{groups_record, one_host, texts_list};
use pb_inventory::Inventory;
use pb_kind::below::find;
use pb_kind::{Kind, Slot, Slots, put_slot};
use std::alloc::{AllocError, Global};

/// What is known of `groups`, which is the same for all hosts, and of a host's `group_names` and
/// `inventory_hostname`.
#[derive(Drop)]
pub struct Constants<'i> {
    /// The place of the host.
    pub host: usize,
    /// Its name.
    pub name: &'i str,
    slots: Slots,
    failure: Slot<Kind>,
    ghost failing: { same_spot (spot (is_always failure.presence) (kind_view failure.kind))
        failure_spot ≡ true },
}

impl<'i> Constants<'i> {
    ghost use Rattle.pb_hosts.specs.Constants.{AreConstants, constants_view};

    /// Those of the host at that place. The kind of the groups is that of `groups_kind`, which all
    /// hosts share.
    ///
    /// # Errors
    ///
    /// Want of memory.
    pub fn of(
        alloc: Global,
        inventory: &'i Inventory,
        groups: &Kind,
        host: usize,
    ) -> Result<Constants<'i>, AllocError>
        requires host { host < length (inventory_view inventory.now).hosts }
        requires groups { kind_view groups.now
            ≡ recs (group_slots (inventory_view inventory.now).groups) }
        ensures host { IfOk result (λ c. c.host ≡ host) }
        ensures constants { IfOk result (AreConstants (inventory_view inventory.entry.now)) }
    {
        let name = inventory.host_name(host);
        let memberships = inventory.group_names(host).len();
        Ok(Constants {
            host,
            name,
            slots: constant_slots(alloc, groups, name, memberships)?,
            failure: failure_slot(alloc)?,
        })
    }

    /// What is known of that name; nothing where it is none of the three.
    pub fn known(&self, name: &str) -> Option<&Slot<Kind>>
        ensures { spot_view result ≡ slot_at name.now (constants_view self.now) }
    {
        find(&self.slots, name)
    }

    /// What is known of the failure in a `rescue` part.
    pub fn failure(&self) -> &Slot<Kind>
        ensures { spot (is_always result.now.presence) (kind_view result.now.kind) ≡ failure_spot }
    {
        &self.failure
    }
}

// What is known of the three names, for the host of that name, which is in so many groups.
fn constant_slots(
    alloc: Global,
    groups: &Kind,
    name: &str,
    memberships: usize,
) -> Result<Slots, AllocError>
    ensures { IfOk result (λ m. (gs : List Group) → kind_view groups.now ≡ recs (group_slots gs)
        → memberships ≡ length (memberships_of name.now gs)
        → slots_view m.entries ≡ constant_slots gs name.now) }
{
    let mut slots = Slots::new(alloc);
    put(
        alloc,
        &mut slots,
        "group_names",
        texts_list(alloc, memberships)?,
    )?;
    put(alloc, &mut slots, "groups", groups.clone()?)?;
    put(
        alloc,
        &mut slots,
        "inventory_hostname",
        one_host(alloc, name)?,
    )?;
    Ok(slots)
}

// Puts what is certainly there under that name.
fn put(alloc: Global, slots: &mut Slots, name: &str, kind: Kind) -> Result<(), AllocError>
    ensures { OnOk result (slots_view slots.new.entries
        ≡ put_slot name.now true (kind_view kind) (slots_view slots.old.entries)) }
{
    put_slot(slots, String::from_str(alloc, name)?, Slot::always(kind))
}

// What is known of the failure in a `rescue` part.
fn failure_slot(alloc: Global) -> Result<Slot<Kind>, AllocError>
    ensures { IfOk result (λ s. spot (is_always s.presence) (kind_view s.kind) ≡ failure_spot) }
{
    let mut slots = Slots::new(alloc);
    put(alloc, &mut slots, "msg", Kind::Text)?;
    Ok(Slot::always(Kind::of_slots(alloc, slots)?))
}

/// The kind of `groups`: a record of all groups, each a list of its hosts.
///
/// # Errors
///
/// Want of memory.
pub fn groups_kind(alloc: Global, inventory: &Inventory) -> Result<Kind, AllocError>
    ensures { IfOk result (λ k. kind_view k
        ≡ recs (group_slots (inventory_view inventory.now).groups)) }
{
    groups_record(alloc, inventory)
}
