// The hosts of a play, and what is always there for each of them.
ghost use Rattle.std.specs.Prelude.{◌≡◌, ◌<◌, EachIndex, IfOk, false, length, slice_index_or, true};
ghost use Rattle.std.specs.List.{All};
ghost use Rattle.std.proofs.Props.{props};
ghost use Rattle.pb_semantics.specs.Words.{spot};
ghost use Rattle.pb_language.specs.Setting.{host_list};
ghost use Rattle.pb_inventory.specs.Graph.{is_in};
ghost use Rattle.pb_inventory.specs.Words.{inventory_view, names_at};
ghost use Rattle.pb_kind.specs.Words.{is_always, kind_view};
ghost use Rattle.pb_hosts.specs.Equal.{same_spot};
ghost use Rattle.pb_hosts.specs.Tables.{host_names};

use crate::names::hosts_list;
use pb_inventory::{Inventory, PatternFault};
use pb_kind::{Kind, Slot};
use pb_play::Play;
use std::alloc::{AllocError, Global};

/// The hosts of a play.
#[derive(Drop)]
pub struct Cast<'s> {
    pub inventory: &'s Inventory,
    pub play: &'s Play,
    /// Their places in host order, in the order in which the play's pattern finds them.
    pub places: Vec<usize>,
    // What is known of the list of them.
    batch: Slot<Kind>,
    // Of each host of the inventory whether it is one of them.
    flags: Vec<bool>,
    ghost placed: { All (λ p. p < length (inventory_view inventory.now).hosts) places.items },
    ghost listed: { same_spot (spot (is_always batch.presence) (kind_view batch.kind)) (spot true
        (host_list (names_at (host_names (inventory_view inventory.now)) places.items))) ≡ true },
    ghost count: { length flags.items ≡ length (inventory_view inventory.now).hosts },
    ghost flagged: { EachIndex flags.items
        (λ k. slice_index_or flags.items k false ≡ is_in k places.items) } by { Prim.hlevel props },
}

impl<'s> Cast<'s> {
    ghost use Rattle.std.specs.Prelude.{[], Some, option_map, slice_get};
    ghost use Rattle.pb_semantics.specs.Words.{is_among};
    ghost use Rattle.pb_language.specs.Plays.{pattern_hosts};
    ghost use Rattle.pb_play.specs.Words.{play_view};
    ghost use Rattle.pb_hosts.specs.Casts.{cast_hosts};

    /// The hosts that the play's pattern finds.
    ///
    /// # Errors
    ///
    /// Want of memory, also where a word of the pattern names no group and no host.
    pub fn of(
        alloc: Global,
        inventory: &'s Inventory,
        play: &'s Play,
    ) -> Result<Cast<'s>, AllocError>
        ensures inventory { IfOk result (λ c. c.inventory ≡ inventory.entry) }
        ensures play { IfOk result (λ c. c.play ≡ play.entry) }
        ensures placed { IfOk result (λ c.
            All (λ p. p < length (inventory_view inventory.entry.now).hosts) c.places.items) }
        ensures hosts { IfOk result (λ c. cast_hosts c ≡ pattern_hosts
            (inventory_view inventory.entry.now) [] (play_view play.entry.now).pattern) }
    {
        match inventory.hosts_of_each(alloc, &play.pattern) {
            Ok(places) => Cast::at(alloc, inventory, play, places),
            Err(PatternFault::Unknown | PatternFault::NoMemory) => Err(AllocError),
        }
    }

    // Those at these places.
    fn at(
        alloc: Global,
        inventory: &'s Inventory,
        play: &'s Play,
        places: Vec<usize>,
    ) -> Result<Cast<'s>, AllocError>
        requires { All (λ p. p < length (inventory_view inventory.now).hosts) places.items }
        ensures inventory { IfOk result (λ c. c.inventory ≡ inventory.entry) }
        ensures play { IfOk result (λ c. c.play ≡ play.entry) }
        ensures placed { IfOk result (λ c.
            All (λ p. p < length (inventory_view inventory.entry.now).hosts) c.places.items) }
        ensures hosts { IfOk result (λ c. cast_hosts c
            ≡ names_at (host_names (inventory_view inventory.entry.now)) places.items) }
    {
        let batch = Slot::always(hosts_list(alloc, inventory, &places)?);
        let flags = flags_at(alloc, inventory.hosts(), &places)?;
        Ok(Cast {
            inventory,
            play,
            places,
            batch,
            flags,
        })
    }

    /// What is known of the list of them.
    pub fn batch(&self) -> &Slot<Kind>
        ensures { spot (is_always result.now.presence) (kind_view result.now.kind)
            ≡ spot true (host_list (cast_hosts self.now)) }
    {
        &self.batch
    }

    /// Whether the host at that place is one of them.
    pub fn has(&self, host: usize) -> bool
        requires { host < length (inventory_view self.now.inventory.now).hosts }
        ensures { option_map (λ h. is_among h.name (cast_hosts self.now))
            (slice_get (inventory_view self.now.inventory.now).hosts host) ≡ Some result }
    {
        self.flags[host]
    }
}

// Of each of so many hosts whether it is at one of these places.
fn flags_at(alloc: Global, hosts: usize, places: &[usize]) -> Result<Vec<bool>, AllocError>
    requires { All (λ p. p < hosts) places.now }
    ensures count { IfOk result (λ v. length v.items ≡ hosts) }
    ensures each { IfOk result (λ v. EachIndex v.items
        (λ k. slice_index_or v.items k false ≡ is_in k places.now)) }
{
    let mut flags = vec![in alloc; false; hosts]?;
    for place in places {
        flags[*place] = true;
    }
    Ok(flags)
}
