// What a host of a play sees.
ghost use Rattle.std.specs.Prelude.{◌≡◌, ◌<◌, length, option_map, true};
ghost use Rattle.std.specs.List.{All};
ghost use Rattle.std.proofs.Props.{props};
ghost use Rattle.pb_language.specs.World.{name_at};
ghost use Rattle.pb_lattice.specs.Words.{IsAscending, names_of};
ghost use Rattle.pb_inventory.specs.Words.{inventory_view, names_at};
ghost use Rattle.pb_hosts.specs.Casts.{constant_slots};
ghost use Rattle.pb_hosts.specs.Constants.{AreConstants, constants_view};
ghost use Rattle.pb_hosts.specs.Equal.{same_slots};
ghost use Rattle.pb_hosts.specs.Tables.{host_names};

use crate::cast::Cast;
use crate::constants::Constants;
use crate::lasting::Lasting;
use crate::views::Views;
use pb_inventory::Inventory;
use pb_kind::{Kind, Slot};
use pb_outlook::Outlook;
use std::sync::Arc;

/// What hosts have at their later places in a play: for the names of a table, and each host in host
/// order, from which place on.
#[derive(Drop)]
pub struct Laters<'s> {
    pub names: &'s [String],
    pub hosts: &'s [Arc<Lasting>],
    ghost ascending: { IsAscending (names_of names.now) } by { Prim.hlevel props },
    ghost each: { All (λ l. length l.value.from.items ≡ length names.now) hosts.now },
}

/// What a host of a play sees beside its own variables.
#[derive(Drop)]
pub struct Seen<'s> {
    pub cast: &'s Cast<'s>,
    pub constants: &'s Constants<'s>,
    pub views: &'s Views<'s>,
    /// None under `free`.
    pub laters: Option<&'s Laters<'s>>,
    ghost known: { same_slots (constants_view constants.now)
        (constant_slots (inventory_view cast.now.inventory.now).groups constants.now.name.now)
        ≡ true },
}

impl<'s> Seen<'s> {
    /// What the host of these constants sees in the play.
    pub fn of(
        cast: &'s Cast<'s>,
        constants: &'s Constants<'s>,
        views: &'s Views<'s>,
        laters: Option<&'s Laters<'s>>,
    ) -> Seen<'s>
        requires { AreConstants (inventory_view cast.now.inventory.now) constants.now }
        ensures cast { result.cast ≡ cast.entry }
        ensures constants { result.constants ≡ constants.entry }
        ensures views { result.views ≡ views.entry }
        ensures laters { result.laters ≡ laters.entry }
    {
        Seen {
            cast,
            constants,
            views,
            laters,
        }
    }
}

impl<'s> Outlook for Seen<'s> {
    ghost use Rattle.pb_language.specs.Wells.{WellViews};
    ghost use Rattle.pb_hosts.specs.Sights.{seen_setting};
    ghost use Rattle.pb_hosts.specs.declared.seen.Seen.{Seen};

    ghost setting = { seen_setting };

    fn this(&self) -> &str {
        self.constants.name
    }

    fn always(&self, name: &str) -> Option<&Slot<Kind>> {
        if name == "ansible_play_batch" {
            Some(self.cast.batch())
        } else {
            self.constants.known(name)
        }
    }

    fn failure(&self) -> &Slot<Kind> {
        self.constants.failure()
    }

    fn has_host(&self, host: &str) -> bool {
        self.views.has_host(host)
    }

    fn other(&self, host: &str, name: &str) -> Option<&Slot<Kind>> {
        self.views.other(host, name)
    }

    fn lasts(&self, host: &str, place: u32, name: &str) -> bool {
        let Some(laters) = self.laters else {
            return false;
        };
        let Some(at) = self.cast.inventory.place_of(host) else {
            return false;
        };
        match laters.hosts.get(at) {
            Some(lasting) => lasting.has(laters.names, place, name),
            None => false,
        }
    }

    fn member(&self, group: &str, place: usize) -> Option<&str> {
        match self.cast.inventory.groups().get(group) {
            Some(members) => name_among(self.cast.inventory, members, place),
            None => None,
        }
    }

    fn views_are_well()
        ensures { (s : Seen) → WellViews (seen_setting s).views }
    {}
}

// The name of the host at that place of these.
fn name_among<'i>(inventory: &'i Inventory, members: &[usize], place: usize) -> Option<&'i str>
    requires { All (λ p. p < length (inventory_view inventory.now).hosts) members.now }
    ensures { option_map (λ s. s.now) result
        ≡ name_at place (names_at (host_names (inventory_view inventory.now)) members.now) }
{
    match members.get(place) {
        Some(host) => Some(inventory.host_name(*host)),
        None => None,
    }
}
