// What is the same for all hosts in a round, and what hosts look like to others in it.
ghost use Rattle.std.specs.Prelude.{◌≡◌, All};
ghost use Rattle.std.proofs.Props.{props};
ghost use Rattle.pb_semantics.specs.Words.{recs};
ghost use Rattle.pb_language.specs.Setting.{group_slots};
ghost use Rattle.pb_language.specs.Tables.{known_views};
ghost use Rattle.pb_kind.specs.Words.{kind_view};
ghost use Rattle.pb_lattice.specs.Words.{IsAscending, names_of};
ghost use Rattle.pb_inventory.specs.Words.{inventory_view};
ghost use Rattle.pb_hosts.specs.Words.{shared_slots, slots_in, views_view};
ghost use Rattle.pb_hosts.proofs.Sames.{kind_is, own_kind, own_slots, slots_are};
ghost use Rattle.pb_inventory.specs.Once.{told_set};

use crate::scene::Scene;
use pb_hosts::{Lasting, Views};
use pb_inventory::Inventory;
use pb_kind::Kind;
use std::sync::Arc;

/// All plays, each on hosts of the inventory, and what is the same for all hosts.
#[derive(Drop)]
pub struct Stage<'i, 's> {
    pub inventory: &'i Inventory,
    pub scenes: &'s [Scene<'i>],
    /// What the inventory says of the variables of hosts.
    pub known: &'s Views<'i>,
    /// For each host the first of which it says the same.
    pub firsts: &'s [usize],
    /// The kind of all groups.
    pub groups: &'s Kind,
    /// The names of all variables, in the order of their bytes.
    pub names: &'s [String],
    ghost one_inventory: { All (λ s. s.cast.inventory.now ≡ inventory.now) scenes.now },
    ghost same: { known.now.inventory.now ≡ inventory.now },
    ghost said: { views_view known.now
        ≡ known_views (inventory_view inventory.now).hosts } by { Prim.hlevel
            (props, told_set slots_are own_slots) },
    ghost shared: { shared_slots (slots_in (views_view known.now)) firsts.now
        ≡ slots_in (views_view known.now) } by { Prim.hlevel
            (props, told_set slots_are own_slots) },
    ghost grouped: { kind_view groups.now
        ≡ recs (group_slots (inventory_view inventory.now).groups) } by { told_set
            kind_is own_kind _ _ },
    ghost ascending: { IsAscending (names_of names.now) } by { Prim.hlevel props },
}

/// For each play what each host has at its later places; nothing under `free`.
pub type PlayLaters = Vec<Option<Vec<Arc<Lasting>>>>;

/// What hosts look like to others in a round.
#[derive(Drop)]
pub struct Tables<'i> {
    pub views: Views<'i>,
    pub laters: PlayLaters,
}
