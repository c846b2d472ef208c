// The world of a host's task.
ghost use Rattle.std.specs.List.{list_all};
ghost use Rattle.std.specs.Prelude.{◌≡◌, length, nat_lt, true};
ghost use Rattle.pb_inventory.specs.Words.{inventory_view};

use crate::active::ActiveHosts;
use crate::always::AlwaysThere;
use crate::members::member_at;
use crate::variables::Variables;
use pb_eval::Vars;
use pb_value::Value;

/// The world of a host's task: what its names hold, and what it sees of the other hosts, of the
/// batch and of the groups. It has no names of `vars`: a task works these out over it.
#[derive(Drop)]
pub struct HostWorld<'r> {
    pub variables: &'r Variables<'r>,
    /// The host's number.
    pub host: usize,
    pub always: AlwaysThere<'r>,
    pub active: &'r ActiveHosts,
    /// It is one of the hosts.
    ghost known: { nat_lt host (length (inventory_view variables.now.inventory.now).hosts) ≡ true },
    /// Of each host is known whether it is active.
    ghost each_host: { active.now.hosts
        ≡ length (inventory_view variables.now.inventory.now).hosts },
    /// The active ones are hosts.
    ghost members: { list_all
        (λ k. nat_lt k (length (inventory_view variables.now.inventory.now).hosts))
        active.now.members ≡ true },
}

impl Vars for HostWorld<'_> {
    ghost use Rattle.pb_syntax.specs.Aliases.{no_trees};
    ghost use Rattle.pb_world.specs.World.{world_shown};

    ghost world = { world_shown };

    ghost trees = { λ _. no_trees };

    fn alias(&self, _name: &str) -> Option<&Value> {
        None
    }

    fn value(&self, name: &str) -> Option<&Value> {
        match self.always.value(name) {
            Some(value) => Some(value),
            None => self.variables.value(self.host, name),
        }
    }

    fn value_at(&self, slot: u32, name: &str) -> Option<&Value> {
        match self.always.value(name) {
            Some(value) => Some(value),
            None => self.variables.value_at(self.host, slot, name),
        }
    }

    fn this(&self) -> &str {
        self.variables.inventory.host_name(self.host)
    }

    fn other(&self, host: &str, name: &str) -> Option<&Value> {
        match self.variables.inventory.place_of(host) {
            Some(place) => self.variables.value(place, name),
            None => None,
        }
    }

    fn other_at(&self, host: &str, slot: u32, name: &str) -> Option<&Value> {
        match self.variables.inventory.place_of(host) {
            Some(place) => self.variables.value_at(place, slot, name),
            None => None,
        }
    }

    fn is_active(&self, host: &str) -> bool {
        match self.variables.inventory.place_of(host) {
            Some(place) => self.active.has(place),
            None => false,
        }
    }

    fn member(&self, group: &str, place: usize) -> Option<&str> {
        member_at(self.variables.inventory, group, place)
    }
}
