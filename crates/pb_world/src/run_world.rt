// What a run has of the worlds of its hosts' tasks.
ghost use Rattle.std.specs.Prelude.{◌<◌, ◌≡◌, Some, length, option_map};
ghost use Rattle.pb_inventory.specs.Words.{inventory_view};
ghost use Rattle.pb_language.specs.Machine.{innermost, outermost};
ghost use Rattle.pb_language.specs.Program.{Batch};
ghost use Rattle.pb_language.specs.Task.{Task};
ghost use Rattle.pb_machine.specs.Hosts.{FlatHost};
ghost use Rattle.pb_machine.specs.Run.{FlatState, host_at, world_of};
ghost use Rattle.pb_value.specs.Words.{view};

use crate::active::ActiveHosts;
use crate::always::AlwaysThere;
use crate::constants::Constants;
use crate::laws::shows_the_world;
use crate::variables::Variables;
use crate::world::HostWorld;
use pb_value::Value;

/// What a run has of the worlds of its hosts' tasks. All of it is borrowed.
#[derive(Drop)]
pub struct RunWorld<'r> {
    pub variables: Variables<'r>,
    pub constants: &'r Constants,
    pub active: &'r ActiveHosts,
    /// `ansible_play_batch`
    pub play_batch: &'r Value,
    /// There are constants of each host.
    ghost each_constant: { length constants.now.hosts.items
        ≡ length (inventory_view variables.inventory.now).hosts },
    /// Of each host is known whether it is active.
    ghost each_host: { active.now.hosts ≡ length (inventory_view variables.inventory.now).hosts },
}

impl RunWorld<'_> {
    ghost use Rattle.pb_world.specs.RunWorld.{ShowsRun};
    ghost use Rattle.pb_world.specs.World.{failure_value, world_shown};

    /// The world of a task of the host, inside a `rescue` part with the failure as a value.
    pub fn of_host<'w>(&'w self, host: usize, failure: Option<&'w Value>) -> HostWorld<'w>
        requires { host < length (inventory_view self.now.variables.inventory.now).hosts }
        ensures { (s : FlatState) (b : Batch) (h : FlatHost) (t : Task) → ShowsRun self.now s b
            → host_at host s.hosts ≡ Some h
            → option_map (λ v. view v.now) failure.entry
            ≡ failure_value t.depth (innermost (outermost t.depth h.rescues))
            → world_shown result ≡ world_of s b h t }
    {
        shows_the_world();
        let own = &self.constants.hosts[host];
        let always = AlwaysThere {
            host_name: &own.name,
            groups: &self.constants.groups,
            group_names: &own.group_names,
            play_batch: self.play_batch,
            failure,
        };
        self.with_always(host, always)
    }

    fn with_always<'w>(&'w self, host: usize, always: AlwaysThere<'w>) -> HostWorld<'w>
        requires { host < length (inventory_view self.now.variables.inventory.now).hosts }
        ensures variables { result.variables.now ≡ self.now.variables }
        ensures host { result.host ≡ host }
        ensures always { result.always ≡ always.entry }
        ensures active { result.active.now ≡ self.now.active.now }
    {
        self.active.members();
        HostWorld {
            variables: &self.variables,
            host,
            always,
            active: self.active,
        }
    }
}
