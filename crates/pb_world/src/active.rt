// The hosts of a batch that are active.
ghost use Rattle.std.specs.List.{list_all};
ghost use Rattle.std.specs.Prelude.{◌<◌, ◌≡◌, All, IfOk, nat_lt, true};
ghost use Rattle.pb_inventory.specs.Graph.{is_in};

use std::alloc::{AllocError, Global};
use std::marker::Model;

/// The hosts of a batch that are active, by their numbers. Contracts see how many hosts the run
/// has, and which of them these are.
#[derive(Drop)]
pub struct ActiveHosts {
    members: Vec<usize>,
    // Of each host of the run whether it is one of them.
    flags: Vec<bool>,
}

impl Model for ActiveHosts {
    ghost use Rattle.std.specs.Prelude.{◌≡◌, length, nat_lt, true};
    ghost use Rattle.std.specs.List.{list_all};
    ghost use Rattle.pb_world.specs.Active.{Active, flags_of};

    ghost Value = { Active };

    ghost view = { λ a. record { hosts = length a.flags.items; members = a.members.items } };

    ghost invariant = { λ a. (a.flags.items ≡ flags_of (length a.flags.items) a.members.items)
        × (list_all (λ k. nat_lt k (length a.flags.items)) a.members.items ≡ true) };
}

impl ActiveHosts {
    /// These of so many hosts, in the order of the batch.
    ///
    /// # Errors
    ///
    /// Want of memory.
    pub fn of(alloc: Global, hosts: usize, members: Vec<usize>) -> Result<ActiveHosts, AllocError>
        requires { All (λ k. k < hosts) members.items }
        ensures { IfOk result (λ a. a ≡ record { hosts = hosts; members = members.items }) }
    {
        let mut flags = vec![in alloc; false; hosts]?;
        for index in 0..members.len() {
            let host = members[index];
            flags[host] = true;
        }
        Ok(ActiveHosts { members, flags })
    }

    /// In the order of the batch.
    pub fn members(&self) -> &[usize]
        ensures members { result.now ≡ self.now.members }
        ensures within { list_all (λ k. nat_lt k self.now.hosts) self.now.members ≡ true }
    {
        self.members.as_slice()
    }

    /// Whether the host is one of them.
    pub fn has(&self, host: usize) -> bool
        requires { host < self.now.hosts }
        ensures { result ≡ is_in host self.now.members }
    {
        self.flags[host]
    }
}
