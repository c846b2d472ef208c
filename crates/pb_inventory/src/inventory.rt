// The hosts of a run in their order, and the groups that they stand in.
ghost use Rattle.std.specs.Prelude.{◌<◌, ◌≡◌, IfSome, Some, is_some, length, map, option_map};
ghost use Rattle.std.specs.Prelude.{slice_get, string_bytes, true};
ghost use Rattle.std.specs.List.{All};
ghost use Rattle.std.proofs.Props.{props};
ghost use Rattle.pb_semantics.specs.Words.{are_ascending};
ghost use Rattle.pb_language.proofs.Same.{equal_data, own_expression};
ghost use Rattle.pb_language.specs.Plays.{group_named, is_host};
ghost use Rattle.pb_language.specs.Program.{memberships_of};
ghost use Rattle.pb_inventory.specs.Numbered.{are_apart, name_of, named};
ghost use Rattle.pb_inventory.specs.Once.{fields_set};
ghost use Rattle.pb_inventory.specs.Views.{are_placed, group_keys, group_view, host_names};
ghost use Rattle.pb_inventory.specs.Views.{are_numbered, base_lists, kept_groups, kept_layers};
ghost use Rattle.pb_inventory.specs.Views.{laid_layers};

use crate::bases::Base;
use indexmap::IndexMap;
use pb_value::Fields;
use std::alloc::Global;
use std::sync::Arc;

// What is known of a host.
#[derive(Drop)]
pub(crate) struct Host {
    // The names of its groups but `all`, in the order of their bytes.
    pub(crate) groups: Vec<Arc<String>>,
    // Which of the bases its groups give it.
    pub(crate) base: usize,
    // Its variables: those of its groups by depth, then name, and at last its own.
    pub(crate) layers: Vec<Arc<Fields>>,
    pub(crate) own: Arc<Fields>,
}

/// The hosts of a run in host order, at most 1,024, and the groups in the order of their names'
/// bytes. A host is named by its place in host order.
#[derive(Drop)]
pub struct Inventory {
    hosts: IndexMap<String, Host>,
    groups: IndexMap<String, Vec<usize>>,
    bases: Vec<Base>,
    ghost apart: { are_apart (host_names hosts.entries) ≡ true },
    ghost placed: { are_placed (length hosts.entries) groups.entries ≡ true },
    ghost ascending: { are_ascending (group_keys groups.entries) ≡ true },
    ghost grouped: { kept_groups hosts.entries
        ≡ map (λ n. memberships_of n (map (group_view (host_names hosts.entries)) groups.entries))
        (host_names hosts.entries) },
    ghost numbered: { are_numbered (length (base_lists bases.items)) hosts.entries ≡ true },
    ghost laid: { laid_layers (base_lists bases.items) hosts.entries
        ≡ kept_layers hosts.entries } by { Prim.hlevel
            (props, fields_set equal_data own_expression) },
}

impl Inventory {
    ghost use Rattle.pb_inventory.specs.Inventory.{bases_view, inventory_view};
    ghost use Rattle.pb_inventory.specs.Views.{AreBased, base_at, host_view, laid, layered};
    ghost use Rattle.pb_value.specs.Words.{fields_view};

    // The inventory of these hosts and groups.
    pub(crate) fn of_parts(
        hosts: IndexMap<String, Host>,
        groups: IndexMap<String, Vec<usize>>,
        bases: Vec<Base>,
    ) -> Inventory
        requires apart { are_apart (host_names hosts.entries) ≡ true }
        requires placed { are_placed (length hosts.entries) groups.entries ≡ true }
        requires ascending { are_ascending (group_keys groups.entries) ≡ true }
        requires grouped { kept_groups hosts.entries ≡ map (λ n. memberships_of n
            (map (group_view (host_names hosts.entries)) groups.entries))
            (host_names hosts.entries) }
        requires based { AreBased (base_lists bases.items) hosts.entries }
        ensures hosts { (inventory_view result).hosts ≡ map host_view hosts.entries }
        ensures groups { (inventory_view result).groups
            ≡ map (group_view (host_names hosts.entries)) groups.entries }
    {
        Inventory {
            hosts,
            groups,
            bases,
        }
    }

    /// How many hosts there are.
    pub fn hosts(&self) -> usize
        ensures { result ≡ length (inventory_view self.now).hosts }
    {
        self.hosts.len()
    }

    /// The name of the host.
    pub fn host_name(&self, host: usize) -> &str
        requires { host < length (inventory_view self.now).hosts }
        ensures { option_map (λ h. h.name) (slice_get (inventory_view self.now).hosts host)
            ≡ Some result.now }
    {
        match self.hosts.get_index(host) {
            Some((name, _)) => name.as_str(),
            None => unreachable!(),
        }
    }

    /// The names of the host's groups but `all`, in the order of their bytes.
    pub fn group_names(&self, host: usize) -> &[Arc<String>]
        requires { host < length (inventory_view self.now).hosts }
        ensures { option_map (λ h. memberships_of h.name (inventory_view self.now).groups)
            (slice_get (inventory_view self.now).hosts host)
            ≡ Some (map (λ n. string_bytes n.value) result.now) }
    {
        match self.hosts.get_index(host) {
            Some((_, known)) => known.groups.as_slice(),
            None => unreachable!(),
        }
    }

    /// The variables that the host has before anything is run, in layers that it shares with other
    /// hosts: those of its groups, of which deeper ones come later and then those with later names,
    /// and at last its own. The last layer that has a name gives its value.
    pub fn vars_of(&self, host: usize) -> &[Arc<Fields>]
        requires { host < length (inventory_view self.now).hosts }
        ensures { option_map (λ h. h.variables) (slice_get (inventory_view self.now).hosts host)
            ≡ Some (layered (map (λ layer. fields_view layer.value.entries) result.now)) }
    {
        match self.hosts.get_index(host) {
            Some((_, known)) => known.layers.as_slice(),
            None => unreachable!(),
        }
    }

    /// How many different lists of layers groups give hosts: a base is what hosts share that are in
    /// the same groups, but for groups that give no variable.
    pub fn bases(&self) -> usize
        ensures { result ≡ length (bases_view self.now) }
    {
        self.bases.len()
    }

    /// The layers of the base, of which deeper groups' come later and then those with later names.
    pub fn layers_of(&self, base: usize) -> &[Arc<Fields>]
        requires { base < length (bases_view self.now) }
        ensures { base_at (bases_view self.now) base
            ≡ map (λ layer. fields_view layer.value.entries) result.now }
    {
        self.bases[base].layers.as_slice()
    }

    /// The base that its groups give the host, and its own variables, which are laid over it.
    pub fn base_of(&self, host: usize) -> (usize, &Fields)
        requires { host < length (inventory_view self.now).hosts }
        ensures base { result.0 < length (bases_view self.now) }
        ensures variables { option_map (λ h. h.variables)
            (slice_get (inventory_view self.now).hosts host)
            ≡ Some (laid (layered (base_at (bases_view self.now) result.0))
            (fields_view result.1.now.entries)) }
    {
        match self.hosts.get_index(host) {
            Some((_, known)) => (known.base, &known.own),
            None => unreachable!(),
        }
    }

    /// The groups in the order of their names' bytes, `all` and `ungrouped` among them, each with
    /// the places of its hosts in the order in which it has them.
    pub fn groups(&self) -> &IndexMap<String, Vec<usize>>
        ensures groups { map (group_view (map (λ h. h.name) (inventory_view self.now).hosts))
            result.now.entries
            ≡ (inventory_view self.now).groups }
        ensures placed { are_placed (length (inventory_view self.now).hosts) result.now.entries
            ≡ true }
        ensures ascending { are_ascending (map (λ g. g.name) (inventory_view self.now).groups)
            ≡ true }
    {
        &self.groups
    }

    // The places of the hosts of the group of that name.
    pub(crate) fn members_of(&self, name: &str) -> Option<&[usize]>
        ensures named { option_map
            (λ ps. named (map (λ h. h.name) (inventory_view self.now).hosts) ps.now) result
            ≡ group_named name.now (inventory_view self.now).groups }
        ensures placed { IfSome result
            (λ ps. All (λ p. p < length (inventory_view self.now).hosts) ps.now) }
    {
        match self.groups.get(name) {
            Some(members) => Some(members.as_slice()),
            None => None,
        }
    }

    /// The place of the host of that name in host order, or none where there is no such host.
    pub fn place_of(&self, name: &str) -> Option<usize>
        ensures known { is_some result ≡ is_host name.now (inventory_view self.now).hosts }
        ensures placed { IfSome result (λ p. p < length (inventory_view self.now).hosts) }
        ensures named { IfSome result (λ p.
            name_of (map (λ h. h.name) (inventory_view self.now).hosts) p ≡ name.now) }
    {
        self.hosts.get_index_of(name)
    }
}
