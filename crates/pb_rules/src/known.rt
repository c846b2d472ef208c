// Whether the inventory has the hosts and groups that expressions name.
ghost use Rattle.std.specs.Prelude.{◌≡◌, IfOk, is_some, string_bytes};
ghost use Rattle.pb_semantics.specs.Words.{is_among};
ghost use Rattle.pb_language.specs.Plays.{is_host};
ghost use Rattle.pb_language.specs.Rules.{is_group, is_known_member, is_known_term};
ghost use Rattle.pb_language.specs.Rules.{is_known_variable};
ghost use Rattle.pb_language.specs.Words.{Name};
ghost use Rattle.pb_language.specs.World.{member_of};
ghost use Rattle.pb_syntax.specs.Words.{names_of, root_view, term_view};
ghost use Rattle.pb_inventory.specs.Words.{inventory_view};
ghost use Rattle.pb_vars.specs.Reads.{is_known_root};
ghost use Rattle.pb_rules.specs.Names.{names_in};

use crate::names::add_name;
use pb_inventory::Inventory;
use pb_syntax::{Member, Root, Term};
use pb_vars::{Question, Read};
use std::alloc::{AllocError, Global};
use std::collections::BTreeSet;

// Whether the inventory has the hosts and groups that are named at a place of an expression.
#[derive(Drop)]
pub(crate) struct IsKnown<'i> {
    pub(crate) inventory: &'i Inventory,
    // The names of its hosts.
    hosts: BTreeSet<&'i str>,
    ghost all: { (n : Name) → is_among n (names_in hosts)
        ≡ is_host n (inventory_view inventory.now).hosts },
}

impl<'i> IsKnown<'i> {
    pub(crate) fn of(alloc: Global, inventory: &'i Inventory) -> Result<IsKnown<'i>, AllocError>
        ensures { IfOk result (λ k. k.inventory ≡ inventory.entry) }
    {
        let mut hosts = BTreeSet::new(alloc);
        for host in 0..inventory.hosts() {
            add_name(&mut hosts, inventory.host_name(host))?;
        }
        Ok(IsKnown { inventory, hosts })
    }

    fn has_root(&self, root: &Root, steps: &[String]) -> bool
        ensures { result ≡ is_known_root (inventory_view self.now.inventory.now)
            (root_view root.now) (names_of steps.now) }
    {
        match root {
            Root::Variable(name) => has_variable(self.inventory, name.as_str(), steps),
            Root::Other(host, _) => self.has_term(host),
            Root::Member(member) => has_member(self.inventory, member),
        }
    }

    fn has_term(&self, term: &Term) -> bool
        ensures { result
            ≡ is_known_term (inventory_view self.now.inventory.now) (term_view term.now) }
    {
        match term {
            Term::Named(name) => self.hosts.contains(name.as_str()),
            Term::This | Term::Item => true,
            Term::Member(member) => has_member(self.inventory, member),
        }
    }
}

impl<'i> Question for IsKnown<'i> {
    ghost use Rattle.pb_inventory.specs.Words.{inventory_view};
    ghost use Rattle.pb_vars.specs.Words.{is_known};

    ghost holds = { λ k. is_known (inventory_view k.inventory.now) };

    fn holds(&self, read: Read<'_>) -> bool {
        match read {
            Read::Value(root, steps) => self.has_root(root, steps),
            Read::Tested(_) => true,
            Read::Hostvars(Some(host)) => self.has_term(host),
            Read::Hostvars(None) => true,
            Read::InBatch(host) => may_be_looked_for(self.inventory, host),
        }
    }
}

// A name that is looked for in the batch need not be there, a member of a group has to.
fn may_be_looked_for(inventory: &Inventory, term: &Term) -> bool
    ensures { result ≡ is_known_member (inventory_view inventory.now) (term_view term.now) }
{
    match term {
        Term::Member(member) => has_member(inventory, member),
        Term::Named(_) | Term::This | Term::Item => true,
    }
}

// What is read below `groups` is a group.
fn has_variable(inventory: &Inventory, name: &str, steps: &[String]) -> bool
    ensures { result
        ≡ is_known_variable (inventory_view inventory.now) name.now (names_of steps.now) }
{
    match steps.first() {
        Some(group) => name != "groups" || has_group(inventory, group.as_str()),
        None => true,
    }
}

fn has_group(inventory: &Inventory, name: &str) -> bool
    ensures { result ≡ is_group name.now (inventory_view inventory.now).groups }
{
    inventory.groups().contains_key(name)
}

fn has_member(inventory: &Inventory, member: &Member) -> bool
    ensures { result ≡ is_some (member_of (string_bytes member.now.group) member.now.place
        (inventory_view inventory.now).groups) }
{
    match inventory.groups().get(member.group.as_str()) {
        Some(hosts) => member.place < hosts.len(),
        None => false,
    }
}
