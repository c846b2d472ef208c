// What is known where a task of a host stands.
ghost use Rattle.std.specs.Prelude.{◌≡◌, ◌&&◌, IfOk, None, codes, cond, false, nat_lt};
ghost use Rattle.std.specs.Prelude.{option_map, true};
ghost use Rattle.std.specs.Str.{bytes_eq};
ghost use Rattle.pb_semantics.specs.Words.{Slots, no_slots, slot_at, spot};
ghost use Rattle.pb_semantics.specs.Kind.{nowhere};
ghost use Rattle.pb_language.specs.Cases.{item_kind as kind_of_items};
ghost use Rattle.pb_language.specs.Rules.{any_too_long};
ghost use Rattle.pb_language.specs.Setting.{named_slots, with_failure_slot, with_item};
ghost use Rattle.pb_lattice.specs.Words.{exit_of, is_over};
ghost use Rattle.pb_kind.specs.Words.{is_always, kind_view, spot_view};
ghost use Rattle.pb_vars.specs.Words.{in_scope};
ghost use Rattle.pb_outlook.specs.Standing.{known_of, own_names, with_given, with_known};
ghost use Rattle.pb_outlook.specs.Standing.{with_result};

use crate::outlook::Outlook;
use pb_kind::{Kind, Slot};
use pb_lattice::{Environment, Environments};
use pb_syntax::Expr;
use pb_taught::Known;
use pb_vars::InScope;
use std::alloc::AllocError;

/// Where a task of a host stands.
#[derive(Drop)]
pub struct Ground<'s, O: Outlook> {
    /// What the host sees beside its own variables.
    pub outlook: &'s O,
    /// The values of `vars` in scope.
    pub vars: &'s InScope<'s>,
    /// What is known of the host's variables.
    pub space: &'s Environments,
    pub at: Environment,
    /// The task's place in running order.
    pub place: u32,
    /// In how many `rescue` parts it stands.
    pub depth: usize,
    ghost over: { is_over space.now at ≡ true },
    ghost short: { any_too_long (in_scope vars.now) (in_scope vars.now) ≡ false },
}

/// What is known there before any test.
#[derive(Drop)]
pub struct Standing<'s, O: Outlook> {
    pub ground: &'s Ground<'s, O>,
    /// What is known of `item`, where the task has a loop.
    pub item: Option<Slot<Kind>>,
    /// What is known of the task's own result, where that is asked about.
    pub result: Option<Given<'s>>,
    /// A Start sees what hosts that are active have, a Give doesn't.
    pub is_start: bool,
}

/// What is known of a result under the name that the task registers.
#[derive(Drop)]
pub struct Given<'s> {
    pub name: &'s str,
    pub slot: Slot<Kind>,
}

impl<'s, O: Outlook> Known for Standing<'s, O> {
    ghost use Rattle.pb_lattice.specs.Words.{exit_of};
    ghost use Rattle.pb_vars.specs.Words.{greatest, in_scope};
    ghost use Rattle.pb_outlook.specs.Standing.{before_at, own_names};

    ghost before = { λ s. let g = s.ground.now in let st = O.setting g.outlook.now in
        before_at st (in_scope g.vars.now) g.place s.is_start
        (own_names st g.depth (exit_of g.space.now g.at) s.item s.result) };

    ghost depth = { λ s. greatest s.ground.now.vars.now };

    fn tree(&self, name: &str) -> Option<&Expr> {
        self.ground.vars.find(name)
    }

    fn own(&self, name: &str) -> Option<&Slot<Kind>> {
        match self.result_named(name) {
            Some(result) => Some(result),
            None => self.own_but_result(name),
        }
    }

    fn this(&self) -> &str {
        self.ground.outlook.this()
    }

    fn has_host(&self, host: &str) -> bool {
        self.ground.outlook.has_host(host)
    }

    fn other(&self, host: &str, name: &str) -> Option<&Slot<Kind>> {
        self.ground.outlook.other(host, name)
    }

    fn lasts(&self, host: &str, name: &str) -> bool {
        self.is_start && self.ground.outlook.lasts(host, self.ground.place, name)
    }

    fn member(&self, group: &str, place: usize) -> Option<&str> {
        self.ground.outlook.member(group, place)
    }
}

impl<'s, O: Outlook> Standing<'s, O> {
    // What is known of a name beside the result.
    fn own_but_result(&self, name: &str) -> Option<&Slot<Kind>>
        ensures { let g = self.now.ground.now in spot_view result
            ≡ slot_at name.now (own_names (O.setting g.outlook.now) g.depth
            (exit_of g.space.now g.at) self.now.item None) }
    {
        match self.item_named(name) {
            Some(item) => Some(item),
            None => self.ground.name(name),
        }
    }

    // What is known of the result, where that is its name.
    fn result_named(&self, name: &str) -> Option<&Slot<Kind>>
        ensures { spot_view result ≡ slot_at name.now (with_given self.now.result no_slots) }
    {
        match &self.result {
            Some(given) => slot_if(name == given.name, &given.slot),
            None => None,
        }
    }

    // What is known of the item, where that is its name.
    fn item_named(&self, name: &str) -> Option<&Slot<Kind>>
        ensures { spot_view result
            ≡ slot_at name.now (with_known (codes "item") self.now.item no_slots) }
    {
        match &self.item {
            Some(item) => slot_if(name == "item", item),
            None => None,
        }
    }
}

// The slot, if that is so.
fn slot_if(is_so: bool, slot: &Slot<Kind>) -> Option<&Slot<Kind>>
    ensures { spot_view result
        ≡ cond is_so (spot (is_always slot.now.presence) (kind_view slot.now.kind)) nowhere }
{
    if is_so { Some(slot) } else { None }
}

impl<'s, O: Outlook> Ground<'s, O> {
    // What is known of a name beside the item and the result.
    fn name(&self, name: &str) -> Option<&Slot<Kind>>
        ensures { let st = O.setting self.now.outlook.now in spot_view result
            ≡ slot_at name.now (named_slots st self.now.depth
            (known_of (exit_of self.now.space.now self.now.at))) }
    {
        match self.outlook.always(name) {
            Some(always) => Some(always),
            None => self.variable(name),
        }
    }

    // What is known of a variable of the host, or of the failure in a `rescue` part.
    fn variable(&self, name: &str) -> Option<&Slot<Kind>>
        ensures { spot_view result ≡ slot_at name.now (with_failure_slot self.now.depth
            (known_of (exit_of self.now.space.now self.now.at))) }
    {
        if self.hides(name) {
            Some(self.outlook.failure())
        } else {
            self.space.find(self.at, name)
        }
    }

    // Whether it is the name of the failure, in a `rescue` part.
    fn hides(&self, name: &str) -> bool
        ensures { result ≡ nat_lt 0 self.now.depth
            && bytes_eq name.now (codes "ansible_failed_result") }
    {
        self.depth > 0 && name == "ansible_failed_result"
    }
}

/// What is known of a result of that kind under the name that the task registers, where there is
/// one.
///
/// # Errors
///
/// Want of memory.
pub fn own_result<'s>(
    register: Option<&'s str>,
    kind: &Kind,
) -> Result<Option<Given<'s>>, AllocError>
    ensures { IfOk result (λ g. (ss : Slots) → with_given g ss
        ≡ with_result (option_map (λ n. n.now) register.entry) (kind_view kind.now) ss) }
{
    match register {
        None => Ok(None),
        Some(name) => Ok(Some(Given {
            name,
            slot: Slot::always(kind.clone()?),
        })),
    }
}

/// What is known of `item` for each item of a list of that kind; nothing where there is no list.
///
/// # Errors
///
/// Want of memory.
pub fn item_of(list: Option<&Kind>) -> Result<Option<Slot<Kind>>, AllocError>
    ensures { IfOk result (λ s. (ss : Slots) → with_known (codes "item") s ss
        ≡ with_item (option_map (λ k. kind_view k.now) list.entry) ss) }
{
    match list {
        None => Ok(None),
        Some(list) => Ok(Some(Slot::always(kind_of_items(list)?))),
    }
}

fn kind_of_items(list: &Kind) -> Result<Kind, AllocError>
    ensures { IfOk result (λ k. kind_view k ≡ kind_of_items (kind_view list.now)) }
{
    match list {
        Kind::List(item, _) => {
            let item: &Kind = item;
            item.clone()
        }
        Kind::Any => Ok(Kind::Any),
        _ => Ok(Kind::Never),
    }
}
