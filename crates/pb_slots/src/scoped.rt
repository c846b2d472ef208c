// The slots of names where values of `vars` are in scope.
ghost use Rattle.std.specs.Prelude.{◌≡◌};
ghost use Rattle.pb_slots.specs.Slots.{kept_slot};

use crate::slots::Slots;
use pb_syntax::SlotNames;
use pb_vars::InScope;

/// The slots of names as they are seen where those values of `vars` are in scope: a name of `vars`
/// has none of the host's own.
#[derive(Drop)]
pub struct SlotsInScope<'s, 'p> {
    /// The names that have slots.
    pub slots: &'s Slots,
    /// The values of `vars`.
    pub scope: &'s InScope<'p>,
}

impl SlotNames for SlotsInScope<'_, '_> {
    ghost use Rattle.pb_slots.specs.Slots.{slots_in_scope};
    ghost use Rattle.pb_slots.specs.Words.{names_of_slots};
    ghost use Rattle.pb_vars.specs.Words.{in_scope};

    ghost slots = { λ s. slots_in_scope (names_of_slots s.slots.now) (in_scope s.scope.now) };

    fn own(&self, name: &str) -> Option<u32> {
        match self.scope.find(name) {
            Some(_) => None,
            None => kept(self.slots.slot(name)),
        }
    }

    fn other(&self, name: &str) -> Option<u32> {
        kept(self.slots.slot(name))
    }
}

// What a path keeps of a slot.
fn kept(slot: Option<usize>) -> Option<u32>
    ensures { result ≡ kept_slot slot }
{
    match slot {
        Some(slot) => u32::try_from(slot).ok(),
        None => None,
    }
}
