// A book that was accepted, with its inventory and modules.
use pb_book::Book;
use pb_inventory::Inventory;
use pb_kind::below::find;
use pb_kind::{Kind, Slots};
use pb_sig::Registry;
use std::marker::Model;
use std::sync::Arc;

/// What was handed to the verifier, and what it found.
#[derive(Drop)]
pub struct Accepted {
    pub book: Book,
    pub inventory: Inventory,
    pub registry: Registry,
    /// The most module calls that a run hands out.
    pub budget: u64,
    /// What is known of each host's variables to others, in host order; hosts may share it.
    pub views: Vec<Arc<Slots>>,
}

/// A book that was accepted for an inventory. Contracts see what was accepted.
#[derive(Drop)]
pub struct Checked {
    accepted: Accepted,
}

impl Model for Checked {
    ghost use Rattle.pb_verify.specs.Judges.{IsChecked};
    ghost use Rattle.pb_verify.specs.declared.checked.Accepted.{Accepted};
    ghost use Rattle.pb_inventory.specs.contracts.inventory.Inventory as inventory;
    ghost use Rattle.pb_value.specs.contracts.value.Value as value;
    ghost use Rattle.pb_kind.specs.contracts.kind.Kind as kind;
    ghost use Rattle.pb_syntax.specs.contracts.expr.Expr as expr;
    ghost use Rattle.pb_play.specs.contracts.play.Step as step;
    ghost use Rattle.std.specs.Coded.{codes};
    ghost use Rattle.std_collections.specs.Layout.BTreeMap.{btree_map_code};
    ghost use Rattle.std_collections.specs.Layout.HashMap.{hash_map_code};

    ghost Value = { Accepted };

    ghost coded = { Prim.hlevel (
      codes,
      btree_map_code,
      hash_map_code,
      inventory.the_row.coded,
      value.the_row.coded,
      kind.the_row.coded,
      expr.the_row.coded,
      step.the_row.coded,
    ) };

    ghost view = { λ a. a.accepted };

    ghost invariant = { λ a. IsChecked a.accepted };
}

impl Checked {
    ghost use Rattle.std.specs.Prelude.{ℕ, ◌≡◌, ◌≤◌, ◌<◌, List, length, option_map, true, false};
    ghost use Rattle.pb_language.specs.Machine.{Event};
    ghost use Rattle.pb_sig.specs.Modules.{modules_of};
    ghost use Rattle.pb_inventory.specs.Inventory.{inventory_view};
    ghost use Rattle.pb_play.specs.Sound.{AreSound, all_tasks};
    ghost use Rattle.pb_book.specs.Books.{plays_of};
    ghost use Rattle.pb_verify.specs.Judges.{IsChecked, is_accepted, run_of_accepted};
    ghost use Rattle.pb_verify.specs.Known.{IsKnownAs, known_spot};

    // What was accepted.
    pub(crate) fn of(accepted: Accepted) -> Checked
        requires { IsChecked accepted }
        ensures { result ≡ accepted }
    {
        Checked { accepted }
    }

    /// The most module calls that a run of the book hands out. Whatever the number of forks, the
    /// order of events and the answers of modules: no step of the run is stuck, and it hands out no
    /// more calls.
    pub fn budget(&self) -> u64
        ensures budget { result ≡ self.now.budget }
        ensures accepted { is_accepted self.now ≡ true }
        ensures sound { (forks : ℕ) (es : List Event)
            → (run_of_accepted self.now forks es).is_stuck ≡ false }
        ensures within { (forks : ℕ) (es : List Event)
            → (run_of_accepted self.now forks es).handed ≤ self.now.budget }
    {
        self.accepted.budget
    }

    /// The book that was handed in. Each module that it names is in the registry.
    pub fn book(&self) -> &Book
        ensures value { result.now ≡ self.now.book }
        ensures sound { AreSound (modules_of self.now.registry) (all_tasks (plays_of result.now)) }
    {
        &self.accepted.book
    }

    /// The inventory as it was handed in.
    pub fn inventory(&self) -> &Inventory
        ensures { result.now ≡ self.now.inventory }
    {
        &self.accepted.inventory
    }

    /// The modules as they were handed in.
    pub fn registry(&self) -> &Registry
        ensures { result.now ≡ self.now.registry }
    {
        &self.accepted.registry
    }

    /// How many hosts the inventory has.
    pub fn hosts(&self) -> usize
        ensures { result ≡ length (inventory_view self.now.inventory).hosts }
    {
        self.accepted.inventory.hosts()
    }

    /// What is known of the host's variable of that name anywhere in the book, by the fourth round
    /// of the kinds that hosts see of each other; none where there is no such variable.
    pub fn view(&self, host: usize, name: &str) -> Option<&Kind>
        requires { host < length (inventory_view self.now.inventory).hosts }
        ensures { IsKnownAs (option_map (λ k. k.now) result) (known_spot self.now host name.now) }
    {
        let known = &self.accepted.views[host];
        match find(known, name) {
            Some(slot) => Some(&slot.kind),
            None => None,
        }
    }
}
