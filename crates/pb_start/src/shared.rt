// Names of `vars` that are worked out once for several worlds.
ghost use Rattle.std.specs.Prelude.{◌≡◌};
ghost use Rattle.pb_language.specs.Expression.{Name};
ghost use Rattle.pb_eval.specs.Words.{worth_of};

use pb_eval::Vars;
use pb_value::Value;
use std::marker::Model;

// A world, and names of `vars` that were worked out in another, where they are worth the same.
//
// A clause sees both.
#[derive(Drop)]
pub(crate) struct Shared<'v, W: Vars, K: Vars> {
    world: &'v W,
    known: &'v K,
}

impl<'v, W: Vars, K: Vars> Model for Shared<'v, W, K> {
    ghost Value = { W × K };

    ghost view = { λ s. (s.world.now, s.known.now) };

    ghost invariant = { λ s. (n : Name)
        → worth_of (W.world s.world.now) (K.trees s.known.now n)
        ≡ worth_of (K.world s.known.now) (K.trees s.known.now n) };
}

impl<'v, W: Vars, K: Vars> Shared<'v, W, K> {
    pub(crate) fn of(world: &'v W, known: &'v K) -> Self
        requires { (n : Name) → worth_of (W.world world.now) (K.trees known.now n)
            ≡ worth_of (K.world known.now) (K.trees known.now n) }
        ensures { result ≡ (world.now, known.now) }
    {
        Shared { world, known }
    }
}

impl<'v, W: Vars, K: Vars> Vars for Shared<'v, W, K> {
    ghost world = { λ s. W.world s.0 };

    ghost trees = { λ s. K.trees s.1 };

    fn alias(&self, name: &str) -> Option<&Value> {
        self.known.alias(name)
    }

    fn value(&self, name: &str) -> Option<&Value> {
        self.world.value(name)
    }

    fn value_at(&self, slot: u32, name: &str) -> Option<&Value> {
        self.world.value_at(slot, name)
    }

    fn this(&self) -> &str {
        self.world.this()
    }

    fn other(&self, host: &str, name: &str) -> Option<&Value> {
        self.world.other(host, name)
    }

    fn other_at(&self, host: &str, slot: u32, name: &str) -> Option<&Value> {
        self.world.other_at(host, slot, name)
    }

    fn is_active(&self, host: &str) -> bool {
        self.world.is_active(host)
    }

    fn member(&self, group: &str, place: usize) -> Option<&str> {
        self.world.member(group, place)
    }
}
