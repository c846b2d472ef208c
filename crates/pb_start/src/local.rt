// A world in which one name more is known.
ghost use Rattle.std.specs.Prelude.{option_map};
ghost use Rattle.pb_value.specs.Words.{view};
ghost use Rattle.pb_start.specs.Words.{world_with};

use pb_eval::Vars;
use pb_value::Value;

/// A world in which a name has this value, which hides the host's; with no value it is the world
/// itself. Names of `vars` that the world itself has aren't looked at: `values_of` works them out
/// in this one.
#[derive(Drop)]
pub struct Local<'v, V: Vars> {
    pub vars: &'v V,
    pub name: &'v str,
    pub value: Option<&'v Value>,
}

impl<'v, V: Vars> Vars for Local<'v, V> {
    ghost use Rattle.pb_syntax.specs.Words.{no_trees};

    ghost world = { λ l. world_with l.name.now (option_map (λ v. view v.now) l.value)
        (V.world l.vars.now) };

    ghost trees = { λ _. no_trees };

    fn alias(&self, _name: &str) -> Option<&Value> {
        None
    }

    fn value(&self, name: &str) -> Option<&Value> {
        match self.value {
            Some(value) if name == self.name => Some(value),
            _ => self.vars.value(name),
        }
    }

    fn value_at(&self, slot: u32, name: &str) -> Option<&Value> {
        match self.value {
            Some(value) if name == self.name => Some(value),
            _ => self.vars.value_at(slot, name),
        }
    }

    fn this(&self) -> &str {
        self.vars.this()
    }

    fn other(&self, host: &str, name: &str) -> Option<&Value> {
        self.vars.other(host, name)
    }

    fn other_at(&self, host: &str, slot: u32, name: &str) -> Option<&Value> {
        self.vars.other_at(host, slot, name)
    }

    fn is_active(&self, host: &str) -> bool {
        self.vars.is_active(host)
    }

    fn member(&self, group: &str, place: usize) -> Option<&str> {
        self.vars.member(group, place)
    }
}
