// The world that an expression is evaluated in.
ghost use Rattle.std.specs.Prelude.{◌≡◌, option_map};
ghost use Rattle.pb_semantics.specs.Keeps.{is_among};
ghost use Rattle.pb_semantics.specs.Words.{field_value};
ghost use Rattle.pb_language.specs.Words.{World};
ghost use Rattle.pb_language.specs.World.{member_of, variables_of};
ghost use Rattle.pb_value.specs.Words.{fields_view, view};
ghost use Rattle.pb_syntax.specs.Aliases.{Trees, no_trees};
ghost use Rattle.pb_eval.specs.Worth.{worth_of};
ghost use Rattle.pb_eval.specs.OwnWorld.{own_world};

use pb_value::{Fields, Value};

/// The world that an expression is evaluated in: what the names of the host hold, and what the host
/// knows of the other hosts, of the batch and of the groups. With it go the names that are values
/// of `vars`, each with what its tree is worth.
pub trait Vars {
    /// The world that an expression is evaluated in.
    ghost world: { Self → World };

    /// The whole tree of each name of `vars`.
    ghost trees: { Self → Trees };

    /// What the tree of a name of `vars` is worth, opaque where it has no value that may be read;
    /// none where it is no such name. A name of `vars` hides a variable of that name.
    fn alias(&self, name: &str) -> Option<&Value>
        ensures { option_map (λ v. view v.now) result
            ≡ worth_of (world self.now) (trees self.now name.now) };

    /// The value at a name of the host's own; none where nothing stands there.
    fn value(&self, name: &str) -> Option<&Value>
        ensures { option_map (λ v. view v.now) result
            ≡ field_value name.now (world self.now).mine };

    /// The same. The slot is where a world that keeps variables at slots finds it, if that slot has
    /// the name.
    fn value_at(&self, _slot: u32, name: &str) -> Option<&Value>
        ensures { option_map (λ v. view v.now) result
            ≡ field_value name.now (world self.now).mine }
    {
        self.value(name)
    }

    /// The host's name, which is `inventory_hostname`.
    fn this(&self) -> &str
        ensures { result.now ≡ (world self.now).this };

    /// The value of a variable of the host of that name; none where there is no such host, or it
    /// has no such variable.
    fn other(&self, host: &str, name: &str) -> Option<&Value>
        ensures { option_map (λ v. view v.now) result
            ≡ field_value name.now (variables_of host.now (world self.now).hosts) };

    /// The same, where the slot is as in `value_at`.
    fn other_at(&self, host: &str, _slot: u32, name: &str) -> Option<&Value>
        ensures { option_map (λ v. view v.now) result
            ≡ field_value name.now (variables_of host.now (world self.now).hosts) }
    {
        self.other(host, name)
    }

    /// Whether the host of that name is active in the batch.
    fn is_active(&self, host: &str) -> bool
        ensures { result ≡ is_among host.now (world self.now).batch };

    /// The name of the host at that place of the group, from 0 on; none where there is no such
    /// group, or it has no such place.
    fn member(&self, group: &str, place: usize) -> Option<&str>
        ensures { option_map (λ s. s.now) result
            ≡ member_of group.now place (world self.now).groups };
}

/// The variables of a host alone: its name is the empty one, it knows of no other host, and there
/// are no `vars`.
impl Vars for Fields {
    ghost world = { λ m. own_world (fields_view m.entries) };

    ghost trees = { λ _. no_trees };

    fn alias(&self, _name: &str) -> Option<&Value> {
        None
    }

    fn value(&self, name: &str) -> Option<&Value> {
        self.get(name)
    }

    fn this(&self) -> &str {
        ""
    }

    fn other(&self, _host: &str, _name: &str) -> Option<&Value> {
        None
    }

    fn is_active(&self, _host: &str) -> bool {
        false
    }

    fn member(&self, _group: &str, _place: usize) -> Option<&str> {
        None
    }
}
