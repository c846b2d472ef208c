// The values of the names of `vars`, each worked out once in a world.
ghost use Rattle.std.specs.Prelude.{◌+◌, ◌<◌, ◌≡◌, IfOk, length, take};

use crate::eval::eval;
use crate::vars::Vars;
use pb_syntax::Expr;
use pb_value::{Fields, Value, field_of, put_field};
use std::alloc::{AllocError, Global};
use std::marker::Model;

/// A world, and names of `vars` with what their trees are worth in it. A tree reads the names that
/// stand before it in the list.
///
/// A clause sees the world and the list.
#[derive(Drop)]
pub struct Aliased<'v, V: Vars> {
    world: &'v V,
    names: &'v [(String, Expr)],
    values: Fields,
}

impl<'v, V: Vars> Model for Aliased<'v, V> {
    ghost use Rattle.std.specs.Prelude.{List, String};
    ghost use Rattle.std.specs.declared.alloc.Global.{Global};
    ghost use Rattle.std.specs.Coded.{codes};
    ghost use Rattle.pb_syntax.specs.contracts.expr.Expr as e;
    ghost use Rattle.pb_syntax.specs.declared.expr.Expr.{Expr};

    ghost Value = { V × List (String Global × Expr) };

    ghost coded = { Prim.hlevel (codes, e.the_row.coded) };

    ghost use Rattle.pb_value.specs.Words.{fields_view};
    ghost use Rattle.pb_syntax.specs.ExprView.{parts_view};
    ghost use Rattle.pb_eval.specs.Worth.{AreWorth};
    ghost use Rattle.pb_syntax.specs.Aliases.{trees_in};

    ghost view = { λ a. (a.world.now, a.names.now) };

    ghost invariant = { λ a. AreWorth (V.world a.world.now) (trees_in (parts_view a.names.now))
        (fields_view a.values.entries) };
}

impl<'v, V: Vars> Vars for Aliased<'v, V> {
    ghost use Rattle.pb_syntax.specs.ExprView.{parts_view};
    ghost use Rattle.pb_syntax.specs.Aliases.{trees_in};

    ghost world = { λ a. V.world a.0 };

    ghost trees = { λ a. trees_in (parts_view a.1) };

    fn alias(&self, name: &str) -> Option<&Value> {
        field_of(&self.values, name)
    }

    fn value(&self, name: &str) -> Option<&Value> {
        self.world.value(name)
    }

    fn value_at(&self, slot: u32, name: &str) -> Option<&Value> {
        self.world.value_at(slot, name)
    }

    fn this(&self) -> &str {
        self.world.this()
    }

    fn other(&self, host: &str, name: &str) -> Option<&Value> {
        self.world.other(host, name)
    }

    fn other_at(&self, host: &str, slot: u32, name: &str) -> Option<&Value> {
        self.world.other_at(host, slot, name)
    }

    fn is_active(&self, host: &str) -> bool {
        self.world.is_active(host)
    }

    fn member(&self, group: &str, place: usize) -> Option<&str> {
        self.world.member(group, place)
    }
}

/// The names of `vars` over a world: the tree under each is evaluated once, in the order of the
/// list. Names of `vars` that the world itself has aren't looked at.
pub fn values_of<'v, V: Vars>(
    alloc: Global,
    names: &'v [(String, Expr)],
    world: &'v V,
) -> Result<Aliased<'v, V>, AllocError>
    ensures { IfOk result (λ a. a ≡ (world.now, names.now)) }
{
    let mut known = Aliased {
        world,
        names: &names[..0],
        values: Fields::new(alloc),
    };
    for place in 0..names.len() {
        known = with_next(alloc, names, place, known)?;
    }
    Ok(known)
}

// With the name at that place too, whose tree is evaluated.
fn with_next<'v, V: Vars>(
    alloc: Global,
    names: &'v [(String, Expr)],
    place: usize,
    known: Aliased<'v, V>,
) -> Result<Aliased<'v, V>, AllocError>
    requires place { place < length names.now }
    requires known { known.1 ≡ take place names.now }
    ensures { IfOk result (λ a. a ≡ (known.entry.0, take (place + 1) names.now)) }
{
    let (name, tree) = &names[place];
    let worth = eval(alloc, tree, &known)?;
    let Aliased {
        world,
        names: _,
        mut values,
    } = known;
    put_field(&mut values, name.clone()?, worth)?;
    Ok(Aliased {
        world,
        names: &names[..place + 1],
        values,
    })
}
