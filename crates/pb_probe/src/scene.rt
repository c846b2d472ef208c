// What is known where a text stands, and what its variables hold.
ghost use Rattle.std.specs.Prelude.{◌≡◌, IfOk, OnOk, false, string_bytes, true};
ghost use Rattle.pb_semantics.specs.Words.{put_field, put_slot};
ghost use Rattle.pb_language.specs.Words.{known_kind};
ghost use Rattle.pb_kind.specs.Words.{kind_view, slots_view};
ghost use Rattle.pb_value.specs.Words.{fields_view, view};
ghost use Rattle.pb_syntax.specs.Words.{no_trees};
ghost use Rattle.pb_sig.specs.Words.{known_view, result_kind};
ghost use Rattle.pb_probe.specs.OneHost.{one_host_scope};
ghost use Rattle.pb_probe.specs.Registered.{registered_kind};

use crate::records::lay;
use pb_expr::{Expr, KindFault, Known as KnownVariables, Taught, kind_of};
use pb_kind::below::find;
use pb_kind::{Kind, Slot, Slots, put_slot};
use pb_sig::{Known, Module, Registry, Results};
use pb_value::{Fields, Value, put_field};
use std::alloc::{AllocError, Global};

/// What is known of the variables of the one host, which stands in the groups `all` and
/// `ungrouped`, and what they hold.
#[derive(Drop)]
pub struct Scene {
    pub host: String,
    pub slots: Slots,
    pub values: Fields,
}

impl KnownVariables for Scene {
    ghost before = { λ s. record {
      scope = one_host_scope (string_bytes s.host) (slots_view s.slots.entries);
      trees = no_trees;
    } };

    ghost depth = { λ _. 0 };

    fn tree(&self, _: &str) -> Option<&Expr> {
        None
    }

    fn own(&self, name: &str) -> Option<&Slot<Kind>> {
        find(&self.slots, name)
    }

    fn this(&self) -> &str {
        self.host.as_str()
    }

    fn has_host(&self, host: &str) -> bool {
        host == self.host.as_str()
    }

    fn other(&self, host: &str, name: &str) -> Option<&Slot<Kind>> {
        if host == self.host.as_str() {
            return find(&self.slots, name);
        }
        None
    }

    fn lasts(&self, _: &str, _: &str) -> bool {
        false
    }

    fn member(&self, group: &str, place: usize) -> Option<&str> {
        if group != "all" && group != "ungrouped" {
            return None;
        }
        if place == 0 {
            Some(self.host.as_str())
        } else {
            None
        }
    }
}

impl Scene {
    /// Where no variable of the host is known.
    pub fn new(alloc: Global, host: &str) -> Result<Scene, AllocError> {
        Ok(Scene {
            host: String::from_str(alloc, host)?,
            slots: Slots::new(alloc),
            values: Fields::new(alloc),
        })
    }

    /// Each variable is known to hold that value.
    pub fn know(&mut self, alloc: Global, values: &Fields) -> Result<(), AllocError> {
        for (name, value) in values.iter() {
            let kind = kind_of_value(alloc, value)?;
            self.set(name, kind, value)?;
        }
        Ok(())
    }

    /// The variable is certainly there and of that kind, and holds the value.
    pub fn set(&mut self, name: &String, kind: Kind, value: &Value) -> Result<(), AllocError>
        ensures kind { OnOk result (slots_view self.new.slots.entries
            ≡ put_slot (string_bytes name.now) true (kind_view kind)
            (slots_view self.old.slots.entries)) }
        ensures value { OnOk result (fields_view self.new.values.entries
            ≡ put_field (string_bytes name.now) (view value.now)
            (fields_view self.old.values.entries)) }
    {
        put_slot(&mut self.slots, name.clone()?, Slot::always(kind))?;
        put_field(&mut self.values, name.clone()?, value.clone()?)
    }

    /// Each variable holds that value.
    pub fn hold(&mut self, values: &Fields) -> Result<(), AllocError> {
        lay(&mut self.values, values)
    }

    /// Each variable is the register of a task of the module of that name that always runs.
    pub fn register(&mut self, alloc: Global, modules: &Fields) -> Result<(), AllocError> {
        let registry = Registry::builtin(alloc)?;
        for (name, module) in modules.iter() {
            let kind = registered_kind(alloc, &registry, module)?;
            put_slot(&mut self.slots, name.clone()?, Slot::always(kind))?;
        }
        Ok(())
    }
}

// The kind of what a task of the module of that name registers, where there is such a module.
fn registered_kind(alloc: Global, registry: &Registry, module: &Value) -> Result<Kind, AllocError> {
    let Value::Text(name) = module else {
        return Ok(Kind::Any);
    };
    match registry.find(name.as_str()) {
        Some(found) => kind_for(alloc, found),
        None => Ok(Kind::Any),
    }
}

// The kind of what a task of the module registers that always runs and goes on.
fn kind_for(alloc: Global, found: &Known) -> Result<Kind, AllocError>
    ensures { IfOk result (λ k. kind_view k ≡ registered_kind (known_view found.now)) }
{
    let results = results_for(alloc, found)?;
    results.kind(false).clone()
}

fn results_for(alloc: Global, found: &Known) -> Result<Results, AllocError>
    ensures { IfOk result (λ r. result_kind r false ≡ registered_kind (known_view found.now)) }
{
    match found.ok_shape() {
        Kind::Rec(fields) => Results::of(alloc, found.name(), fields),
        _ => unreachable!(),
    }
}

// The kind of a value that is known.
fn kind_of_value(alloc: Global, value: &Value) -> Result<Kind, AllocError>
    ensures { IfOk result (λ k. kind_view k ≡ known_kind (view value.now)) }
{
    let literal = Expr::Literal(value.clone()?);
    match kind_of(alloc, &literal, &Slots::new(alloc), &Taught::nothing(alloc)) {
        Ok(kind) => Ok(kind),
        Err(KindFault::NoMemory) => Err(AllocError),
        Err(KindFault::Unfit(_)) => unreachable!(),
    }
}
