// The modules of a run, found by their names.
ghost use Rattle.std.specs.Prelude.{◌++◌, ◌≡◌, IfOk, map, option_map, string_bytes, true};
ghost use Rattle.pb_language.specs.Cases.{is_setup};
ghost use Rattle.pb_sig.specs.ModuleView.{are_lawful_modules, builtin_view, known_view};
ghost use Rattle.pb_sig.specs.ModuleView.{shared_view};

use crate::builtin::Builtin;
use crate::declared::Declared;
use crate::signature::{Module, Parameter};
use pb_kind::Kind;
use std::alloc::{AllocError, Global};
use std::sync::Arc;

/// A module of a run: one that is there in every run, or one that a file of signatures declares.
#[derive(Drop)]
pub enum Known {
    Builtin(Builtin),
    Declared(Declared),
}

impl Module for Known {
    ghost use Rattle.pb_sig.specs.ModuleView.{known_view};

    ghost meaning = { known_view };

    fn name(&self) -> &str {
        match self {
            Known::Builtin(module) => module.name(),
            Known::Declared(module) => module.name(),
        }
    }

    fn params(&self) -> &[Parameter] {
        match self {
            Known::Builtin(module) => module.params(),
            Known::Declared(module) => module.params(),
        }
    }

    fn ok_shape(&self) -> &Kind {
        match self {
            Known::Builtin(module) => module.ok_shape(),
            Known::Declared(module) => module.ok_shape(),
        }
    }

    fn fail_shape(&self) -> &Kind {
        match self {
            Known::Builtin(module) => module.fail_shape(),
            Known::Declared(module) => module.fail_shape(),
        }
    }

    fn free_form(&self) -> Option<&str> {
        match self {
            Known::Builtin(module) => module.free_form(),
            Known::Declared(module) => module.free_form(),
        }
    }
}

impl Known {
    /// The name, in a block that its copies share.
    pub fn shared_name(&self) -> &Arc<String>
        ensures { string_bytes result.now.value ≡ (known_view self.now).name }
    {
        match self {
            Known::Builtin(module) => module.shared_name(),
            Known::Declared(module) => module.shared_name(),
        }
    }

    /// Whether its answers tell facts of the host, which the run keeps as variables.
    pub fn gathers_facts(&self) -> bool
        ensures { result ≡ is_setup (known_view self.now) }
    {
        self.name() == "setup"
    }
}

// A module that is there in every run, in a block that its copies share.
fn shared(alloc: Global, built: Builtin) -> Result<Arc<Known>, AllocError>
    ensures { IfOk result (λ m. shared_view m ≡ builtin_view built) }
{
    Ok(Arc::new(alloc, Known::Builtin(built))?)
}

/// The modules of a run, each name once.
#[derive(Drop)]
pub struct Registry {
    modules: Vec<Arc<Known>>,
    ghost lawful: { are_lawful_modules (map shared_view modules.items) ≡ true },
}

impl Registry {
    ghost use Rattle.pb_sig.specs.Modules.{modules_of, module_at};
    ghost use Rattle.pb_sig.specs.Table.{builtins};

    /// The built-in modules, in the order of their table.
    pub fn builtin(alloc: Global) -> Result<Registry, AllocError>
        ensures { IfOk result (λ r. modules_of r ≡ builtins) }
    {
        let modules = vec![in alloc;
            shared(alloc, Builtin::ping(alloc)?)?,
            shared(alloc, Builtin::command(alloc)?)?,
            shared(alloc, Builtin::shell(alloc)?)?,
            shared(alloc, Builtin::stat(alloc)?)?,
            shared(alloc, Builtin::copy(alloc)?)?,
            shared(alloc, Builtin::file(alloc)?)?,
            shared(alloc, Builtin::service(alloc)?)?,
            shared(alloc, Builtin::setup(alloc)?)?,
        ]?;
        Ok(Registry { modules })
    }

    // The built-in modules, and those of a file.
    pub(crate) fn with(alloc: Global, declared: Vec<Arc<Known>>) -> Result<Registry, AllocError>
        requires { are_lawful_modules (map shared_view declared.items) ≡ true }
        ensures { IfOk result (λ r. modules_of r ≡ builtins ++ map shared_view declared.items) }
    {
        let mut declared = declared;
        let mut modules = Registry::builtin(alloc)?.modules;
        modules.append(&mut declared)?;
        Ok(Registry { modules })
    }

    /// All modules. Each keeps the laws of modules.
    pub fn modules(&self) -> &[Arc<Known>]
        ensures { map shared_view result.now ≡ modules_of self.now }
    {
        self.modules.as_slice()
    }

    /// The module of that name, or none where there is none.
    pub fn find(&self, name: &str) -> Option<&Known>
        ensures { option_map (λ m. known_view m.now) result
            ≡ module_at name.now (modules_of self.now) }
    {
        match self.resolve(name) {
            Some(found) => Some(&**found),
            None => None,
        }
    }

    /// The module of that name, in a block that its copies share, or none where there is none.
    pub fn resolve(&self, name: &str) -> Option<&Arc<Known>>
        ensures { option_map (λ m. shared_view m.now) result
            ≡ module_at name.now (modules_of self.now) }
    {
        for found in &self.modules {
            if found.name() == name {
                return Some(found);
            }
        }
        None
    }
}
