// The modules that are there in every run.
ghost use Rattle.std.specs.Prelude.{◌≡◌, IfOk, map, option_map, string_bytes, true};
ghost use Rattle.pb_semantics.specs.Signature.{has_message};
ghost use Rattle.pb_language.specs.Cases.{is_lawful_shape};
ghost use Rattle.pb_kind.specs.Words.{kind_view};
ghost use Rattle.pb_sig.specs.Table.{command, copy, file, ping, program, service, setup, shell};
ghost use Rattle.pb_sig.specs.Table.{stat};
ghost use Rattle.pb_sig.specs.Views.{parameter_view};

use crate::signature::{Module, Parameter, shared_name};
use crate::table::{
    copy_parameters, copy_shape, file_parameters, file_shape, msg_shape, ping_parameters,
    ping_shape, program_failure_shape, program_parameters, program_shape, service_parameters,
    service_shape, setup_parameters, setup_shape, stat_parameters, stat_shape,
};
use pb_kind::Kind;
use std::alloc::{AllocError, Global};
use std::sync::Arc;

/// A module that is there in every run.
#[derive(Drop)]
pub struct Builtin {
    name: Arc<String>,
    parameters: Vec<Parameter>,
    ok: Kind,
    failure: Kind,
    free: Option<String>,
    ghost lawful_ok: { is_lawful_shape (kind_view ok) ≡ true },
    ghost lawful_failure: { is_lawful_shape (kind_view failure) ≡ true },
    ghost message: { has_message (kind_view failure) ≡ true },
}

impl Module for Builtin {
    ghost use Rattle.pb_sig.specs.ModuleView.{builtin_view};

    ghost meaning = { builtin_view };

    fn name(&self) -> &str {
        self.name.as_str()
    }

    fn params(&self) -> &[Parameter] {
        self.parameters.as_slice()
    }

    fn ok_shape(&self) -> &Kind {
        &self.ok
    }

    fn fail_shape(&self) -> &Kind {
        &self.failure
    }

    fn free_form(&self) -> Option<&str> {
        match &self.free {
            Some(parameter) => Some(parameter.as_str()),
            None => None,
        }
    }
}

impl Builtin {
    ghost use Rattle.pb_sig.specs.ModuleView.{builtin_view};

    /// The name, in a block that its copies share.
    pub fn shared_name(&self) -> &Arc<String>
        ensures { string_bytes result.now.value ≡ (builtin_view self.now).name }
    {
        &self.name
    }

    /// Asks whether a machine answers.
    pub fn ping(alloc: Global) -> Result<Builtin, AllocError>
        ensures { IfOk result (λ m. builtin_view m ≡ ping) }
    {
        let parameters = ping_parameters(alloc)?;
        let ok = ping_shape(alloc)?;
        Builtin::telling_msg(alloc, "ping", parameters, ok)
    }

    /// Runs a program.
    pub fn command(alloc: Global) -> Result<Builtin, AllocError>
        ensures { IfOk result (λ m. builtin_view m ≡ command) }
    {
        Builtin::program(alloc, "command")
    }

    /// Runs a command line in a shell.
    pub fn shell(alloc: Global) -> Result<Builtin, AllocError>
        ensures { IfOk result (λ m. builtin_view m ≡ shell) }
    {
        Builtin::program(alloc, "shell")
    }

    /// Tells what stands at a path.
    pub fn stat(alloc: Global) -> Result<Builtin, AllocError>
        ensures { IfOk result (λ m. builtin_view m ≡ stat) }
    {
        let parameters = stat_parameters(alloc)?;
        let ok = stat_shape(alloc)?;
        Builtin::telling_msg(alloc, "stat", parameters, ok)
    }

    /// Puts a file, or a text, at a path.
    pub fn copy(alloc: Global) -> Result<Builtin, AllocError>
        ensures { IfOk result (λ m. builtin_view m ≡ copy) }
    {
        let parameters = copy_parameters(alloc)?;
        let ok = copy_shape(alloc)?;
        Builtin::telling_msg(alloc, "copy", parameters, ok)
    }

    /// Makes, changes or removes what stands at a path.
    pub fn file(alloc: Global) -> Result<Builtin, AllocError>
        ensures { IfOk result (λ m. builtin_view m ≡ file) }
    {
        let parameters = file_parameters(alloc)?;
        let ok = file_shape(alloc)?;
        Builtin::telling_msg(alloc, "file", parameters, ok)
    }

    /// Starts or stops a service, now or at each boot.
    pub fn service(alloc: Global) -> Result<Builtin, AllocError>
        ensures { IfOk result (λ m. builtin_view m ≡ service) }
    {
        let parameters = service_parameters(alloc)?;
        let ok = service_shape(alloc)?;
        Builtin::telling_msg(alloc, "service", parameters, ok)
    }

    /// Tells facts of the host.
    pub fn setup(alloc: Global) -> Result<Builtin, AllocError>
        ensures { IfOk result (λ m. builtin_view m ≡ setup) }
    {
        let parameters = setup_parameters(alloc)?;
        let ok = setup_shape(alloc)?;
        Builtin::telling_msg(alloc, "setup", parameters, ok)
    }

    // A module that runs a program; a text in place of its arguments is the command line.
    fn program(alloc: Global, name: &str) -> Result<Builtin, AllocError>
        ensures { IfOk result (λ m. builtin_view m ≡ program name.now) }
    {
        let parameters = program_parameters(alloc)?;
        let ok = program_shape(alloc)?;
        let failure = program_failure_shape(alloc)?;
        let free = Some(String::from_str(alloc, "cmd")?);
        Builtin::named(alloc, name, parameters, ok, failure, free)
    }

    // A module whose failed answers tell `msg` alone, and that has no free form.
    fn telling_msg(
        alloc: Global,
        name: &str,
        parameters: Vec<Parameter>,
        ok: Kind,
    ) -> Result<Builtin, AllocError>
        requires { is_lawful_shape (kind_view ok) ≡ true }
        ensures { IfOk result (λ m. builtin_view m ≡ record {
          name = name.now;
          params = map parameter_view parameters.items;
          ok = kind_view ok;
          failure = ping.failure;
          free = None;
        }) }
    {
        let failure = msg_shape(alloc)?;
        Builtin::named(alloc, name, parameters, ok, failure, None)
    }

    fn named(
        alloc: Global,
        name: &str,
        parameters: Vec<Parameter>,
        ok: Kind,
        failure: Kind,
        free: Option<String>,
    ) -> Result<Builtin, AllocError>
        requires ok { is_lawful_shape (kind_view ok) ≡ true }
        requires failure { is_lawful_shape (kind_view failure) ≡ true }
        requires message { has_message (kind_view failure) ≡ true }
        ensures { IfOk result (λ m. builtin_view m ≡ record {
          name = name.now;
          params = map parameter_view parameters.items;
          ok = kind_view ok;
          failure = kind_view failure;
          free = option_map string_bytes free;
        }) }
    {
        Ok(Builtin {
            name: shared_name(alloc, name)?,
            parameters,
            ok,
            failure,
            free,
        })
    }
}
