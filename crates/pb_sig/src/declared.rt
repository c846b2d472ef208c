// The modules that a file of signatures declares.
ghost use Rattle.std.specs.Prelude.{◌≡◌, IfOk, string_bytes, true};
ghost use Rattle.pb_kind.specs.Words.{kind_view};
ghost use Rattle.pb_sig.specs.Drafts.{draft_view};
ghost use Rattle.pb_sig.specs.Lawful.{IsLawful};
ghost use Rattle.pb_sig.specs.Signatures.{keeps_laws};

use crate::draft::Draft;
use crate::signature::{Module, Parameter};
use pb_kind::Kind;
use std::alloc::{AllocError, Global};
use std::sync::Arc;

/// A module that a file of signatures declares.
#[derive(Drop)]
pub struct Declared {
    name: Arc<String>,
    parameters: Vec<Parameter>,
    ok: Kind,
    failure: Kind,
    ghost lawful: { IsLawful (kind_view ok) (kind_view failure) },
}

impl Module for Declared {
    ghost use Rattle.pb_sig.specs.ModuleView.{declared_view};

    ghost meaning = { declared_view };

    fn name(&self) -> &str {
        self.name.as_str()
    }

    fn params(&self) -> &[Parameter] {
        self.parameters.as_slice()
    }

    fn ok_shape(&self) -> &Kind {
        &self.ok
    }

    fn fail_shape(&self) -> &Kind {
        &self.failure
    }

    fn free_form(&self) -> Option<&str> {
        None
    }
}

impl Declared {
    ghost use Rattle.pb_sig.specs.ModuleView.{declared_view};

    /// The name, in a block that its copies share.
    pub fn shared_name(&self) -> &Arc<String>
        ensures { string_bytes result.now.value ≡ (declared_view self.now).name }
    {
        &self.name
    }

    // The module of a draft that keeps the laws.
    pub(crate) fn of(alloc: Global, draft: Draft) -> Result<Declared, AllocError>
        requires { keeps_laws (draft_view draft) ≡ true }
        ensures { IfOk result (λ m. declared_view m ≡ draft_view draft) }
    {
        Ok(Declared {
            name: Arc::new(alloc, draft.name)?,
            parameters: draft.parameters,
            ok: Kind::of_slots(alloc, draft.ok)?,
            failure: Kind::of_slots(alloc, draft.failure)?,
        })
    }
}
