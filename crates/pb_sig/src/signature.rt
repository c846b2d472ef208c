// What is known of a module before it is called.
ghost use Rattle.std.specs.Prelude.{◌≡◌, IfOk, map, option_map, string_bytes, true};
ghost use Rattle.pb_semantics.specs.Words.{ModuleData, is_failure_shape, is_shape};
ghost use Rattle.pb_language.specs.Cases.{is_lawful_shape};
ghost use Rattle.pb_kind.specs.Words.{kind_view};

use pb_kind::Kind;
use std::alloc::{AllocError, Global};
use std::sync::Arc;

/// The most bytes of a file of signatures.
pub const SIGNATURES_LIMIT: usize = 1_048_576;

/// A parameter of a module.
#[derive(Drop)]
pub struct Parameter {
    pub name: String,
    pub kind: Kind,
    /// Whether each call has to give it.
    pub required: bool,
}

/// A module that a task can name.
pub trait Module {
    ghost use Rattle.pb_sig.specs.Views.{parameter_view};

    ghost meaning: { Self → ModuleData };

    /// The name without a prefix.
    fn name(&self) -> &str
        ensures { result.now ≡ (meaning self.now).name };

    /// Each parameter once.
    fn params(&self) -> &[Parameter]
        ensures { map parameter_view result.now ≡ (meaning self.now).params };

    /// The fields of an answer that isn't failed: a record that holds no result, each name once,
    /// with the truth value `changed` always there, and without a field `failed` or `skipped`.
    fn ok_shape(&self) -> &Kind
        ensures gives { kind_view result.now ≡ (meaning self.now).ok }
        ensures lawful { is_shape (kind_view result.now) ≡ true }
        ensures plain { is_lawful_shape (kind_view result.now) ≡ true };

    /// The fields of a failed answer: as an `ok_shape`, and the text `msg` is always there.
    fn fail_shape(&self) -> &Kind
        ensures gives { kind_view result.now ≡ (meaning self.now).failure }
        ensures lawful { is_failure_shape (kind_view result.now) ≡ true }
        ensures plain { is_lawful_shape (kind_view result.now) ≡ true };

    /// The parameter that a text in place of the arguments stands for, where there is one.
    fn free_form(&self) -> Option<&str>
        ensures { option_map (λ n. n.now) result ≡ (meaning self.now).free };
}

/// The name of a module or an action, in a block that its copies share.
///
/// # Errors
///
/// Want of memory.
pub fn shared_name(alloc: Global, name: &str) -> Result<Arc<String>, AllocError>
    ensures { IfOk result (λ s. string_bytes s.value ≡ name.now) }
{
    Ok(Arc::new(alloc, String::from_str(alloc, name)?)?)
}
