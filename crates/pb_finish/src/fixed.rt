// The results that are the same for every task.
ghost use Rattle.std.specs.Prelude.{◌≡◌, IfOk, codes, true};
ghost use Rattle.pb_semantics.specs.Words.{boolean, fields_eq, put_field};
ghost use Rattle.pb_language.specs.Words.{skip_fields, unchanged};
ghost use Rattle.pb_value.specs.Words.{fields_view};
ghost use Rattle.pb_start.specs.Words.{block_fields};
ghost use Rattle.pb_finish.specs.Results.{acted_fields};

use pb_start::{put_value, record_of};
use pb_value::{Fields, Value, Weighed};
use std::alloc::{AllocError, Global};
use std::sync::Arc;

/// The results that are the same for every task, made once.
#[derive(Drop)]
pub struct Fixed {
    skipped: Arc<Weighed<Fields>>,
    acted: Arc<Weighed<Fields>>,
    ghost skips: { fields_eq (block_fields skipped) skip_fields ≡ true },
    ghost acts: { fields_eq (block_fields acted) acted_fields ≡ true },
}

impl Fixed {
    /// The result of what is skipped, and that of an action.
    ///
    /// # Errors
    ///
    /// Want of memory.
    pub fn new(alloc: Global) -> Result<Fixed, AllocError> {
        let skipped = record_of(alloc, skipped_fields(alloc)?)?;
        let acted = record_of(alloc, status_fields(alloc, false)?)?;
        Ok(Fixed { skipped, acted })
    }

    // The result of what is skipped.
    pub(crate) fn skipped(&self) -> &Arc<Weighed<Fields>>
        ensures { block_fields result.now ≡ skip_fields }
    {
        &self.skipped
    }

    // The result of an action that isn't failed and says nothing.
    pub(crate) fn acted(&self) -> &Arc<Weighed<Fields>>
        ensures { block_fields result.now ≡ acted_fields }
    {
        &self.acted
    }
}

// Not changed, and failed or not.
pub(crate) fn status_fields(alloc: Global, failed: bool) -> Result<Fields, AllocError>
    ensures { IfOk result (λ fs. fields_view fs.entries
        ≡ put_field (codes "failed") (boolean failed) unchanged) }
{
    let mut fields = Fields::new(alloc);
    put_value(alloc, &mut fields, "changed", Value::Bool(false))?;
    put_value(alloc, &mut fields, "failed", Value::Bool(failed))?;
    Ok(fields)
}

fn skipped_fields(alloc: Global) -> Result<Fields, AllocError>
    ensures { IfOk result (λ fs. fields_view fs.entries ≡ skip_fields) }
{
    let mut fields = status_fields(alloc, false)?;
    put_value(alloc, &mut fields, "skipped", Value::Bool(true))?;
    let reason = String::from_str(alloc, "Conditional result was False")?;
    let reason = Value::of_text(alloc, reason)?;
    put_value(alloc, &mut fields, "skip_reason", reason)?;
    Ok(fields)
}
