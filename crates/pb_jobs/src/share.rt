// Values that a task sets on a host, shared with those of the host before where they are the same.
ghost use Rattle.std.specs.Prelude.{◌≡◌, ◌<◌, All, IfOk, IfSome, List, Some, ℕ, slice_get};
ghost use Rattle.pb_language.specs.Expression.{Name};
ghost use Rattle.pb_value.specs.Words.{view};
ghost use Rattle.pb_world.specs.Words.{slot_fields};

use pb_eval::equal::equal;
use pb_facts::Facts;
use pb_value::Value;
use std::alloc::AllocError;

// The values with their slots, where the first, which is what a task registers, is shared with
// what the host before has in that slot, if that is the same.
pub(crate) fn shared_values(
    facts: &Facts,
    host: usize,
    values: Vec<(usize, Value)>,
) -> Result<Vec<(usize, Value)>, AllocError>
    requires { All (λ w. w.0 < facts.now.slots) values.items }
    ensures slots { IfOk result (λ ws. All (λ w. w.0 < facts.now.slots) ws.items) }
    ensures named { IfOk result (λ ws. (names : List Name)
        → slot_fields names ws.items ≡ slot_fields names values.items) }
{
    let mut values = values;
    if let Some(shared) = value_before(facts, host, &values)? {
        values[0].1 = shared;
    }
    Ok(values)
}

// What the host before has in the slot of the first value, where it is the same.
fn value_before(
    facts: &Facts,
    host: usize,
    values: &[(usize, Value)],
) -> Result<Option<Value>, AllocError>
    requires { All (λ w. w.0 < facts.now.slots) values.now }
    ensures { IfOk result (λ o. IfSome o (λ v. (w : ℕ × Value) × (slice_get values.now 0 ≡ Some w)
        × (view v ≡ view w.1))) }
{
    if host == 0 || host > facts.hosts() {
        return Ok(None);
    }
    let Some((slot, value)) = values.first() else {
        return Ok(None);
    };
    match facts.get(host - 1, *slot) {
        Some(earlier) => {
            if equal(earlier, value) {
                Ok(Some(earlier.clone()?))
            } else {
                Ok(None)
            }
        }
        None => Ok(None),
    }
}
