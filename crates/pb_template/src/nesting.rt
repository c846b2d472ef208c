// Whether a value, or some value inside it, passes a test.
ghost use Rattle.std.specs.Prelude.{◌≡◌};
ghost use Rattle.pb_language.specs.Nesting.{holds, some_field_holds, some_item_holds};
ghost use Rattle.pb_value.specs.Words.{fields_view, items_view, view};

use pb_value::{Fields, Value};

/// A test of a value by itself.
pub trait Test {
    ghost use Rattle.std.specs.Prelude.{Bool};
    ghost use Rattle.pb_semantics.specs.Words.{Data};

    ghost meaning: { Data → Bool };

    fn passes(value: &Value) -> bool
        ensures { result ≡ meaning (view value.now) };
}

/// Whether the value, or some value inside it, passes the test.
#[cycle(holding)]
pub fn holds<T: Test>(value: &Value) -> bool
    ensures { result ≡ holds T.meaning (view value.now) }
{
    match value {
        Value::List(items) => T::passes(value) || some_item_holds::<T>(items),
        Value::Rec(fields) => T::passes(value) || some_field_holds::<T>(fields),
        _ => T::passes(value),
    }
}

#[cycle(holding)]
fn some_item_holds<T: Test>(items: &[Value]) -> bool
    ensures { result ≡ some_item_holds T.meaning (items_view items.now) }
{
    for item in items {
        if holds::<T>(item) {
            return true;
        }
    }
    false
}

/// Whether some value of the record, or inside one, passes the test.
#[cycle(holding)]
pub fn some_field_holds<T: Test>(fields: &Fields) -> bool
    ensures { result ≡ some_field_holds T.meaning (fields_view fields.now.entries) }
{
    for (_, value) in fields.iter() {
        if holds::<T>(value) {
            return true;
        }
    }
    false
}
