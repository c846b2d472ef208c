// What plays and blocks want of their keys and values.
ghost use Rattle.std.specs.Prelude.{◌≡◌, map, not, option_map};
ghost use Rattle.std.specs.List.{list_any};
ghost use Rattle.pb_semantics.specs.Words.{field_value, is_among};
ghost use Rattle.pb_language.specs.BookForm.{fits, has_other_key, is_list, own_fields};
ghost use Rattle.pb_language.specs.Keywords.{in_block};
ghost use Rattle.pb_language.specs.Nesting.{some_field_holds};
ghost use Rattle.pb_language.specs.TaskForm.{fits_keyword, keys_of};
ghost use Rattle.pb_value.specs.Words.{fields_view, view};

use pb_sig::is_one_of;
use pb_task::{Standing, fits_keyword};
use pb_template::{Test, holds};
use pb_value::{Fields, Value, field_of};

// The most lines of a book.
pub(crate) const MOST_LINES: u32 = 4_096;

// Whether some key is none of the words.
pub(crate) fn has_other_key(words: &[&str], fields: &Fields) -> bool
    ensures { result ≡ has_other_key (map (λ w. w.now) words.now)
        (fields_view fields.now.entries) }
{
    for (key, _) in fields.iter() {
        if !is_one_of(key.as_str(), words) {
            return true;
        }
    }
    false
}

// Whether some value passes the test, or one inside it, but for the values at those keys.
pub(crate) fn some_own_field_holds<T: Test>(words: &[&str], fields: &Fields) -> bool
    ensures { result ≡ some_field_holds T.meaning
        (own_fields (map (λ w. w.now) words.now) (fields_view fields.now.entries)) }
{
    for (key, value) in fields.iter() {
        if !is_one_of(key.as_str(), words) && holds::<T>(value) {
            return true;
        }
    }
    false
}

// Whether the value is a list, if it is there.
pub(crate) fn is_list(value: Option<&Value>) -> bool
    ensures { result ≡ is_list (option_map (λ v. view v.now) value.entry) }
{
    match value {
        None | Some(Value::List(_)) => true,
        Some(_) => false,
    }
}

// Whether what stands at the keyword, if it is there, has the form that a task wants of it.
pub(crate) fn fits(fields: &Fields, keyword: &str) -> bool
    ensures { result ≡ fits (fits_keyword in_block keyword.now)
        (field_value keyword.now (fields_view fields.now.entries)) }
{
    match field_of(fields, keyword) {
        None => true,
        Some(value) => fits_keyword(Standing::InBlock, keyword, value),
    }
}
