// The filters that may stand behind a `|`.
ghost use Rattle.std.specs.Prelude.{◌≡◌, IfNone, IfOk, IfSome, codes, false, option_map};
ghost use Rattle.std.specs.Str.{bytes_eq};
ghost use Rattle.pb_language.specs.Grammar as grammar;
ghost use Rattle.pb_syntax.specs.ExprView.{expr_view};
ghost use Rattle.pb_syntax.specs.Forms.{filter_name};

use crate::expr::Expr;
use pb_value::Value;
use std::alloc::{AllocError, Global};

/// A filter, by its name.
#[derive(Clone, Copy, PartialEq, Eq)]
pub enum Filter {
    Default,
    Length,
    Join,
}

/// The filter of that name.
pub fn filter_of(name: &[u8]) -> Option<Filter>
    ensures named { IfSome result (λ f. name.now ≡ filter_name f) }
    ensures default { IfNone result (bytes_eq name.now (codes "default") ≡ false) }
    ensures length { IfNone result (bytes_eq name.now (codes "length") ≡ false) }
    ensures join { IfNone result (bytes_eq name.now (codes "join") ≡ false) }
{
    if name == b"default".as_slice() {
        Some(Filter::Default)
    } else if name == b"length".as_slice() {
        Some(Filter::Length)
    } else if name == b"join".as_slice() {
        Some(Filter::Join)
    } else {
        None
    }
}

/// A value with a filter that has nothing in parentheses; none for a filter that needs something
/// there.
pub fn filtered(alloc: Global, filter: Filter, value: Expr) -> Result<Option<Expr>, AllocError>
    ensures { IfOk result (λ r. option_map expr_view r
        ≡ grammar.filter_named (filter_name filter) (expr_view value)) }
{
    match filter {
        Filter::Default => Ok(None),
        Filter::Length => Ok(Some(Expr::Length(Box::new(alloc, value)?))),
        Filter::Join => {
            let between = Value::of_text(alloc, String::new(alloc))?;
            let between = Box::new(alloc, Expr::Literal(between))?;
            Ok(Some(Expr::Join(Box::new(alloc, value)?, between)))
        }
    }
}

/// The same with what stands in parentheses; none for a filter that may have nothing there.
pub fn filtered_with(
    alloc: Global,
    filter: Filter,
    value: Expr,
    given: Expr,
) -> Result<Option<Expr>, AllocError>
    ensures { IfOk result (λ r. option_map expr_view r
        ≡ grammar.filter_with (filter_name filter) (expr_view value) (expr_view given)) }
{
    match filter {
        Filter::Default => Ok(Some(value.or(alloc, given)?)),
        Filter::Length => Ok(None),
        Filter::Join => {
            let between = Box::new(alloc, given)?;
            Ok(Some(Expr::Join(Box::new(alloc, value)?, between)))
        }
    }
}
