// A question that is put to each place where an expression reads something.
ghost use Rattle.std.specs.Prelude.{◌≡◌};
ghost use Rattle.pb_syntax.specs.Words.{expr_view, exprs_view, parts_view};
ghost use Rattle.pb_vars.specs.Reads.{all_every_read, every_read as every_place};
ghost use Rattle.pb_vars.specs.Reads.{parts_every_read};

use crate::read::{Question, Read};
use pb_syntax::Expr;
use std::collections::BTreeMap;

// Whether each place of the expression answers so.
#[cycle(every)]
pub(crate) fn every_read<Q: Question>(question: &Q, expr: &Expr) -> bool
    ensures { result ≡ every_place (Q.holds question.now) (expr_view expr.now) }
{
    match expr {
        Expr::Literal(_) => true,
        Expr::Path(path) | Expr::PathStatus(_, path) => {
            question.holds(Read::Value(&path.root, &path.steps))
        }
        Expr::Defined(path) => question.holds(Read::Tested(&path.root)),
        Expr::PathOr(path, other) => {
            question.holds(Read::Tested(&path.root)) && every_read(question, other)
        }
        Expr::Hostvars(host) => question.holds(Read::Hostvars(host.as_ref())),
        Expr::InBatch(host) => question.holds(Read::InBatch(host)),
        Expr::Not(of) | Expr::Undefinable(of) | Expr::Status(_, of) | Expr::Length(of) => {
            every_read(question, of)
        }
        Expr::Compare(_, left, right) | Expr::In(left, right) => {
            every_read(question, left) && every_read(question, right)
        }
        Expr::ValueOr(left, right) | Expr::Join(left, right) => {
            every_read(question, left) && every_read(question, right)
        }
        Expr::And(parts) | Expr::Or(parts) | Expr::Concat(parts) | Expr::List(parts) => {
            all_every_read(question, parts)
        }
        Expr::Record(fields) => fields_every_read(question, fields),
    }
}

#[cycle(every)]
fn all_every_read<Q: Question>(question: &Q, parts: &[Expr]) -> bool
    ensures { result ≡ all_every_read (Q.holds question.now) (exprs_view parts.now) }
{
    for part in parts {
        if !every_read(question, part) {
            return false;
        }
    }
    true
}

#[cycle(every)]
fn fields_every_read<Q: Question>(question: &Q, fields: &BTreeMap<String, Expr>) -> bool
    ensures { result
        ≡ parts_every_read (Q.holds question.now) (parts_view fields.now.entries) }
{
    for (_, field) in fields.iter() {
        if !every_read(question, field) {
            return false;
        }
    }
    true
}
