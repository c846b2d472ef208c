// The tree of an expression or a template.
ghost use Rattle.std.specs.Prelude.{◌≡◌, IfOk};
ghost use Rattle.pb_language.specs.Grammar.{default_of, defined_of, status_of};
ghost use Rattle.pb_syntax.specs.ExprView.{expr_view, status_view};

use pb_value::Value;
use smallvec::SmallVec;
use std::alloc::{AllocError, Global};
use std::collections::BTreeMap;

/// A list of names, most often one.
pub type Names = SmallVec<String, 1>;

/// A host of a group, by its place there, from 0 on.
#[derive(Drop)]
pub struct Member {
    pub group: String,
    pub place: usize,
}

/// What names a host.
#[derive(Drop)]
pub enum Term {
    /// Its name.
    Named(String),
    /// `inventory_hostname`, the host itself.
    This,
    /// `item`, the item of a loop.
    Item,
    /// `groups['g'][0]`
    Member(Member),
}

/// Where the value stands that a path begins with.
#[derive(Drop)]
pub enum Root {
    /// A variable of the host.
    Variable(String),
    /// `hostvars[host].x`, a variable of that host.
    Other(Term, String),
    /// `groups['g'][0]`, the name of a host of a group.
    Member(Member),
}

/// Where a value stands, and the fields that are read below it.
#[derive(Drop)]
pub struct Path {
    pub root: Root,
    pub steps: Names,
    /// The slot at which a bound path looks for its variable first; it changes no value.
    pub slot: Option<u32>,
}

/// How two values are compared; `a != b` is `not a == b`.
#[derive(Clone, Copy, PartialEq, Eq, Debug)]
pub enum Comparison {
    Equal,
    Less,
    AtMost,
    More,
    AtLeast,
}

/// What a test asks of a result; `is succeeded` is `is not failed`.
#[derive(Clone, Copy, PartialEq, Eq, Debug)]
pub enum Status {
    Failed,
    Changed,
    Skipped,
}

/// An expression, a template, or a list or record of these.
pub enum Expr {
    /// A value that is known before the run; copies of it share what lies inside.
    Literal(Value),
    Path(Path),
    /// `hostvars`, or `hostvars[host]`, without a variable behind it, which is no value.
    Hostvars(Option<Term>),
    Not(Box<Expr>),
    /// `a and b and ..`, from left to right, at least two.
    And(Vec<Expr>),
    /// `a or b or ..`, from left to right, at least two.
    Or(Vec<Expr>),
    Compare(Comparison, Box<Expr>, Box<Expr>),
    /// `a in b`
    In(Box<Expr>, Box<Expr>),
    /// `host in ansible_play_batch`: the host is active in the batch.
    InBatch(Term),
    /// `path is defined`
    Defined(Path),
    /// `is defined` of what is no path, which is never fit.
    Undefinable(Box<Expr>),
    /// `path is failed` and the like.
    PathStatus(Status, Path),
    /// `is failed` and the like, of what is no path.
    Status(Status, Box<Expr>),
    /// `path | default(other)`
    PathOr(Path, Box<Expr>),
    /// `value | default(other)` of what is no path, whose value it is.
    ValueOr(Box<Expr>, Box<Expr>),
    /// `value | length`
    Length(Box<Expr>),
    /// `items | join(between)`
    Join(Box<Expr>, Box<Expr>),
    /// A text with templates in it, by its parts.
    Concat(Vec<Expr>),
    /// A list, be it written in an expression or with a template in a JSON list.
    List(Vec<Expr>),
    /// A JSON object in an argument, with a template somewhere in it.
    Record(BTreeMap<String, Expr>),
}

impl Expr {
    // Whether it is defined.
    pub(crate) fn defined(self, alloc: Global) -> Result<Expr, AllocError>
        ensures { IfOk result (λ e. expr_view e ≡ defined_of (expr_view self)) }
    {
        match self {
            Expr::Path(path) => Ok(Expr::Defined(path)),
            Expr::Hostvars(_) => Ok(Expr::Undefinable(Box::new(alloc, Expr::Hostvars(None))?)),
            value => Ok(Expr::Undefinable(Box::new(alloc, value)?)),
        }
    }

    // Whether it has the status.
    pub(crate) fn with_status(self, alloc: Global, status: Status) -> Result<Expr, AllocError>
        ensures { IfOk result (λ e.
            expr_view e ≡ status_of (status_view status) (expr_view self)) }
    {
        match self {
            Expr::Path(path) => Ok(Expr::PathStatus(status, path)),
            value => Ok(Expr::Status(status, Box::new(alloc, value)?)),
        }
    }

    // Its value, or the other one where it is missing.
    pub(crate) fn or(self, alloc: Global, other: Expr) -> Result<Expr, AllocError>
        ensures { IfOk result (λ e.
            expr_view e ≡ default_of (expr_view self) (expr_view other)) }
    {
        let other = Box::new(alloc, other)?;
        match self {
            Expr::Path(path) => Ok(Expr::PathOr(path, other)),
            Expr::Hostvars(_) => Ok(Expr::ValueOr(Box::new(alloc, Expr::Hostvars(None))?, other)),
            value => Ok(Expr::ValueOr(Box::new(alloc, value)?, other)),
        }
    }
}

// A chain of filters is dropped by a loop: it may be as long as the text that it was read from, and
// nothing else nests without a bound.
impl Drop for Expr {
    fn drop(mut self) {
        loop {
            match self {
                Expr::ValueOr(value, _other) => self = Box::into_inner(value),
                Expr::Length(value) => self = Box::into_inner(value),
                Expr::Join(value, _between) => self = Box::into_inner(value),
                Expr::Literal(_value) => return,
                Expr::Path(_path) => return,
                Expr::Hostvars(_host) => return,
                Expr::Not(_operand) => return,
                Expr::And(_operands) => return,
                Expr::Or(_operands) => return,
                Expr::Compare(_comparison, _left, _right) => return,
                Expr::In(_part, _whole) => return,
                Expr::InBatch(_host) => return,
                Expr::Defined(_path) => return,
                Expr::Undefinable(_value) => return,
                Expr::PathStatus(_status, _path) => return,
                Expr::Status(_status, _value) => return,
                Expr::PathOr(_path, _other) => return,
                Expr::Concat(_parts) => return,
                Expr::List(_items) => return,
                Expr::Record(_fields) => return,
            }
        }
    }
}
