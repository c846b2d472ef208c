// Trees whose paths look for their variables at slots.
ghost use Rattle.std.specs.Prelude.{◌≡◌, IfOk, map, option_map, string_bytes};
ghost use Rattle.pb_syntax.specs.ExprView.{expr_view, names_of, parts_view, root_view, term_view};
ghost use Rattle.pb_syntax.specs.Slots.{slot_of, slots_given, slots_read};

use crate::expr::{Expr, Member, Names, Path, Root, Term};
use std::alloc::{AllocError, Global};
use std::collections::BTreeMap;

/// The slots of variables, as they are seen where an expression stands.
pub trait SlotNames {
    ghost use Rattle.pb_syntax.specs.Slots.{Slots};

    ghost slots: { Self → Slots };

    /// The slot of a variable of the host itself. A name of `vars` has none.
    fn own(&self, name: &str) -> Option<u32>
        ensures { result ≡ (slots self.now).own name.now };

    /// The slot of a variable of another host.
    fn other(&self, name: &str) -> Option<u32>
        ensures { result ≡ (slots self.now).other name.now };
}

impl Expr {
    /// A copy whose paths look at the slots of their variables first. It stands for the same
    /// expression, and shares the literals with this one.
    ///
    /// # Errors
    ///
    /// Want of memory.
    #[cycle(bind)]
    pub fn bind<N: SlotNames>(&self, alloc: Global, names: &N) -> Result<Expr, AllocError>
        ensures same { IfOk result (λ e. expr_view e ≡ expr_view self.now) }
        ensures slots { IfOk result
            (λ e. slots_read e ≡ slots_given (N.slots names.now) self.now) }
    {
        match self {
            Expr::Literal(value) => Ok(Expr::Literal(value.clone()?)),
            Expr::Path(path) => Ok(Expr::Path(path.bind(alloc, names)?)),
            Expr::Hostvars(host) => Ok(Expr::Hostvars(host_copied(host)?)),
            Expr::Not(operand) => Ok(Expr::Not(operand.boxed(alloc, names)?)),
            Expr::And(operands) => Ok(Expr::And(all_bound(alloc, operands, names)?)),
            Expr::Or(operands) => Ok(Expr::Or(all_bound(alloc, operands, names)?)),
            Expr::Compare(comparison, left, right) => {
                let left = left.boxed(alloc, names)?;
                let right = right.boxed(alloc, names)?;
                Ok(Expr::Compare(*comparison, left, right))
            }
            Expr::In(part, whole) => {
                let part = part.boxed(alloc, names)?;
                let whole = whole.boxed(alloc, names)?;
                Ok(Expr::In(part, whole))
            }
            Expr::InBatch(host) => Ok(Expr::InBatch(host.copy()?)),
            Expr::Defined(path) => Ok(Expr::Defined(path.bind(alloc, names)?)),
            Expr::Undefinable(value) => Ok(Expr::Undefinable(value.boxed(alloc, names)?)),
            Expr::PathStatus(status, path) => {
                let path = path.bind(alloc, names)?;
                Ok(Expr::PathStatus(*status, path))
            }
            Expr::Status(status, value) => {
                let value = value.boxed(alloc, names)?;
                Ok(Expr::Status(*status, value))
            }
            Expr::PathOr(path, other) => {
                let path = path.bind(alloc, names)?;
                let other = other.boxed(alloc, names)?;
                Ok(Expr::PathOr(path, other))
            }
            Expr::ValueOr(value, other) => {
                let value = value.boxed(alloc, names)?;
                let other = other.boxed(alloc, names)?;
                Ok(Expr::ValueOr(value, other))
            }
            Expr::Length(value) => Ok(Expr::Length(value.boxed(alloc, names)?)),
            Expr::Join(items, between) => {
                let items = items.boxed(alloc, names)?;
                let between = between.boxed(alloc, names)?;
                Ok(Expr::Join(items, between))
            }
            Expr::Concat(parts) => Ok(Expr::Concat(all_bound(alloc, parts, names)?)),
            Expr::List(items) => Ok(Expr::List(all_bound(alloc, items, names)?)),
            Expr::Record(fields) => Ok(Expr::Record(fields_bound(alloc, fields, names)?)),
        }
    }

    #[cycle(bind)]
    fn boxed<N: SlotNames>(&self, alloc: Global, names: &N) -> Result<Box<Expr>, AllocError>
        ensures same { IfOk result (λ b. expr_view b.value ≡ expr_view self.now) }
        ensures slots { IfOk result
            (λ b. slots_read b.value ≡ slots_given (N.slots names.now) self.now) }
    {
        let bound = self.bind(alloc, names)?;
        Ok(Box::new(alloc, bound)?)
    }
}

#[cycle(bind)]
fn all_bound<N: SlotNames>(
    alloc: Global,
    exprs: &[Expr],
    names: &N,
) -> Result<Vec<Expr>, AllocError>
    ensures same { IfOk result (λ all. map expr_view all.items ≡ map expr_view exprs.now) }
    ensures slots { IfOk result (λ all.
        map slots_read all.items ≡ map (slots_given (N.slots names.now)) exprs.now) }
{
    let mut all = Vec::with_capacity(alloc, exprs.len())?;
    for expr in exprs {
        let bound = expr.bind(alloc, names)?;
        all.push(bound)?;
    }
    Ok(all)
}

#[cycle(bind)]
fn fields_bound<N: SlotNames>(
    alloc: Global,
    fields: &BTreeMap<String, Expr>,
    names: &N,
) -> Result<BTreeMap<String, Expr>, AllocError>
    ensures same { IfOk result (λ all. parts_view all.entries ≡ parts_view fields.now.entries) }
    ensures slots { IfOk result (λ all. map (λ f. slots_read f.1) all.entries
        ≡ map (λ f. slots_given (N.slots names.now) f.1) fields.now.entries) }
{
    let mut all = BTreeMap::new(alloc);
    for (name, value) in fields.iter() {
        let name = name.clone()?;
        let bound = value.bind(alloc, names)?;
        drop(all.insert(name, bound)?);
    }
    Ok(all)
}

impl Path {
    // A copy that looks at the slot of its variable first.
    fn bind<N: SlotNames>(&self, alloc: Global, names: &N) -> Result<Path, AllocError>
        ensures root { IfOk result (λ p. root_view p.root ≡ root_view self.now.root) }
        ensures steps { IfOk result
            (λ p. names_of p.steps.items ≡ names_of self.now.steps.items) }
        ensures slot { IfOk result
            (λ p. p.slot ≡ slot_of (N.slots names.now) (root_view self.now.root)) }
    {
        let root = self.root.copy()?;
        let steps = names_copied(alloc, &self.steps)?;
        let slot = self.root.slot(names);
        Ok(Path { root, steps, slot })
    }
}

impl Root {
    // The slot of the variable that stands there.
    fn slot<N: SlotNames>(&self, names: &N) -> Option<u32>
        ensures { result ≡ slot_of (N.slots names.now) (root_view self.now) }
    {
        match self {
            Root::Variable(name) => names.own(name.as_str()),
            Root::Other(_, name) => names.other(name.as_str()),
            Root::Member(_) => None,
        }
    }

    fn copy(&self) -> Result<Root, AllocError>
        ensures { IfOk result (λ r. root_view r ≡ root_view self.now) }
    {
        match self {
            Root::Variable(name) => Ok(Root::Variable(name.clone()?)),
            Root::Other(host, name) => {
                let host = host.copy()?;
                Ok(Root::Other(host, name.clone()?))
            }
            Root::Member(member) => Ok(Root::Member(member.copy()?)),
        }
    }
}

impl Term {
    fn copy(&self) -> Result<Term, AllocError>
        ensures { IfOk result (λ t. term_view t ≡ term_view self.now) }
    {
        match self {
            Term::Named(name) => Ok(Term::Named(name.clone()?)),
            Term::This => Ok(Term::This),
            Term::Item => Ok(Term::Item),
            Term::Member(member) => Ok(Term::Member(member.copy()?)),
        }
    }
}

impl Member {
    /// The same place of the same group.
    ///
    /// # Errors
    ///
    /// Want of memory.
    pub fn copy(&self) -> Result<Member, AllocError>
        ensures group { IfOk result (λ m. string_bytes m.group ≡ string_bytes self.now.group) }
        ensures place { IfOk result (λ m. m.place ≡ self.now.place) }
    {
        let group = self.group.clone()?;
        let place = self.place;
        Ok(Member { group, place })
    }
}

fn host_copied(host: &Option<Term>) -> Result<Option<Term>, AllocError>
    ensures { IfOk result (λ h. option_map term_view h ≡ option_map term_view host.now) }
{
    match host {
        Some(host) => Ok(Some(host.copy()?)),
        None => Ok(None),
    }
}

/// The same names.
///
/// # Errors
///
/// Want of memory.
pub fn names_copied(alloc: Global, names: &[String]) -> Result<Names, AllocError>
    ensures { IfOk result (λ ns. names_of ns.items ≡ names_of names.now) }
{
    let mut all = Names::new(alloc);
    for name in names {
        let copy = name.clone()?;
        all.push(copy)?;
    }
    Ok(all)
}
