// A kind: which values a variable can hold.
ghost use Rattle.std.specs.Prelude.{◌≡◌, IfOk, OnOk, string_bytes};
ghost use Rattle.pb_semantics.specs.Words.{is_any, is_boolean, lists, most_kind_weight, put_slot};
ghost use Rattle.pb_semantics.specs.Words.{recs, results};
ghost use Rattle.pb_kind.specs.KindView.{cases_view, is_always, kind_view, slots_view};
ghost use Rattle.pb_kind.specs.KindWeight.{cases_onto, kind_weight, slots_onto};
ghost use Rattle.pb_value.specs.Weights.{IsWithin, above, nothing};

use pb_value::weight::{Weighed, Weight};
use std::alloc::{AllocError, Global};
use std::collections::{BTreeMap, BTreeSet};
use std::sync::Arc;

/// What a kind weighs at most.
pub const MOST_KIND: u64 = 4_194_304;

/// Whether a field, or a variable, is certainly there.
#[derive(Clone, Copy, PartialEq, Eq, Debug)]
pub enum Presence {
    Always,
    Maybe,
}

impl Presence {
    /// Whether the field is certainly there.
    pub fn is_always(self) -> bool
        ensures { result ≡ is_always self }
    {
        match self {
            Presence::Always => true,
            Presence::Maybe => false,
        }
    }
}

/// How a task ended, as far as the fields of its result go.
#[derive(Clone, Copy, PartialEq, Eq, Debug)]
pub enum Shape {
    Ok,
    Failure,
    Skipped,
}

/// What is known of one field of a record.
#[derive(Clone, Drop)]
pub struct Slot<K> {
    pub presence: Presence,
    pub kind: K,
}

impl<K> Slot<K> {
    /// A field that is certainly there.
    pub fn always(kind: K) -> Slot<K>
        ensures presence { result.presence ≡ Presence.Always }
        ensures kind { result.kind ≡ kind }
    {
        Slot {
            presence: Presence::Always,
            kind,
        }
    }

    /// A field that may be missing.
    pub fn maybe(kind: K) -> Slot<K>
        ensures presence { result.presence ≡ Presence.Maybe }
        ensures kind { result.kind ≡ kind }
    {
        Slot {
            presence: Presence::Maybe,
            kind,
        }
    }
}

/// One case of a result: the module or action, the shape, the final failed status and the fields,
/// a `Kind::Rec`.
#[derive(Drop)]
pub struct Case<K> {
    pub action: Arc<String>,
    pub shape: Shape,
    pub failed: bool,
    pub fields: K,
}

/// The fields of a record, in the order of their names' bytes.
pub type Slots = BTreeMap<String, Slot<Kind>>;

/// Puts the slot under that name, in place of what stood there.
///
/// # Errors
///
/// Want of memory.
pub fn put_slot(slots: &mut Slots, name: String, slot: Slot<Kind>) -> Result<(), AllocError>
    ensures { OnOk result (slots_view slots.new.entries ≡ put_slot (string_bytes name)
        (is_always slot.presence) (kind_view slot.kind) (slots_view slots.old.entries)) }
{
    drop(slots.insert(name, slot)?);
    Ok(())
}

/// The same slots, which share what lies in their kinds.
///
/// # Errors
///
/// Want of memory.
pub fn copy_slots(slots: &Slots) -> Result<Slots, AllocError>
    ensures { IfOk result (λ s. slots_view s.entries ≡ slots_view slots.now.entries) }
{
    Ok(slots.clone()?)
}

/// Which values are meant. A copy shares what lies inside.
#[derive(Drop)]
pub enum Kind {
    Never,
    Null,
    Bool,
    Int,
    Text,
    /// A text that is one of these names.
    Host(Arc<BTreeSet<String>>),
    /// A list of at most so many items of that kind.
    List(Arc<Weighed<Kind>>, usize),
    Rec(Arc<Weighed<Slots>>),
    /// One of these cases, and beside them the least record above each, `Never` where there is no
    /// case.
    Result(Arc<Weighed<Vec<Case<Kind>>>>, Arc<Kind>),
    Any,
}

impl Kind {
    /// A list of at most so many items of that kind.
    ///
    /// # Errors
    ///
    /// Want of memory, also where it would weigh more than `MOST_KIND` or nest too deep.
    pub fn of_item(alloc: Global, item: Kind, most: usize) -> Result<Kind, AllocError>
        ensures { IfOk result (λ k. kind_view k ≡ lists (kind_view item) most) }
    {
        Ok(Kind::List(Arc::new(alloc, weighed_item(item)?)?, most))
    }

    /// A record with those fields.
    ///
    /// # Errors
    ///
    /// Want of memory, also where it would weigh more than `MOST_KIND` or nest too deep.
    pub fn of_slots(alloc: Global, slots: Slots) -> Result<Kind, AllocError>
        ensures { IfOk result (λ k. kind_view k ≡ recs (slots_view slots.entries)) }
    {
        Ok(Kind::Rec(Arc::new(alloc, weighed_slots(slots)?)?))
    }

    /// A result of one of those cases, and beside them what is known of each.
    ///
    /// # Errors
    ///
    /// Want of memory, also where it would weigh more than `MOST_KIND` or nest too deep.
    pub fn of_cases(alloc: Global, cases: Vec<Case<Kind>>, known: Kind) -> Result<Kind, AllocError>
        ensures { IfOk result (λ k. kind_view k
            ≡ results (cases_view cases.items) (kind_view known)) }
    {
        let cases = weighed_cases(cases, &known)?;
        let known = Arc::new(alloc, known)?;
        Ok(Kind::Result(Arc::new(alloc, cases)?, known))
    }

    /// Whether it is the kind of all values.
    pub fn is_any(&self) -> bool
        ensures { result ≡ is_any (kind_view self.now) }
    {
        match self {
            Kind::Any => true,
            _ => false,
        }
    }

    /// Whether each of its values is a truth value.
    pub fn is_bool(&self) -> bool
        ensures { result ≡ is_boolean (kind_view self.now) }
    {
        match self {
            Kind::Bool | Kind::Never => true,
            _ => false,
        }
    }
}

impl Clone for Kind {
    ghost is_clone = { λ v w. kind_view w ≡ kind_view v };

    fn clone(&self) -> Result<Kind, AllocError> {
        match self {
            Kind::Never => Ok(Kind::Never),
            Kind::Null => Ok(Kind::Null),
            Kind::Bool => Ok(Kind::Bool),
            Kind::Int => Ok(Kind::Int),
            Kind::Text => Ok(Kind::Text),
            Kind::Host(names) => Ok(Kind::Host(names.clone()?)),
            Kind::List(item, most) => Ok(Kind::List(item.clone()?, *most)),
            Kind::Rec(slots) => Ok(Kind::Rec(slots.clone()?)),
            Kind::Result(cases, record) => Ok(Kind::Result(cases.clone()?, record.clone()?)),
            Kind::Any => Ok(Kind::Any),
        }
    }
}

// What is read off it: nothing below it is looked at.
pub(crate) fn weight(kind: &Kind) -> Weight
    ensures { result ≡ kind_weight kind.now }
{
    match kind {
        Kind::Host(names) => Weight::of_names(names.len()),
        Kind::List(item, _) => item.weight(),
        Kind::Rec(slots) => slots.weight(),
        Kind::Result(cases, _) => cases.weight(),
        _ => Weight::leaf(),
    }
}

fn weighed_item(item: Kind) -> Result<Weighed<Kind>, AllocError>
    ensures parts { IfOk result (λ w. w.parts ≡ item) }
    ensures weighs { IfOk result (λ w. w.weight ≡ above (kind_weight item)) }
    ensures within { IfOk result (λ w. IsWithin most_kind_weight w.weight) }
{
    let weight = weight(&item).nest(MOST_KIND)?;
    Ok(Weighed::new(weight, item))
}

fn weighed_slots(slots: Slots) -> Result<Weighed<Slots>, AllocError>
    ensures parts { IfOk result (λ w. w.parts ≡ slots) }
    ensures weighs { IfOk result (λ w. w.weight ≡ above (slots_onto nothing slots.entries)) }
    ensures within { IfOk result (λ w. IsWithin most_kind_weight w.weight) }
{
    let weight = slots_weight(&slots)?.nest(MOST_KIND)?;
    Ok(Weighed::new(weight, slots))
}

fn weighed_cases(
    cases: Vec<Case<Kind>>,
    known: &Kind,
) -> Result<Weighed<Vec<Case<Kind>>>, AllocError>
    ensures parts { IfOk result (λ w. w.parts ≡ cases) }
    ensures weighs { IfOk result (λ w. w.weight
        ≡ above (cases_onto (kind_weight known.now) cases.items)) }
    ensures within { IfOk result (λ w. IsWithin most_kind_weight w.weight) }
{
    let weight = cases_weight(weight(known), &cases)?.nest(MOST_KIND)?;
    Ok(Weighed::new(weight, cases))
}

fn slots_weight(slots: &Slots) -> Result<Weight, AllocError>
    ensures { IfOk result (λ w. w ≡ slots_onto nothing slots.now.entries) }
{
    let mut total = Weight::nothing();
    for (name, slot) in slots.iter() {
        let named = total.with(Weight::of_text(name.len()), MOST_KIND)?;
        total = named.with(weight(&slot.kind), MOST_KIND)?;
    }
    Ok(total)
}

fn cases_weight(known: Weight, cases: &[Case<Kind>]) -> Result<Weight, AllocError>
    ensures { IfOk result (λ w. w ≡ cases_onto known cases.now) }
{
    let mut total = known;
    for case in cases {
        total = total.with(weight(&case.fields), MOST_KIND)?;
    }
    Ok(total)
}
