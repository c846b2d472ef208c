// What the inventory says of the variables of each host; hosts of which the same is said share it.
ghost use Rattle.std.specs.Prelude.{[], ◌≡◌, ◌<◌, ◌++◌, ◌∷◌, IfOk, IfSome, OnOk, Some};
ghost use Rattle.std.specs.Prelude.{length, map, option_map, slice_get, ℕ};
ghost use Rattle.std.specs.List.{All};
ghost use Rattle.pb_semantics.specs.Words.{no_slots};
ghost use Rattle.pb_language.specs.Kinds.{known_slots};
ghost use Rattle.pb_kind.specs.Words.{slots_view};
ghost use Rattle.pb_value.specs.Words.{fields_view};
ghost use Rattle.pb_inventory.specs.Words.{base_at, bases_view, inventory_view, layered};
ghost use Rattle.pb_hosts.specs.Given.{AreBases, IsFirst, IsGiven, slots_given};
ghost use Rattle.pb_hosts.specs.Tables.{shared_slots, slots_of_each, with_layer, with_slots};

use crate::look::look_of;
use pb_forms::literal_kind;
use pb_inventory::Inventory;
use pb_kind::same::are_same_slots;
use pb_kind::{Slot, Slots, copy_slots, put_slot};
use pb_value::Fields;
use std::alloc::{AllocError, Global};
use std::collections::BTreeMap;
use std::sync::Arc;

// What the inventory says of a host's variables.
#[derive(Drop)]
pub(crate) struct Given {
    // What its groups give it.
    base: usize,
    // What its own variables are.
    own: Slots,
    known: Arc<Slots>,
    // The first host of which the same is known.
    first: usize,
}

// Where hosts are of which nearly certainly the same is known.
#[derive(Drop)]
struct Places {
    // By their bases and their own variables.
    of_parts: BTreeMap<String, usize>,
    // By what is known of them.
    of_slots: BTreeMap<String, usize>,
}

// What the inventory says of the variables of each host, in host order, and for each the first host
// of which the same is said.
//
// # Errors
//
// Want of memory.
pub(crate) fn known_of_each(
    alloc: Global,
    inventory: &Inventory,
) -> Result<(Vec<Arc<Slots>>, Vec<usize>), AllocError>
    ensures known { IfOk result (λ r. slots_of_each r.0.items
        ≡ map (λ h. known_slots h.variables) (inventory_view inventory.now).hosts) }
    ensures firsts { IfOk result (λ r. shared_slots (slots_of_each r.0.items) r.1.items
        ≡ slots_of_each r.0.items) }
{
    let bases = known_bases(alloc, inventory)?;
    let mut places = Places {
        of_parts: BTreeMap::new(alloc),
        of_slots: BTreeMap::new(alloc),
    };
    let mut given = Vec::with_capacity(alloc, inventory.hosts())?;
    for host in 0..inventory.hosts() {
        let next = given_to(alloc, inventory, &bases, &given, &mut places, host)?;
        given.push(next)?;
    }
    parted(alloc, given)
}

// What each base says; bases that say the same share it.
fn known_bases(alloc: Global, inventory: &Inventory) -> Result<Vec<Arc<Slots>>, AllocError>
    ensures { IfOk result (λ bases. AreBases inventory.now bases.items) }
{
    let mut bases: Vec<Arc<Slots>> = Vec::with_capacity(alloc, inventory.bases())?;
    let mut places = BTreeMap::new(alloc);
    for base in 0..inventory.bases() {
        let known = known_base(alloc, inventory, base)?;
        let known = shared_slots(alloc, &bases, &mut places, known)?;
        bases.push(known)?;
    }
    Ok(bases)
}

// What the base of that number says.
fn known_base(alloc: Global, inventory: &Inventory, base: usize) -> Result<Slots, AllocError>
    requires { base < length (bases_view inventory.now) }
    ensures { IfOk result (λ known. slots_view known.entries
        ≡ known_slots (layered (base_at (bases_view inventory.now) base))) }
{
    let mut known = Slots::new(alloc);
    for layer in inventory.layers_of(base) {
        put_layer(alloc, &mut known, layer)?;
    }
    Ok(known)
}

// These slots, shared with an earlier one that is the same, where its text leads to it.
fn shared_slots(
    alloc: Global,
    before: &[Arc<Slots>],
    places: &mut BTreeMap<String, usize>,
    slots: Slots,
) -> Result<Arc<Slots>, AllocError>
    ensures { IfOk result
        (λ shared. slots_view shared.value.entries ≡ slots_view slots.entries) }
{
    let look = look_of(alloc, &slots)?;
    if let Some(earlier) = same_slots(before, places.get(&look), &slots) {
        return Ok(earlier.clone()?);
    }
    drop(places.insert(look, before.len())?);
    Ok(Arc::new(alloc, slots)?)
}

// Those at that place, where they are the same.
fn same_slots<'s>(
    before: &'s [Arc<Slots>],
    place: Option<&usize>,
    slots: &Slots,
) -> Option<&'s Arc<Slots>>
    ensures { IfSome result (λ s. slots_view s.now.value.entries ≡ slots_view slots.now.entries) }
{
    let earlier = before.get(*place?)?;
    if are_same_slots(earlier, slots) {
        Some(earlier)
    } else {
        None
    }
}

// What the host at that place has, which shares what is known of an earlier one where that is the
// same.
fn given_to(
    alloc: Global,
    inventory: &Inventory,
    bases: &[Arc<Slots>],
    before: &[Given],
    places: &mut Places,
    host: usize,
) -> Result<Given, AllocError>
    requires host { host < length (inventory_view inventory.now).hosts }
    requires before { host ≡ length before.now }
    requires bases { AreBases inventory.now bases.now }
    requires given { All (IsGiven inventory.now) before.now }
    requires firsts { All (IsFirst (slots_given before.now)) before.now }
    ensures known { IfOk result (λ g. option_map (λ h. known_slots h.variables)
        (slice_get (inventory_view inventory.now).hosts host)
        ≡ Some (slots_view g.known.value.entries)) }
    ensures given { IfOk result (IsGiven inventory.now) }
    ensures first { IfOk result (λ g. IsFirst (slots_given (before.now ++ g ∷ [])) g) }
{
    let (base, own) = inventory.base_of(host);
    let own = own_slots(alloc, own)?;
    let mut look = look_of(alloc, &own)?;
    look.push_str(base.to_string(alloc)?.as_str())?;
    if let Some(earlier) = with_parts(before, places.of_parts.get(&look), base, &own) {
        return shared(earlier, base, own);
    }
    drop(places.of_parts.insert(look, host)?);
    let known = with_own(alloc, &bases[base], &own)?;
    let look = look_of(alloc, &known)?;
    if let Some(earlier) = with_known(before, places.of_slots.get(&look), &known) {
        return shared(earlier, base, own);
    }
    drop(places.of_slots.insert(look, host)?);
    Ok(Given {
        base,
        own,
        known,
        first: host,
    })
}

// The one at that place, where it has that base and these own variables.
fn with_parts<'g>(
    given: &'g [Given],
    place: Option<&usize>,
    base: usize,
    own: &Slots,
) -> Option<&'g Given>
    ensures there { IfSome result (λ g. (p : ℕ) × (slice_get given.now p ≡ Some g.now)) }
    ensures base { IfSome result (λ g. g.now.base ≡ base) }
    ensures own { IfSome result (λ g. slots_view g.now.own.entries ≡ slots_view own.now.entries) }
{
    let earlier = given.get(*place?)?;
    if earlier.base == base && are_same_slots(&earlier.own, own) {
        Some(earlier)
    } else {
        None
    }
}

// The one at that place, where that is known of it.
fn with_known<'g>(given: &'g [Given], place: Option<&usize>, known: &Slots) -> Option<&'g Given>
    ensures there { IfSome result (λ g. (p : ℕ) × (slice_get given.now p ≡ Some g.now)) }
    ensures known { IfSome result (λ g. slots_view g.now.known.value.entries
        ≡ slots_view known.now.entries) }
{
    let earlier = given.get(*place?)?;
    if are_same_slots(&earlier.known, known) {
        Some(earlier)
    } else {
        None
    }
}

// That of a host which has that base and these own variables, and of which the same is known.
fn shared(earlier: &Given, base: usize, own: Slots) -> Result<Given, AllocError>
    ensures base { IfOk result (λ g. g.base ≡ base) }
    ensures own { IfOk result (λ g. g.own ≡ own) }
    ensures known { IfOk result (λ g. g.known.value ≡ earlier.now.known.value) }
    ensures first { IfOk result (λ g. g.first ≡ earlier.now.first) }
{
    Ok(Given {
        base,
        own,
        known: earlier.known.clone()?,
        first: earlier.first,
    })
}

// What own variables are.
fn own_slots(alloc: Global, own: &Fields) -> Result<Slots, AllocError>
    ensures { IfOk result (λ m. slots_view m.entries
        ≡ with_layer no_slots (fields_view own.now.entries)) }
{
    let mut slots = Slots::new(alloc);
    put_layer(alloc, &mut slots, own)?;
    Ok(slots)
}

// What is known with its own over it; what has none is shared.
fn with_own(alloc: Global, base: &Arc<Slots>, own: &Slots) -> Result<Arc<Slots>, AllocError>
    ensures { IfOk result (λ known. slots_view known.value.entries
        ≡ with_slots (slots_view base.now.value.entries) (slots_view own.now.entries)) }
{
    if own.is_empty() {
        return Ok(base.clone()?);
    }
    let mut known = copy_slots(base)?;
    for (name, slot) in own.iter() {
        put_slot(&mut known, name.clone()?, slot.clone()?)?;
    }
    Ok(Arc::new(alloc, known)?)
}

// Puts the kinds of the layer's values over what is known.
fn put_layer(alloc: Global, known: &mut Slots, layer: &Fields) -> Result<(), AllocError>
    ensures { OnOk result (slots_view known.new.entries
        ≡ with_layer (slots_view known.old.entries) (fields_view layer.now.entries)) }
{
    for (name, value) in layer.iter() {
        let kind = literal_kind(alloc, value)?;
        put_slot(known, name.clone()?, Slot::always(kind))?;
    }
    Ok(())
}

// What is known of each, and for each the first of which the same is known.
fn parted(alloc: Global, given: Vec<Given>) -> Result<(Vec<Arc<Slots>>, Vec<usize>), AllocError>
    ensures known { IfOk result (λ r. slots_of_each r.0.items ≡ slots_given given.items) }
    ensures firsts { IfOk result (λ r. r.1.items ≡ map (λ g. g.first) given.items) }
{
    let mut hosts = Vec::with_capacity(alloc, given.len())?;
    let mut firsts = Vec::with_capacity(alloc, given.len())?;
    for one in given {
        hosts.push(one.known)?;
        firsts.push(one.first)?;
    }
    Ok((hosts, firsts))
}
