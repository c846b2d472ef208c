// Texts of slots, which differ for nearly all slots that differ.
use pb_kind::{Kind, Slots};
use std::alloc::{AllocError, Global};

// A text that differs for nearly all slots that differ.
pub(crate) fn look_of(alloc: Global, slots: &Slots) -> Result<String, AllocError> {
    let mut look = String::new(alloc);
    put_slots(alloc, &mut look, slots)?;
    Ok(look)
}

// Puts the fields behind the text, each with its kind.
#[cycle(look)]
fn put_slots(alloc: Global, look: &mut String, slots: &Slots) -> Result<(), AllocError> {
    look.push('{')?;
    for (name, slot) in slots.iter() {
        look.push_str(name.as_str())?;
        look.push(' ')?;
        put_kind(alloc, look, &slot.kind)?;
    }
    look.push('}')
}

#[cycle(look)]
fn put_kind(alloc: Global, look: &mut String, kind: &Kind) -> Result<(), AllocError> {
    match kind {
        Kind::Never => look.push('n'),
        Kind::Null => look.push('0'),
        Kind::Bool => look.push('b'),
        Kind::Int => look.push('i'),
        Kind::Text | Kind::Host(_) => look.push('t'),
        Kind::List(item, most) => {
            look.push_str(most.to_string(alloc)?.as_str())?;
            put_kind(alloc, look, item)
        }
        Kind::Rec(slots) => put_slots(alloc, look, slots),
        Kind::Result(_, known) => put_kind(alloc, look, known),
        Kind::Any => look.push('a'),
    }
}
