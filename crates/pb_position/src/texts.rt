// The texts of failures, one inside the other, with the innermost last.
ghost use Rattle.std.specs.Prelude.{◌≡◌, IfOk, map, option_map};
ghost use Rattle.pb_language.specs.Machine.{innermost, outermost};
ghost use Rattle.pb_position.specs.Texts.{text_of, texts_of};

use std::alloc::AllocError;
use std::sync::Arc;

// The innermost of the first `count`.
pub(crate) fn innermost_of(texts: &Vec<Option<Arc<String>>>, count: usize) -> Option<&Arc<String>>
    ensures { text_of (option_map (λ t. t.now) result)
        ≡ innermost (outermost count (texts_of texts.now.items)) }
{
    let within = if count < texts.len() {
        count
    } else {
        texts.len()
    };
    if within == 0 {
        return None;
    }
    texts[within - 1].as_ref()
}

pub(crate) fn copied(text: Option<&Arc<String>>) -> Result<Option<Arc<String>>, AllocError>
    ensures { IfOk result (λ copy. text_of copy
        ≡ text_of (option_map (λ t. t.now) text.entry)) }
{
    match text {
        Some(text) => Ok(Some(text.clone()?)),
        None => Ok(None),
    }
}

pub(crate) fn all_copied(
    texts: &Vec<Option<Arc<String>>>,
) -> Result<Vec<Option<Arc<String>>>, AllocError>
    ensures { IfOk result (λ copies. map text_of copies.items ≡ map text_of texts.now.items) }
{
    let mut copies = Vec::with_capacity(*texts.allocator(), texts.len())?;
    for text in texts {
        copies.push(copied(text.as_ref())?)?;
    }
    Ok(copies)
}
