// What a block says of all that stands in it.
ghost use Rattle.std.specs.Prelude.{◌<◌, ◌≡◌, ◌≤◌, ◌||◌, IfOk, Ok, Some, nat_lt, option_map};
ghost use Rattle.pb_semantics.specs.Words.{Gives};
ghost use Rattle.pb_language.specs.BookForm.{has_wrong_block_value, is_large_block};
ghost use Rattle.pb_language.specs.BookForm.{most_block_nesting, most_lines};
ghost use Rattle.pb_value.specs.Words.{fields_view};
ghost use Rattle.pb_task.specs.Words.{number_of};
ghost use Rattle.pb_template.specs.Faults.{refused};
ghost use Rattle.pb_play.specs.Blocks.{are_block_lists, are_block_texts_short, block_form_offence};
ghost use Rattle.pb_play.specs.Blocks.{fit_block_keywords, head_from, head_read};
ghost use Rattle.pb_play.specs.Faults.{offence_of};
ghost use Rattle.pb_play.specs.Plays.{head_view};

use crate::fault::PlayFault;
use crate::form::{MOST_LINES, fits, has_other_key, is_list, some_own_field_holds};
use crate::play::BlockHead;
use pb_task::{
    Code, are_conditions_short, boolean_in, conditions_at, given_or_none, is_record_within, vars_in,
};
use pb_template::{LongText, OpaqueNumber, TemplateFault};
use pb_value::{Fields, field_of};
use std::alloc::Global;

// The keywords of a block.
const BLOCK_KEYWORDS: [&str; 7] = [
    "name",
    "when",
    "vars",
    "ignore_errors",
    "block",
    "rescue",
    "always",
];

const PART_KEYWORDS: [&str; 3] = ["block", "rescue", "always"];

// How many blocks may stand in one another.
const MOST_BLOCK_NESTING: u32 = 16;

// What the block at that line, in so many others, says of its steps.
pub(crate) fn head_in(
    alloc: Global,
    depth: u32,
    line: u32,
    fields: &Fields,
) -> Result<BlockHead, PlayFault>
    ensures given { Gives (λ h. Ok (head_view h)) offence_of result
        (head_read depth line (fields_view fields.now.entries)) }
    ensures within { IfOk result (λ h. (depth < most_block_nesting) × (line ≤ most_lines)) }
{
    if let Some(code) = block_form_offence(fields) {
        return Err(PlayFault::at(line, code));
    }
    let head = match head_of(alloc, line, fields) {
        Ok(head) => head,
        Err(fault) => return Err(PlayFault::of_text(line, fault)),
    };
    if is_large(depth, line, fields) {
        return Err(PlayFault::at(line, Code::Limit));
    }
    Ok(head)
}

// The least code that applies to the block's keys and to the forms of their values.
fn block_form_offence(fields: &Fields) -> Option<Code>
    ensures { option_map number_of result ≡ block_form_offence (fields_view fields.now.entries) }
{
    if has_other_key(&BLOCK_KEYWORDS, fields) {
        return Some(Code::Keyword);
    }
    if has_wrong_value(fields) {
        return Some(Code::Value);
    }
    None
}

fn has_wrong_value(fields: &Fields) -> bool
    ensures { result ≡ has_wrong_block_value (fields_view fields.now.entries) }
{
    some_own_field_holds::<OpaqueNumber>(&PART_KEYWORDS, fields)
        || !are_block_lists(fields)
        || !fit_block_keywords(fields)
}

fn are_block_lists(fields: &Fields) -> bool
    ensures { result ≡ are_block_lists (fields_view fields.now.entries) }
{
    is_list(field_of(fields, "block"))
        && is_list(field_of(fields, "rescue"))
        && is_list(field_of(fields, "always"))
}

fn fit_block_keywords(fields: &Fields) -> bool
    ensures { result ≡ fit_block_keywords (fields_view fields.now.entries) }
{
    fits(fields, "name")
        && fits(fields, "when")
        && fits(fields, "vars")
        && fits(fields, "ignore_errors")
}

fn head_of(alloc: Global, line: u32, fields: &Fields) -> Result<BlockHead, TemplateFault>
    ensures { Gives (λ h. Some (head_view h)) refused result
        (head_from line (fields_view fields.now.entries)) }
{
    Ok(BlockHead {
        line,
        when: given_or_none(alloc, conditions_at(alloc, fields, "when")?),
        vars: vars_in(alloc, fields)?,
        ignore_errors: boolean_in(fields, "ignore_errors"),
    })
}

// Whether the block, or its line, is past a limit.
fn is_large(depth: u32, line: u32, fields: &Fields) -> bool
    ensures { result ≡ is_large_block depth (fields_view fields.now.entries)
        || nat_lt most_lines line }
{
    depth >= MOST_BLOCK_NESTING || !are_texts_short(fields) || line > MOST_LINES
}

fn are_texts_short(fields: &Fields) -> bool
    ensures { result ≡ are_block_texts_short (fields_view fields.now.entries) }
{
    !some_own_field_holds::<LongText>(&PART_KEYWORDS, fields)
        && are_conditions_short(field_of(fields, "when"))
        && is_record_within(field_of(fields, "vars"))
}
