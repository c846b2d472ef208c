// The book that a JSON text is.
ghost use Rattle.std.specs.Prelude.{◌<◌, ◌≡◌, ◌≤◌, Err, IfOk, Ok, false, length};
ghost use Rattle.std.specs.Str.{is_utf8};
ghost use Rattle.pb_semantics.specs.Words.{Gives, most_book_bytes};
ghost use Rattle.pb_sig.specs.Words.{modules_of};
ghost use Rattle.pb_play.specs.Words.{AreSound, all_tasks};
ghost use Rattle.pb_book.specs.Books.{book_view, plays_of};
ghost use Rattle.pb_book.specs.Faults.{offence_of, too_large};
ghost use Rattle.pb_book.specs.Reading.{book_in};

use crate::book::Book;
use crate::fault::BookFault;
use pb_play::{Offence, read_plays};
use pb_sig::Registry;
use pb_task::Code;
use pb_value::read_json;
use std::alloc::Global;

/// The most bytes of a playbook.
pub const BOOK_LIMIT: usize = 4_194_304;

// The line of what is wrong with the whole file.
const WHOLE_FILE: u32 = 0;

impl Book {
    /// The book that the text is, with the modules of the registry.
    ///
    /// # Errors
    ///
    /// `Refused` at line 0 with `Limit` where there are more than 4,194,304 bytes; else `NotJson`
    /// where they aren't JSON; else `Refused` as the value's plays are, at the least line, with the
    /// least code on it. `NoMemory` for want of memory.
    pub fn read(alloc: Global, bytes: &[u8], registry: &Registry) -> Result<Book, BookFault>
        ensures given { Gives (λ b. Ok (book_view b)) offence_of result
            (book_in (modules_of registry.now) bytes.now) }
        ensures sound { IfOk result
            (λ b. AreSound (modules_of registry.now) (all_tasks (plays_of b))) }
        ensures large { most_book_bytes < length bytes.now → result ≡ Err too_large }
        ensures no_text { is_utf8 bytes.now ≡ false → length bytes.now ≤ most_book_bytes
            → result ≡ Err BookFault.NotJson }
    {
        if bytes.len() > BOOK_LIMIT {
            return Err(BookFault::Refused(Offence {
                line: WHOLE_FILE,
                code: Code::Limit,
            }));
        }
        let value = read_json(alloc, bytes)?;
        Ok(Book::of_plays(read_plays(alloc, registry, &value)?))
    }
}
