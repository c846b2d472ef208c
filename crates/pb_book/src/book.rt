// A book: its plays, in their order.
ghost use Rattle.std.specs.Prelude.{◌≡◌, map, true};
ghost use Rattle.pb_play.specs.Words.{all_tasks, is_counted, play_view};
ghost use Rattle.pb_book.specs.Ordered.{are_in_order};

use pb_play::Play;

/// A book. Its plays, blocks, tasks and handlers are counted from line 1 as they run, up to line
/// 4,096, and what each task is given stands in the order of the names' bytes, each name once.
#[derive(Drop)]
pub struct Book {
    plays: Vec<Play>,
    ghost counted: { is_counted (map play_view plays.items) ≡ true },
    ghost ordered: { are_in_order (all_tasks plays.items) ≡ true },
}

impl Book {
    ghost use Rattle.pb_book.specs.Books.{plays_of};

    /// The plays in their order.
    pub fn plays(&self) -> &[Play]
        ensures { result.now ≡ plays_of self.now }
    {
        self.plays.as_slice()
    }

    // The book of these plays.
    pub(crate) fn of_plays(plays: Vec<Play>) -> Book
        requires counted { is_counted (map play_view plays.items) ≡ true }
        requires ordered { are_in_order (all_tasks plays.items) ≡ true }
        ensures { plays_of result ≡ plays.items }
    {
        Book { plays }
    }
}
