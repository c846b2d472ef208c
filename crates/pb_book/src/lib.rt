// The book that the bytes of a file are.
//
//     let registry = Registry::builtin(alloc)?;
//     let book = Book::read(alloc, bytes, &registry)?;
//     for play in book.plays() {
//         let line = play.line; // the first play is at line 1
//     }
#![tactic(auto)]

pub mod book;
pub mod fault;
pub mod read;

pub use book::Book;
pub use fault::BookFault;
pub use read::BOOK_LIMIT;
