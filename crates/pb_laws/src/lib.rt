// The laws of reading: what a book, an inventory and a file of signatures say is read back from the
// plainest form in which it is printed.
#![tactic(auto)]

ghost use Rattle.pb_laws.specs.PrintableBook.{BooksAreReadBack};
ghost use Rattle.pb_laws.specs.PrintableInventory.{InventoriesAreReadBack};
ghost use Rattle.pb_laws.specs.PrintedSignatures.{SignaturesAreReadBack};

use pb_language::laws::documents_are_read_back;
use pb_sig::read_back::modules_are_read_back;

/// A book, with every keyword of its plays, blocks, tasks and handlers, is read back from the
/// plainest form in which it is printed, however its expressions are written, as long as each of
/// them is read as itself.
pub fn books_are_read_back()
    ensures { BooksAreReadBack }
{}

/// An inventory, with the variables of its hosts, is read back from the plainest form in which it
/// is printed, as long as its hosts stand in the order in which its groups list them.
pub fn inventories_are_read_back()
    ensures { InventoriesAreReadBack }
{
    documents_are_read_back();
}

/// A file of signatures, with all its modules, is read back from the plainest form in which it is
/// printed.
pub fn signatures_are_read_back()
    ensures { SignaturesAreReadBack }
{
    modules_are_read_back();
}
