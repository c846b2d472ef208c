// The verdict on the bytes of a playbook and an inventory.
ghost use Rattle.std.specs.Prelude.{◌≡◌, Err, IfOk, None, Ok, Some, false, option_map};
ghost use Rattle.pb_semantics.specs.Words.{most_inventory_bytes};
ghost use Rattle.pb_sig.specs.Words.{builtins, modules_of};
ghost use Rattle.pb_inventory.specs.Words.{inventory_view};
ghost use Rattle.pb_task.specs.Words.{number_of};
ghost use Rattle.pb_sig.specs.Signatures.{most_signature_bytes};
ghost use Rattle.pb_book.specs.Words.{book_in, book_view};
ghost use Rattle.pb_cli.specs.FileVerdicts.{Judges, Tells, book_code, book_found};
ghost use Rattle.pb_cli.specs.FileVerdicts.{inventory_verdict, is_first_looked_into};
ghost use Rattle.pb_cli.specs.FileVerdicts.{is_looked_into, modules_verdict, refused};

use pb_book::{Book, BookFault};
use pb_inventory::{Inventory, InventoryFault};
use pb_runner::ScriptFault;
use pb_sig::{Registry, SignatureFault};
use pb_verify::verify::verify;
use pb_verify::{Checked, Code, Refusal, VerifyFault};
use std::alloc::{AllocError, Global};

/// Why there is no verdict that accepts.
#[derive(Drop)]
pub enum Fault {
    Refused(Refusal),
    NoMemory,
}

impl From<AllocError> for Fault {
    ghost use Rattle.std.specs.Prelude.{◌≡◌};
    ghost use Rattle.pb_cli.specs.declared.judge.Fault.TheVariants.{NoMemory};

    ghost from_gives = { λ _ e. e ≡ NoMemory };

    fn from(_: AllocError) -> Fault {
        Fault::NoMemory
    }
}

impl From<BookFault> for Fault {
    ghost use Rattle.std.specs.Prelude.{◌≡◌};
    ghost use Rattle.pb_cli.specs.FileVerdicts.{of_book};

    ghost from_gives = { λ e f. f ≡ of_book e };

    fn from(fault: BookFault) -> Fault {
        match fault {
            BookFault::NotJson => whole(Code::P01),
            BookFault::Refused(offence) => Fault::Refused(Refusal {
                code: code_of(offence.code),
                line: offence.line,
                host: None,
            }),
            BookFault::NoMemory => Fault::NoMemory,
        }
    }
}

// The code of what is wrong in a book.
fn code_of(code: pb_task::Code) -> Code
    ensures { result ≡ book_code (number_of code) }
{
    match code {
        pb_task::Code::Shape => Code::P02,
        pb_task::Code::Keyword => Code::P03,
        pb_task::Code::Value => Code::P04,
        pb_task::Code::Work => Code::P05,
        pb_task::Code::Module => Code::P06,
        pb_task::Code::Expression => Code::P07,
        pb_task::Code::Limit => Code::P08,
        pb_task::Code::Name => Code::P09,
    }
}

impl From<SignatureFault> for Fault {
    ghost use Rattle.std.specs.Prelude.{◌≡◌};
    ghost use Rattle.pb_cli.specs.FileVerdicts.{of_signatures};

    ghost from_gives = { λ e f. f ≡ of_signatures e };

    fn from(fault: SignatureFault) -> Fault {
        match fault {
            SignatureFault::NotJson => whole(Code::S01),
            SignatureFault::Form => whole(Code::S02),
            SignatureFault::Law => whole(Code::S03),
            SignatureFault::Taken => whole(Code::S04),
            SignatureFault::Limit => whole(Code::S05),
            SignatureFault::NoMemory => Fault::NoMemory,
        }
    }
}

impl From<InventoryFault> for Fault {
    ghost use Rattle.std.specs.Prelude.{◌≡◌};
    ghost use Rattle.pb_cli.specs.FileVerdicts.{of_inventory};

    ghost from_gives = { λ e f. f ≡ of_inventory e };

    fn from(fault: InventoryFault) -> Fault {
        match fault {
            InventoryFault::NotJson => whole(Code::I01),
            InventoryFault::Form => whole(Code::I02),
            InventoryFault::HostName => whole(Code::I03),
            InventoryFault::Cycle => whole(Code::I04),
            InventoryFault::Limit => whole(Code::I05),
            InventoryFault::NoMemory => Fault::NoMemory,
        }
    }
}

impl From<ScriptFault> for Fault {
    ghost use Rattle.std.specs.Prelude.{◌≡◌};
    ghost use Rattle.pb_cli.specs.FileVerdicts.{of_script};

    ghost from_gives = { λ e f. f ≡ of_script e };

    fn from(fault: ScriptFault) -> Fault {
        match fault {
            ScriptFault::NotJson => whole(Code::A01),
            ScriptFault::Shape => whole(Code::A02),
            ScriptFault::Limit => whole(Code::A03),
            ScriptFault::NoMemory => Fault::NoMemory,
        }
    }
}

impl From<VerifyFault> for Fault {
    ghost use Rattle.std.specs.Prelude.{◌≡◌};
    ghost use Rattle.pb_cli.specs.FileVerdicts.{of_verify};

    ghost from_gives = { λ e f. f ≡ of_verify e };

    fn from(fault: VerifyFault) -> Fault {
        match fault {
            VerifyFault::Refused(refusal) => Fault::Refused(refusal),
            VerifyFault::NoMemory => Fault::NoMemory,
        }
    }
}

/// A refusal of a file as a whole.
pub fn whole(code: Code) -> Fault
    ensures { result ≡ refused code }
{
    Fault::Refused(Refusal {
        code,
        line: 0,
        host: None,
    })
}

/// Judges a playbook for an inventory. Refusals come in this order: the signatures, the inventory,
/// the playbook as it is written, then what the verifier finds. What is accepted is what was read,
/// with the built-in modules and those of the signatures. Where the first of these files is too
/// long or isn't UTF-8, the refusal takes no memory.
pub fn judge(
    alloc: Global,
    book: &[u8],
    inventory: &[u8],
    signatures: Option<&[u8]>,
) -> Result<Checked, Fault>
    ensures verdict { Judges (option_map (λ s. s.now) signatures.entry) inventory.now book.now
        result }
    ensures read { IfOk result
        (λ c. inventory_verdict inventory.now ≡ Ok (inventory_view c.inventory)) }
    ensures book_read { IfOk result
        (λ c. book_in (modules_of c.registry) book.now ≡ Ok (book_view c.book)) }
    ensures modules { IfOk result (λ c. modules_verdict (option_map (λ s. s.now) signatures.entry)
        ≡ Ok (modules_of c.registry)) }
    ensures apart { is_first_looked_into (option_map (λ s. s.now) signatures.entry) inventory.now
        ≡ false → result ≡ Err Fault.NoMemory → ⊥ }
{
    match signatures {
        Some(signatures) => judge_signed(alloc, book, inventory, signatures),
        None => judge_unsigned(alloc, book, inventory),
    }
}

fn judge_signed(
    alloc: Global,
    book: &[u8],
    inventory: &[u8],
    signatures: &[u8],
) -> Result<Checked, Fault>
    ensures verdict { Judges (Some signatures.now) inventory.now book.now result }
    ensures read { IfOk result
        (λ c. inventory_verdict inventory.now ≡ Ok (inventory_view c.inventory)) }
    ensures book_read { IfOk result
        (λ c. book_in (modules_of c.registry) book.now ≡ Ok (book_view c.book)) }
    ensures modules { IfOk result
        (λ c. modules_verdict (Some signatures.now) ≡ Ok (modules_of c.registry)) }
    ensures apart { is_looked_into most_signature_bytes signatures.now ≡ false
        → result ≡ Err Fault.NoMemory → ⊥ }
{
    let registry = Registry::read(alloc, signatures)?;
    let inventory = Inventory::read(alloc, inventory)?;
    judge_read(alloc, book, inventory, registry)
}

fn judge_unsigned(alloc: Global, book: &[u8], inventory: &[u8]) -> Result<Checked, Fault>
    ensures verdict { Judges None inventory.now book.now result }
    ensures read { IfOk result
        (λ c. inventory_verdict inventory.now ≡ Ok (inventory_view c.inventory)) }
    ensures book_read { IfOk result
        (λ c. book_in (modules_of c.registry) book.now ≡ Ok (book_view c.book)) }
    ensures modules { IfOk result (λ c. modules_of c.registry ≡ builtins) }
    ensures apart { is_looked_into most_inventory_bytes inventory.now ≡ false
        → result ≡ Err Fault.NoMemory → ⊥ }
{
    let inventory = Inventory::read(alloc, inventory)?;
    let registry = Registry::builtin(alloc)?;
    judge_read(alloc, book, inventory, registry)
}

// The verdict on a playbook, where the inventory and the modules are read.
fn judge_read(
    alloc: Global,
    book: &[u8],
    inventory: Inventory,
    registry: Registry,
) -> Result<Checked, Fault>
    ensures verdict { Tells result (book_found (modules_of registry) (inventory_view inventory)
        (book_in (modules_of registry) book.now)) }
    ensures kept { IfOk result (λ c. c.inventory ≡ inventory) }
    ensures book_read { IfOk result
        (λ c. book_in (modules_of c.registry) book.now ≡ Ok (book_view c.book)) }
    ensures modules { IfOk result (λ c. c.registry ≡ registry) }
{
    let book = Book::read(alloc, book, &registry)?;
    Ok(verify(alloc, book, inventory, registry)?)
}
