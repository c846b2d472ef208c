// What is told of a book's plan: how many plays, steps and slots it has.
ghost use Rattle.std.specs.Prelude.{IfOk, IfSome};
ghost use Rattle.pb_sig.specs.Modules.{modules_of};
ghost use Rattle.pb_play.specs.Sound.{AreSound, all_tasks};
ghost use Rattle.pb_book.specs.Books.{plays_of};

use crate::question::{fields_at, text_at};
use crate::records::{put, said};
use crate::repeat::times;
use pb_book::{Book, BookFault};
use pb_inventory::{Inventory, InventoryFault};
use pb_plan::Plan;
use pb_sig::Registry;
use pb_value::{Fields, Value};
use pb_verify::verify::verify;
use pb_verify::{Checked, VerifyFault};
use std::alloc::{AllocError, Global};

/// What is told of the plan of the book that the text is, for the inventory under `hosts`. The plan
/// is made again as often as the question says under `repeat` by `plan`.
pub fn plan_told(alloc: Global, asked: &Fields, book: &str) -> Result<Fields, AllocError> {
    let hosts = text_at(asked, "hosts").unwrap_or("");
    match checked_in(alloc, book, hosts)? {
        Some(checked) => {
            plan_again(alloc, asked, &checked)?;
            let plan = Plan::of(alloc, &checked)?;
            counts_told(alloc, &plan)
        }
        None => said(alloc, "refused", "book"),
    }
}

fn plan_again(alloc: Global, asked: &Fields, checked: &Checked) -> Result<(), AllocError> {
    let Some(counts) = fields_at(asked, "repeat") else {
        return Ok(());
    };
    for _ in 0..times(counts, "plan") {
        drop(Plan::of(alloc, checked)?);
    }
    Ok(())
}

fn counts_told(alloc: Global, plan: &Plan) -> Result<Fields, AllocError> {
    let mut steps: usize = 0;
    for play in &plan.plays {
        steps = steps.saturating_add(play.steps.len());
    }
    let mut told = Fields::new(alloc);
    put_count(alloc, &mut told, "plays", plan.plays.len())?;
    put_count(alloc, &mut told, "slots", plan.slots.count())?;
    put_count(alloc, &mut told, "steps", steps)?;
    Ok(told)
}

fn put_count(alloc: Global, told: &mut Fields, name: &str, count: usize) -> Result<(), AllocError> {
    let number = i64::try_from(count).unwrap_or(i64::MAX);
    put(alloc, told, name, Value::Int(number))
}

// What is accepted of these texts, with the built-in modules; none where one is refused.
fn checked_in(alloc: Global, book: &str, hosts: &str) -> Result<Option<Checked>, AllocError> {
    let registry = Registry::builtin(alloc)?;
    let Some(inventory) = inventory_in(alloc, hosts)? else {
        return Ok(None);
    };
    let Some(book) = book_in(alloc, book, &registry)? else {
        return Ok(None);
    };
    match verify(alloc, book, inventory, registry) {
        Ok(checked) => Ok(Some(checked)),
        Err(VerifyFault::Refused(_)) => Ok(None),
        Err(VerifyFault::NoMemory) => Err(AllocError),
    }
}

fn inventory_in(alloc: Global, text: &str) -> Result<Option<Inventory>, AllocError> {
    match Inventory::read(alloc, text.as_bytes()) {
        Ok(inventory) => Ok(Some(inventory)),
        Err(InventoryFault::NoMemory) => Err(AllocError),
        Err(_) => Ok(None),
    }
}

fn book_in(alloc: Global, text: &str, registry: &Registry) -> Result<Option<Book>, AllocError>
    ensures { IfOk result (λ found. IfSome found
        (λ b. AreSound (modules_of registry.now) (all_tasks (plays_of b)))) }
{
    match Book::read(alloc, text.as_bytes(), registry) {
        Ok(book) => Ok(Some(book)),
        Err(BookFault::NoMemory) => Err(AllocError),
        Err(_) => Ok(None),
    }
}
