// The books of the tests, and the answers to their calls.
use pb_book::Book;
use pb_executor::Run;
use pb_finish::Answer;
use pb_inventory::Inventory;
use pb_jobs::Job;
use pb_run::Taken;
use pb_sig::Registry;
use pb_value::read_json;
use pb_verify::Checked;
use pb_verify::verify::verify;
use std::alloc::Global;
use std::test::Fail;

pub const ONE_HOST: &[u8] = b"{\"all\":{\"hosts\":[\"h1\"]}}";

pub const TWO_HOSTS: &[u8] = b"{\"all\":{\"hosts\":[\"h1\",\"h2\"]}}";

pub const ONE_PING: &[u8] = b"[{\"hosts\":\"all\",\"tasks\":[{\"ping\":null}]}]";

pub const PONG: &[u8] = b"{\"ping\":\"pong\"}";

/// The book accepted for the inventory; none where it is refused, or memory is.
pub fn checked_for(alloc: Global, book: &[u8], inventory: &[u8]) -> Option<Checked> {
    let registry = Registry::builtin(alloc).ok()?;
    let inventory = Inventory::read(alloc, inventory).ok()?;
    let book = Book::read(alloc, book, &registry).ok()?;
    verify(alloc, book, inventory, registry).ok()
}

/// The same, asked a second time where memory was refused the first time.
pub fn checked_again(alloc: Global, book: &[u8], inventory: &[u8]) -> Option<Checked> {
    checked_for(alloc, book, inventory).or_else(|| checked_for(alloc, book, inventory))
}

pub fn job_of(taken: Taken) -> Result<Job, &'static str> {
    match taken {
        Taken::Job(job) => Ok(job),
        _ => Err("no job"),
    }
}

/// One answer, of these bytes.
pub fn answer_of(alloc: Global, bytes: &[u8]) -> Result<Vec<Answer>, Fail> {
    let mut answers = Vec::new(alloc);
    answers.push(Answer::Object(read_json(alloc, bytes)?))?;
    Ok(answers)
}

/// Of a host, how many of its tasks went well, changed something, failed, and didn't reach it.
pub type Told = (u64, u64, u64, u64);

pub fn told(run: &Run<'_>, host: usize) -> Told {
    let recap = run.recap(host);
    (recap.ok, recap.changed, recap.failed, recap.unreachable)
}
