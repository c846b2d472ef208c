// Why programs weren't started: told on standard error, once for each program and cause.
use crate::shown::{Reason, Visible};
use std::alloc::{AllocError, Global};
use std::io;
use std::io::Eprint;
use std::sync::atomic::{AtomicU64, Ordering};

// How many causes are told.
const MOST_TOLD: usize = 256;

/// The causes that were told, of which each worker sees those of all.
#[derive(Drop)]
pub struct Told {
    // A number for each, that of no cause is 0.
    causes: Vec<AtomicU64>,
}

impl Told {
    /// Nothing was told.
    ///
    /// # Errors
    ///
    /// Want of memory.
    pub fn new(alloc: Global) -> Result<Told, AllocError> {
        let mut causes = Vec::with_capacity(alloc, MOST_TOLD)?;
        for _cause in 0..MOST_TOLD {
            causes.push(AtomicU64::new(0))?;
        }
        Ok(Told { causes })
    }

    /// Tells why the program can't be started, unless that was told, as well as that goes.
    pub fn tell<R: Eprint>(&self, rt: &R, program: &str, e: &io::Error) {
        if self.is_new(number_of(program, e)) {
            let program = Visible(program);
            let reason = Reason(e);
            let _ = eprintln!(rt; "playcheck: cannot start {program}: {reason}");
        }
    }

    // Whether the cause is told now for the first time; past so many none is.
    fn is_new(&self, cause: u64) -> bool {
        for told in &self.causes {
            match told.compare_exchange(0, cause, Ordering::SeqCst, Ordering::SeqCst) {
                Ok(_) => return true,
                Err(other) if other == cause => return false,
                Err(_) => {}
            }
        }
        false
    }
}

// A number for the program and the cause, other than 0: FNV-1a.
fn number_of(program: &str, e: &io::Error) -> u64 {
    let mut number: u64 = 0xcbf2_9ce4_8422_2325;
    for byte in program.as_bytes() {
        number = (number ^ (*byte as u64)).wrapping_mul(0x0100_0000_01b3);
    }
    let code = e.raw_os_error().unwrap_or(0).unsigned_abs();
    number = (number ^ (code as u64)).wrapping_mul(0x0100_0000_01b3);
    number.max(1)
}
