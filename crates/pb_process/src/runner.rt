// A runner whose modules are programs in a folder.
ghost use Rattle.std.specs.Prelude.{◌≡◌, IfOk, string_bytes};

use crate::asked::{Asked, Manner};
use crate::program::run_program;
use crate::told::Told;
use pb_finish::{Answer, Why};
use pb_jobs::Call;
use pb_json::write_json;
use pb_runner::Runner;
use std::alloc::{AllocError, Global};
use std::io::Eprint;
use std::os::fd::AsRawFd;
use std::process::{OpenProcess, Processes};
use std::sync::Arc;
use std::time::Clock;

/// Answers each call by the program that is named as its module, in a folder: it is started with
/// the host's name and the arguments as compact JSON.
#[derive(Drop)]
pub struct ProcessRunner<P: Processes> {
    alloc: Global,
    processes: P,
    folder: String,
    manner: Manner,
    told: Arc<Told>,
    made: u64,
}

impl<P: Processes> ProcessRunner<P> {
    /// The programs of that folder; no call was made. Arguments are a word of the command line, and
    /// a call may take as long as it does.
    ///
    /// # Errors
    ///
    /// Want of memory.
    pub fn new(alloc: Global, processes: P, folder: &str) -> Result<ProcessRunner<P>, AllocError>
    where
        P: Drop,
        ensures made { IfOk result (λ r. r.made ≡ 0) }
        ensures folder { IfOk result (λ r. string_bytes r.folder ≡ folder.now) }
    {
        let folder = String::from_str(alloc, folder)?;
        let told = Arc::new(alloc, Told::new(alloc)?)?;
        let manner = Manner {
            by_input: false,
            timeout: None,
            watch: None,
        };
        Ok(ProcessRunner::idle(alloc, processes, folder, manner, told))
    }

    // That has made no call.
    fn idle(
        alloc: Global,
        processes: P,
        folder: String,
        manner: Manner,
        told: Arc<Told>,
    ) -> ProcessRunner<P>
        ensures made { result.made ≡ 0 }
        ensures folder { result.folder ≡ folder }
        ensures manner { result.manner ≡ manner }
    {
        ProcessRunner {
            alloc,
            processes,
            folder,
            manner,
            told,
            made: 0,
        }
    }

    /// The same programs, for another worker, called in that manner; no call was made. Why a
    /// program can't be started is told once for all workers.
    ///
    /// # Errors
    ///
    /// Want of memory.
    pub fn share(&self, manner: Manner) -> Result<ProcessRunner<P>, AllocError>
    where
        P: Copy + Drop,
        ensures made { IfOk result (λ r. r.made ≡ 0) }
        ensures folder { IfOk result (λ r. string_bytes r.folder ≡ string_bytes self.now.folder) }
        ensures manner { IfOk result (λ r. r.manner ≡ manner) }
    {
        let own = String::from_str(self.alloc, self.folder.as_str())?;
        let told = self.told.clone()?;
        Ok(ProcessRunner::idle(self.alloc, self.processes, own, manner, told))
    }

    /// Where it takes memory.
    pub fn allocator(&self) -> Global
        ensures { result ≡ self.now.alloc }
    {
        self.alloc
    }

    fn answer(&self, call: &Call) -> Result<Answer, AllocError>
    where
        P: Clock + Eprint,
        <P::Started as OpenProcess>::Stdin: AsRawFd,
        <P::Started as OpenProcess>::Stdout: AsRawFd,
    {
        let program = format!(in self.alloc; "{}/{}", self.folder, call.module)?;
        let arguments = write_json(self.alloc, &call.args)?;
        let asked = Asked {
            program: program.as_str(),
            host: call.name.as_str(),
            arguments: arguments.as_str(),
            number: self.made,
            manner: self.manner,
        };
        Ok(run_program(self.alloc, &self.processes, &asked, &self.told))
    }
}

impl<P: Processes + Clock + Eprint> Runner for ProcessRunner<P>
where
    <P::Started as OpenProcess>::Stdin: AsRawFd,
    <P::Started as OpenProcess>::Stdout: AsRawFd,
{
    ghost use Rattle.std.specs.Prelude.{false};

    ghost calls = { λ r. r.made };

    // What a program answers is not for a contract to say.
    ghost answers = { λ r c a s. Unit {0} };

    // Want of memory is an answer of its own.
    ghost short = { λ r. false };

    fn call(&mut self, call: &Call) -> Answer {
        self.made += 1;
        match self.answer(call) {
            Ok(answer) => answer,
            Err(_) => Answer::Broken(Why::NoAnswer),
        }
    }

    fn made(&self) -> u64 {
        self.made
    }

    fn is_short(&self) -> bool {
        false
    }
}
