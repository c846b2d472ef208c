// Why a pool gives up.
use pb_executor::Run;

/// Why a pool gives up. The run that comes back has ended or is stopped.
#[derive(Drop)]
pub enum PoolFault<'c> {
    /// Want of memory. Without a run, none was opened.
    NoMemory(Option<Run<'c>>),
    /// No thread could be made for a worker: no job was taken and no call was made.
    NoThread(Run<'c>),
}
