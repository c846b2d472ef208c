// What is found of a host on its way, as it is shared.
ghost use Rattle.pb_semantics.specs.Words.{recs};
ghost use Rattle.pb_semantics.specs.Well.{Well};
ghost use Rattle.pb_walks.proofs.WellProp.{well_prop};
ghost use Rattle.pb_kind.specs.Words.{slots_view};
ghost use Rattle.pb_tables.specs.Seen.{seen_record};

use crate::host::HostFound;
use pb_find::{FaultAt, Find};
use pb_kind::Slots;
use std::alloc::{AllocError, Global};
use std::sync::Arc;

/// What is found of a host on its way through all plays. Others share what they see of it.
#[derive(Drop)]
pub struct HostEnd {
    /// The first fault: the least line, and on it the least code.
    pub fault: Option<FaultAt>,
    /// Each write is below what others see.
    pub is_settled: bool,
    /// Others see next what they see now.
    pub is_same: bool,
    /// The most module calls.
    pub calls: u64,
    /// What others see next.
    pub next: Arc<Slots>,
    ghost well: { Well (seen_record next) } by { well_prop (seen_record next) },
}

impl HostEnd {
    ghost use Rattle.std.specs.Prelude.{◌≡◌, IfOk};
    ghost use Rattle.pb_tables.specs.Ends.{found_in};

    /// What was found.
    pub fn of(alloc: Global, found: HostFound) -> Result<HostEnd, AllocError>
        requires { Well (recs (slots_view found.find.next.entries)) }
        ensures { IfOk result (λ e. found_in e ≡ found) }
    {
        let HostFound { find, calls } = found;
        let Find {
            fault,
            next,
            is_settled,
            is_same,
        } = find;
        let next = Arc::new(alloc, next)?;
        Ok(HostEnd {
            fault,
            is_settled,
            is_same,
            calls,
            next,
        })
    }

    /// The same of another host.
    pub fn share(&self) -> Result<HostEnd, AllocError>
        ensures { IfOk result (λ e. found_in e ≡ found_in self.now) }
    {
        let next = self.next.clone()?;
        Ok(HostEnd {
            fault: self.fault,
            is_settled: self.is_settled,
            is_same: self.is_same,
            calls: self.calls,
            next,
        })
    }
}
