// Which hosts are still in the play that runs.
ghost use Rattle.std.specs.Prelude.{◌<◌, ◌≡◌, All, IfOk, length, true};
ghost use Rattle.pb_core.specs.Entries.{AreHere, IsAnyHere, IsHere};

use crate::host::HostState;
use pb_position::Location;
use std::alloc::{AllocError, Global};

/// Whether a host of that number is there that hasn't left.
pub fn is_here<P>(hosts: &[HostState<P>], host: usize) -> bool
    ensures here { IsHere hosts.now host result }
    ensures within { result ≡ true → host < length hosts.now }
{
    if host >= hosts.len() {
        return false;
    }
    match hosts[host].position.location() {
        Location::End => true,
        Location::Left => false,
        Location::Node(_) => true,
    }
}

/// Whether one of these hosts is there that hasn't left.
pub fn is_any_here<P>(hosts: &[HostState<P>], members: &[usize]) -> bool
    ensures { IsAnyHere hosts.now members.now result }
{
    for member in members {
        if is_here(hosts, *member) {
            return true;
        }
    }
    false
}

/// Those of the hosts that are there and haven't left, in the same order.
///
/// # Errors
///
/// Want of memory.
pub fn active_of<P>(
    alloc: Global,
    hosts: &[HostState<P>],
    members: &[usize],
) -> Result<Vec<usize>, AllocError>
    ensures active { IfOk result (λ ms. AreHere hosts.now members.now ms.items) }
    ensures within { IfOk result (λ ms. All (λ k. k < length hosts.now) ms.items) }
{
    let mut active = Vec::new(alloc);
    for host in members {
        if is_here(hosts, *host) {
            active.push(*host)?;
        }
    }
    Ok(active)
}
