//! How a service ends by what serving it came to.

ghost use Rattle.std.specs.Prelude.{◌≡◌, ◌⊎◌};
ghost use Rattle.std.specs.List.{list_any};
ghost use Rattle.serve_start.specs.declared.end.ServeEnd.TheVariants as ServeEnd;
ghost use Rattle.serve_start.specs.Ends.{number_of};
ghost use Rattle.serve_start.specs.Statuses.{EndsStart, EndsStatus, end_of, is_failed, is_starved};

use crate::end::ServeEnd;
use crate::openers::Openers;
use host_tree::HostTree;
use portal_base::memory::WantOfMemory;
use portal_base::outside::{Clock, Words};
use portal_start::start::{StartError, StartRefusal};
use record_keeper::Keeper;
use serve_posts::status::ServeStatus;
use worker_gate::worker::WorkEnd;

/// How a service ends by what serving it came to: as its workers did, or for the cause for
/// which no portal started, or for want of memory.
pub fn end_of_status<O, L, T, K, C, W>(openers: &O, status: &ServeStatus<L, T, K, C, W>) -> ServeEnd
where
    O: Openers<L, T, K, C, W>,
    T: HostTree,
    K: Keeper,
    C: Clock,
    W: Words,
    ensures { EndsStatus status.now result }
{
    match status {
        ServeStatus::Ended {
            posts: _,
            ends,
            portal: _,
            rounds: _,
        } => end_of_work(ends.as_slice()),
        ServeStatus::Refused(refusal) => end_of_start(openers, refusal),
        ServeStatus::Memory => ServeEnd::Memory,
    }
}

/// How a service ends whose workers ended so: by a fault where there is one, else for want
/// of memory where one ended so.
fn end_of_work(ends: &[WorkEnd]) -> ServeEnd
    ensures { result ≡ end_of ends.now }
{
    if any_failed(ends) {
        return ServeEnd::SocketFault;
    }
    if any_starved(ends) {
        return ServeEnd::Memory;
    }
    ServeEnd::Closed
}

/// Whether a worker ended by a fault.
fn any_failed(ends: &[WorkEnd]) -> bool
    ensures { result ≡ list_any is_failed ends.now }
{
    ends.iter().any(|end| *end == WorkEnd::Failed)
}

/// Whether a worker ended for want of memory.
fn any_starved(ends: &[WorkEnd]) -> bool
    ensures { result ≡ list_any is_starved ends.now }
{
    ends.iter().any(|end| *end == WorkEnd::Memory)
}

/// How a service ends whose portal didn't start.
fn end_of_start<O, L, T, K, C, W>(openers: &O, refusal: &StartRefusal<T, K, C, W>) -> ServeEnd
where
    O: Openers<L, T, K, C, W>,
    T: HostTree,
    ensures { EndsStart refusal.now.error result }
{
    match refusal.error {
        StartError::KeeperFault => keeper_fault(openers.fault_of(&refusal.keeper)),
        StartError::BadRecord { index } => ServeEnd::BadRecord { index },
        StartError::BadVersion { found } => ServeEnd::BadVersion { found },
        StartError::Memory => ServeEnd::Memory,
    }
}

/// The end by a fault of the keeper, or for want of memory to say which.
fn keeper_fault(why: Result<String, WantOfMemory>) -> ServeEnd
    ensures { (number_of result ≡ 3) ⊎ (result ≡ ServeEnd.Memory) }
{
    match why {
        Ok(why) => ServeEnd::KeeperFault { why },
        Err(WantOfMemory) => ServeEnd::Memory,
    }
}
