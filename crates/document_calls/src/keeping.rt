//! Changes of the records that outlive a run.

ghost use Rattle.std.specs.Prelude.{◌≡◌, ◌∷◌, [], IfOk, OnErr};
ghost use Rattle.document_calls.specs.KeeperCalls.{Applied, AppliedIf, KeeperStays, fault_if};

use portal_base::list::List;
use portal_base::memory::WantOfMemory;
use portal_model::entry::Fault;
use portal_model::records::RecordChange;
use record_keeper::{Keeper, KeeperDone};
use std::alloc::Global;

/// Asks the keeper once for changes, and says whether it failed: where it
/// didn't, all are made. Where it wants memory, none is.
pub fn keep<K: Keeper>(keeper: &mut K, changes: &List<RecordChange>) -> Result<bool, WantOfMemory>
    ensures ok { IfOk result (λ failed. Applied changes.now (K.is keeper.old) failed
        (K.is keeper.new)) }
    ensures err { OnErr result (KeeperStays (K.is keeper.old) (K.is keeper.new)) }
{
    match keeper.apply(changes) {
        KeeperDone::Done => Ok(false),
        KeeperDone::Failed => Ok(true),
        KeeperDone::Memory => Err(WantOfMemory),
    }
}

/// The same of a change that there may be: without one the keeper isn't asked.
pub fn keep_change<K: Keeper>(
    alloc: Global,
    keeper: &mut K,
    change: Option<RecordChange>,
) -> Result<bool, WantOfMemory>
    ensures ok { IfOk result (λ failed. AppliedIf change (K.is keeper.old) failed
        (K.is keeper.new)) }
    ensures err { OnErr result (KeeperStays (K.is keeper.old) (K.is keeper.new)) }
{
    match change {
        None => Ok(false),
        Some(change) => keep(keeper, &one_change(alloc, change)?),
    }
}

/// A list of one change.
fn one_change(alloc: Global, change: RecordChange) -> Result<List<RecordChange>, WantOfMemory>
    ensures { IfOk result (λ changes. changes ≡ change ∷ []) }
{
    let mut changes = List::new(alloc);
    changes.push(change)?;
    Ok(changes)
}

/// The fault of a request, of which this says whether the keeper failed.
pub fn fault_if(failed: bool) -> Fault
    ensures { result ≡ fault_if failed }
{
    if failed { Fault::Keeper } else { Fault::None }
}
