//! RevokePermissions: the listed rights of an application go, and no others.

ghost use Rattle.std.specs.Prelude.{◌≡◌, cond, IfOk, OnErr};
ghost use Rattle.portal_model.specs.declared.request.Request.TheVariants as Request;
ghost use Rattle.portal_model.specs.declared.state.Connection.{Connection};
ghost use Rattle.portal_model.specs.Rights.{take_rights};
ghost use Rattle.portal_model.specs.State.{State};
ghost use Rattle.portal_model.specs.Valid.{Valid};
ghost use Rattle.document_calls.specs.Books.{IsBook, with_book};
ghost use Rattle.document_calls.specs.Changes.{loses, regrant};
ghost use Rattle.document_calls.specs.KeeperCalls.{AppliedIf, KeeperStays, ServesKept};

use crate::deletion::is_kept;
use crate::keeping::keep_change;
use crate::served::{ServedCall, done, refused};
use document_records::{Documents, Grants};
use grant_revoke::{RightsKind, RightsPlan, check};
use portal_base::memory::WantOfMemory;
use portal_base::who::Who;
use portal_model::records::RecordChange;
use portal_model::request::RightsCall;
use record_keeper::Keeper;
use std::alloc::Global;

/// Takes the listed rights of an application in a document away. The keeper is
/// asked where the document outlives the run and one of them is held.
///
/// `InvalidArgument`, `NotFound` and `NotAllowed` as [`check`] says; `Failed`:
/// the keeper failed. Nothing is then changed.
pub fn revoke<K: Keeper>(
    alloc: Global,
    documents: &Documents,
    grants: &mut Grants,
    keeper: &mut K,
    who: &Who,
    call: &RightsCall,
) -> Result<ServedCall, WantOfMemory>
    ensures ok { IfOk result (λ served. (s : State) (c : Connection) →
        IsBook s documents.now grants.old s.applications → Valid s → c.who ≡ who.now →
        ServesKept s c (Request.Revoke call.now) served.given
        (with_book s documents.now grants.new s.applications) served.answer
        (K.is keeper.old) (K.is keeper.new)) }
    ensures grants { OnErr result (grants.new ≡ grants.old) }
    ensures keeper { OnErr result (KeeperStays (K.is keeper.old) (K.is keeper.new)) }
{
    match check(alloc, documents, grants, who, RightsKind::Revoke, call) {
        Err(error) => refused(alloc, error),
        Ok(plan) => match take(alloc, documents, grants, keeper, &plan) {
            Ok(failed) => Ok(done(alloc, failed)),
            Err(error) => Err(error),
        },
    }
}

/// Takes rights away as planned, and says whether the keeper failed.
fn take<K: Keeper>(
    alloc: Global,
    documents: &Documents,
    grants: &mut Grants,
    keeper: &mut K,
    plan: &RightsPlan,
) -> Result<bool, WantOfMemory>
    ensures called { IfOk result (λ failed. AppliedIf
        (regrant (loses documents.now.live grants.old plan.now)
        (take_rights plan.now.app plan.now.id.number plan.now.rights grants.old) plan.now.id)
        (K.is keeper.old) failed (K.is keeper.new)) }
    ensures left { IfOk result (λ failed. grants.new ≡ cond failed grants.old
        (take_rights plan.now.app plan.now.id.number plan.now.rights grants.old)) }
    ensures grants { OnErr result (grants.new ≡ grants.old) }
    ensures keeper { OnErr result (KeeperStays (K.is keeper.old) (K.is keeper.new)) }
{
    // The record is built from the rights as they will be, and they go once the keeper has it:
    // taking rights wants no memory.
    let change = loss(documents, grants, plan)?;
    let failed = keep_change(alloc, keeper, change)?;
    if !failed {
        grants.remove(&plan.app, plan.id, plan.rights);
    }
    Ok(failed)
}

/// The change of the records with which the rights go.
fn loss(
    documents: &Documents,
    grants: &Grants,
    plan: &RightsPlan,
) -> Result<Option<RecordChange>, WantOfMemory>
    ensures { IfOk result (λ change. change
        ≡ regrant (loses documents.now.live grants.now plan.now)
        (take_rights plan.now.app plan.now.id.number plan.now.rights grants.now) plan.now.id) }
{
    if !loses(documents, grants, plan) {
        return Ok(None);
    }
    Ok(Some(RecordChange::SetGrants {
        number: plan.id.number,
        grants: grants.records_without(&plan.app, plan.id, plan.rights)?,
    }))
}

/// Says whether the records lose a right.
fn loses(documents: &Documents, grants: &Grants, plan: &RightsPlan) -> bool
    ensures { result ≡ loses documents.now.live grants.now plan.now }
{
    let held = grants.rights(&plan.app, plan.id);
    is_kept(documents, plan.id) && !held.minus(held.minus(plan.rights)).is_empty()
}
