//! Delete: a document goes, and all rights in it.

ghost use Rattle.std.specs.Prelude.{◌≡◌, cond, IfOk, OnErr};
ghost use Rattle.portal_model.specs.declared.request.Request.TheVariants as Request;
ghost use Rattle.portal_model.specs.declared.state.Connection.{Connection};
ghost use Rattle.portal_model.specs.Rights.{forget_document};
ghost use Rattle.portal_model.specs.State.{State};
ghost use Rattle.portal_model.specs.Valid.{Valid};
ghost use Rattle.document_records.specs.Documents.{is_kept, without_document};
ghost use Rattle.document_calls.specs.Books.{IsBook, with_book};
ghost use Rattle.document_calls.specs.Changes.{SameLimits, removal};
ghost use Rattle.document_calls.specs.KeeperCalls.{AppliedIf, KeeperStays, ServesKept};

use crate::keeping::keep_change;
use crate::served::{ServedCall, done, refused};
use document_records::{Documents, Grants};
use grant_revoke::check_delete;
use portal_base::memory::WantOfMemory;
use portal_base::names::DocId;
use portal_base::who::Who;
use portal_model::records::RecordChange;
use record_keeper::Keeper;
use std::alloc::Global;

/// Removes a document and all rights in it. The keeper is asked where the
/// document outlives the run.
///
/// `NotFound`: there is no such document, or the caller has no right in it.
/// `NotAllowed`: the caller may not remove it. `Failed`: the keeper failed.
/// Nothing is then changed.
pub fn delete_document<K: Keeper>(
    alloc: Global,
    documents: &mut Documents,
    grants: &mut Grants,
    keeper: &mut K,
    who: &Who,
    doc: &[u8],
) -> Result<ServedCall, WantOfMemory>
    ensures ok { IfOk result (λ served. (s : State) (c : Connection) →
        IsBook s documents.old grants.old s.applications → Valid s → c.who ≡ who.now →
        ServesKept s c (Request.DeleteDocument doc.now) served.given
        (with_book s documents.new grants.new s.applications) served.answer
        (K.is keeper.old) (K.is keeper.new)) }
    ensures limits { SameLimits documents.old documents.new }
    ensures documents { OnErr result (documents.new ≡ documents.old) }
    ensures grants { OnErr result (grants.new ≡ grants.old) }
    ensures keeper { OnErr result (KeeperStays (K.is keeper.old) (K.is keeper.new)) }
{
    match check_delete(documents, grants, who, doc) {
        Err(error) => refused(alloc, error),
        Ok(id) => match delete(alloc, documents, grants, keeper, id) {
            Ok(failed) => Ok(done(alloc, failed)),
            Err(error) => Err(error),
        },
    }
}

/// Removes a live document, and says whether the keeper failed.
fn delete<K: Keeper>(
    alloc: Global,
    documents: &mut Documents,
    grants: &mut Grants,
    keeper: &mut K,
    id: DocId,
) -> Result<bool, WantOfMemory>
    ensures called { IfOk result (λ failed. AppliedIf (removal documents.old.live id)
        (K.is keeper.old) failed (K.is keeper.new)) }
    ensures rest { IfOk result (λ failed. documents.new
        ≡ cond failed documents.old (without_document documents.old id.number)) }
    ensures left { IfOk result (λ failed. grants.new
        ≡ cond failed grants.old (forget_document id.number grants.old)) }
    ensures documents { OnErr result (documents.new ≡ documents.old) }
    ensures grants { OnErr result (grants.new ≡ grants.old) }
    ensures keeper { OnErr result (KeeperStays (K.is keeper.old) (K.is keeper.new)) }
{
    let failed = keep_change(alloc, keeper, removal(documents, id))?;
    if !failed {
        documents.remove(id);
        grants.forget(id);
    }
    Ok(failed)
}

/// The change of the records with which a live document goes.
fn removal(documents: &Documents, id: DocId) -> Option<RecordChange>
    ensures { result ≡ removal documents.now.live id }
{
    if is_kept(documents, id) {
        Some(RecordChange::RemoveDocument { number: id.number })
    } else {
        None
    }
}

/// Says whether a live document is in the records.
pub(crate) fn is_kept(documents: &Documents, id: DocId) -> bool
    ensures { result ≡ is_kept documents.now.live id.number }
{
    match documents.find(id) {
        Some(document) => document.persistent,
        None => false,
    }
}
