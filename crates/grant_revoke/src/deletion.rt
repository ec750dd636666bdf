//! Delete.

ghost use Rattle.std.specs.Prelude.{◌≡◌, IfOk, IfErr, Some};
ghost use Rattle.portal_base.specs.DocIds.{doc_id_of};
ghost use Rattle.portal_model.specs.DeleteDocument.{delete_document};
ghost use Rattle.portal_model.specs.State.{State};
ghost use Rattle.grant_revoke.specs.Changes.{IsDeleteRefused, delete_done_by, planned_delete};
ghost use Rattle.grant_revoke.specs.Records.{HasRecords, reached_in};

use crate::lookup::reach;
use crate::plan::RightsError;
use document_records::{Documents, Grants};
use portal_base::names::DocId;
use portal_base::who::Who;
use rights_rule::Rights;

/// The document that a Delete removes, with all rights in it.
///
/// `NotFound`: there is no such document, or the caller has no right in it.
/// `NotAllowed`: the caller may not remove it. It takes no memory, and has no
/// other refusal.
pub fn check_delete(
    documents: &Documents,
    grants: &Grants,
    who: &Who,
    doc: &[u8],
) -> Result<DocId, RightsError>
    ensures document { IfOk result (λ id. doc_id_of doc.now ≡ Some id) }
    ensures ok { IfOk result (λ id. (s : State) → HasRecords s documents.now.live grants.now →
        delete_document s who.now doc.now ≡ delete_done_by id s) }
    ensures err { IfErr result (λ error. (s : State) →
        HasRecords s documents.now.live grants.now →
        IsDeleteRefused (delete_document s who.now doc.now) error) }
{
    deletion(documents, grants, who, doc)
}

/// The same, by what the caller reaches.
fn deletion(
    documents: &Documents,
    grants: &Grants,
    who: &Who,
    doc: &[u8],
) -> Result<DocId, RightsError>
    ensures { result ≡ planned_delete
        (reached_in documents.now.live grants.now who.now doc.now) }
{
    match reach(documents, grants, who, doc) {
        None => Err(RightsError::NotFound),
        Some(reached) if reached.held.contains(Rights::DELETE) => Ok(reached.id),
        Some(_) => Err(RightsError::NotAllowed),
    }
}
