//! List: the documents of an application, or all.

ghost use Rattle.std.specs.Prelude.{◌≡◌, ◌++◌, map, IfOk, OnOk};
ghost use Rattle.std.specs.List.Sorted.{IsNonDecreasingBy, IsPermutation};
ghost use Rattle.portal_base.specs.declared.who.Who.TheVariants as Who;
ghost use Rattle.portal_model.specs.declared.reply.Answer.TheVariants as Answer;
ghost use Rattle.portal_model.specs.declared.request.Request.TheVariants as Request;
ghost use Rattle.portal_model.specs.declared.state.Connection.{Connection};
ghost use Rattle.portal_model.specs.ListDocuments.{listed};
ghost use Rattle.portal_model.specs.State.{State};
ghost use Rattle.document_calls.specs.Answers.{all_listed, held_listed, listed_found, listing, number_listed};
ghost use Rattle.document_calls.specs.Serves.{Serves};

use crate::served::{ServedCall, answered};
use document_records::{Document, Documents, Grants};
use portal_base::list::List;
use portal_base::memory::WantOfMemory;
use portal_base::names::{AppId, DocId, NameError};
use portal_base::who::Who;
use portal_model::reply::{Answer, Code, ListedDocument};
use std::alloc::Global;

/// Answers the live documents in which an application has a right, or all
/// where the text that names it is empty, each with its path, in order of
/// their identifiers. No other is looked at: n that are answered take about
/// n log m steps, of m that are live.
///
/// A caller that is an application is `NotAllowed`; a text that is neither
/// empty nor the name of an application is `InvalidArgument`.
pub fn list_documents(
    alloc: Global,
    documents: &Documents,
    grants: &Grants,
    who: &Who,
    app: &[u8],
) -> Result<ServedCall, WantOfMemory>
    ensures { IfOk result (λ served. (s : State) (c : Connection) →
        s.documents ≡ documents.now.live → s.rights ≡ grants.now → c.who ≡ who.now →
        Serves s c (Request.ListDocuments app.now) served.given s served.answer) }
{
    Ok(answered(alloc, listing(alloc, documents, grants, who, app)?))
}

/// The answer.
fn listing(
    alloc: Global,
    documents: &Documents,
    grants: &Grants,
    who: &Who,
    app: &[u8],
) -> Result<Answer, WantOfMemory>
    ensures { IfOk result (λ answer. answer
        ≡ listing documents.now.live grants.now who.now app.now) }
{
    match who {
        Who::App(_) => Ok(Answer::Refused(Code::NotAllowed)),
        Who::Host => listing_for_host(alloc, documents, grants, app),
    }
}

/// The answer to the host.
fn listing_for_host(
    alloc: Global,
    documents: &Documents,
    grants: &Grants,
    app: &[u8],
) -> Result<Answer, WantOfMemory>
    ensures { IfOk result (λ answer. answer
        ≡ listing documents.now.live grants.now Who.Host app.now) }
{
    if app.is_empty() {
        return Ok(Answer::Listed(all(alloc, documents)?));
    }
    match AppId::read(alloc, app) {
        Ok(app) => Ok(Answer::Listed(held(alloc, documents, grants, &app)?)),
        Err(NameError::BadName { .. }) => Ok(Answer::Refused(Code::InvalidArgument)),
        Err(NameError::Memory) => Err(WantOfMemory),
    }
}

/// The documents in which an application has a right, in order of their
/// numbers.
fn held(
    alloc: Global,
    documents: &Documents,
    grants: &Grants,
    app: &AppId,
) -> Result<List<ListedDocument>, WantOfMemory>
    ensures { IfOk result (λ list. list ≡ held_listed documents.now.live grants.now app.now) }
{
    // The list isn't needed: with it comes that live numbers differ.
    let _ = documents.live();
    let ids = grants.documents_of(app)?;
    let mut list = List::new(alloc);
    for id in ids.as_slice() {
        push_found(alloc, &mut list, documents, *id)?;
    }
    Ok(list)
}

/// Adds the document of a number, where it is live.
fn push_found(
    alloc: Global,
    list: &mut List<ListedDocument>,
    documents: &Documents,
    id: DocId,
) -> Result<(), WantOfMemory>
    ensures { OnOk result (list.new ≡ list.old ++ listed_found documents.now.live id) }
{
    match documents.find(id) {
        Some(document) => list.push(listed(alloc, document)?),
        None => Ok(()),
    }
}

/// All documents, in order of their numbers.
fn all(alloc: Global, documents: &Documents) -> Result<List<ListedDocument>, WantOfMemory>
    ensures { IfOk result (λ list. list ≡ all_listed documents.now.live) }
{
    // A listing goes by number, whatever the order in which documents were added.
    let list = listed_each(alloc, documents.live())?;
    Ok(by_number(list))
}

/// Documents as they are listed, in the order in which they are given.
fn listed_each(alloc: Global, documents: &[Document]) -> Result<List<ListedDocument>, WantOfMemory>
    ensures { IfOk result (λ list. list ≡ map listed documents.now) }
{
    let mut list = List::new(alloc);
    for document in documents {
        list.push(listed(alloc, document)?)?;
    }
    Ok(list)
}

/// A document as it is listed.
fn listed(alloc: Global, document: &Document) -> Result<ListedDocument, WantOfMemory>
    ensures { IfOk result (λ shown. shown ≡ listed document.now) }
{
    Ok(ListedDocument {
        id: document.id,
        path: List::copied(alloc, document.path.as_bytes())?,
    })
}

/// The documents in order of their numbers.
fn by_number(list: List<ListedDocument>) -> List<ListedDocument>
    ensures same { IsPermutation list result }
    ensures order { IsNonDecreasingBy number_listed result }
{
    let mut items = list.into_vec();
    items.sort_unstable_by_key(|document| document.id.number);
    List::from_vec(items)
}
