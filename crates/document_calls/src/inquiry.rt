//! Info: the path of a document, and who holds which rights in it.

ghost use Rattle.std.specs.Prelude.{◌≡◌, IfOk, Some, option_copied};
ghost use Rattle.portal_model.specs.declared.request.Request.TheVariants as Request;
ghost use Rattle.portal_model.specs.declared.state.Connection.{Connection};
ghost use Rattle.portal_model.specs.Arguments.{document_named};
ghost use Rattle.portal_model.specs.State.{State};
ghost use Rattle.document_calls.specs.Answers.{informed, told_of};
ghost use Rattle.document_calls.specs.Serves.{Serves};

use crate::served::{ServedCall, answered};
use document_records::{Document, Documents, Grants};
use portal_base::list::List;
use portal_base::memory::WantOfMemory;
use portal_base::names::DocId;
use portal_base::who::Who;
use portal_model::reply::{Answer, Code};
use std::alloc::Global;

/// Answers the path of a document, and the rights of each application that has
/// one in it, in byte order of the names.
///
/// An application is `NotAllowed`; where there is no such document it is
/// `NotFound`.
pub fn info(
    alloc: Global,
    documents: &Documents,
    grants: &Grants,
    who: &Who,
    doc: &[u8],
) -> Result<ServedCall, WantOfMemory>
    ensures { IfOk result (λ served. (s : State) (c : Connection) →
        s.documents ≡ documents.now.live → s.rights ≡ grants.now → c.who ≡ who.now →
        Serves s c (Request.Info doc.now) served.given s served.answer) }
{
    Ok(answered(alloc, informed(alloc, documents, grants, who, doc)?))
}

/// The answer.
fn informed(
    alloc: Global,
    documents: &Documents,
    grants: &Grants,
    who: &Who,
    doc: &[u8],
) -> Result<Answer, WantOfMemory>
    ensures { IfOk result (λ answer. answer
        ≡ informed documents.now.live grants.now who.now doc.now) }
{
    match who {
        Who::App(_) => Ok(Answer::Refused(Code::NotAllowed)),
        Who::Host => match document_named(documents, doc) {
            None => Ok(Answer::Refused(Code::NotFound)),
            Some(document) => told_of(alloc, document, grants),
        },
    }
}

/// What is known of a live document.
fn told_of(alloc: Global, document: &Document, grants: &Grants) -> Result<Answer, WantOfMemory>
    ensures { IfOk result (λ answer. answer ≡ told_of grants.now (Some document.now)) }
{
    match grants.rows(document.id) {
        Ok(rights) => Ok(Answer::Info {
            path: List::copied(alloc, document.path.as_bytes())?,
            rights,
        }),
        Err(error) => Err(error),
    }
}

/// The live document of an identifier.
fn document_named<'a>(documents: &'a Documents, doc: &[u8]) -> Option<&'a Document>
    ensures { option_copied result ≡ document_named documents.now.live doc.now }
{
    documents.find(DocId::read(doc)?)
}
