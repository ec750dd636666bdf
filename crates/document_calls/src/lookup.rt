//! Lookup: the document of a path.

ghost use Rattle.std.specs.Prelude.{◌≡◌, ◌∷◌, [], IfOk};
ghost use Rattle.portal_model.specs.declared.request.Request.TheVariants as Request;
ghost use Rattle.portal_model.specs.declared.state.Connection.{Connection};
ghost use Rattle.portal_model.specs.LookupDocument.{text_of};
ghost use Rattle.portal_model.specs.State.{State};
ghost use Rattle.document_calls.specs.Answers.{looked_up};
ghost use Rattle.document_calls.specs.Serves.{Serves};

use crate::arguments::ended_path;
use crate::served::{ServedCall, answered};
use document_records::{Documents, id_text};
use portal_base::list::List;
use portal_base::memory::WantOfMemory;
use portal_base::names::DocId;
use portal_base::text::Text;
use portal_base::who::Who;
use portal_model::reply::{Answer, Code};
use std::alloc::Global;

/// Answers which live document has a path, over the portal's documents: its
/// identifier, or the empty text.
///
/// An application is `NotAllowed`; a path that is none is `InvalidArgument`.
pub fn lookup_document(
    alloc: Global,
    documents: &Documents,
    who: &Who,
    path: &[u8],
) -> Result<ServedCall, WantOfMemory>
    ensures { IfOk result (λ served. (s : State) (c : Connection) →
        s.documents ≡ documents.now.live → c.who ≡ who.now →
        Serves s c (Request.LookupDocument path.now) served.given s served.answer) }
{
    Ok(answered(alloc, looked_up(alloc, documents, who, path)?))
}

/// The answer.
fn looked_up(
    alloc: Global,
    documents: &Documents,
    who: &Who,
    path: &[u8],
) -> Result<Answer, WantOfMemory>
    ensures { IfOk result (λ answer. answer ≡ looked_up documents.now.live who.now path.now) }
{
    match who {
        Who::App(_) => Ok(Answer::Refused(Code::NotAllowed)),
        Who::Host => match ended_path(alloc, path)? {
            None => Ok(Answer::Refused(Code::InvalidArgument)),
            Some(path) => {
                let text = text_of(alloc, documents.first_of(&path))?;
                Ok(Answer::Ids(one(alloc, text)?))
            }
        },
    }
}

/// The identifier of a document, or the empty text.
fn text_of(alloc: Global, id: Option<DocId>) -> Result<Text, WantOfMemory>
    ensures { IfOk result (λ text. text ≡ text_of id) }
{
    match id {
        None => Ok(Text::new(alloc)),
        Some(id) => id_text(alloc, id),
    }
}

/// A list of one text.
fn one(alloc: Global, text: Text) -> Result<List<Text>, WantOfMemory>
    ensures { IfOk result (λ list. list ≡ text ∷ []) }
{
    let mut list = List::new(alloc);
    list.push(text)?;
    Ok(list)
}
