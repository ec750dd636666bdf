//! What the file view is answered from, and whose rights count in a view.

ghost use Rattle.std.specs.Prelude.{◌≡◌, ◌<◌, ◌^◌, OnSome, option_copied, option_map};
ghost use Rattle.portal_model.specs.declared.rights.Right.TheVariants.{Read, Write};
ghost use Rattle.portal_model.specs.Applications.{name_of_number};
ghost use Rattle.portal_model.specs.Place.{subject_of};
ghost use Rattle.portal_model.specs.State.{who_has, document_of};
ghost use Rattle.app_view.specs.Books.{readable, who_is};

use document_records::{Applications, Document, Documents, Grants};
use portal_base::names::{AppId, DocId};
use portal_base::who::Who;
use rights_rule::Rights;

/// The caller's own view; view k above it is that of application k.
pub(crate) const OWN_VIEW: u32 = 0;

/// The lists of the portal that the file view is answered from.
#[derive(Clone, Copy)]
pub struct ViewBook<'a> {
    /// The live documents.
    pub documents: &'a Documents,
    /// Which application has which right in which of them.
    pub grants: &'a Grants,
    /// The numbered applications.
    pub applications: &'a Applications,
}

/// Whose rights count in a view.
#[derive(Clone, Copy)]
pub enum Subject<'a> {
    /// The host, which has every right in every live document.
    Host,
    /// An application, by its name.
    App(&'a AppId),
}

/// The subject of a view: the caller of view 0, and application k of view k,
/// which is there for the host alone.
pub fn subject_of<'a>(book: &ViewBook<'a>, who: &'a Who, view: u32) -> Option<Subject<'a>>
    ensures subject { option_map who_is result
        ≡ subject_of book.now.applications.now who.entry.now view }
    ensures small { OnSome result (view < 2 ^ 28) }
{
    match who {
        Who::Host if view == OWN_VIEW => Some(Subject::Host),
        // The view of an application shows what that application may do, also to the host: what it
        // may not write the host can't write there.
        Who::Host => Some(Subject::App(application(book.applications, view)?)),
        Who::App(app) if view == OWN_VIEW => Some(Subject::App(app)),
        Who::App(_) => None,
    }
}

/// The application of a number, which is far below 2^28.
fn application(applications: &Applications, number: u32) -> Option<&AppId>
    ensures value { option_copied result ≡ name_of_number applications.now number }
    ensures small { OnSome result (number < 2 ^ 28) }
{
    // The count itself isn't needed: with it comes that there are few.
    let _ = applications.len();
    applications.name(number)
}

/// The document of a number, where it is live and a subject may read it.
pub(crate) fn readable<'a>(book: &ViewBook<'a>, subject: Subject, id: DocId) -> Option<&'a Document>
    ensures { option_copied result ≡ readable book.now.grants.now (who_is subject.entry)
        (document_of book.now.documents.now.live id.number) }
{
    let document = book.documents.find(id)?;
    if may_read(book.grants, subject, document.id) {
        Some(document)
    } else {
        None
    }
}

/// Says whether a subject may read a document, where that is live.
pub fn may_read(grants: &Grants, subject: Subject, id: DocId) -> bool
    ensures { result ≡ who_has grants.now (who_is subject.entry) id.number Read }
{
    match subject {
        Subject::Host => true,
        Subject::App(app) => grants.rights(app, id).contains(Rights::READ),
    }
}

/// Says whether a subject may write a document, where that is live.
pub fn may_write(grants: &Grants, subject: Subject, id: DocId) -> bool
    ensures { result ≡ who_has grants.now (who_is subject.entry) id.number Write }
{
    match subject {
        Subject::Host => true,
        Subject::App(app) => grants.rights(app, id).contains(Rights::WRITE),
    }
}
