//! What a view's subject may do now.

ghost use Rattle.std.specs.Prelude.{◌≡◌, Some};
ghost use Rattle.portal_model.specs.Place.{reach_at, reach_of_subject};
ghost use Rattle.portal_model.specs.State.{State};
ghost use Rattle.app_view.specs.Books.{Lends, who_is};
ghost use Rattle.app_view.specs.Reached.{reach_told};

use crate::book::{Subject, ViewBook, may_read, may_write, subject_of};
use crate::nodes::view_of;
use portal_base::names::DocId;
use portal_base::who::Who;

/// Which of the rights to read and to write a subject has in a document now.
#[derive(Clone, Copy)]
pub struct Reach {
    /// Whether it may read the document.
    pub read: bool,
    /// Whether it may write the document.
    pub write: bool,
}

/// The rights that the subject of a node's view has now in a document: none
/// where the view isn't there, or the document isn't live. Of n documents it
/// takes about log n steps.
pub fn reach_at(book: &ViewBook, who: &Who, node: u64, document: DocId) -> Reach
    ensures { (s : State) → Lends book.now s
        → reach_told result ≡ reach_at s who.now node document.number }
{
    match subject_of(book, who, view_of(node)) {
        Some(subject) => reach_of(book, subject, document),
        None => Reach {
            read: false,
            write: false,
        },
    }
}

/// The rights that a subject has now in a document.
fn reach_of(book: &ViewBook, subject: Subject, document: DocId) -> Reach
    ensures { (s : State) → Lends book.now s → reach_told result
        ≡ reach_of_subject s document.number (Some (who_is subject.entry)) }
{
    // The host has its rights in live documents alone.
    let live = book.documents.find(document).is_some();
    Reach {
        read: live && may_read(book.grants, subject, document),
        write: live && may_write(book.grants, subject, document),
    }
}
