//! The documents and applications of a portal.

use app_view::ViewBook;
use document_records::Document;
use vector_lines::output::Output;

/// The live documents as `ID:FLAGS:PATH`, in order of addition, whose flags are `p` where one
/// persists and `r` where it may be used again; and behind a `;` the applications, in order of
/// their numbers.
pub fn put_book(out: &mut Output, book: &ViewBook) {
    for document in book.documents.live() {
        put_document(out, document);
    }
    out.text(";");
    for app in book.applications.names() {
        out.text(" ");
        out.lossy(app.as_bytes());
    }
}

fn put_document(out: &mut Output, document: &Document) {
    out.id(document.id.number);
    out.text(":");
    out.text(if document.persistent { "p" } else { "" });
    out.text(if document.reusable { "r:" } else { ":" });
    out.lossy(document.path.as_bytes());
    out.text(" ");
}
