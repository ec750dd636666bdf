//! Open files, and what they may do now.

ghost use Rattle.std.specs.Prelude.{◌≡◌, option_copied};
ghost use Rattle.portal_model.specs.NodeVerdict.{OnHandle, by_file_handle};
ghost use Rattle.portal_model.specs.Place.{reach_at};
ghost use Rattle.portal_model.specs.State.{State};
ghost use Rattle.app_view.specs.Books.{Lends};
ghost use Rattle.app_view.specs.Opened.{IsAllowed, by_open_file, file_of};

use crate::book::ViewBook;
use crate::rights_now::reach_at;
use portal_base::files::FileName;
use portal_base::names::DocId;
use portal_base::who::Who;
use portal_model::handle::Handle;

/// An open file.
#[derive(Clone, Copy)]
pub struct OpenFile<'a> {
    /// The file.
    pub name: &'a FileName,
    /// The node that was opened.
    pub node: u64,
    /// The document's number.
    pub document: DocId,
    /// Whether the document is strict.
    pub strict: bool,
    /// Whether it was opened to be read.
    pub read: bool,
    /// Whether it was opened to be written.
    pub write: bool,
}

/// The open file of a handle, where there is a handle and it is none of a
/// folder.
pub fn open_file<'a>(handle: Option<&'a Handle>) -> Option<OpenFile<'a>>
    ensures { (next : OnHandle) →
        by_file_handle (option_copied handle.entry) next ≡ by_open_file result next }
{
    match handle {
        Some(
            Handle::File {
                name,
                node,
                document,
                strict,
                read,
                write,
            },
        ) => Some(OpenFile {
            name,
            node: *node,
            document: *document,
            strict: *strict,
            read: *read,
            write: *write,
        }),
        Some(Handle::Folder { .. }) => None,
        None => None,
    }
}

/// What an open file may do now.
#[derive(Clone, Copy)]
pub struct Allowed {
    /// Whether anything may be asked of it that tells of the file.
    pub reach: bool,
    /// Whether it may be read.
    pub read: bool,
    /// Whether it may be written.
    pub write: bool,
}

/// What an open file of a caller may do now: what it was opened to do, and where
/// its document is strict that alone which the subject of its node's view has the
/// rights for.
///
/// Of n documents it takes about log n steps for a strict one, and for another none.
pub fn allowed_now(book: &ViewBook, who: &Who, file: OpenFile) -> Allowed
    ensures { (s : State) → Lends book.now s
        → IsAllowed (reach_at s who.now) (file_of file.entry) result }
{
    if !file.strict {
        return Allowed {
            reach: true,
            read: file.read,
            write: file.write,
        };
    }
    let now = reach_at(book, who, file.node, file.document);
    Allowed {
        reach: now.read,
        read: file.read && now.read,
        write: file.write && now.read && now.write,
    }
}
