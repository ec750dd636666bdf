//! The nodes of the file view: the arithmetic of their numbers.

ghost use Rattle.std.specs.Prelude.{◌≡◌, MatchOption, true, false};
ghost use Rattle.portal_model.specs.Place.{id_of_node, is_own_file};

use portal_base::names::doc_id::DocId;

// A number is made of the view, the kind and the number of the document or the application, and
// stands in no table: nothing has to be looked up first, and no number comes to name another node
// while the portal runs.
/// Where the view stands in a node's number, which is
/// `view * 2^36 + kind * 2^32 + id`.
const VIEW_SHIFT: u32 = 36;
/// Where the kind stands.
const KIND_SHIFT: u32 = 32;
/// The bits of a kind.
const KIND_MASK: u64 = 15;
/// The bits of an identifier.
const ID_MASK: u64 = 0xffff_ffff;

/// The caller's own view.
const OWN_VIEW: u64 = 0;
/// The kind of a document's file.
const DOCUMENT_FILE: u64 = 2;

/// A place of the file view, which a node's number names. The view is 0 for the
/// caller's own, and k for that of application k.
#[derive(Clone, Copy, Debug, PartialEq, Eq)]
pub enum Place {
    /// The root of a view.
    Root {
        /// The view.
        view: u32,
    },
    /// The folder with the views of all applications.
    ByApp,
    /// The folder of a document.
    Folder {
        /// The view.
        view: u32,
        /// The document's identifier.
        id: DocId,
    },
    /// The file of a document, or the folder that it is.
    File {
        /// The view.
        view: u32,
        /// The document's identifier.
        id: DocId,
    },
    /// What the caller's connection named below a folder that is a document.
    Named {
        /// The view.
        view: u32,
        /// The number of the naming on the connection, from 1.
        k: u32,
    },
    /// A file that the caller's connection made in a document's folder, to be
    /// renamed later.
    Temporary {
        /// The view.
        view: u32,
        /// The number of the temporary on the connection, from 1.
        k: u32,
    },
}

/// The number of the document whose file a node is, in the caller's own view.
pub fn file_number(node: u64) -> Option<u32>
    ensures { MatchOption result (is_own_file node ≡ false)
        (λ number. (is_own_file node ≡ true) × (number ≡ id_of_node node)) }
{
    if node >> VIEW_SHIFT == OWN_VIEW && (node >> KIND_SHIFT) & KIND_MASK == DOCUMENT_FILE {
        Some((node & ID_MASK) as u32)
    } else {
        None
    }
}
