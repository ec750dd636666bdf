//! What is seen at the nodes of folders in which temporaries are renamed and removed.

ghost use Rattle.std.specs.Prelude.{◌≡◌, None, Some, option_map, true};
ghost use Rattle.portal_base.specs.declared.who.Who.{Who};
ghost use Rattle.portal_model.specs.Place.{FolderOf};
ghost use Rattle.portal_model.specs.Rename.{home_of};
ghost use Rattle.app_view.specs.declared.book.ViewBook.{ViewBook};
ghost use Rattle.node_looks.specs.Sights.{sight_of};
ghost use Rattle.file_ops.specs.Homes.{IsSeenAs, any_shown, file_shown, home_told, is_home, shown_of};

use crate::opened::look_named;
use app_view::SeenDocument;
use document_records::Document;
use host_tree::{HostTree, LookAnswer};
use node_looks::sight::SeenPlace;
use portal_base::files::Look;
use portal_model::errno::{EIO, ENOENT};

/// The folder of a document that isn't one itself, as a caller sees it.
#[derive(Clone, Copy)]
pub(crate) struct HomeSeen<'a> {
    /// The view.
    pub view: u32,
    /// The document.
    pub document: &'a Document,
    /// Whether the view's subject may write its file.
    pub may_write: bool,
}

/// What is seen at a node.
#[derive(Clone, Copy)]
pub(crate) enum What<'a> {
    /// Nothing: a request that asks for a folder there is refused with this error.
    Nothing(u32),
    /// A file.
    File,
    /// A folder; that of a document in which temporaries may be, where it is one.
    Folder(Option<HomeSeen<'a>>),
}

/// What is seen at a node, and the look that was taken for it.
#[derive(Clone, Copy)]
pub(crate) struct SeenNode<'a> {
    /// What the tree answered, where a look was taken.
    pub look: Option<LookAnswer>,
    /// What is seen.
    pub what: What<'a>,
}

/// Looks at what a caller sees at a node: a file is there where a look shows it, and at and
/// below a document that is a folder a look tells whether there is a folder.
pub(crate) fn see<'a, T: HostTree>(tree: &mut T, place: Option<SeenPlace<'a>>) -> SeenNode<'a>
    ensures seen { (b : ViewBook) (who : Who) →
        IsSeenAs (option_map (sight_of b who) place.entry) (T.is tree.old) result.look
        result.what (T.is tree.new) }
    ensures still { is_home result.what ≡ true → tree.new ≡ tree.old }
{
    match place {
        None => unlooked(What::Nothing(ENOENT)),
        Some(SeenPlace::File { seen, .. }) => {
            let look = tree.look(&seen.document.path);
            SeenNode {
                look: Some(look),
                what: file_in(look),
            }
        }
        Some(SeenPlace::Temporary { temp, .. }) => {
            let look = look_named(tree, temp.file);
            SeenNode {
                look: Some(look),
                what: file_in(look),
            }
        }
        Some(SeenPlace::Below { below, .. }) => {
            let look = tree.look(below.path);
            SeenNode {
                look: Some(look),
                what: any_in(look),
            }
        }
        Some(SeenPlace::Folder { view, seen }) => unlooked(What::Folder(home_in(view, seen))),
        Some(SeenPlace::Root { .. }) => unlooked(What::Folder(None)),
        Some(SeenPlace::Views) => unlooked(What::Folder(None)),
    }
}

/// What is seen without a look.
fn unlooked<'a>(what: What<'a>) -> SeenNode<'a>
    ensures { result ≡ record { look = None; what = what.entry } }
{
    SeenNode { look: None, what }
}

/// The file that a look shows, where nothing else is seen.
fn file_in<'a>(look: LookAnswer) -> What<'a>
    ensures { result ≡ file_shown look }
{
    match look {
        LookAnswer::Is(Look::File { .. }) => What::File,
        LookAnswer::Is(Look::Folder | Look::Missing) => What::Nothing(ENOENT),
        LookAnswer::Failed => What::Nothing(EIO),
    }
}

/// The file or the folder that a look shows.
fn any_in<'a>(look: LookAnswer) -> What<'a>
    ensures { result ≡ any_shown look }
{
    match look {
        LookAnswer::Is(Look::File { .. }) => What::File,
        LookAnswer::Is(Look::Folder) => What::Folder(None),
        LookAnswer::Is(Look::Missing) => What::Nothing(ENOENT),
        LookAnswer::Failed => What::Nothing(EIO),
    }
}

/// The folder of a document, where temporaries may be in it.
fn home_in<'a>(view: u32, seen: SeenDocument<'a>) -> Option<HomeSeen<'a>>
    ensures { option_map home_told result
        ≡ home_of (FolderOf view seen.entry.document.now seen.entry.may_write) }
{
    let SeenDocument {
        document,
        may_write,
    } = seen;
    if document.folder {
        return None;
    }
    Some(HomeSeen {
        view,
        document,
        may_write,
    })
}

/// What a look showed, where one was taken that didn't fail.
pub(crate) fn shown_of(look: Option<LookAnswer>) -> Option<Look>
    ensures { result ≡ shown_of look }
{
    match look {
        Some(LookAnswer::Is(shown)) => Some(shown),
        Some(LookAnswer::Failed) => None,
        None => None,
    }
}
