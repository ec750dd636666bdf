//! The numbers of nodes, `view * 2^36 + kind * 2^32 + id`, and the places that
//! they name.

ghost use Rattle.std.specs.Prelude.{◌≡◌, ◌<◌, ◌^◌, IfSome, Some, true};
ghost use Rattle.portal_model.specs.Place.{place_named, place_of_kind_0, place_from_one, node_of, node_number, root_node, by_app_node, folder_node, file_node, named_node, temp_node, id_of_node, view_of_node};
ghost use Rattle.portal_model.specs.declared.place.Place.TheVariants as Place;
ghost use Rattle.app_view.specs.Places.{is_counted, view_in};

use crate::book::OWN_VIEW;
use portal_base::names::DocId;
use portal_model::place::Place;

/// Where the view stands in a number.
const VIEW_SHIFT: u32 = 36;
/// Where the kind stands.
const KIND_SHIFT: u32 = 32;
/// The bits of a kind.
const KIND_MASK: u64 = 15;
/// The bits of an identifier.
const ID_MASK: u64 = 0xffff_ffff;

/// The kind of the root of a view, and of the folder of all views.
const TOP: u64 = 0;
/// The kind of a document's folder.
const DOCUMENT_FOLDER: u64 = 1;
/// The kind of a document's file, or of the folder that it is.
const DOCUMENT_FILE: u64 = 2;
/// The kind of a name below a folder that is a document.
const NAMED: u64 = 4;
/// The kind of a temporary.
const TEMPORARY: u64 = 5;

/// The identifier of the root of a view.
const ROOT: u32 = 1;
/// The identifier of the folder of all views.
const BY_APP: u32 = 2;

/// The place that a number names, whoever asks; `None` exactly for a number of
/// no place.
pub fn place_of(node: u64) -> Option<Place>
    ensures place { result ≡ place_named node }
    ensures back { IfSome result (λ place. node_of place ≡ node) }
{
    let view = view_of(node);
    let id = id_of(node);
    match (node >> KIND_SHIFT) & KIND_MASK {
        TOP => top_place(view, id),
        DOCUMENT_FOLDER => Some(Place::Folder {
            view,
            id: DocId { number: id },
        }),
        DOCUMENT_FILE => Some(Place::File {
            view,
            id: DocId { number: id },
        }),
        NAMED => named_place(view, id),
        TEMPORARY => temp_place(view, id),
        _ => None,
    }
}

/// The place of a naming, which count from 1.
fn named_place(view: u32, k: u32) -> Option<Place>
    ensures { result ≡ place_from_one (Place.Named view) k }
{
    if k == 0 {
        None
    } else {
        Some(Place::Named { view, k })
    }
}

/// The place of a temporary, which count from 1.
fn temp_place(view: u32, k: u32) -> Option<Place>
    ensures { result ≡ place_from_one (Place.Temporary view) k }
{
    if k == 0 {
        None
    } else {
        Some(Place::Temporary { view, k })
    }
}

/// The identifier in a number: of a document, of a root, of what was named, or of a
/// temporary.
pub fn id_of(node: u64) -> u32
    ensures { result ≡ id_of_node node }
{
    (node & ID_MASK) as u32
}

/// The view in a number.
pub(crate) fn view_of(node: u64) -> u32
    ensures { result ≡ view_of_node node }
{
    (node >> VIEW_SHIFT) as u32
}

/// The root of a view, or the folder of all views.
fn top_place(view: u32, id: u32) -> Option<Place>
    ensures { result ≡ place_of_kind_0 view id }
{
    match id {
        ROOT => Some(Place::Root { view }),
        BY_APP if view == OWN_VIEW => Some(Place::ByApp),
        _ => None,
    }
}

/// The number of a place, whose view is below 2^28. It names the place, where that is
/// no naming and no temporary of the number 0.
pub fn node_of(place: Place) -> u64
    requires view { view_in place < 2 ^ 28 }
    ensures node { result ≡ node_of place }
    ensures back { is_counted place ≡ true → place_named result ≡ Some place }
{
    match place {
        Place::Root { view } => root_node(view),
        Place::ByApp => by_app_node(),
        Place::Folder { view, id } => folder_node(view, id),
        Place::File { view, id } => file_node(view, id),
        Place::Named { view, k } => named_node(view, k),
        Place::Temporary { view, k } => temp_node(view, k),
    }
}

/// The number of the root of a view.
pub(crate) fn root_node(view: u32) -> u64
    requires { view < 2 ^ 28 }
    ensures { result ≡ root_node view }
{
    number(view, TOP, ROOT)
}

/// The number of the folder of all views.
pub(crate) fn by_app_node() -> u64
    ensures { result ≡ by_app_node }
{
    number(OWN_VIEW, TOP, BY_APP)
}

/// The number of a document's folder.
pub(crate) fn folder_node(view: u32, id: DocId) -> u64
    requires { view < 2 ^ 28 }
    ensures { result ≡ folder_node view id.number }
{
    number(view, DOCUMENT_FOLDER, id.number)
}

/// The number of a document's file.
pub(crate) fn file_node(view: u32, id: DocId) -> u64
    requires { view < 2 ^ 28 }
    ensures { result ≡ file_node view id.number }
{
    number(view, DOCUMENT_FILE, id.number)
}

/// The number of a name below a folder that is a document.
pub(crate) fn named_node(view: u32, k: u32) -> u64
    requires { view < 2 ^ 28 }
    ensures { result ≡ named_node view k }
{
    number(view, NAMED, k)
}

/// The number of a temporary.
pub(crate) fn temp_node(view: u32, k: u32) -> u64
    requires { view < 2 ^ 28 }
    ensures { result ≡ temp_node view k }
{
    number(view, TEMPORARY, k)
}

/// The number of a node.
fn number(view: u32, kind: u64, id: u32) -> u64
    requires view { view < 2 ^ 28 }
    requires kind { kind < 16 }
    ensures { result ≡ node_number view kind id }
{
    (u64::from(view) << VIEW_SHIFT) + ((kind << KIND_SHIFT) + u64::from(id))
}
