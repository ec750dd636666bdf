//! What a caller sees at a node.

ghost use Rattle.std.specs.Prelude.{◌≡◌, ◌<◌, ◌^◌, IfSome, Option, Some, false, nat_lt, option_map, true};
ghost use Rattle.portal_model.specs.NodeNumbers.{kind_of_node};
ghost use Rattle.portal_model.specs.declared.naming.Naming.{Naming as NamingNow};
ghost use Rattle.portal_model.specs.declared.temporary.Temp.{Temp as TempNow};
ghost use Rattle.portal_model.specs.Place.{sight_of_place};
ghost use Rattle.portal_model.specs.State.{State};
ghost use Rattle.portal_base.specs.declared.who.Who.{Who as WhoNow};
ghost use Rattle.app_view.specs.Books.{Lends};
ghost use Rattle.app_view.specs.Places.{is_folder_place};
ghost use Rattle.app_view.specs.Sights.{file_sight};
ghost use Rattle.app_view.specs.declared.book.ViewBook.{ViewBook as ViewBookNow};
ghost use Rattle.node_looks.specs.Sights.{is_below, is_own, naming_by, node_seen, sight_of, temp_by, view_of};

use crate::served::ByNumber;
use app_view::{
    SeenBelow, SeenDocument, SeenTemp, Subject, ViewBook, place_of, seen_document, seen_naming,
    seen_temp, subject_of,
};
use portal_base::who::Who;
use portal_model::place::Place;

/// What a caller sees at a node.
#[derive(Clone, Copy)]
pub enum SeenPlace<'a> {
    /// The file of a document, in a view.
    File {
        /// The view.
        view: u32,
        /// The document.
        seen: SeenDocument<'a>,
    },
    /// A folder that is a document or what lies below one, in a view: what is there
    /// only a look tells.
    Below {
        /// The view.
        view: u32,
        /// The document, and the path.
        below: SeenBelow<'a>,
    },
    /// A temporary in a document's folder, in a view.
    Temporary {
        /// The view.
        view: u32,
        /// The document, and the file.
        temp: SeenTemp<'a>,
    },
    /// The folder of a document, in a view.
    Folder {
        /// The view.
        view: u32,
        /// The document.
        seen: SeenDocument<'a>,
    },
    /// The root of a view.
    Root {
        /// The view.
        view: u32,
        /// Whose rights count in it.
        subject: Subject<'a>,
    },
    /// The folder of all views.
    Views,
}

/// What a caller sees at a node; `None` exactly where it sees nothing there. `own` is what
/// the connection that asks has by the number in the node. At the node of a root, of the
/// folder of all views or of a document's folder no look tells what is there.
pub fn seen_place<'a>(
    book: &ViewBook<'a>,
    who: &'a Who,
    node: u64,
    own: ByNumber<'a>,
) -> Option<SeenPlace<'a>>
    ensures sight { (s : State) → Lends book.now s → node_seen s who.now own.entry node
        ≡ option_map (sight_of book.now who.now) result }
    ensures small { IfSome result (λ seen. view_of seen < 2 ^ 28) }
    ensures plain { IfSome result (λ seen.
        nat_lt (kind_of_node node) 2 ≡ true → is_below seen ≡ false) }
{
    match place_of(node) {
        Some(place) => seen_at(book, who, place, own),
        None => None,
    }
}

/// What a caller sees at a place. What is neither told by a look nor a temporary is the
/// same whatever the connection that asks has.
pub fn seen_at<'a>(
    book: &ViewBook<'a>,
    who: &'a Who,
    place: Place,
    own: ByNumber<'a>,
) -> Option<SeenPlace<'a>>
    ensures sight { (s : State) → Lends book.now s →
        sight_of_place s who.now (naming_by own.entry) (temp_by own.entry) place
        ≡ option_map (sight_of book.now who.now) result }
    ensures small { IfSome result (λ seen. view_of seen < 2 ^ 28) }
    ensures plain { IfSome result (λ seen.
        is_folder_place place ≡ true → is_below seen ≡ false) }
    ensures others { (s : State) (naming : Option NamingNow) (temp : Option TempNow) →
        Lends book.now s → IfSome result (λ seen. is_own seen ≡ false →
        sight_of_place s who.now naming temp place
        ≡ Some (sight_of book.now who.now seen)) }
{
    match place {
        Place::File { view, id } => match seen_document(book, who, view, id) {
            Some(seen) => Some(seen_file(view, seen)),
            None => None,
        },
        Place::Named { view, .. } => match seen_naming(book, who, view, own.naming) {
            Some(below) => Some(SeenPlace::Below { view, below }),
            None => None,
        },
        Place::Temporary { view, .. } => match seen_temp(book, who, view, own.temp) {
            Some(temp) => Some(SeenPlace::Temporary { view, temp }),
            None => None,
        },
        Place::Folder { view, id } => match seen_document(book, who, view, id) {
            Some(seen) => Some(SeenPlace::Folder { view, seen }),
            None => None,
        },
        Place::Root { view } => match subject_of(book, who, view) {
            Some(subject) => Some(SeenPlace::Root { view, subject }),
            None => None,
        },
        Place::ByApp => match who {
            Who::Host => Some(SeenPlace::Views),
            Who::App(_) => None,
        },
    }
}

/// The file of a document that is seen, or the folder that it is.
fn seen_file<'a>(view: u32, seen: SeenDocument<'a>) -> SeenPlace<'a>
    ensures sight { (b : ViewBookNow) (who : WhoNow) →
        sight_of b who result ≡ file_sight view seen.entry }
    ensures view { view_of result ≡ view }
{
    if seen.document.folder {
        SeenPlace::Below {
            view,
            below: SeenBelow {
                seen,
                path: &seen.document.path,
            },
        }
    } else {
        SeenPlace::File { view, seen }
    }
}
