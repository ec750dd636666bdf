//! The numbers of nodes.

use app_view::{node_of, place_of};
use portal_model::place::Place;
use vector_lines::error::LineError;
use vector_lines::notation::number;
use vector_lines::output::Output;

/// More than any view.
const VIEWS: u32 = 0x1000_0000;

/// `place NODE`: the place that a number names, and the number of that place.
pub fn place(out: &mut Output, rest: &str) -> Result<(), LineError> {
    match place_of(number(rest)?) {
        Some(place) => {
            out.debug(&place);
            out.text(" ");
            out.debug(&numbered(place));
        }
        None => out.text("none"),
    }
    Ok(())
}

/// The number of a place, where there is such a view.
fn numbered(place: Place) -> Option<u64> {
    match place {
        Place::ByApp => Some(node_of(Place::ByApp)),
        Place::Root { view } if view < VIEWS => Some(node_of(Place::Root { view })),
        Place::Folder { view, id } if view < VIEWS => Some(node_of(Place::Folder { view, id })),
        Place::File { view, id } if view < VIEWS => Some(node_of(Place::File { view, id })),
        Place::Named { view, k } if view < VIEWS => Some(node_of(Place::Named { view, k })),
        _ => None,
    }
}
