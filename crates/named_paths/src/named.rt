//! Of which paths a view tells.

ghost use Rattle.std.specs.Prelude.{◌≡◌, ◌&&◌, ◌||◌, option_copied, slice_get};
ghost use Rattle.std.specs.List.{list_any};
ghost use Rattle.app_world.specs.View.{held_documents, is_of_document};
ghost use Rattle.open_handles.specs.Opened.{handle_of, opened_on};
ghost use Rattle.portal_model.specs.State.{held_of, is_app};
ghost use Rattle.rights_rule.specs.Rights.{holds_any};
ghost use Rattle.named_paths.specs.Named.{any_has_open, any_names, are_of, has_file_open as does_have_file_open, has_open as does_have_open, has_temp as does_have_temp, is_open_as as is_file_as, is_open_at as is_file_at, is_temp_at, is_temp_of, temps_of};
ghost use Rattle.save_files.specs.Own.{own_on};
ghost use Rattle.app_world.specs.View.{same_name};

use crate::numbers::OpenNumbers;
use document_records::{Documents, Grants};
use open_handles::Handles;
use portal_base::files::FileName;
use portal_base::names::host_path::lies_above;
use portal_base::names::{AppId, HostPath};
use portal_base::who::Who;
use portal_model::handle::Handle;
use portal_model::state::{Connection, Document};
use portal_model::temporary::Temp;
use save_files::Temps;

/// Says whether a document in which the application has a right, or an open file
/// of its connections, has this path, or a document of those that is a folder has it
/// below it. The connections wait for nothing, and these are the numbers of what they
/// have open.
pub fn knows(
    documents: &Documents,
    rights: &Grants,
    handles: &Handles,
    numbers: &OpenNumbers,
    connections: &[Connection],
    app: &AppId,
    path: &HostPath,
) -> bool
    ensures { result ≡ (are_of
        (held_documents (held_of rights.now app.now) documents.now.live) path.now
        || any_has_open numbers.now handles.now.seats app.now path.now connections.now) }
{
    holds_path(documents, rights, app, path) || opens_path(handles, numbers, connections, app, path)
}

/// Says whether a document in which the application has a right has this path, or is a
/// folder above it.
fn holds_path(documents: &Documents, rights: &Grants, app: &AppId, path: &HostPath) -> bool
    ensures { result ≡ are_of
        (held_documents (held_of rights.now app.now) documents.now.live) path.now }
{
    any_holds(documents.live(), rights, app, path)
}

/// The same of a list of documents.
fn any_holds(documents: &[Document], rights: &Grants, app: &AppId, path: &HostPath) -> bool
    ensures { result ≡ list_any
        (λ d. holds_any (held_of rights.now app.now d.id.number) && is_of_document d path.now)
        documents.now }
{
    documents
        .iter()
        .any(|document| holds(document, rights, app, path))
}

/// The same of one document.
fn holds(document: &Document, rights: &Grants, app: &AppId, path: &HostPath) -> bool
    ensures { result ≡ (holds_any (held_of rights.now app.now document.now.id.number)
        && is_of_document document.now path.now) }
{
    !rights.rights(app, document.id).is_empty() && is_of(document, path)
}

/// Says whether a document has this path, or is a folder above it.
fn is_of(document: &Document, path: &HostPath) -> bool
    ensures { result ≡ is_of_document document.now path.now }
{
    if document.folder {
        *path == document.path || lies_above(document.path.as_bytes(), path.as_bytes())
    } else {
        document.path == *path
    }
}

/// Says whether a connection of the application has a file of this path open.
fn opens_path(
    handles: &Handles,
    numbers: &OpenNumbers,
    connections: &[Connection],
    app: &AppId,
    path: &HostPath,
) -> bool
    ensures { result
        ≡ any_has_open numbers.now handles.now.seats app.now path.now connections.now }
{
    connections.iter().any(|connection| is_app(&connection.who, app)
        && has_open(handles, numbers, connection.seat, path))
}

/// Says whether a caller is the application.
pub fn is_app(who: &Who, app: &AppId) -> bool
    ensures { result ≡ is_app app.now who.now }
{
    match who {
        Who::Host => false,
        Who::App(name) => name == app,
    }
}

/// Says whether a seat has a file of this path open, by one of its numbers.
fn has_open(handles: &Handles, numbers: &OpenNumbers, seat: u32, path: &HostPath) -> bool
    ensures { result ≡ does_have_open numbers.now handles.now.seats path.now seat }
{
    match numbers.get(&seat) {
        Some(known) => any_is_open(handles, seat, known.as_slice(), path),
        None => false,
    }
}

/// Says whether a file of this path is open on a seat by one of these numbers.
fn any_is_open(handles: &Handles, seat: u32, known: &[u64], path: &HostPath) -> bool
    ensures { result ≡ list_any
        (λ fh. is_file_at path.now (handle_of (opened_on handles.now.seats seat) fh)) known.now }
{
    known
        .iter()
        .any(|number| is_open_by(handles, seat, *number, path))
}

/// Says whether a file of this path is open on a seat by a number.
fn is_open_by(handles: &Handles, seat: u32, number: u64, path: &HostPath) -> bool
    ensures { result
        ≡ is_file_at path.now (handle_of (opened_on handles.now.seats seat) number) }
{
    is_open_at(handles.get(seat, number), path)
}

/// Says whether an open handle is that of a file of this path.
fn is_open_at(handle: Option<&Handle>, path: &HostPath) -> bool
    ensures { result ≡ is_file_at path.now (option_copied handle.entry) }
{
    match handle {
        Some(Handle::File { name, .. }) => name.path == *path,
        _ => false,
    }
}

/// Says whether an open file or a temporary of the application's connections is this
/// very file. The connections wait for nothing, and these are the numbers of what they
/// have open.
pub fn names(
    handles: &Handles,
    numbers: &OpenNumbers,
    temps: &Temps,
    connections: &[Connection],
    app: &AppId,
    name: &FileName,
) -> bool
    ensures { result ≡ any_names numbers.now handles.now.seats temps.now.seats app.now name.now
        connections.now }
{
    connections.iter().any(|connection| is_app(&connection.who, app)
        && names_on(handles, numbers, temps, connection.seat, name))
}

/// The same of the connection of a seat.
fn names_on(
    handles: &Handles,
    numbers: &OpenNumbers,
    temps: &Temps,
    seat: u32,
    name: &FileName,
) -> bool
    ensures { result ≡ (does_have_file_open numbers.now handles.now.seats name.now seat
        || does_have_temp temps.now.seats name.now seat) }
{
    has_file_open(handles, numbers, seat, name) || has_temp(temps, seat, name)
}

/// Says whether a seat has this file open, by one of its numbers.
fn has_file_open(handles: &Handles, numbers: &OpenNumbers, seat: u32, name: &FileName) -> bool
    ensures { result ≡ does_have_file_open numbers.now handles.now.seats name.now seat }
{
    match numbers.get(&seat) {
        Some(known) => any_is_open_as(handles, seat, known.as_slice(), name),
        None => false,
    }
}

/// Says whether this file is open on a seat by one of these numbers.
fn any_is_open_as(handles: &Handles, seat: u32, known: &[u64], name: &FileName) -> bool
    ensures { result ≡ list_any
        (λ fh. is_file_as name.now (handle_of (opened_on handles.now.seats seat) fh)) known.now }
{
    known
        .iter()
        .any(|number| is_open_as_by(handles, seat, *number, name))
}

/// Says whether this file is open on a seat by a number.
fn is_open_as_by(handles: &Handles, seat: u32, number: u64, name: &FileName) -> bool
    ensures { result
        ≡ is_file_as name.now (handle_of (opened_on handles.now.seats seat) number) }
{
    is_open_as(handles.get(seat, number), name)
}

/// Says whether an open handle is that of this file.
fn is_open_as(handle: Option<&Handle>, name: &FileName) -> bool
    ensures { result ≡ is_file_as name.now (option_copied handle.entry) }
{
    match handle {
        Some(Handle::File { name: file, .. }) => is_same(file, name),
        _ => false,
    }
}

/// How many temporaries a connection may have.
const MOST_TEMPS: u32 = 64;

/// Says whether this file is a temporary of a seat.
fn has_temp(temps: &Temps, seat: u32, name: &FileName) -> bool
    ensures { result ≡ does_have_temp temps.now.seats name.now seat }
{
    // A connection has no more of them than it may.
    let _ = temps.get(seat, 0);
    for place in 0..MOST_TEMPS {
        if has_temp_at(temps, seat, place, name) {
            return true;
        }
    }
    false
}

/// Says whether this file is the temporary of a seat at a place.
fn has_temp_at(temps: &Temps, seat: u32, place: u32, name: &FileName) -> bool
    ensures { result ≡ is_temp_at name.now (slice_get (temps_of (own_on temps.now.seats seat)) place) }
{
    match temps.at(seat, place) {
        Some(k) => is_file_of(temps.get(seat, k), name),
        None => false,
    }
}

/// Says whether this is the file of a temporary.
fn is_file_of(temp: Option<&Temp>, name: &FileName) -> bool
    ensures { result ≡ is_temp_of name.now (option_copied temp.entry) }
{
    match temp {
        Some(temp) => is_same(&temp.file, name),
        None => false,
    }
}

/// Says whether two names are of one file.
fn is_same(first: &FileName, second: &FileName) -> bool
    ensures { result ≡ same_name first.now second.now }
{
    first.path == second.path && first.generation == second.generation
}
