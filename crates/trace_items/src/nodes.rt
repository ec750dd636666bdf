//! Requests on nodes: how they change the files, where they are done, and what
//! an application is told of that.

ghost use Rattle.std.specs.Prelude.{◌≡◌, ◌∷◌, ℕ, [], None, Option, Some, cond, map, option_copied, option_map, IfOk};
ghost use Rattle.portal_model.specs.declared.naming.Naming.{Naming};
ghost use Rattle.portal_model.specs.declared.temporary.OwnTemp.{OwnTemp};
ghost use Rattle.portal_model.specs.declared.temporary.Temp.{Temp as TempOf};
ghost use Rattle.app_view.specs.Books.{Lends};
ghost use Rattle.app_world.specs.Node.{content_named as content_of_name};
ghost use Rattle.app_world.specs.TraceItem.{item_of};
ghost use Rattle.open_handles.specs.Opened.{handle_of as handle_in, opened_on};
ghost use Rattle.file_generations.specs.Generations.{all_held};
ghost use Rattle.portal_model.specs.Bus.{moment_given};
ghost use Rattle.portal_model.specs.Open.{truncates as does_truncate};
ghost use Rattle.portal_model.specs.Place.{Sight, id_of_node, place_named, place_of as place_of_node};
ghost use Rattle.portal_model.specs.SeatNames.{found_temp, naming_of, temp_of};
ghost use Rattle.portal_model.specs.SetAttr.{sets_by_handle as is_by_handle, sets_size as is_of_size};
ghost use Rattle.portal_model.specs.State.{State};
ghost use Rattle.std.specs.Prelude.{List as Items};
ghost use Rattle.trace_items.specs.Awaited.{change_of, namings_on, temps_on};
ghost use Rattle.trace_items.specs.FilesChanged.{attributes_set as file_set, creates, document_of_folder, file_change, file_open as open_file, file_shown_at, made_in, news_of, told_alone, turned_alone, opened as file_opened, path_of_below, path_of_file, renamed as file_renamed, resizes, view_in, view_of_folder, written as file_written};
ghost use Rattle.app_trace.specs.Told.{content_told, item_told};
ghost use Rattle.trace_items.specs.Touches.{told_if};

use crate::changes::FileUpdate;
use crate::lent::Lent;
use app_trace::contents::file_content;
use app_trace::trace::TraceItem;
use app_trace::view::Content;
use app_view::{ViewBook, id_of, place_of, seen_document, seen_naming, seen_temp};
use document_records::Document;
use folder_documents::child_path;
use portal_base::files::{FileName, Look};
use portal_base::memory::{Replica, WantOfMemory};
use portal_base::names::{DocId, HostPath};
use portal_base::who::Who;
use portal_model::entry::Given;
use portal_model::handle::Handle;
use portal_model::naming::Naming as NamedPath;
use portal_model::place::Place;
use portal_model::request::{NodeOp, NodeRequest};
use portal_model::state::Connection;
use portal_model::temporary::Temp;
use save_files::Temps;
use std::alloc::Global;
use tree_files::TreeFiles;

/// The bit of a FUSE_SETATTR that says that the length is set.
const FATTR_SIZE: u32 = 8;
/// The bit of a FUSE_SETATTR that says that it names an open handle.
const FATTR_FH: u32 = 64;
/// The flag of open(2) by which a file is cut to nothing.
const O_TRUNC: u32 = 512;

/// How a request on a node, over this connection, changes the files where it is
/// done.
pub fn update_of<'a>(
    alloc: Global,
    lent: &Lent,
    connection: &Connection,
    request: &'a NodeRequest,
    given: &Given,
) -> Result<FileUpdate<'a>, WantOfMemory>
    ensures { IfOk result (λ update. (s : State) (has : Items Naming) (own : Items OwnTemp) →
        Lends lent.now.book s → namings_on lent.now.namings.now connection.now.seat ≡ Some has →
        temps_on lent.now.temps.now.seats connection.now.seat ≡ Some own → change_of update
        ≡ file_change (record {
          sight = place_of_node s connection.now.who (naming_of has (id_of_node request.now.node))
              (temp_of own (id_of_node request.now.node)) request.now.node;
          handle = handle_in (opened_on lent.now.handles.now.seats connection.now.seat);
          temps = own;
          looks = given.entry.now.looks;
          now = moment_given given.entry.now.now;
          generation = given.entry.now.generation;
        }) request.now.op) }
{
    let now = given.now.unwrap_or(0);
    let looks = given.looks.as_slice();
    let (seat, who) = (connection.seat, &connection.who);
    let at = At {
        book: &lent.book,
        who,
        node: request.node,
        naming: lent.namings.get(seat, id_of(request.node)),
        temp: lent.temps.get(seat, id_of(request.node)),
    };
    match &request.op {
        NodeOp::Write {
            fh,
            offset,
            content,
        } => {
            let handle = lent.handles.get(seat, *fh);
            written(alloc, handle, *offset, content.as_slice(), now)
        }
        NodeOp::SetAttr { valid, fh, size } => {
            let handle = lent.handles.get(seat, *fh);
            attributes_set(alloc, *valid, *size, file_seen(&at), handle, looks, now)
        }
        NodeOp::Open { flags } => opened(alloc, *flags, file_seen(&at), looks, now),
        NodeOp::Create { name, .. } => {
            made_in(alloc, &at, name.as_slice(), given.generation, now)
        }
        NodeOp::Rename {
            old_name,
            new_name,
            ..
        } => renamed(
            alloc,
            lent.temps,
            seat,
            &at,
            old_name.as_slice(),
            new_name.as_slice(),
        ),
        _ => Ok(FileUpdate::Stay),
    }
}

/// A node at which a caller asks, and what the connection has by its number.
#[derive(Clone, Copy)]
struct At<'a> {
    /// The documents, the rights in them, and the applications.
    book: &'a ViewBook<'a>,
    /// The caller.
    who: &'a Who,
    /// The node.
    node: u64,
    /// What was named below a folder that is a document.
    naming: Option<&'a NamedPath>,
    /// The temporary.
    temp: Option<&'a Temp>,
}

/// The path at which a caller may see a file at a node.
fn file_seen<'a>(at: &At<'a>) -> Option<&'a HostPath>
    ensures { (s : State) → Lends at.now.book.now s → option_copied result
        ≡ path_of_file (place_of_node s at.now.who.now (option_copied at.now.naming)
        (option_copied at.now.temp) at.now.node) }
{
    match place_of(at.node)? {
        Place::File { view, id } => {
            Some(&seen_document(at.book, at.who, view, id)?.document.path)
        }
        Place::Named { view, .. } => Some(seen_naming(at.book, at.who, view, at.naming)?.path),
        Place::Temporary { view, .. } => {
            Some(&seen_temp(at.book, at.who, view, at.temp)?.file.path)
        }
        Place::Root { .. } | Place::ByApp | Place::Folder { .. } => None,
    }
}

/// The path of a folder that is a document, or of what lies below one, which a caller
/// sees at a node.
fn below_seen<'a>(at: &At<'a>) -> Option<&'a HostPath>
    ensures { (s : State) → Lends at.now.book.now s → option_copied result
        ≡ path_of_below (place_of_node s at.now.who.now (option_copied at.now.naming)
        (option_copied at.now.temp) at.now.node) }
{
    match place_of(at.node)? {
        Place::File { view, id } => {
            folder_path(seen_document(at.book, at.who, view, id)?.document)
        }
        Place::Named { view, .. } => Some(seen_naming(at.book, at.who, view, at.naming)?.path),
        Place::Root { .. } | Place::ByApp | Place::Folder { .. } | Place::Temporary { .. } => None,
    }
}

/// The path of a document that is a folder.
fn folder_path(document: &Document) -> Option<&HostPath>
    ensures { option_copied result ≡ cond document.now.folder (Some document.now.path) None }
{
    if document.folder {
        Some(&document.path)
    } else {
        None
    }
}

/// The document whose folder a caller sees at a node.
fn folder_seen<'a>(at: &At<'a>) -> Option<&'a Document>
    ensures { (s : State) (naming : Option Naming) (temp : Option TempOf) →
        Lends at.now.book.now s → option_copied result
        ≡ document_of_folder (place_of_node s at.now.who.now naming temp at.now.node) }
{
    match place_of(at.node)? {
        Place::Folder { view, id } => Some(seen_document(at.book, at.who, view, id)?.document),
        Place::Root { .. }
        | Place::ByApp
        | Place::File { .. }
        | Place::Named { .. }
        | Place::Temporary { .. } => None,
    }
}

/// A CREATE of a name, with the generation that a temporary was given.
fn made_in(
    alloc: Global,
    at: &At,
    name: &[u8],
    generation: Option<u64>,
    now: u64,
) -> Result<FileUpdate<'static>, WantOfMemory>
    ensures { IfOk result (λ update. (s : State) → Lends at.now.book.now s → change_of update
        ≡ made_in name.now generation
        (document_of_folder (place_of_node s at.now.who.now (option_copied at.now.naming)
        (option_copied at.now.temp) at.now.node))
        (path_of_below (place_of_node s at.now.who.now (option_copied at.now.naming)
        (option_copied at.now.temp) at.now.node)) now) }
{
    if let Some(document) = folder_seen(at) {
        return made_beside(alloc, document, name, generation, now);
    }
    match below_seen(at) {
        Some(folder) => Ok(created(child_path(alloc, folder, name)?, now)),
        None => Ok(FileUpdate::Stay),
    }
}

/// The same in the folder of a document: its own file, or a temporary.
fn made_beside(
    alloc: Global,
    document: &Document,
    name: &[u8],
    generation: Option<u64>,
    now: u64,
) -> Result<FileUpdate<'static>, WantOfMemory>
    ensures { IfOk result (λ update. (below : Option (Items ℕ)) → change_of update
        ≡ made_in name.now generation (Some document.now) below now) }
{
    let path = document.path.replica(alloc)?;
    if document.path.name() == name {
        return Ok(FileUpdate::Create { path, now });
    }
    match generation {
        Some(generation) => Ok(FileUpdate::Freshen {
            name: FileName { path, generation },
            now,
        }),
        None => Ok(FileUpdate::Stay),
    }
}

/// A RENAME in the folder of a document: it changes the files where a temporary gets
/// the document's own name.
fn renamed(
    alloc: Global,
    temps: &Temps,
    seat: u32,
    at: &At,
    old_name: &[u8],
    new_name: &[u8],
) -> Result<FileUpdate<'static>, WantOfMemory>
    ensures { IfOk result (λ update. (s : State) (own : Items OwnTemp) →
        Lends at.now.book.now s → temps_on temps.now.seats seat ≡ Some own → change_of update
        ≡ file_renamed old_name.now new_name.now own
        (view_of_folder (place_of_node s at.now.who.now (option_copied at.now.naming)
        (option_copied at.now.temp) at.now.node))
        (document_of_folder (place_of_node s at.now.who.now (option_copied at.now.naming)
        (option_copied at.now.temp) at.now.node))) }
{
    let Some(document) = folder_seen(at) else {
        return Ok(FileUpdate::Stay);
    };
    if document.path.name() != new_name {
        return Ok(FileUpdate::Stay);
    }
    match temp_called(temps, seat, folder_view(at.node), document.id, old_name) {
        Some(temp) => Ok(FileUpdate::Turn {
            name: temp.file.replica(alloc)?,
        }),
        None => Ok(FileUpdate::Stay),
    }
}

/// The view of the document's folder that a number names.
fn folder_view(node: u64) -> u32
    ensures { result ≡ view_in (place_named node) }
{
    match place_of(node) {
        Some(Place::Folder { view, .. }) => view,
        _ => 0,
    }
}

/// The first temporary of a connection that has this name in the folder of a document.
fn temp_called<'a>(
    temps: &'a Temps,
    seat: u32,
    view: u32,
    document: DocId,
    name: &[u8],
) -> Option<&'a Temp>
    ensures { (own : Items OwnTemp) → temps_on temps.now.seats seat ≡ Some own →
        option_copied result
        ≡ option_map (λ t. t.temp) (found_temp own view document name.now) }
{
    let k = temps.find(seat, view, document, name)?;
    temps.get(seat, k)
}

/// A WRITE of these bytes by an open handle: without bytes it changes nothing.
fn written<'a>(
    alloc: Global,
    handle: Option<&Handle>,
    offset: u64,
    content: &'a [u8],
    now: u64,
) -> Result<FileUpdate<'a>, WantOfMemory>
    ensures { IfOk result (λ update. change_of update
        ≡ file_written offset content.now (option_copied handle.entry) now) }
{
    if content.is_empty() {
        return Ok(FileUpdate::Stay);
    }
    match file_open(handle) {
        Some(name) => Ok(FileUpdate::Write {
            name: name.replica(alloc)?,
            offset,
            content,
            now,
        }),
        None => Ok(FileUpdate::Stay),
    }
}

/// A SETATTR by an open handle, or of the file that is seen: it changes the file
/// where it sets the length.
fn attributes_set(
    alloc: Global,
    valid: u32,
    size: u64,
    seen: Option<&HostPath>,
    handle: Option<&Handle>,
    looks: &[Look],
    now: u64,
) -> Result<FileUpdate<'static>, WantOfMemory>
    ensures { IfOk result (λ update. (sight : Option Sight) →
        option_copied seen.entry ≡ path_of_file sight → change_of update
        ≡ file_set valid size sight (option_copied handle.entry) looks.now now) }
{
    if sets_size(valid) {
        return length_set(alloc, valid, size, seen, handle, looks, now);
    }
    Ok(FileUpdate::Stay)
}

/// A SETATTR that sets the length.
fn length_set(
    alloc: Global,
    valid: u32,
    size: u64,
    seen: Option<&HostPath>,
    handle: Option<&Handle>,
    looks: &[Look],
    now: u64,
) -> Result<FileUpdate<'static>, WantOfMemory>
    ensures { IfOk result (λ update. change_of update
        ≡ resizes (cond (is_by_handle valid) (open_file (option_copied handle.entry))
        (file_shown_at (option_copied seen.entry) looks.now)) size now) }
{
    if sets_by_handle(valid) {
        return open_resized(alloc, handle, size, now);
    }
    shown_resized(alloc, seen, looks, size, now)
}

/// Says whether a SETATTR sets the length.
fn sets_size(valid: u32) -> bool
    ensures { result ≡ is_of_size valid }
{
    valid / FATTR_SIZE % 2 == 1
}

/// Says whether a SETATTR names an open handle.
fn sets_by_handle(valid: u32) -> bool
    ensures { result ≡ is_by_handle valid }
{
    valid / FATTR_FH % 2 == 1
}

/// A length for the file that a handle has open.
fn open_resized(
    alloc: Global,
    handle: Option<&Handle>,
    size: u64,
    now: u64,
) -> Result<FileUpdate<'static>, WantOfMemory>
    ensures { IfOk result (λ update. change_of update
        ≡ resizes (open_file (option_copied handle.entry)) size now) }
{
    match file_open(handle) {
        Some(name) => Ok(FileUpdate::Resize {
            name: name.replica(alloc)?,
            size,
            now,
        }),
        None => Ok(FileUpdate::Stay),
    }
}

/// An OPEN of the file that is seen, which it may cut to nothing.
fn opened(
    alloc: Global,
    flags: u32,
    seen: Option<&HostPath>,
    looks: &[Look],
    now: u64,
) -> Result<FileUpdate<'static>, WantOfMemory>
    ensures { IfOk result (λ update. (sight : Option Sight) →
        option_copied seen.entry ≡ path_of_file sight →
        change_of update ≡ file_opened flags sight looks.now now) }
{
    if truncates(flags) {
        return shown_resized(alloc, seen, looks, 0, now);
    }
    Ok(FileUpdate::Stay)
}

/// Says whether flags of open(2) cut a file to nothing.
fn truncates(flags: u32) -> bool
    ensures { result ≡ does_truncate flags }
{
    flags / O_TRUNC % 2 == 1
}

/// A CREATE of a file at a path, if any.
fn created(path: Option<HostPath>, now: u64) -> FileUpdate<'static>
    ensures { change_of result ≡ creates path now }
{
    match path {
        Some(path) => FileUpdate::Create { path, now },
        None => FileUpdate::Stay,
    }
}

/// A length for the file at a path, as the first look showed it.
fn shown_resized(
    alloc: Global,
    seen: Option<&HostPath>,
    looks: &[Look],
    size: u64,
    now: u64,
) -> Result<FileUpdate<'static>, WantOfMemory>
    ensures { IfOk result (λ update. change_of update
        ≡ resizes (file_shown_at (option_copied seen.entry) looks.now) size now) }
{
    match (seen, looks) {
        (Some(path), [Look::File { generation, .. }, ..]) => Ok(FileUpdate::Resize {
            name: FileName {
                path: path.replica(alloc)?,
                generation: *generation,
            },
            size,
            now,
        }),
        _ => Ok(FileUpdate::Stay),
    }
}

/// The file that a handle has open.
fn file_open(handle: Option<&Handle>) -> Option<&FileName>
    ensures { option_copied result ≡ open_file (option_copied handle.entry) }
{
    match handle {
        Some(Handle::File { name, .. }) => Some(name),
        _ => None,
    }
}

/// What is told of a change of a file, as that is afterwards, if anything.
pub fn file_item(
    alloc: Global,
    after: &TreeFiles,
    update: &FileUpdate,
) -> Result<Option<TraceItem>, WantOfMemory>
    ensures { IfOk result
        (λ item. told_if item ≡ map item_of (news_of (change_of update.now) after.now)) }
{
    match update {
        FileUpdate::Write { name, content, .. } => {
            if content.is_empty() {
                return Ok(None);
            }
            Ok(Some(bytes_item(alloc, after, &name.path, name.generation)?))
        }
        FileUpdate::Resize { name, .. } => {
            Ok(Some(bytes_item(alloc, after, &name.path, name.generation)?))
        }
        FileUpdate::Create { path, .. } => Ok(Some(bytes_item(alloc, after, path, 0)?)),
        FileUpdate::Turn { name } => Ok(Some(turned_item(alloc, after, name)?)),
        FileUpdate::Stay | FileUpdate::Freshen { .. } => Ok(None),
    }
}

/// That the file of a name has these bytes.
fn bytes_item(
    alloc: Global,
    after: &TreeFiles,
    path: &HostPath,
    generation: u64,
) -> Result<TraceItem, WantOfMemory>
    ensures { IfOk result (λ item. item_told item ∷ [] ≡ map item_of
        (told_alone (record { path = path.now; generation = generation }) after.now)) }
{
    let name = FileName {
        path: path.replica(alloc)?,
        generation,
    };
    match content_named(alloc, after, &name) {
        Ok(content) => Ok(TraceItem::Bytes {
            path: name.path,
            generation,
            content,
        }),
        Err(error) => Err(error),
    }
}

/// That the file of a name stands at its path.
fn turned_item(alloc: Global, after: &TreeFiles, name: &FileName) -> Result<TraceItem, WantOfMemory>
    ensures { IfOk result
        (λ item. item_told item ∷ [] ≡ map item_of (turned_alone name.now after.now)) }
{
    let content = content_named(alloc, after, name)?;
    Ok(TraceItem::Turned {
        path: name.path.replica(alloc)?,
        generation: name.generation,
        content,
    })
}

/// What the file of a name is.
fn content_named(alloc: Global, files: &TreeFiles, name: &FileName) -> Result<Content, WantOfMemory>
    ensures { IfOk result (λ content. content_told content
        ≡ content_of_name (all_held files.now) name.now) }
{
    match files.named(name) {
        Some(file) => file_content(alloc, file),
        None => Ok(Content::Missing { room: false }),
    }
}
