//! Requests by a handle whose file is gone.

use crate::answers::put_answer;
use crate::given::{put_fault, put_seen};
use crate::nodes::node_request;
use app_view::ViewBook;
use document_records::{Applications, Documents, Grants};
use file_ops::{FileBook, LookRooms, NodeCall, serve_node};
use folder_documents::Namings;
use host_tree::MemoryTree;
use open_handles::{Handle, Handles};
use portal_base::files::FileName;
use portal_base::limits::Limits;
use portal_base::list::List;
use portal_base::names::{DocId, HostPath};
use portal_base::outside::SetClock;
use portal_base::who::Who;
use portal_model::request::NodeRequest;
use save_files::Temps;
use std::alloc::Global;
use vector_lines::error::LineError;
use vector_lines::notation::cut;
use vector_lines::output::Output;

/// The seat of the one connection.
const SEAT: u32 = 1;

/// One handle, and no document.
const LIMITS: Limits = Limits {
    documents: 0,
    made: 0,
    history: 0,
    handles: 1,
    queued: 0,
    file_bytes: 100,
};

/// `lost REQUEST`: what a request on a node is answered, and what the outside gave to it, on a
/// connection of the host that has the file of node 8589934602 open by the number 1, to read and
/// to write, where the tree has no file. A file may have 100 bytes.
pub fn lost(alloc: Global, out: &mut Output, rest: &str) -> Result<(), LineError> {
    let (word, rest) = cut(rest);
    let request = node_request(alloc, word, rest)?;
    let asked = put_asked(alloc, out, &request);
    drop(request);
    asked
}

fn put_asked(alloc: Global, out: &mut Output, request: &NodeRequest) -> Result<(), LineError> {
    let mut handles = Handles::new(alloc, &LIMITS);
    let mut namings = Namings::new(alloc);
    let mut temps = Temps::new(alloc);
    let asked = match put_file(alloc, &mut handles, &mut namings, &mut temps) {
        Ok(()) => put_asked_by(alloc, out, &mut handles, &mut namings, &mut temps, request),
        Err(error) => Err(error),
    };
    drop(temps);
    drop(namings);
    drop(handles);
    asked
}

/// A connection that has a file open which the tree has not.
fn put_file(
    alloc: Global,
    handles: &mut Handles,
    namings: &mut Namings,
    temps: &mut Temps,
) -> Result<(), LineError> {
    if handles.is_entered(SEAT) || namings.is_entered(SEAT) || temps.is_entered(SEAT) {
        return Err(LineError::BadLine);
    }
    handles.enter(SEAT)?;
    namings.enter(SEAT)?;
    temps.enter(SEAT)?;
    let file = file(alloc)?;
    if !handles.is_entered(SEAT) {
        drop(file);
        return Err(LineError::BadLine);
    }
    match handles.add(SEAT, file) {
        Ok(_) => Ok(()),
        Err(_) => Err(LineError::Memory),
    }
}

/// What is answered on that connection.
fn put_asked_by(
    alloc: Global,
    out: &mut Output,
    handles: &mut Handles,
    namings: &mut Namings,
    temps: &mut Temps,
    request: &NodeRequest,
) -> Result<(), LineError> {
    let documents = Documents::new(alloc, &LIMITS);
    let grants = Grants::new(alloc);
    let applications = Applications::new(alloc);
    let book = FileBook {
        view: ViewBook {
            documents: &documents,
            grants: &grants,
            applications: &applications,
        },
        file_limit: LIMITS.file_bytes,
    };
    put_served(alloc, out, &book, handles, namings, temps, request)
}

fn put_served(
    alloc: Global,
    out: &mut Output,
    book: &FileBook,
    handles: &mut Handles,
    namings: &mut Namings,
    temps: &mut Temps,
    request: &NodeRequest,
) -> Result<(), LineError> {
    if !handles.is_entered(SEAT) || !namings.is_entered(SEAT) || !temps.is_entered(SEAT) {
        return Err(LineError::BadLine);
    }
    let call = NodeCall {
        seat: SEAT,
        who: &Who::Host,
        request,
    };
    let mut tree = MemoryTree::new(alloc, List::new(alloc));
    let mut clock = SetClock::new(9);
    let mut rooms = LookRooms::new(alloc);
    let done = serve_node(
        alloc, &mut rooms, book, handles, namings, temps, &mut tree, &mut clock, &call,
    );
    drop(rooms);
    drop(tree);
    let done = done?;
    put_answer(out, &done.answer);
    put_seen(out, done.looks.len(), done.now);
    put_fault(out, done.fault);
    drop(done);
    Ok(())
}

/// A handle that reads and writes a file.
fn file(alloc: Global) -> Result<Handle, LineError> {
    Ok(Handle::File {
        name: FileName {
            path: HostPath::read(alloc, b"/home/b.txt".as_slice())?,
            generation: 0,
        },
        node: 8_589_934_602,
        document: DocId { number: 10 },
        strict: false,
        read: true,
        write: true,
    })
}
