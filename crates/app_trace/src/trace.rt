//! The trace of an application: what it asks, and what others change of what it
//! holds.

use crate::view::{AppView, Content, Holding};
use portal_base::list::List;
use portal_base::names::doc_id::DocId;
use portal_base::names::host_path::HostPath;
use portal_model::entry::Fault;
use portal_model::request::Request;
use portal_model::state::Document;
use rights_rule::Rights;

/// An item of a trace.
#[derive(Drop)]
pub enum TraceItem {
    /// A request of the application, and what the outside gave to it.
    Own {
        /// The seat that asked.
        seat: u32,
        /// What it asked.
        request: Request,
        /// The moment that was read from the clock, in seconds.
        now: Option<u64>,
        /// The numbers of the new documents.
        numbers: List<DocId>,
        /// Of an Add: what there is at each path that the tree was asked for.
        shown: List<Holding>,
        /// Of an Add that may use documents again: for each file that isn't
        /// left out the document that was there for it.
        reused: List<Option<DocId>>,
        /// How many looks at the tree succeeded.
        looks: u64,
        /// Whether a limit of documents or of applications was met.
        full: bool,
        /// The device that failed.
        fault: Fault,
        /// The generation of the file that was made to be renamed later.
        generation: Option<u64>,
    },
    /// Rights in a document were given to the application.
    Gained {
        /// The document.
        document: Document,
        /// The rights that it didn't have.
        rights: Rights,
        /// What there is for the document.
        holding: Holding,
    },
    /// Rights in a document were taken from the application.
    Lost {
        /// The document's number.
        id: DocId,
        /// The rights that it had.
        rights: Rights,
    },
    /// A document that the application held was removed.
    Gone {
        /// The document's number.
        id: DocId,
    },
    /// A file at a path of which the application's view tells was changed or made.
    Bytes {
        /// The path.
        path: HostPath,
        /// Which of the files that the path has had.
        generation: u64,
        /// What the file is now.
        content: Content,
    },
    /// A file that was made to be renamed later stands at a path of which the
    /// application's view tells, in place of the one that stood there.
    Turned {
        /// The path.
        path: HostPath,
        /// Which of the files that the path has had.
        generation: u64,
        /// What the file is.
        content: Content,
    },
}

/// What an application holds at first, and what then happens to it.
#[derive(Drop)]
pub struct Trace {
    /// What it holds of the state that the history begins in.
    pub opening: AppView,
    /// What happens, in order.
    pub items: List<TraceItem>,
}
