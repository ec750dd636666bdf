//! Entries of the history: a request, and what the outside gave it.

use crate::request::Request;
use portal_base::files::{ChildName, Look};
use portal_base::list::List;
use portal_base::names::doc_id::DocId;

/// Which device failed in a request.
#[derive(Clone, Copy, Debug, PartialEq, Eq)]
pub enum Fault {
    /// None.
    None,
    /// The tree of files.
    Tree,
    /// The keeper of the records.
    Keeper,
}

/// What the outside gave to a request.
#[derive(Debug, Drop)]
pub struct Given {
    /// The moment that was read from the clock, in seconds.
    pub now: Option<u64>,
    /// The words that were drawn for new documents.
    pub words: List<u32>,
    /// The numbers of the new documents.
    pub numbers: List<DocId>,
    /// What the tree showed, in the order of its calls.
    pub looks: List<Look>,
    /// What the tree listed of a folder, in byte order of the names.
    pub listed: Option<List<ChildName>>,
    /// The generation of the file that was made to be renamed later.
    pub generation: Option<u64>,
    /// Whether a limit of documents or of applications was met.
    pub full: bool,
    /// The device that failed.
    pub fault: Fault,
}

/// One request of the history.
#[derive(Debug, Drop)]
pub struct Entry {
    /// The seat that asked.
    pub seat: u32,
    /// What it asked.
    pub request: Request,
    /// What the outside gave.
    pub given: Given,
}
