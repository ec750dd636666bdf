//! What a request on a node was given, and what it is answered.

use app_view::ViewBook;
use portal_base::files::{ChildName, Look};
use portal_base::list::List;
use portal_base::who::Who;
use portal_model::entry::Fault;
use portal_model::naming::Naming;
use portal_model::reply::Answer;
use portal_model::request::NodeRequest;
use portal_model::temporary::Temp;

/// What the portal lends to requests on nodes.
#[derive(Clone, Copy)]
pub struct FileBook<'a> {
    /// The lists that the file view is answered from.
    pub view: ViewBook<'a>,
    /// The greatest length of a file, in bytes.
    pub file_limit: u64,
}

/// A request on a node, and who asks it.
#[derive(Clone, Copy)]
pub struct NodeCall<'a> {
    /// The seat of the connection.
    pub seat: u32,
    /// Whom it is bound to.
    pub who: &'a Who,
    /// The request.
    pub request: &'a NodeRequest,
}

/// What the connection that asks has by the number in a node, whatever kind that is of.
#[derive(Clone, Copy)]
pub struct ByNumber<'a> {
    /// What it has named below folders that are documents.
    pub naming: Option<&'a Naming>,
    /// Its temporary.
    pub temp: Option<&'a Temp>,
}

/// A request on a node that was served.
#[derive(Debug, Drop)]
pub struct NodeDone {
    /// The answer.
    pub answer: Answer,
    /// What the tree showed, in the order of its calls.
    pub looks: List<Look>,
    /// The names of a folder, where it was listed and is there.
    pub listed: Option<List<ChildName>>,
    /// The moment that was read from the clock, where a file was to be changed
    /// or made.
    pub now: Option<u64>,
    /// The generation of the file that was made to be renamed later.
    pub generation: Option<u64>,
    /// The device that failed.
    pub fault: Fault,
}
