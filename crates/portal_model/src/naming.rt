//! Names below a folder that is a document.

use portal_base::memory::{Replica, WantOfMemory};
use portal_base::names::doc_id::DocId;
use portal_base::names::host_path::HostPath;
use std::alloc::Global;

// A number of a node holds no path: so what lies below an exported folder is numbered as a
// connection comes to name it, by a count of its own, which tells nothing of other connections.
/// What a connection named below the folder of a document. Its node's number is
/// that of its place among the connection's own, from 1.
#[derive(Drop)]
pub struct Naming {
    /// The view in which it was named.
    pub view: u32,
    /// The document's number.
    pub document: DocId,
    /// The path on the host.
    pub path: HostPath,
}

impl Replica for Naming {
    fn replica(&self, alloc: Global) -> Result<Naming, WantOfMemory> {
        Ok(Naming {
            view: self.view,
            document: self.document,
            path: self.path.replica(alloc)?,
        })
    }
}
