//! The items of the portal's lists, which the definitions speak of.

ghost use Rattle.std.specs.Prelude.{◌≡◌};
ghost use Rattle.portal_model.specs.Valid.{applications_limit};

use crate::naming::Naming;
use crate::reply::Change;
use crate::rights::Right;
use crate::temporary::OwnTemp;
pub use portal_base::files::File;
use portal_base::list::List;
use portal_base::memory::{Replica, WantOfMemory};
use portal_base::names::app_id::AppId;
use portal_base::names::doc_id::DocId;
use portal_base::names::host_path::HostPath;
use portal_base::who::{Kind, Who};
use std::alloc::Global;

/// The greatest number of applications that may be numbered.
pub const APPLICATIONS_LIMIT: u32 = 16_777_216;

/// The constant is the limit of the definitions.
///
/// It does nothing; its contract is the law.
pub fn applications_limit_is_told()
    ensures { APPLICATIONS_LIMIT ≡ applications_limit }
{}

/// A live document.
#[derive(Drop)]
pub struct Document {
    /// Its number.
    pub id: DocId,
    /// Its path on the host.
    pub path: HostPath,
    /// Whether it outlives the run.
    pub persistent: bool,
    /// Whether a later addition of the same path may use it.
    pub reusable: bool,
    /// Whether open handles of its file follow later revocations.
    pub strict: bool,
    /// Whether it is a folder.
    pub folder: bool,
}

// Triples stand in one order, by the document's number, the name and the right: so they don't
// depend on the way they came to be.
/// A right that an application has in a document.
#[derive(Drop)]
pub struct Triple {
    /// The application.
    pub app: AppId,
    /// The document's number.
    pub id: DocId,
    /// The right.
    pub right: Right,
}

/// An open connection.
#[derive(Drop)]
pub struct Connection {
    /// Its seat, from 1.
    pub seat: u32,
    /// Whom it is bound to.
    pub who: Who,
    /// What it speaks.
    pub kind: Kind,
    /// The presented files that wait.
    pub queue: List<HostPath>,
    /// The number of handles that were opened on it.
    pub opens: u64,
    /// The changes of the permission store that were not told yet.
    pub unsent: List<Change>,
    /// What was named on it below folders that are documents; naming k is the
    /// k-th.
    pub namings: List<Naming>,
    /// The temporaries that were made on it and are still there, in the order in
    /// which they were made.
    pub temps: List<OwnTemp>,
    /// The number of temporaries that were made on it.
    pub added: u32,
}

impl Replica for Document {
    fn replica(&self, alloc: Global) -> Result<Document, WantOfMemory> {
        Ok(Document {
            id: self.id,
            path: self.path.replica(alloc)?,
            persistent: self.persistent,
            reusable: self.reusable,
            strict: self.strict,
            folder: self.folder,
        })
    }
}

impl Replica for Triple {
    fn replica(&self, alloc: Global) -> Result<Triple, WantOfMemory> {
        Ok(Triple {
            app: self.app.replica(alloc)?,
            id: self.id,
            right: self.right,
        })
    }
}
