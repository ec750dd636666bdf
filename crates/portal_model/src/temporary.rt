//! Files that are made beside a document's file, to be renamed onto it.

use portal_base::files::FileName;
use portal_base::list::ByteList;
use portal_base::memory::{Replica, WantOfMemory};
use portal_base::names::doc_id::DocId;
use std::alloc::Global;

/// A file that a connection made in a document's folder under another name than
/// the document's. It is another file of the document's own path, which isn't
/// present there until it is renamed onto the document's name.
#[derive(Drop)]
pub struct Temp {
    /// The document's number.
    pub document: DocId,
    /// The view in which it was made.
    pub view: u32,
    /// Its name in the document's folder.
    pub name: ByteList,
    /// The file.
    pub file: FileName,
}

/// A temporary of a connection, by the number of its node.
#[derive(Drop)]
pub struct OwnTemp {
    /// Its number among those that the connection made, from 1.
    pub k: u32,
    /// The temporary.
    pub temp: Temp,
}

impl Replica for Temp {
    fn replica(&self, alloc: Global) -> Result<Temp, WantOfMemory> {
        Ok(Temp {
            document: self.document,
            view: self.view,
            name: self.name.replica(alloc)?,
            file: self.file.replica(alloc)?,
        })
    }
}

impl Replica for OwnTemp {
    fn replica(&self, alloc: Global) -> Result<OwnTemp, WantOfMemory> {
        Ok(OwnTemp {
            k: self.k,
            temp: self.temp.replica(alloc)?,
        })
    }
}
