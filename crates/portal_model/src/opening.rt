//! The state that a portal opens with.

use crate::records::DocRecord;
use crate::store::StoredEntry;
use portal_base::limits::Limits;
use portal_base::list::{ByteList, List};
use portal_base::memory::{Replica, WantOfMemory};
use portal_base::names::app_id::AppId;
use portal_base::names::doc_id::DocId;
use std::alloc::Global;

/// A document that is live from the start.
#[derive(Drop)]
pub struct OpeningDocument {
    /// The document and the rights in it.
    pub kept: DocRecord,
    /// Whether it outlives the run.
    pub persistent: bool,
    /// Whether it is a folder.
    pub folder: bool,
}

/// A file of the tree that is there from the start.
#[derive(Drop)]
pub struct FileItem {
    /// Its path on the host.
    pub path: ByteList,
    /// Its bytes.
    pub content: ByteList,
    /// When it changed last, in seconds.
    pub moment: u64,
    /// Which of the files that the path has had.
    pub generation: u64,
    /// Whether it is the one that stands at the path.
    pub present: bool,
}

/// The last generation that was taken for a file of a path.
#[derive(Drop)]
pub struct TakenGeneration {
    /// The path on the host.
    pub path: ByteList,
    /// The generation, from 1.
    pub last: u64,
}

/// The state that a portal opens with.
#[derive(Drop)]
pub struct OpeningState {
    /// The limits.
    pub limits: Limits,
    /// The live documents, in order of addition.
    pub documents: List<OpeningDocument>,
    /// The numbers of all made documents.
    pub made: List<DocId>,
    /// The numbered applications; application k is the k-th.
    pub applications: List<AppId>,
    /// The entries of the permission store, in order of creation.
    pub entries: List<StoredEntry>,
    /// The files of the tree.
    pub files: List<FileItem>,
    /// The last generations taken, of which each path has one at most.
    pub taken: List<TakenGeneration>,
}

impl Replica for OpeningDocument {
    fn replica(&self, alloc: Global) -> Result<OpeningDocument, WantOfMemory> {
        Ok(OpeningDocument {
            kept: self.kept.replica(alloc)?,
            persistent: self.persistent,
            folder: self.folder,
        })
    }
}

impl Replica for FileItem {
    fn replica(&self, alloc: Global) -> Result<FileItem, WantOfMemory> {
        Ok(FileItem {
            path: self.path.replica(alloc)?,
            content: self.content.replica(alloc)?,
            moment: self.moment,
            generation: self.generation,
            present: self.present,
        })
    }
}

impl Replica for TakenGeneration {
    fn replica(&self, alloc: Global) -> Result<TakenGeneration, WantOfMemory> {
        Ok(TakenGeneration {
            path: self.path.replica(alloc)?,
            last: self.last,
        })
    }
}
