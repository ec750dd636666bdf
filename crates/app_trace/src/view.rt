//! What an application holds of a state of the portal.

use portal_base::files::{File, FileName};
use portal_base::list::{ByteList, List};
use portal_base::names::app_id::AppId;
use portal_base::names::host_path::HostPath;
use portal_base::who::Kind;
use portal_model::handle::Handle;
use portal_model::naming::Naming;
use portal_model::state::Document;
use portal_model::temporary::OwnTemp;
use rights_rule::Rights;

/// What the tree of files has at a path.
#[derive(Debug, Drop)]
pub enum Content {
    /// A file.
    File {
        /// Which of the files that the path has had.
        generation: u64,
        /// Its bytes.
        bytes: ByteList,
        /// When it changed last, in seconds.
        moment: u64,
    },
    /// A folder.
    Folder,
    /// Nothing.
    Missing {
        /// Whether a file may be made there, which is where the parent is a
        /// folder.
        room: bool,
    },
}

/// A document in which the application has a right.
#[derive(Drop)]
pub struct HeldDocument {
    /// The document.
    pub document: Document,
    /// The rights that the application has in it.
    pub rights: Rights,
}

/// An open handle of an own connection.
#[derive(Drop)]
pub struct OwnHandle {
    /// Its number, which no other handle of the connection ever has.
    pub fh: u64,
    /// What it stands for.
    pub handle: Handle,
}

/// A connection that is bound to the application.
#[derive(Drop)]
pub struct OwnConnection {
    /// Its seat.
    pub seat: u32,
    /// The application.
    pub app: AppId,
    /// What it speaks.
    pub kind: Kind,
    /// The presented files that wait.
    pub queue: List<HostPath>,
    /// How many handles were opened on it.
    pub opens: u64,
    /// What it has open, in order of opening.
    pub handles: List<OwnHandle>,
    /// What was named on it below folders that are documents; naming k is the
    /// k-th.
    pub namings: List<Naming>,
    /// The temporaries that were made on it and are still there, in the order in
    /// which they were made.
    pub temps: List<OwnTemp>,
    /// The number of temporaries that were made on it.
    pub added: u32,
}

/// What the tree has at a path that a document which is no folder or an open file
/// names.
#[derive(Drop)]
pub struct PathContent {
    /// The path.
    pub path: HostPath,
    /// What is there.
    pub content: Content,
}

/// What the tree has at and below the path of a document that is a folder.
#[derive(Drop)]
pub struct PathBelow {
    /// The path.
    pub path: HostPath,
    /// The files there, in byte order of their paths.
    pub files: List<File>,
}

/// A file that an open handle or a temporary names, be it the one that stands at its
/// path or another.
#[derive(Drop)]
pub struct NamedFile {
    /// Its name.
    pub name: FileName,
    /// Its bytes.
    pub bytes: ByteList,
    /// When it changed last, in seconds.
    pub moment: u64,
}

/// What there is for a document.
#[derive(Drop)]
pub enum Holding {
    /// What is at its path.
    Alone {
        /// What is there.
        content: Content,
    },
    /// The files at and below the path of one that is a folder.
    Below {
        /// In byte order of their paths.
        files: List<File>,
    },
}

/// What an application holds.
#[derive(Drop)]
pub struct AppView {
    /// The limit of the handles that a connection has open.
    pub handles: u64,
    /// The limit of the presented files that wait on a connection.
    pub queued: u64,
    /// The limit of a file's length, in bytes.
    pub file_bytes: u64,
    /// The documents in which it has a right, in rising order of their
    /// numbers.
    pub documents: List<HeldDocument>,
    /// Its connections, in the order in which they were opened.
    pub connections: List<OwnConnection>,
    /// What is at each path that a document which is no folder or an open file
    /// names, in byte order of the paths.
    pub contents: List<PathContent>,
    /// And at and below that of each document which is a folder, in byte order of
    /// these.
    pub below: List<PathBelow>,
    /// The files that are there of those that open handles and temporaries name, in
    /// byte order of their paths and then by their generations.
    pub files: List<NamedFile>,
}
