//! Why a call gave nothing, and why no tree was opened.

use portal_base::memory::WantOfMemory;
use std::alloc::{AllocError, AllocFailed};
use std::io;
use std::io::ErrorKind;
use thiserror::Error;

/// The system's number for a special file that nobody serves.
const NO_DEVICE: i32 = 6;

/// Why no tree was opened.
#[derive(Debug, Drop, Error)]
pub enum OpenError {
    /// Nothing stands at the root, or no folder does.
    #[error("it is no folder")]
    NotFolder,
    /// The open files can't be reached by their numbers.
    #[error("/proc isn't mounted")]
    NoProc,
    /// The system gives no thread.
    #[error("there is no thread")]
    NoThread,
    /// The system doesn't show the root.
    #[error("{0}")]
    System(io::Error),
    /// There was no memory for the tree.
    #[error("there is no memory")]
    Memory,
}

impl From<AllocError> for OpenError {
    fn from(_error: AllocError) -> OpenError {
        OpenError::Memory
    }
}

impl<T: Drop> From<AllocFailed<T>> for OpenError {
    fn from(_error: AllocFailed<T>) -> OpenError {
        OpenError::Memory
    }
}

impl From<WantOfMemory> for OpenError {
    fn from(_error: WantOfMemory) -> OpenError {
        OpenError::Memory
    }
}

/// Why a call of a tree gave nothing.
#[derive(Clone, Copy, Debug, PartialEq, Eq, Error)]
pub enum TreeError {
    /// There is no such file.
    #[error("there is no such file")]
    NotFile,
    /// A fault of the system.
    #[error("the system failed")]
    System,
    /// There was no memory.
    #[error("there is no memory")]
    Memory,
}

impl From<AllocError> for TreeError {
    fn from(_error: AllocError) -> TreeError {
        TreeError::Memory
    }
}

impl From<WantOfMemory> for TreeError {
    fn from(_error: WantOfMemory) -> TreeError {
        TreeError::Memory
    }
}

/// A name at which nothing stands has no file.
impl From<io::Error> for TreeError {
    fn from(error: io::Error) -> TreeError {
        if is_missing(&error) {
            return TreeError::NotFile;
        }
        match error.kind() {
            ErrorKind::OutOfMemory => TreeError::Memory,
            _ => TreeError::System,
        }
    }
}

/// Says whether an error means that no file stands at a name: nothing is there, a file or
/// a link is in the way, what is there can't be opened by anybody, or no file can have
/// such a name.
pub fn is_missing(error: &io::Error) -> bool {
    // A name or a path that is too long for the system is one at which nothing stands.
    matches!(
        error.kind(),
        ErrorKind::NotFound | ErrorKind::NotADirectory | ErrorKind::InvalidFilename
    ) || matches!(error.raw_os_error(), Some(libc::ELOOP | NO_DEVICE))
}

/// Says whether the system refuses it to this process.
pub fn is_refused(error: &io::Error) -> bool {
    error.kind() == ErrorKind::PermissionDenied
}

/// Why a call on a file that is there gave nothing: there is one, so it isn't missing.
pub fn fault(kind: ErrorKind) -> TreeError {
    if kind == ErrorKind::OutOfMemory {
        TreeError::Memory
    } else {
        TreeError::System
    }
}
