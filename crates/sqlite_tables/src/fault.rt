//! Why a keeper in a database can't do what it is asked.

use portal_base::memory::WantOfMemory;
use sqlite::{Error, ErrorCode};
use std::alloc::{AllocError, AllocFailed};
use std::io::ErrorKind;
use thiserror::Error as ThisError;

/// Why the database can't be opened, read or changed.
#[derive(Clone, Copy, Debug, PartialEq, Eq, ThisError)]
pub enum DatabaseFault {
    /// There was no memory.
    #[error("no memory for the records")]
    Memory,
    /// SQLite refused or failed.
    #[error("the database of the records: {0}")]
    Sqlite(Error),
    /// A row of the database is no record.
    #[error("the database of the records has a row that is no record")]
    NoRecord,
    /// The database's file can't be made or read.
    #[error("the file of the records can't be used: {0}")]
    File(ErrorKind),
    /// What stands at the database's path is a folder, a device or the like, or a link to
    /// nothing.
    #[error("the path of the records leads to no regular file")]
    NoFile,
    /// The database's file has a second name, by which another may change it.
    #[error("the file of the records has a second name (a hard link)")]
    Linked,
    /// The file isn't empty, and holds something else than the tables of the records.
    #[error("the file of the records holds something else, and is left as it is")]
    Foreign,
}

/// What was met by a call of a keeper that answered `Failed`.
#[derive(Clone, Copy, Debug, PartialEq, Eq, ThisError)]
pub enum KeeperFault {
    /// The database couldn't be read or changed.
    #[error("{0}")]
    Database(DatabaseFault),
    /// A change has applications whose names don't rise in byte order, or one
    /// without a permission: the tables have no place for it.
    #[error("a change of the records has applications that can't be kept")]
    Unkept,
}

impl From<WantOfMemory> for DatabaseFault {
    fn from(_error: WantOfMemory) -> DatabaseFault {
        DatabaseFault::Memory
    }
}

impl From<AllocError> for DatabaseFault {
    fn from(_error: AllocError) -> DatabaseFault {
        DatabaseFault::Memory
    }
}

impl<T: Drop> From<AllocFailed<T>> for DatabaseFault {
    fn from(_error: AllocFailed<T>) -> DatabaseFault {
        DatabaseFault::Memory
    }
}

impl From<Error> for DatabaseFault {
    fn from(error: Error) -> DatabaseFault {
        match error {
            Error::SqliteFailure(ErrorCode::OutOfMemory) => DatabaseFault::Memory,
            other => DatabaseFault::Sqlite(other),
        }
    }
}
