//! Why a socket can't stand somewhere.

use std::io;
use thiserror::Error;

/// Why a folder of sockets can't be taken, or a socket not be made there.
#[derive(Debug, Drop, Error)]
pub enum BindError {
    /// A service has the folder, or answers at the path.
    #[error("a service is running there")]
    Live,
    /// What stands at the path is no socket.
    #[error("something else is there")]
    Occupied,
    /// The folder's group or others may write in it, and so take a socket's place.
    #[error("others may write in this folder: run chmod go-w on it")]
    Shared,
    /// The system refuses it.
    #[error("{0}")]
    System(#[from] io::Error),
}
