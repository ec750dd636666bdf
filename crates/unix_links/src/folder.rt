//! The folder of a service's sockets.

use crate::error::BindError;
use mio::net::UnixStream;
use std::fs::{DirBuilder, File, Permissions, TryLockError};
use std::io::ErrorKind;
use std::os::fd::AsRawFd;
use std::os::unix::fs::{DirBuilderExt, FileTypeExt, PermissionsExt};
use std::os::unix::net::{SocketAddr, UnixListener};
use std::{fs, io};

/// Only the owner may go into a folder that is made here.
const FOLDER_MODE: u32 = 0o700;

/// Only the owner may connect to a socket.
const SOCKET_MODE: u32 = 0o600;

/// The bits by which a folder's group or others may write in it.
const WRITE_OF_OTHERS: u32 = 0o022;

/// The folder in the folder of sockets in which they are made.
const HIDDEN: &str = ".docportal";

/// A folder of sockets that nobody else has taken.
///
/// Its sockets are made in a folder of mode 0700 inside it, where nobody may connect,
/// and are then put in their places, each in one step. It is taken for as long as this
/// lives: its lock (flock(2)) goes with the process too.
#[derive(Drop)]
pub struct SocketFolder {
    // It holds the lock.
    _folder: File,
    // Sockets are bound by way of this descriptor, so that the path of the folder doesn't count
    // among the 107 bytes of a socket's path.
    hidden: File,
    hidden_path: String,
}

impl SocketFolder {
    /// Takes the folder of a path, which is made with mode 0700 where it is missing.
    ///
    /// What a start left there that was killed is taken away. It is `Live` where another
    /// has taken the folder, and `Shared` where its group or others may write in it.
    pub fn take(system: &HostRuntime, path: &str) -> Result<SocketFolder, BindError> {
        make_folder(system, path)?;
        let folder = File::open(system, path)?;
        see_own(&folder)?;
        match folder.try_lock() {
            Ok(()) => {}
            Err(TryLockError::WouldBlock) => return Err(BindError::Live),
            Err(TryLockError::Error(error)) => return Err(BindError::System(error)),
        }
        let hidden_path = hidden_in(system, path)?;
        // Whoever takes the folder is alone here, so nobody's start goes on in there.
        match fs::remove_dir_all(system, hidden_path.as_str()) {
            Err(error) if error.kind() != ErrorKind::NotFound => {
                return Err(BindError::System(error));
            }
            _ => {}
        }
        new_folder(system, hidden_path.as_str())?;
        let hidden = File::open(system, hidden_path.as_str())?;
        Ok(SocketFolder {
            _folder: folder,
            hidden,
            hidden_path,
        })
    }

    /// A new socket that is to stand at a path, under a number of its own. It isn't there
    /// before `show`, and until then nobody can connect to it.
    ///
    /// It is `Live` where a service answers at the path, and `Occupied` where anything
    /// else than a socket is there. A path of more than 107 bytes is refused, since the
    /// system lets nobody connect by it.
    pub fn bind(
        &self,
        system: &HostRuntime,
        number: usize,
        path: &str,
    ) -> Result<UnixListener, BindError> {
        see_free(system, path)?;
        let hidden = self.place(system, number)?;
        let socket = UnixListener::bind(system, hidden.as_str())?;
        let mode = Permissions::from_mode(SOCKET_MODE);
        fs::set_permissions(system, hidden.as_str(), mode)?;
        Ok(socket)
    }

    /// Puts the socket of a number in its place, where it replaces a stale one.
    pub fn show(&self, system: &HostRuntime, number: usize, path: &str) -> io::Result<()> {
        let hidden = self.place(system, number)?;
        fs::rename(system, hidden.as_str(), path)
    }

    /// Takes the hidden folder away, with the sockets that weren't put in their places.
    pub fn clear(&self, system: &HostRuntime) {
        // Where that fails the next start takes it away.
        let _ = fs::remove_dir_all(system, self.hidden_path.as_str());
    }

    /// Where the socket of a number is made.
    fn place(&self, system: &HostRuntime, number: usize) -> io::Result<String> {
        let folder = self.hidden.as_raw_fd();
        Ok(format!(in system.alloc(); "/proc/self/fd/{folder}/{number}")?)
    }
}

/// The path of the hidden folder in a folder.
fn hidden_in(system: &HostRuntime, path: &str) -> io::Result<String> {
    Ok(format!(in system.alloc(); "{path}/{HIDDEN}")?)
}

/// Makes a folder where there is none.
fn make_folder(system: &HostRuntime, path: &str) -> io::Result<()> {
    match new_folder(system, path) {
        Err(error) if error.kind() == ErrorKind::AlreadyExists => Ok(()),
        answer => answer,
    }
}

/// Makes a folder of the owner alone.
fn new_folder(system: &HostRuntime, path: &str) -> io::Result<()> {
    let mut builder = DirBuilder::new();
    builder.mode(FOLDER_MODE);
    builder.create(system, path)
}

/// Refuses what is no folder, or one that others may write in.
fn see_own(folder: &File) -> Result<(), BindError> {
    let metadata = folder.metadata()?;
    if !metadata.is_dir() {
        return Err(BindError::System(io::Error::from(ErrorKind::NotADirectory)));
    }
    if metadata.permissions().mode() & WRITE_OF_OTHERS != 0 {
        return Err(BindError::Shared);
    }
    Ok(())
}

/// Refuses a path that is too long, or at which more stands than a stale socket: one to
/// which connections are refused, since the service that made it has ended.
fn see_free(system: &HostRuntime, path: &str) -> Result<(), BindError> {
    let address = SocketAddr::from_pathname(path)?;
    match fs::symlink_metadata(system, path) {
        Ok(metadata) if metadata.file_type().is_socket() => {}
        Ok(_) => return Err(BindError::Occupied),
        Err(error) if error.kind() == ErrorKind::NotFound => return Ok(()),
        Err(error) => return Err(BindError::System(error)),
    }
    // This connect doesn't wait: a service whose clients fill its queue would hold it up.
    match UnixStream::connect_addr(system, &address) {
        Ok(_) => Err(BindError::Live),
        Err(error) if error.kind() == ErrorKind::WouldBlock => Err(BindError::Live),
        Err(error) if error.kind() == ErrorKind::ConnectionRefused => Ok(()),
        Err(error) => Err(BindError::System(error)),
    }
}
