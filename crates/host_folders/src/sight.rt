//! What stands at a name, and which file it is.

use crate::error::TreeError;
use std::fs::{File, Metadata};
use std::os::unix::fs::MetadataExt;
use std::time::{Duration, UNIX_EPOCH};

/// Which file it is.
#[derive(Clone, Copy, PartialEq, Eq)]
pub struct Identity {
    /// The number of its device.
    pub device: u64,
    /// Its number on the device.
    pub inode: u64,
    /// When it was made, from 1970 on, where the file system tells.
    pub birth: Duration,
}

/// What stands somewhere.
#[derive(Clone, Copy, PartialEq, Eq)]
pub enum Kind {
    /// A folder.
    Folder,
    /// A regular file.
    File,
    /// A link, a pipe, a socket or a device.
    Other,
}

/// What the system shows of what stands somewhere.
#[derive(Clone, Copy, PartialEq, Eq)]
pub struct Sight {
    /// What it is.
    pub kind: Kind,
    /// Which.
    pub identity: Identity,
    /// Its length in bytes.
    pub size: u64,
    /// When it changed last, in seconds.
    pub moment: u64,
}

impl Sight {
    /// What is shown by this.
    pub fn of(metadata: &Metadata) -> Sight {
        let kind = if metadata.is_dir() {
            Kind::Folder
        } else if metadata.is_file() {
            Kind::File
        } else {
            Kind::Other
        };
        Sight {
            kind,
            identity: Identity {
                device: metadata.dev(),
                inode: metadata.ino(),
                birth: birth(metadata),
            },
            size: metadata.len(),
            moment: u64::try_from(metadata.mtime()).unwrap_or(0),
        }
    }

    /// Says whether it is this regular file.
    pub fn is_file(&self, identity: &Identity) -> bool {
        self.kind == Kind::File && self.identity == *identity
    }
}

/// When it was made, or none where that isn't told.
fn birth(metadata: &Metadata) -> Duration {
    let Ok(made) = metadata.created() else {
        return Duration::ZERO;
    };
    match made.duration_since(UNIX_EPOCH) {
        Ok(birth) => birth,
        Err(_) => Duration::ZERO,
    }
}

/// What the system shows of a file that is open.
pub fn seen(file: &File) -> Result<Sight, TreeError> {
    match file.metadata() {
        Ok(metadata) => Ok(Sight::of(&metadata)),
        Err(_) => Err(TreeError::System),
    }
}
