//! The names in a folder of the system.
//!
//! To look at a name takes longer than to read it. The system tells beside each name what it is
//! (getdents64(2)); but the call that reads names moves these to the front of the buffer, over
//! what was told of the first of them. What stands behind them is whole, and of a name that is
//! found there it is believed that it is a regular file's. Each other name is looked at, and so is
//! every name of a folder in which something is mounted, since what is told is of what lies below.

use host_folders::error::{TreeError, is_missing};
use host_folders::folder::Folder;
use host_folders::own::is_own;
use host_folders::sight::Kind;
use host_folders::way::Way;
use host_tree::names::FolderNames;
use std::alloc::Global;

/// The most bytes of names that are read at once.
const MOST_BYTES: usize = 8_192;

/// Where in what is told of a name its kind stands.
const KIND_AT: usize = 18;

/// Where the name itself stands, which a zero byte ends.
const NAME_AT: usize = 19;

/// What is told of a name has a multiple of so many bytes.
const STEP: usize = 8;

/// The kind of a regular file, `DT_REG`.
const REGULAR: u8 = 8;

/// The names of the files and folders in a folder that is open. What is neither has no
/// name here: a link, a pipe, a socket, a device, and what the kernel mounts as its own.
/// Nor has what has no name in UTF-8, or a name of the tree's own.
pub fn names(alloc: Global, way: &mut Way, folder: &Folder) -> Result<FolderNames, TreeError> {
    let mut names = FolderNames::new(alloc);
    let mut believes = false;
    for read in 0..u64::MAX {
        let mut buffer = [0u8; MOST_BYTES];
        let Ok(len) = folder.read_names(&mut buffer) else {
            return Err(TreeError::System);
        };
        if len == 0 {
            break;
        }
        // The few names of most folders are looked at sooner than all mounts are.
        if read == 1 {
            believes = !way.has_mounts_in(alloc, folder);
        }
        let told = Told {
            bytes: buffer.as_slice(),
            len,
            believes,
        };
        put_all(alloc, way, folder, &told, &mut names)?;
    }
    Ok(names)
}

/// The names that were read, and what is left of what the system told of them.
#[derive(Clone, Copy)]
struct Told<'a> {
    /// All bytes of the buffer, which had zero bytes alone ahead of the read.
    bytes: &'a [u8],
    /// How many bytes the names take at its front.
    len: usize,
    /// Whether what is told is believed.
    believes: bool,
}

impl<'a> Told<'a> {
    /// Says whether a name is told to be a regular file's where what is told of it stands, if the
    /// names haven't taken its place.
    fn is_regular(&self, at: usize, name: &[u8]) -> bool {
        if !self.believes || at < self.len {
            return false;
        }
        let Some(told) = self.bytes.get(at..) else {
            return false;
        };
        let Some(rest) = told.get(NAME_AT..) else {
            return false;
        };
        told.get(KIND_AT) == Some(&REGULAR)
            && rest.starts_with(name)
            && rest.get(name.len()) == Some(&0)
    }
}

/// How many bytes the system tells of a name.
fn told_of(name: &[u8]) -> usize {
    let least = name.len().saturating_add(NAME_AT + STEP);
    least - least % STEP
}

/// Puts the names that were read among others.
fn put_all(
    alloc: Global,
    way: &mut Way,
    folder: &Folder,
    told: &Told<'_>,
    names: &mut FolderNames,
) -> Result<(), TreeError> {
    let Some(read) = told.bytes.get(..told.len) else {
        return Err(TreeError::System);
    };
    let mut at = 0usize;
    for name in read.split(|byte| *byte == 0) {
        if is_shown(name) {
            if told.is_regular(at, name) {
                names.put(alloc, name, false)?;
            } else {
                put(alloc, way, folder, name, names)?;
            }
        }
        at = at.saturating_add(told_of(name));
    }
    Ok(())
}

/// Says whether it is a name that may be shown.
fn is_shown(name: &[u8]) -> bool {
    if matches!(name, b"" | b"." | b"..") {
        return false;
    }
    match str::from_utf8(name) {
        Ok(text) => !is_own(text),
        Err(_) => false,
    }
}

/// Puts a name among others, where a file or a folder stands there.
fn put(
    alloc: Global,
    way: &mut Way,
    folder: &Folder,
    name: &[u8],
    names: &mut FolderNames,
) -> Result<(), TreeError> {
    let Ok(text) = str::from_utf8(name) else {
        return Ok(());
    };
    let sight = match way.sight_in(folder, text) {
        Ok(sight) => sight,
        // It went since.
        Err(error) if is_missing(&error) => return Ok(()),
        Err(error) => return Err(TreeError::from(error)),
    };
    if way.is_kernels_own(sight.identity.device) {
        return Ok(());
    }
    match sight.kind {
        Kind::Folder => names.put(alloc, name, true)?,
        Kind::File => names.put(alloc, name, false)?,
        Kind::Other => {}
    }
    Ok(())
}
