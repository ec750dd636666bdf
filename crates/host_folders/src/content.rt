//! The bytes of a file that is open.

ghost use Rattle.std.specs.Prelude.{◌≤◌, length, IfOk};

use crate::error::{TreeError, fault};
use portal_base::list::{ByteList, List};
use std::alloc::Global;
use std::fs::{File, FileTimes, Metadata, Permissions};
use std::io::{Seek, SeekFrom};
use std::os::unix::fs::{FileExt, MetadataExt, PermissionsExt, fchown};
use std::time::{Duration, UNIX_EPOCH};

/// The most bytes that room is made for ahead of reading them.
const MOST_AT_ONCE: usize = 131_072;

/// The most bytes that are copied at once.
const PIECE: u32 = 131_072;

/// The bits of a mode that say who may read, write and run a file.
const MODE_BITS: u32 = 0o777;

/// The bytes from an offset on, at most `size`.
pub fn read(alloc: Global, file: &File, offset: u64, size: u32) -> Result<ByteList, TreeError>
    ensures { IfOk result (λ bytes. length bytes ≤ size) }
{
    let size = size as usize;
    let mut bytes = Vec::new(alloc);
    let mut at = offset;
    // An offset that no file has lies behind the end.
    for _ in 0..u64::MAX {
        let len = bytes.len();
        if len >= size || i64::try_from(at).is_err() {
            break;
        }
        let got = read_more(file, &mut bytes, at, (size - len).min(MOST_AT_ONCE))?;
        if got == 0 {
            break;
        }
        at = at.saturating_add(got as u64);
    }
    bytes.truncate(size);
    Ok(List::from_vec(bytes))
}

/// Adds at most so many bytes from an offset on, and says how many.
fn read_more(
    file: &File,
    bytes: &mut Vec<u8>,
    offset: u64,
    most: usize,
) -> Result<usize, TreeError> {
    let len = bytes.len();
    let Some(room) = len.checked_add(most) else {
        return Err(TreeError::Memory);
    };
    bytes.resize(room, 0)?;
    let Some(part) = bytes.as_mut_slice().get_mut(len..) else {
        return Err(TreeError::System);
    };
    let answer = file.read_at(part, offset);
    let got = match answer {
        Ok(got) => got,
        Err(error) => return Err(fault(error.kind())),
    };
    bytes.truncate(len.saturating_add(got));
    Ok(got)
}

/// Writes over the bytes from an offset on. Where it fails in the midst, what it made
/// longer is cut back; bytes that it wrote over are lost.
pub fn write(file: &File, offset: u64, content: &[u8], now: u64) -> Result<(), TreeError> {
    let before = length_of(file)?;
    if let Err(error) = file.write_all_at(content, offset) {
        cut_back(file, before, offset.saturating_add(content.len() as u64));
        return Err(fault(error.kind()));
    }
    set_moment(file, now);
    Ok(())
}

/// The length of a file. A look at it would tell that too; but to a file whose moment was looked
/// at the system gives a finer one at each change, and has to write that to the disk.
fn length_of(file: &File) -> Result<u64, TreeError> {
    let mut file = file;
    match file.seek(SeekFrom::End(0)) {
        Ok(length) => Ok(length),
        Err(error) => Err(fault(error.kind())),
    }
}

/// Cuts a file back to the length that it had, where a write made it longer: one that ends
/// beyond the write was made longer by somebody else.
fn cut_back(file: &File, len: u64, end: u64) {
    if let Ok(after) = file.metadata() {
        if after.len() > len && after.len() <= end {
            let _ = file.set_len(len);
        }
    }
}

/// Cuts a file to a length, or fills it with zero bytes up to it.
pub fn set_len(file: &File, size: u64, now: u64) -> Result<(), TreeError> {
    if let Err(error) = file.set_len(size) {
        return Err(fault(error.kind()));
    }
    set_moment(file, now);
    Ok(())
}

/// Brings a file to rest.
pub fn sync(file: &File) -> Result<(), TreeError> {
    match file.sync_all() {
        Ok(()) => Ok(()),
        Err(error) => Err(fault(error.kind())),
    }
}

/// Gives a file the mode of another, and, where the system allows it, its owner, its group and when
/// it was read last. When it changed last stays its own.
pub fn set_like(file: &File, other: &Metadata) -> Result<(), TreeError> {
    // A member of a group may set that, and only root sets the owner. A new owner takes bits of the
    // mode away, so the mode comes behind it.
    let _ = fchown(file, None, Some(other.gid()));
    let _ = fchown(file, Some(other.uid()), None);
    // As a write does: what is new in the file doesn't run as its owner.
    let mode = Permissions::from_mode(other.mode() & MODE_BITS);
    if let Err(error) = file.set_permissions(mode) {
        return Err(fault(error.kind()));
    }
    if let Ok(accessed) = other.accessed() {
        let _ = file.set_times(FileTimes::new().set_accessed(accessed));
    }
    Ok(())
}

/// Copies the bytes of a file behind each other into another, which is empty, and all that is told
/// of it: who may use it, and when it was read and changed last.
pub fn copy(alloc: Global, from: &File, to: &File) -> Result<(), TreeError> {
    let metadata = match from.metadata() {
        Ok(metadata) => metadata,
        Err(error) => return Err(fault(error.kind())),
    };
    let mut at = 0u64;
    for _ in 0..u64::MAX {
        let bytes = read(alloc, from, at, PIECE)?;
        if bytes.len() == 0 {
            break;
        }
        if let Err(error) = to.write_all_at(bytes.as_slice(), at) {
            return Err(fault(error.kind()));
        }
        at = at.saturating_add(bytes.len() as u64);
    }
    set_like(to, &metadata)?;
    if let Ok(modified) = metadata.modified() {
        let _ = to.set_times(FileTimes::new().set_modified(modified));
    }
    Ok(())
}

/// Sets when a file changed last. Where the system refuses it, the moment stays
/// the one that the system itself gave to the change.
pub fn set_moment(file: &File, now: u64) {
    if let Some(moment) = UNIX_EPOCH.checked_add(Duration::from_secs(now)) {
        // Where the system refuses, as of a file of another owner, its own moment stays, and
        // nobody is told of a fault.
        let _ = file.set_times(FileTimes::new().set_modified(moment));
    }
}
