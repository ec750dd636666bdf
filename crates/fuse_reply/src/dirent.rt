//! The entries of a folder, as FUSE_READDIR tells them.

ghost use Rattle.std.specs.Prelude.{◌≡◌, ◌++◌, ◌+◌, ◌<◌, ◌≤◌, ◌^◌, length, replicate, MatchOption, IfOk, IsOk, OnOk};
ghost use Rattle.fuse_reply.specs.Dirents.{dirent, dirents, dirent_size as size_of_dirent, fuse_dirent, name_offset, padding_of, type_of};
ghost use Rattle.fuse_reply.specs.Fields.{spelled};
ghost use Rattle.fuse_reply.specs.Rooms.{HasRoom, TakesRoom};

use crate::field::{Field, put, put_bytes};
use portal_base::list::{ByteList, List};
use portal_base::memory::WantOfMemory;
use portal_model::reply::DirName;
use std::alloc::Global;

/// The type of a folder, of dirent.h.
const DT_DIR: u32 = 4;
/// The type of a file.
const DT_REG: u32 = 8;

/// FUSE_NAME_OFFSET: the length of `fuse_dirent` ahead of the name.
const NAME_OFFSET: u64 = 24;
/// The length of an entry is a multiple of this.
const ALIGNMENT: u64 = 8;

/// The whole entries from a place on that fit into a size, in bytes.
pub fn fill_dirents(
    alloc: Global,
    names: &List<DirName>,
    offset: u64,
    size: u32,
) -> Result<ByteList, WantOfMemory>
    ensures { IfOk result (λ bytes. bytes ≡ dirents names.now offset size) }
{
    let mut bytes = Vec::with_capacity(alloc, fitting_len(names.as_slice(), offset, size))?;
    put_dirents(&mut bytes, names.as_slice(), offset, size)?;
    Ok(List::from_vec(bytes))
}

/// Puts the whole entries from a place on that fit into a size at the end.
pub fn put_dirents(
    bytes: &mut Vec<u8>,
    names: &[DirName],
    offset: u64,
    size: u32,
) -> Result<(), WantOfMemory>
    ensures items { OnOk result (bytes.new.items
        ≡ bytes.old.items ++ dirents names.now offset size) }
    ensures room { HasRoom bytes.old (length (dirents names.now offset size)) → IsOk result }
    ensures takes { TakesRoom bytes.old (length (dirents names.now offset size)) bytes.new }
{
    let mut left = size;
    for place in offset as usize..names.len() {
        let entry = &names[place];
        let Some(size) = fitting_size(entry.name.len(), left) else {
            return Ok(());
        };
        put_dirent(bytes, entry, place as u64 + 1)?;
        left -= size;
    }
    Ok(())
}

/// The length of the entries that `put_dirents` puts, in bytes.
pub fn fitting_len(names: &[DirName], offset: u64, size: u32) -> usize
    ensures { result ≡ length (dirents names.now offset size) }
{
    let mut left = size;
    for place in offset as usize..names.len() {
        // The first that doesn't fit ends the listing, also where a later one would fit: places
        // are told on from there.
        let Some(size) = fitting_size(names[place].name.len(), left) else {
            return (size - left) as usize;
        };
        left -= size;
    }
    (size - left) as usize
}

/// The length of an entry whose name has this length, where it is at most
/// `left`.
fn fitting_size(name_len: usize, left: u32) -> Option<u32>
    ensures { MatchOption result (left < size_of_dirent name_len)
        (λ size. (size ≡ size_of_dirent name_len) × (size ≤ left) × (name_len < 2 ^ 32)) }
{
    if name_len > left as usize {
        return None;
    }
    let size = dirent_size(name_len);
    if size > u64::from(left) {
        return None;
    }
    Some(size as u32)
}

/// Puts an entry at the end, whose off is this.
fn put_dirent(bytes: &mut Vec<u8>, entry: &DirName, off: u64) -> Result<(), WantOfMemory>
    requires { length entry.now.name < 2 ^ 32 }
    ensures items { OnOk result (bytes.new.items ≡ bytes.old.items ++ dirent entry.now off) }
    ensures room { HasRoom bytes.old (length (dirent entry.now off)) → IsOk result }
    ensures takes { TakesRoom bytes.old (length (dirent entry.now off)) bytes.new }
{
    put_head(bytes, entry, off)?;
    put_bytes(bytes, entry.name.as_slice())?;
    put_padding(bytes, entry.name.len())
}

/// Puts what stands ahead of an entry's name.
fn put_head(bytes: &mut Vec<u8>, entry: &DirName, off: u64) -> Result<(), WantOfMemory>
    requires { length entry.now.name < 2 ^ 32 }
    ensures items { OnOk result (bytes.new.items ≡ bytes.old.items
        ++ spelled (fuse_dirent entry.now off)) }
    ensures room { HasRoom bytes.old (length (spelled (fuse_dirent entry.now off))) → IsOk result }
    ensures takes { TakesRoom bytes.old (length (spelled (fuse_dirent entry.now off))) bytes.new }
{
    let fields = [
        Field::Eight(entry.node),
        Field::Eight(off),
        Field::Four(entry.name.len() as u32),
        Field::Four(type_of(entry.folder)),
    ];
    put(bytes, &fields)
}

fn type_of(folder: bool) -> u32
    ensures { result ≡ type_of folder }
{
    if folder { DT_DIR } else { DT_REG }
}

/// Puts the zeros behind a name of this length.
fn put_padding(bytes: &mut Vec<u8>, name_len: usize) -> Result<(), WantOfMemory>
    requires { name_len < 2 ^ 32 }
    ensures items { OnOk result (bytes.new.items ≡ bytes.old.items
        ++ replicate (padding_of name_len) 0) }
    ensures room { HasRoom bytes.old (padding_of name_len) → IsOk result }
    ensures takes { TakesRoom bytes.old (padding_of name_len) bytes.new }
{
    put_bytes(bytes, &[0; 7][..padding_len(name_len)])
}

/// How many zeros stand behind a name of this length.
fn padding_len(name_len: usize) -> usize
    requires { name_len < 2 ^ 32 }
    ensures value { result ≡ padding_of name_len }
    ensures small { result < 8 }
{
    (dirent_size(name_len) - (NAME_OFFSET + name_len as u64)) as usize
}

/// FUSE_DIRENT_SIZE: the length of an entry whose name has this length, which
/// is a multiple of eight.
fn dirent_size(name_len: usize) -> u64
    requires { name_len < 2 ^ 32 }
    ensures value { result ≡ size_of_dirent name_len }
    ensures least { name_offset + name_len ≤ result }
    ensures most { result < name_offset + 8 + name_len }
{
    (NAME_OFFSET + name_len as u64).div_ceil(ALIGNMENT) * ALIGNMENT
}
