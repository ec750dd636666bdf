//! The bodies of requests, by the structs of `include/uapi/linux/fuse.h`. A
//! body of another form is answered `None`.

ghost use Rattle.std.specs.Prelude.{◌≡◌, ◌==◌, ◌*◌, ◌<◌, ◌≤◌, length, Some, IfOk};
ghost use Rattle.std.specs.List.{position};
ghost use Rattle.fuse_wire.specs.Asks.{sized, lookup_op, create_op, rename_op, rename2_op, unlink_op, write_op, batch_forget_op};
ghost use Rattle.fuse_wire.specs.Bodies.{access_in, access_in_len, flush_in, flush_in_len, forget_in, forget_in_len, forget_one, forget_one_len, forget_ones, fsync_in, fsync_in_len, getattr_in, getattr_in_len};
ghost use Rattle.fuse_wire.specs.Bodies.{is_name, name_of, names_at, names_of, open_in, open_in_len, read_in, read_in_len, release_in, release_in_len, setattr_in, setattr_in_len};
ghost use Rattle.portal_model.specs.declared.request.NodeOp.TheVariants as op;

use crate::frame::{behind, u32_at, u64_at};
use portal_base::list::{ByteList, List};
use portal_base::memory::WantOfMemory;
use portal_base::text::has_no_zero;
use portal_model::request::{ForgetItem, NodeOp};
use std::alloc::Global;

// The lengths of the structs.
const FORGET_IN_LEN: usize = 8;

const GETATTR_IN_LEN: usize = 16;

const SETATTR_IN_LEN: usize = 88;

const OPEN_IN_LEN: usize = 8;

const CREATE_IN_LEN: usize = 16;

const RENAME_IN_LEN: usize = 8;

const RENAME2_IN_LEN: usize = 16;

const RELEASE_IN_LEN: usize = 24;

const FLUSH_IN_LEN: usize = 24;

const READ_IN_LEN: usize = 40;

const WRITE_IN_LEN: usize = 40;

const FSYNC_IN_LEN: usize = 16;

const ACCESS_IN_LEN: usize = 8;

const BATCH_FORGET_IN_LEN: usize = 8;

const FORGET_ONE_LEN: usize = 16;

/// FUSE_LOOKUP: a name.
pub fn lookup(alloc: Global, body: &[u8]) -> Result<Option<NodeOp>, WantOfMemory>
    ensures { IfOk result (λ asked. asked ≡ lookup_op body.now) }
{
    match name_of(alloc, body)? {
        Some(name) => Ok(Some(NodeOp::Lookup { name })),
        None => Ok(None),
    }
}

/// FUSE_FORGET: a `fuse_forget_in`.
pub fn forget(body: &[u8]) -> Option<NodeOp>
    ensures { result ≡ sized forget_in_len body.now (op.Forget (forget_in body.now).nlookup) }
{
    if body.len() != FORGET_IN_LEN {
        return None;
    }
    Some(NodeOp::Forget {
        count: u64_at(body, 0),
    })
}

/// FUSE_BATCH_FORGET: a `fuse_batch_forget_in`, and as many nodes as it says.
pub fn batch_forget(alloc: Global, body: &[u8]) -> Result<Option<NodeOp>, WantOfMemory>
    ensures { IfOk result (λ asked. asked ≡ batch_forget_op body.now) }
{
    if body.len() < BATCH_FORGET_IN_LEN {
        return Ok(None);
    }
    let count = u32_at(body, 0) as usize;
    // The length has to be the one that the count says: a longer body is refused as a shorter one
    // is.
    if body.len() != BATCH_FORGET_IN_LEN + FORGET_ONE_LEN * count {
        return Ok(None);
    }
    let nodes = forget_ones(alloc, count, behind(body, BATCH_FORGET_IN_LEN))?;
    Ok(Some(NodeOp::BatchForget { nodes }))
}

/// So many of `fuse_forget_one`, one after another.
fn forget_ones(alloc: Global, count: usize, bytes: &[u8]) -> Result<List<ForgetItem>, WantOfMemory>
    requires { forget_one_len * count ≤ length bytes.now }
    ensures { IfOk result (λ nodes. nodes ≡ forget_ones count bytes.now) }
{
    let mut nodes = List::new(alloc);
    let mut rest = bytes;
    for done in 0..count {
        nodes.push(forget_one(rest))?;
        rest = behind(rest, FORGET_ONE_LEN);
    }
    Ok(nodes)
}

fn forget_one(bytes: &[u8]) -> ForgetItem
    requires { forget_one_len ≤ length bytes.now }
    ensures { result ≡ forget_one bytes.now }
{
    ForgetItem {
        node: u64_at(bytes, 0),
        count: u64_at(bytes, 8),
    }
}

/// FUSE_GETATTR: a `fuse_getattr_in`.
pub fn getattr(body: &[u8]) -> Option<NodeOp>
    ensures { result ≡ sized getattr_in_len body.now
        (op.GetAttr (getattr_in body.now).getattr_flags (getattr_in body.now).fh) }
{
    if body.len() != GETATTR_IN_LEN {
        return None;
    }
    Some(NodeOp::GetAttr {
        flags: u32_at(body, 0),
        fh: u64_at(body, 8),
    })
}

/// FUSE_SETATTR: a `fuse_setattr_in`.
pub fn setattr(body: &[u8]) -> Option<NodeOp>
    ensures { result ≡ sized setattr_in_len body.now
        (op.SetAttr (setattr_in body.now).valid (setattr_in body.now).fh
        (setattr_in body.now).size) }
{
    if body.len() != SETATTR_IN_LEN {
        return None;
    }
    // Fields that no answer depends on aren't looked at, whatever is in them.
    Some(NodeOp::SetAttr {
        valid: u32_at(body, 0),
        fh: u64_at(body, 8),
        size: u64_at(body, 16),
    })
}

/// FUSE_OPEN: a `fuse_open_in`.
pub fn open(body: &[u8]) -> Option<NodeOp>
    ensures { result ≡ sized open_in_len body.now (op.Open (open_in body.now).flags) }
{
    if body.len() != OPEN_IN_LEN {
        return None;
    }
    Some(NodeOp::Open {
        flags: u32_at(body, 0),
    })
}

/// FUSE_CREATE: a `fuse_create_in`, and a name.
pub fn create(alloc: Global, body: &[u8]) -> Result<Option<NodeOp>, WantOfMemory>
    ensures { IfOk result (λ asked. asked ≡ create_op body.now) }
{
    if body.len() < CREATE_IN_LEN {
        return Ok(None);
    }
    match name_of(alloc, behind(body, CREATE_IN_LEN))? {
        Some(name) => Ok(Some(NodeOp::Create {
            name,
            flags: u32_at(body, 0),
        })),
        None => Ok(None),
    }
}

/// FUSE_UNLINK: a name.
pub fn unlink(alloc: Global, body: &[u8]) -> Result<Option<NodeOp>, WantOfMemory>
    ensures { IfOk result (λ asked. asked ≡ unlink_op body.now) }
{
    match name_of(alloc, body)? {
        Some(name) => Ok(Some(NodeOp::Unlink { name })),
        None => Ok(None),
    }
}

/// FUSE_RENAME: a `fuse_rename_in`, and two names.
pub fn rename(alloc: Global, body: &[u8]) -> Result<Option<NodeOp>, WantOfMemory>
    ensures { IfOk result (λ asked. asked ≡ rename_op body.now) }
{
    if body.len() < RENAME_IN_LEN {
        return Ok(None);
    }
    match names_of(alloc, behind(body, RENAME_IN_LEN))? {
        Some(TwoNames { old, new }) => Ok(Some(NodeOp::Rename {
            new_parent: u64_at(body, 0),
            flags: 0,
            old_name: old,
            new_name: new,
        })),
        None => Ok(None),
    }
}

/// FUSE_RENAME2: a `fuse_rename2_in`, and two names.
pub fn rename2(alloc: Global, body: &[u8]) -> Result<Option<NodeOp>, WantOfMemory>
    ensures { IfOk result (λ asked. asked ≡ rename2_op body.now) }
{
    if body.len() < RENAME2_IN_LEN {
        return Ok(None);
    }
    match names_of(alloc, behind(body, RENAME2_IN_LEN))? {
        Some(TwoNames { old, new }) => Ok(Some(NodeOp::Rename {
            new_parent: u64_at(body, 0),
            flags: u32_at(body, 8),
            old_name: old,
            new_name: new,
        })),
        None => Ok(None),
    }
}

/// FUSE_READ: a `fuse_read_in`.
pub fn read(body: &[u8]) -> Option<NodeOp>
    ensures { result ≡ sized read_in_len body.now
        (op.Read (read_in body.now).fh (read_in body.now).offset (read_in body.now).size) }
{
    if body.len() != READ_IN_LEN {
        return None;
    }
    Some(NodeOp::Read {
        fh: u64_at(body, 0),
        offset: u64_at(body, 8),
        size: u32_at(body, 16),
    })
}

/// FUSE_WRITE: a `fuse_write_in`, and as many bytes as it says.
pub fn write(alloc: Global, body: &[u8]) -> Result<Option<NodeOp>, WantOfMemory>
    ensures { IfOk result (λ asked. asked ≡ write_op body.now) }
{
    if body.len() < WRITE_IN_LEN {
        return Ok(None);
    }
    let size = u32_at(body, 16) as usize;
    // As in FUSE_BATCH_FORGET, the length has to be the one that the size says.
    if body.len() != WRITE_IN_LEN + size {
        return Ok(None);
    }
    Ok(Some(NodeOp::Write {
        fh: u64_at(body, 0),
        offset: u64_at(body, 8),
        content: List::copied(alloc, behind(body, WRITE_IN_LEN))?,
    }))
}

/// FUSE_FLUSH: a `fuse_flush_in`.
pub fn flush(body: &[u8]) -> Option<NodeOp>
    ensures { result ≡ sized flush_in_len body.now (op.Flush (flush_in body.now).fh) }
{
    if body.len() != FLUSH_IN_LEN {
        return None;
    }
    Some(NodeOp::Flush {
        fh: u64_at(body, 0),
    })
}

/// FUSE_FSYNC: a `fuse_fsync_in`.
pub fn fsync(body: &[u8]) -> Option<NodeOp>
    ensures { result ≡ sized fsync_in_len body.now (op.Fsync (fsync_in body.now).fh) }
{
    if body.len() != FSYNC_IN_LEN {
        return None;
    }
    Some(NodeOp::Fsync {
        fh: u64_at(body, 0),
    })
}

/// FUSE_RELEASE: a `fuse_release_in`.
pub fn release(body: &[u8]) -> Option<NodeOp>
    ensures { result ≡ sized release_in_len body.now (op.Release (release_in body.now).fh) }
{
    if body.len() != RELEASE_IN_LEN {
        return None;
    }
    Some(NodeOp::Release {
        fh: u64_at(body, 0),
    })
}

/// FUSE_OPENDIR: a `fuse_open_in`.
pub fn opendir(body: &[u8]) -> Option<NodeOp>
    ensures { result ≡ sized open_in_len body.now op.OpenDir }
{
    if body.len() != OPEN_IN_LEN {
        return None;
    }
    Some(NodeOp::OpenDir)
}

/// FUSE_READDIR: a `fuse_read_in`.
pub fn readdir(body: &[u8]) -> Option<NodeOp>
    ensures { result ≡ sized read_in_len body.now
        (op.ReadDir (read_in body.now).fh (read_in body.now).offset (read_in body.now).size) }
{
    if body.len() != READ_IN_LEN {
        return None;
    }
    Some(NodeOp::ReadDir {
        fh: u64_at(body, 0),
        offset: u64_at(body, 8),
        size: u32_at(body, 16),
    })
}

/// FUSE_RELEASEDIR: a `fuse_release_in`.
pub fn releasedir(body: &[u8]) -> Option<NodeOp>
    ensures { result ≡ sized release_in_len body.now (op.ReleaseDir (release_in body.now).fh) }
{
    if body.len() != RELEASE_IN_LEN {
        return None;
    }
    Some(NodeOp::ReleaseDir {
        fh: u64_at(body, 0),
    })
}

/// FUSE_ACCESS: a `fuse_access_in`.
pub fn access(body: &[u8]) -> Option<NodeOp>
    ensures { result ≡ sized access_in_len body.now (op.Access (access_in body.now).mask) }
{
    if body.len() != ACCESS_IN_LEN {
        return None;
    }
    Some(NodeOp::Access {
        mask: u32_at(body, 0),
    })
}

/// A name without the zero byte that ends it.
fn name_of(alloc: Global, bytes: &[u8]) -> Result<Option<ByteList>, WantOfMemory>
    ensures { IfOk result (λ name. name ≡ name_of bytes.now) }
{
    if !is_name(bytes) {
        return Ok(None);
    }
    // A name is held without the zero byte that ends it.
    Ok(Some(List::copied(alloc, &bytes[..bytes.len() - 1])?))
}

fn is_name(bytes: &[u8]) -> bool
    ensures { result ≡ is_name bytes.now }
{
    if bytes.len() < 2 {
        return false;
    }
    let last = bytes.len() - 1;
    if bytes[last] != 0 {
        return false;
    }
    has_no_zero(&bytes[..last])
}

/// Two names, one behind the other.
#[derive(Drop)]
pub struct TwoNames {
    /// The first.
    pub old: ByteList,
    /// The second.
    pub new: ByteList,
}

/// Two names, each without the zero byte that ends it.
fn names_of(alloc: Global, bytes: &[u8]) -> Result<Option<TwoNames>, WantOfMemory>
    ensures { IfOk result (λ names. names ≡ names_of bytes.now) }
{
    match first_zero(bytes) {
        Some(end) => names_at(alloc, bytes, end),
        None => Ok(None),
    }
}

/// Two names, of which the first ends at a place.
fn names_at(alloc: Global, bytes: &[u8], end: usize) -> Result<Option<TwoNames>, WantOfMemory>
    requires { end < length bytes.now }
    ensures { IfOk result (λ names. names ≡ names_at bytes.now (Some end)) }
{
    if end == 0 {
        return Ok(None);
    }
    match name_of(alloc, behind(bytes, end + 1))? {
        Some(new) => Ok(Some(TwoNames {
            old: List::copied(alloc, &bytes[..end])?,
            new,
        })),
        None => Ok(None),
    }
}

/// Where the first zero byte stands.
fn first_zero(bytes: &[u8]) -> Option<usize>
    ensures { result ≡ position (λ b. b == 0) bytes.now }
{
    bytes.iter().position(|byte| *byte == 0)
}
