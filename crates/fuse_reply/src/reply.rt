//! The frame that carries an answer.

ghost use Rattle.std.specs.Prelude.{◌≡◌, ◌++◌, ◌+◌, ◌≤◌, ◌%◌, ◌^◌, length, drop, vec_capacity, IfOk, IsOk, OnOk};
ghost use Rattle.byteorder.specs.Endian.{little_bytes};
ghost use Rattle.fuse_reply.specs.Fields.{spelled};
ghost use Rattle.fuse_reply.specs.Replies.{body_of, error_of, fuse_attr, fuse_attr_out, fuse_entry_out, fuse_kstatfs, fuse_open_out, fuse_out_header, header_len, init_rest, is_quiet, reply_of};
ghost use Rattle.fuse_reply.specs.Rooms.{HasRoom, TakesRoom};

use crate::dirent::{fitting_len, put_dirents};
use crate::field::{Field, put, put_bytes};
use byteorder::{ByteOrder, LittleEndian};
use portal_base::list::{ByteList, List};
use portal_base::memory::WantOfMemory;
use portal_model::reply::{Attr, NodeAnswer};
use std::alloc::Global;

// The lengths of the structs, in bytes.
const OUT_HEADER_LEN: usize = 16;

const ENTRY_OUT_LEN: usize = 128;

const ATTR_OUT_LEN: usize = 104;

const OPEN_OUT_LEN: usize = 16;

const WRITE_OUT_LEN: usize = 8;

const STATFS_OUT_LEN: usize = 80;

const INIT_OUT_LEN: usize = 64;

/// The size of a block of the file system, in bytes.
const BLOCK_SIZE: u32 = 4096;
/// The number of its blocks, all of which are free.
const BLOCKS: u64 = 1_073_741_824;
/// The number of its nodes, all of which are free.
const NODES: u64 = 1_048_576;
/// The length of the longest name, in bytes.
const NAME_LENGTH: u32 = 255;

/// The frame that answers the request of this number, or `None` where the
/// answer is quiet.
///
/// The frame is written in one buffer of its length.
pub fn write_reply(
    alloc: Global,
    unique: u64,
    answer: &NodeAnswer,
) -> Result<Option<ByteList>, WantOfMemory>
    ensures { IfOk result (λ frame. frame ≡ reply_of unique answer.now) }
{
    write_reply_in(Vec::new(alloc), unique, answer)
}

/// The same, in this buffer, whatever stands in it. Where it has room for the frame no memory is
/// wanted.
pub fn write_reply_in(
    buffer: Vec<u8>,
    unique: u64,
    answer: &NodeAnswer,
) -> Result<Option<ByteList>, WantOfMemory>
    ensures frame { IfOk result (λ frame. frame ≡ reply_of unique answer.now) }
    ensures room { header_len + length (body_of answer.now) ≤ vec_capacity buffer → IsOk result }
{
    if is_quiet(answer) {
        return Ok(None);
    }
    // So the bytes that were read are copied into it once.
    let mut frame = begun(buffer, error_of(answer), unique, body_len(answer))?;
    put_body(&mut frame, answer)?;
    Ok(Some(sealed(frame)))
}

/// Whether there is no frame.
pub fn is_quiet(answer: &NodeAnswer) -> bool
    ensures { result ≡ is_quiet answer.now }
{
    matches!(answer, NodeAnswer::Quiet)
}

/// The error that the header tells, negated; 0 is none.
fn error_of(answer: &NodeAnswer) -> u32
    ensures { result ≡ error_of answer.now }
{
    match answer {
        NodeAnswer::Error { errno } => errno.wrapping_neg(),
        _ => 0,
    }
}

/// The length of what stands behind the header, in bytes.
pub fn body_len(answer: &NodeAnswer) -> usize
    ensures { result ≡ length (body_of answer.now) }
{
    match answer {
        NodeAnswer::Entry(_) => ENTRY_OUT_LEN,
        NodeAnswer::Attr(_) => ATTR_OUT_LEN,
        NodeAnswer::Opened { .. } => OPEN_OUT_LEN,
        NodeAnswer::Created { .. } => ENTRY_OUT_LEN + OPEN_OUT_LEN,
        NodeAnswer::Content(content) => content.len(),
        NodeAnswer::Written { .. } => WRITE_OUT_LEN,
        NodeAnswer::Names {
            names,
            offset,
            size,
        } => fitting_len(names.as_slice(), *offset, *size),
        NodeAnswer::Empty | NodeAnswer::Quiet | NodeAnswer::Error { .. } => 0,
        NodeAnswer::Init { .. } => INIT_OUT_LEN,
        NodeAnswer::Statfs => STATFS_OUT_LEN,
    }
}

/// The buffer with room for a header and a body of this length. The header
/// alone stands in it, without the length of the frame.
fn begun(buffer: Vec<u8>, error: u32, unique: u64, body_len: usize) -> Result<Vec<u8>, WantOfMemory>
    ensures items { IfOk result (λ frame. frame.items ≡ spelled (fuse_out_header 0 error unique)) }
    ensures ok { header_len + body_len ≤ vec_capacity buffer → IsOk result }
    ensures room { IfOk result (λ frame. HasRoom frame body_len) }
{
    let mut frame = buffer;
    frame.clear();
    frame.reserve_exact(body_len.saturating_add(OUT_HEADER_LEN))?;
    let header = [Field::Four(0), Field::Four(error), Field::Eight(unique)];
    put(&mut frame, &header)?;
    Ok(frame)
}

/// The frame of a buffer: the length of the whole is written at its front.
fn sealed(mut frame: Vec<u8>) -> ByteList
    requires { 4 ≤ length frame.items }
    ensures { result ≡ little_bytes 4 (length frame.items % 2 ^ 32) ++ drop 4 frame.items }
{
    // The length is a number of 32 bits, so it is told exactly of a frame of less than 2^32 bytes.
    // No condition asks for that.
    let len = (frame.len() & 0xffff_ffff) as u32;
    LittleEndian::write_u32(&mut frame, len);
    List::from_vec(frame)
}

/// Puts the body of an answer at the end.
fn put_body(frame: &mut Vec<u8>, answer: &NodeAnswer) -> Result<(), WantOfMemory>
    ensures items { OnOk result (frame.new.items ≡ frame.old.items ++ body_of answer.now) }
    ensures room { HasRoom frame.old (length (body_of answer.now)) → IsOk result }
    ensures takes { TakesRoom frame.old (length (body_of answer.now)) frame.new }
{
    match answer {
        NodeAnswer::Entry(attr) => put_entry(frame, attr),
        NodeAnswer::Attr(attr) => put_attr_out(frame, attr),
        NodeAnswer::Opened { fh } => put_opened(frame, *fh),
        NodeAnswer::Created { attr, fh } => put_created(frame, attr, *fh),
        NodeAnswer::Content(content) => put_bytes(frame, content.as_slice()),
        NodeAnswer::Written { size } => put(frame, &[Field::Four(*size), Field::Four(0)]),
        NodeAnswer::Names {
            names,
            offset,
            size,
        } => put_dirents(frame, names.as_slice(), *offset, *size),
        NodeAnswer::Empty | NodeAnswer::Quiet | NodeAnswer::Error { .. } => Ok(()),
        NodeAnswer::Init {
            major,
            minor,
            readahead,
            flags,
            background,
            congestion,
            max_write,
            time_gran,
        } => {
            let versions = [
                Field::Four(*major),
                Field::Four(*minor),
                Field::Four(*readahead),
                Field::Four(*flags),
                Field::Two(*background),
                Field::Two(*congestion),
                Field::Four(*max_write),
                Field::Four(*time_gran),
            ];
            put(frame, &versions)?;
            put_init_rest(frame)
        }
        NodeAnswer::Statfs => put_statfs(frame),
    }
}

/// A `fuse_entry_out`.
fn put_entry(frame: &mut Vec<u8>, attr: &Attr) -> Result<(), WantOfMemory>
    ensures items { OnOk result (frame.new.items
        ≡ frame.old.items ++ spelled (fuse_entry_out attr.now)) }
    ensures room { HasRoom frame.old (length (spelled (fuse_entry_out attr.now))) → IsOk result }
    ensures takes { TakesRoom frame.old (length (spelled (fuse_entry_out attr.now))) frame.new }
{
    let fields = [
        Field::Eight(attr.node),
        Field::Eight(0),
        Field::Eight(0),
        Field::Eight(0),
        Field::Four(0),
        Field::Four(0),
    ];
    put(frame, &fields)?;
    put_attr(frame, attr)
}

/// A `fuse_entry_out` and a `fuse_open_out`.
fn put_created(frame: &mut Vec<u8>, attr: &Attr, fh: u64) -> Result<(), WantOfMemory>
    ensures items { OnOk result (frame.new.items ≡ frame.old.items
        ++ (spelled (fuse_entry_out attr.now) ++ spelled (fuse_open_out fh))) }
    ensures room { HasRoom frame.old (length (spelled (fuse_entry_out attr.now)
        ++ spelled (fuse_open_out fh))) → IsOk result }
    ensures takes { TakesRoom frame.old (length (spelled (fuse_entry_out attr.now)
        ++ spelled (fuse_open_out fh))) frame.new }
{
    put_entry(frame, attr)?;
    put_opened(frame, fh)
}

/// A `fuse_attr_out`.
fn put_attr_out(frame: &mut Vec<u8>, attr: &Attr) -> Result<(), WantOfMemory>
    ensures items { OnOk result (frame.new.items
        ≡ frame.old.items ++ spelled (fuse_attr_out attr.now)) }
    ensures room { HasRoom frame.old (length (spelled (fuse_attr_out attr.now))) → IsOk result }
    ensures takes { TakesRoom frame.old (length (spelled (fuse_attr_out attr.now))) frame.new }
{
    let fields = [Field::Eight(0), Field::Four(0), Field::Four(0)];
    put(frame, &fields)?;
    put_attr(frame, attr)
}

/// A `fuse_attr`.
fn put_attr(frame: &mut Vec<u8>, attr: &Attr) -> Result<(), WantOfMemory>
    ensures items { OnOk result (frame.new.items ≡ frame.old.items ++ spelled (fuse_attr attr.now)) }
    ensures room { HasRoom frame.old (length (spelled (fuse_attr attr.now))) → IsOk result }
    ensures takes { TakesRoom frame.old (length (spelled (fuse_attr attr.now))) frame.new }
{
    let fields = [
        Field::Eight(attr.node),
        Field::Eight(attr.size),
        Field::Eight(attr.blocks),
        Field::Eight(attr.moment),
        Field::Eight(attr.moment),
        Field::Eight(attr.moment),
        Field::Four(0),
        Field::Four(0),
        Field::Four(0),
        Field::Four(attr.mode),
        Field::Four(attr.links),
        Field::Four(attr.uid),
        Field::Four(attr.gid),
        Field::Four(0),
        Field::Four(attr.block_size),
        Field::Four(0),
    ];
    put(frame, &fields)
}

/// A `fuse_open_out`.
fn put_opened(frame: &mut Vec<u8>, fh: u64) -> Result<(), WantOfMemory>
    ensures items { OnOk result (frame.new.items ≡ frame.old.items ++ spelled (fuse_open_out fh)) }
    ensures room { HasRoom frame.old (length (spelled (fuse_open_out fh))) → IsOk result }
    ensures takes { TakesRoom frame.old (length (spelled (fuse_open_out fh))) frame.new }
{
    put(frame, &[Field::Eight(fh), Field::Four(0), Field::Four(0)])
}

/// A `fuse_kstatfs`.
fn put_statfs(frame: &mut Vec<u8>) -> Result<(), WantOfMemory>
    ensures items { OnOk result (frame.new.items ≡ frame.old.items ++ spelled fuse_kstatfs) }
    ensures room { HasRoom frame.old (length (spelled fuse_kstatfs)) → IsOk result }
    ensures takes { TakesRoom frame.old (length (spelled fuse_kstatfs)) frame.new }
{
    let fields = [
        Field::Eight(BLOCKS),
        Field::Eight(BLOCKS),
        Field::Eight(BLOCKS),
        Field::Eight(NODES),
        Field::Eight(NODES),
        Field::Four(BLOCK_SIZE),
        Field::Four(NAME_LENGTH),
        Field::Four(BLOCK_SIZE),
        Field::Four(0),
    ];
    put(frame, &fields)?;
    put(frame, &[Field::Four(0); 6])
}

/// What stands in a `fuse_init_out` behind `time_gran`: `max_pages`,
/// `map_alignment` and `unused`.
fn put_init_rest(frame: &mut Vec<u8>) -> Result<(), WantOfMemory>
    ensures items { OnOk result (frame.new.items ≡ frame.old.items ++ spelled init_rest) }
    ensures room { HasRoom frame.old (length (spelled init_rest)) → IsOk result }
    ensures takes { TakesRoom frame.old (length (spelled init_rest)) frame.new }
{
    put(frame, &[Field::Two(0), Field::Two(0)])?;
    put(frame, &[Field::Four(0); 8])
}
