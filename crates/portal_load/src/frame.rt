//! The frames of the load, by `include/uapi/linux/fuse.h`.

ghost use Rattle.std.specs.Prelude.{◌≡◌, ◌+◌, ◌<◌, ◌^◌, ◌++◌, length, IfOk, OnOk};
ghost use Rattle.fuse_reply.specs.Fields.{spelled};
ghost use Rattle.portal_load.specs.Frames.{body_of, frame_asked, frame_of, node_of, opcode_of, read_in};

use crate::draw::{Asked, Draw};
use fuse_reply::field::{Field, put, put_bytes};
use portal_base::list::{ByteList, List};
use portal_base::memory::WantOfMemory;
use portal_base::names::doc_id::DocId;
use std::alloc::Global;

/// The length of `fuse_in_header`, in bytes.
const HEADER_LEN: usize = 40;

/// The user that asks.
const UID: u32 = 1000;

/// The user's group.
const GID: u32 = 1000;

/// The process that asks.
const PID: u32 = 1;

/// The root of the mount.
const ROOT: u64 = 1;

/// The node of the file of document 0; the others follow.
const FIRST_FILE: u64 = 0x2_0000_0000;

/// `O_RDWR`.
const READ_WRITE: u32 = 2;

/// How much is read at once, in bytes.
const READ_SIZE: u32 = 4096;

/// How much is written at once, in bytes.
const WRITE_SIZE: u32 = 16;

/// What is written.
const WRITTEN: [u8; 16] = [0; 16];

/// The frame of a request.
pub(crate) fn frame_asked(alloc: Global, request: u32, draw: Draw) -> Result<ByteList, WantOfMemory>
    requires { draw.place < 1024 }
    ensures { IfOk result (λ frame. frame ≡ frame_asked request draw) }
{
    let body = body_of(alloc, draw)?;
    let node = node_of(draw.asked, draw.document);
    frame_of(alloc, opcode_of(draw.asked), request, node, body.as_slice())
}

/// A frame with this opcode, of this node and with this body.
fn frame_of(
    alloc: Global,
    opcode: u32,
    request: u32,
    node: u64,
    body: &[u8],
) -> Result<ByteList, WantOfMemory>
    requires { length body.now < 2 ^ 31 }
    ensures { IfOk result (λ frame. frame ≡ frame_of opcode request node body.now) }
{
    let len = HEADER_LEN + body.len();
    let mut frame = Vec::with_capacity(alloc, len)?;
    let header = [
        Field::Four(len as u32),
        Field::Four(opcode),
        Field::Eight(u64::from(request)),
        Field::Eight(node),
        Field::Four(UID),
        Field::Four(GID),
        Field::Four(PID),
        Field::Four(0),
    ];
    put(&mut frame, &header)?;
    put_bytes(&mut frame, body)?;
    Ok(List::from_vec(frame))
}

/// The opcode of what is asked.
fn opcode_of(asked: Asked) -> u32
    ensures { result ≡ opcode_of asked }
{
    match asked {
        Asked::Lookup => 1,
        Asked::GetAttr => 3,
        Asked::Open => 14,
        Asked::Read => 15,
        Asked::Write => 16,
        Asked::Release => 18,
        Asked::Rights => 0,
    }
}

/// The node that is asked of.
fn node_of(asked: Asked, document: u32) -> u64
    ensures { result ≡ node_of asked document }
{
    match asked {
        Asked::Lookup => ROOT,
        Asked::GetAttr | Asked::Open => FIRST_FILE + u64::from(document),
        // A frame that goes by a handle names no node, since the portal looks at none there.
        _ => 0,
    }
}

/// The body of the frame.
fn body_of(alloc: Global, draw: Draw) -> Result<Vec<u8>, WantOfMemory>
    requires { draw.place < 1024 }
    ensures body { IfOk result (λ body. body.items ≡ body_of draw.asked draw) }
    ensures short { IfOk result (λ body. length body.items < 2 ^ 31) }
{
    let mut body = Vec::new(alloc);
    let handle = u64::from(draw.place) + 1;
    match draw.asked {
        Asked::Lookup => {
            let document = DocId {
                number: draw.document,
            };
            put_bytes(&mut body, &document.text())?;
            put_bytes(&mut body, &[0])?;
        }
        Asked::GetAttr => put(
            &mut body,
            &[Field::Four(0), Field::Four(0), Field::Eight(0)],
        )?,
        Asked::Open => put(&mut body, &[Field::Four(READ_WRITE), Field::Four(0)])?,
        Asked::Read => put_read_in(&mut body, handle, 0, READ_SIZE)?,
        Asked::Write => {
            put_read_in(&mut body, handle, 4 * u64::from(draw.place), WRITE_SIZE)?;
            put_bytes(&mut body, &WRITTEN)?;
        }
        Asked::Release => {
            let fields = [
                Field::Eight(handle),
                Field::Four(0),
                Field::Four(0),
                Field::Eight(0),
            ];
            put(&mut body, &fields)?;
        }
        Asked::Rights => {}
    }
    Ok(body)
}

/// A `fuse_read_in`, which is a `fuse_write_in` too.
fn put_read_in(body: &mut Vec<u8>, handle: u64, offset: u64, size: u32) -> Result<(), WantOfMemory>
    ensures { OnOk result (body.new.items ≡ body.old.items ++ spelled
        (read_in handle offset size)) }
{
    let fields = [
        Field::Eight(handle),
        Field::Eight(offset),
        Field::Four(size),
        Field::Four(0),
        Field::Eight(0),
        Field::Four(0),
        Field::Four(0),
    ];
    put(body, &fields)
}
