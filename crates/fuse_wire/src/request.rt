//! What a frame asks.

ghost use Rattle.std.specs.Prelude.{◌≡◌, length, IfOk};
ghost use Rattle.fuse_wire.specs.Asks.{IsFuse, ask_of, portal, quiet, local, asked_of, sized};
ghost use Rattle.fuse_wire.specs.Frames.{split_of};
ghost use Rattle.portal_base.specs.declared.split.Split.TheVariants.{Whole};
ghost use Rattle.portal_model.specs.declared.reply.NodeAnswer.TheVariants as answer;

use crate::body;
use crate::frame::{HEADER_LEN, InHeader, behind, header_of};
use crate::init::init;
use crate::opcode::{Opcode, opcode_of};
use portal_base::memory::WantOfMemory;
use portal_model::errno::{EINVAL, ENOSYS, EPERM};
use portal_model::reply::NodeAnswer;
use portal_model::request::{NodeOp, NodeRequest};
use std::alloc::Global;

/// What a frame asks, and who answers.
#[derive(Debug, Drop)]
pub enum FuseAsk {
    /// The portal answers this request.
    Portal(NodeRequest),
    /// This is answered without the portal.
    Local(NodeAnswer),
    /// Nothing is asked, and there is no reply.
    Ignore,
}

/// Says what a whole frame asks.
///
/// Fields that no answer depends on are not looked at. A body of another length
/// than its struct's, or a name of another form, is EINVAL, and of a
/// FUSE_FORGET or FUSE_BATCH_FORGET nothing.
pub fn read_request(alloc: Global, frame: &[u8]) -> Result<FuseAsk, WantOfMemory>
    requires { split_of frame.now ≡ Whole (length frame.now) }
    ensures { IfOk result (λ ask. ask ≡ ask_of frame.now) }
{
    let header = header_of(frame);
    let body = behind(frame, HEADER_LEN);
    asked_by(alloc, opcode_of(header.opcode), header, body)
}

/// Says what is asked with an opcode and a body.
fn asked_by(
    alloc: Global,
    opcode: Opcode,
    header: InHeader,
    body: &[u8],
) -> Result<FuseAsk, WantOfMemory>
    ensures { IfOk result (λ ask. ask ≡ IsFuse opcode header body.now) }
{
    match opcode {
        Opcode::Lookup => Ok(portal(header, body::lookup(alloc, body)?)),
        Opcode::Forget => Ok(quiet(header, body::forget(body))),
        Opcode::GetAttr => Ok(portal(header, body::getattr(body))),
        Opcode::SetAttr => Ok(portal(header, body::setattr(body))),
        Opcode::MkNod | Opcode::MkDir | Opcode::RmDir => Ok(refused(EPERM)),
        Opcode::Unlink => Ok(portal(header, body::unlink(alloc, body)?)),
        Opcode::Rename => Ok(portal(header, body::rename(alloc, body)?)),
        Opcode::Rename2 => Ok(portal(header, body::rename2(alloc, body)?)),
        Opcode::Open => Ok(portal(header, body::open(body))),
        Opcode::Read => Ok(portal(header, body::read(body))),
        Opcode::Write => Ok(portal(header, body::write(alloc, body)?)),
        Opcode::Statfs => Ok(local(statfs(body))),
        Opcode::Release => Ok(portal(header, body::release(body))),
        Opcode::Fsync => Ok(portal(header, body::fsync(body))),
        Opcode::Flush => Ok(portal(header, body::flush(body))),
        Opcode::Init => Ok(local(init(body))),
        Opcode::OpenDir => Ok(portal(header, body::opendir(body))),
        Opcode::ReadDir => Ok(portal(header, body::readdir(body))),
        Opcode::ReleaseDir => Ok(portal(header, body::releasedir(body))),
        Opcode::Access => Ok(portal(header, body::access(body))),
        Opcode::Create => Ok(portal(header, body::create(alloc, body)?)),
        Opcode::Interrupt => Ok(FuseAsk::Ignore),
        Opcode::Destroy => Ok(FuseAsk::Local(NodeAnswer::Empty)),
        Opcode::BatchForget => Ok(quiet(header, body::batch_forget(alloc, body)?)),
        Opcode::Other => Ok(refused(ENOSYS)),
    }
}

/// The portal answers this; where the body is of another form, an error says
/// so.
fn portal(header: InHeader, asked: Option<NodeOp>) -> FuseAsk
    ensures { result ≡ portal header asked }
{
    match asked {
        Some(op) => asked_of(header, op),
        None => refused(EINVAL),
    }
}

/// The portal takes note of this; where the body is of another form, nothing is
/// asked.
fn quiet(header: InHeader, asked: Option<NodeOp>) -> FuseAsk
    ensures { result ≡ quiet header asked }
{
    match asked {
        Some(op) => asked_of(header, op),
        None => FuseAsk::Ignore,
    }
}

/// This is answered without the portal; where the body is of another form, an
/// error says so.
fn local(told: Option<NodeAnswer>) -> FuseAsk
    ensures { result ≡ local told }
{
    match told {
        Some(told) => FuseAsk::Local(told),
        None => refused(EINVAL),
    }
}

/// The request of the portal, of the header's node and for its user.
fn asked_of(header: InHeader, op: NodeOp) -> FuseAsk
    ensures { result ≡ asked_of header op }
{
    FuseAsk::Portal(NodeRequest {
        node: header.nodeid,
        uid: header.uid,
        gid: header.gid,
        op,
    })
}

fn refused(errno: u32) -> FuseAsk
    ensures { result ≡ FuseAsk.Local (answer.Error errno) }
{
    FuseAsk::Local(NodeAnswer::Error { errno })
}

/// FUSE_STATFS has no body.
fn statfs(body: &[u8]) -> Option<NodeAnswer>
    ensures { result ≡ sized 0 body.now answer.Statfs }
{
    if !body.is_empty() {
        return None;
    }
    Some(NodeAnswer::Statfs)
}
