//! The frames that answer a frame.

ghost use Rattle.std.specs.Prelude.{◌≡◌, ◌≤◌, IfOk, IsOk, option_to_list, vec_capacity};
ghost use Rattle.session.specs.Frames.{told_of, answer_frames, frames_of, refusal_errno};
ghost use Rattle.session.specs.Frames.{has_no_reply};
ghost use Rattle.session.specs.Rooms.{AreShort, frame_room};

use crate::room::{LONGEST_BODY, handed_out};
use fuse_reply::reply::{body_len, is_quiet, write_reply, write_reply_in};
use portal_base::list::ByteList;
use portal_base::memory::WantOfMemory;
use portal_model::errno::{ENOMEM, ENOSPC};
use portal_model::reply::{Answer, Code, NodeAnswer, Refused};
use portal_model::request::NodeOp;
use std::alloc::Global;

/// The frame that tells an answer to the request of this number, or `None`
/// where nothing is told.
pub fn answer_frame(
    alloc: Global,
    buffer: &mut Vec<u8>,
    unique: u64,
    answer: Answer,
) -> Result<Option<ByteList>, WantOfMemory>
    ensures frame { IfOk result (λ frame. option_to_list frame ≡ answer_frames unique answer) }
    ensures room { frame_room ≤ vec_capacity buffer.old → AreShort (answer_frames unique answer)
        → IsOk result }
{
    match told_of(answer) {
        Some(told) => told_frame(alloc, buffer, unique, &told),
        None => Ok(None),
    }
}

/// Says whether an operation has no reply, whatever becomes of it.
pub fn has_no_reply(op: &NodeOp) -> bool
    ensures { result ≡ has_no_reply op.now }
{
    matches!(op, NodeOp::Forget { .. } | NodeOp::BatchForget { .. })
}

/// The frame that tells that the request of this number, whose operation has a
/// reply, is no entry of the history.
pub fn refusal_frame(
    alloc: Global,
    buffer: &mut Vec<u8>,
    unique: u64,
    refused: Refused,
) -> Result<Option<ByteList>, WantOfMemory>
    ensures frame { IfOk result (λ frame. option_to_list frame
        ≡ frames_of unique (NodeAnswer.Error (refusal_errno refused))) }
    ensures room { frame_room ≤ vec_capacity buffer.old
        → AreShort (frames_of unique (NodeAnswer.Error (refusal_errno refused))) → IsOk result }
{
    let told = NodeAnswer::Error {
        errno: errno_of(refused),
    };
    told_frame(alloc, buffer, unique, &told)
}

/// The frame that tells this to the request of this number, or `None` where the
/// answer is quiet.
///
/// It is written in this buffer, which is handed out then. Where that has room for a frame no
/// memory is wanted for one that isn't longer.
pub fn told_frame(
    alloc: Global,
    buffer: &mut Vec<u8>,
    unique: u64,
    told: &NodeAnswer,
) -> Result<Option<ByteList>, WantOfMemory>
    ensures frame { IfOk result (λ frame. option_to_list frame ≡ frames_of unique told.now) }
    ensures room { frame_room ≤ vec_capacity buffer.old → AreShort (frames_of unique told.now)
        → IsOk result }
{
    if is_quiet(told) {
        return Ok(None);
    }
    // A longer frame comes in a buffer of its own, so this one stays for the next answer.
    if body_len(told) > LONGEST_BODY {
        return write_reply(alloc, unique, told);
    }
    write_reply_in(handed_out(alloc, buffer), unique, told)
}

fn errno_of(refused: Refused) -> u32
    ensures { result ≡ refusal_errno refused }
{
    match refused {
        Refused::Memory => ENOMEM,
        Refused::Full { .. } => ENOSPC,
    }
}

/// What a frame tells of an answer. No mount that is open meets an answer of
/// which nothing is told.
fn told_of(answer: Answer) -> Option<NodeAnswer>
    ensures { result ≡ told_of answer }
{
    match answer {
        Answer::Node(answer) => Some(answer),
        Answer::Refused(Code::Errno(errno)) => Some(NodeAnswer::Error { errno }),
        Answer::Refused(
            Code::InvalidArgs
            | Code::AccessDenied
            | Code::LimitsExceeded
            | Code::NotFound
            | Code::NotAllowed
            | Code::InvalidArgument
            | Code::Failed
            | Code::NotHere,
        ) => None,
        // An open mount never meets one of these, nor `NotHere`.
        Answer::Done
        | Answer::Place(_)
        | Answer::Ids(_)
        | Answer::Info { .. }
        | Answer::Listed(_)
        | Answer::Entry { .. }
        | Answer::Names(_) => None,
    }
}
