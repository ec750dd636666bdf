//! Requests for which the tree is asked once at most.

ghost use Rattle.std.specs.Prelude.{◌≡◌, IfOk, length, Some, None};
ghost use Rattle.portal_base.specs.declared.files.Look.TheVariants as Look;
ghost use Rattle.host_tree.specs.Trees.{TreeIs};
ghost use Rattle.host_tree.specs.declared.tree.LookAnswer.TheVariants as look;
ghost use Rattle.portal_model.specs.declared.reply.Answer.TheVariants as Answer;
ghost use Rattle.portal_model.specs.declared.reply.Code.TheVariants as Code;
ghost use Rattle.portal_model.specs.Errno.{eio, enoent};
ghost use Rattle.portal_model.specs.NodeVerdict.{errs, errs_on_file, told};
ghost use Rattle.node_looks.specs.Walks.{ComesToBehind, Follows, fault_of, look_of_attr, taken};

use crate::served::NodeDone;
use host_tree::{AttrAnswer, LookAnswer};
use portal_base::files::{FileName, Look};
use portal_base::list::List;
use portal_base::memory::WantOfMemory;
use portal_model::entry::Fault;
use portal_model::errno::{EIO, ENOENT};
use portal_model::reply::{Answer, Code, NodeAnswer};
use std::alloc::Global;

/// The answer to a request, and the look at the tree that was taken for it.
pub struct Asked {
    /// The answer.
    pub answer: Answer,
    /// What the tree answered, where it was asked.
    pub look: Option<LookAnswer>,
}

/// A refusal for which the tree wasn't asked.
pub fn refused(errno: u32) -> Asked
    ensures { (tree : TreeIs) → Follows (errs errno) tree result tree }
{
    Asked {
        answer: refusal(errno),
        look: None,
    }
}

/// An answer for which the tree wasn't asked.
pub fn told(answer: NodeAnswer) -> Asked
    ensures { (tree : TreeIs) → Follows (told answer) tree result tree }
{
    Asked {
        answer: Answer::Node(answer),
        look: None,
    }
}

/// A refusal by the number of an error.
pub fn refusal(errno: u32) -> Answer
    ensures { result ≡ Answer.Refused (Code.Errno errno) }
{
    Answer::Refused(Code::Errno(errno))
}

/// The refusal of a request on an open file that the tree no longer has, which the
/// call for it showed.
pub fn no_such_file() -> Asked
    ensures { result ≡ record {
      answer = Answer.Refused (Code.Errno enoent);
      look = Some (look.Is Look.Missing);
    } }
{
    Asked {
        answer: refusal(ENOENT),
        look: Some(LookAnswer::Is(Look::Missing)),
    }
}

/// The refusal of a request for which a call of the tree failed.
pub fn tree_failed() -> Asked
    ensures { result ≡ record {
      answer = Answer.Refused (Code.Errno eio);
      look = Some look.Failed;
    } }
{
    Asked {
        answer: refusal(EIO),
        look: Some(LookAnswer::Failed),
    }
}

/// The refusal of each request on a file, where there is one.
pub fn refusal_on_file(look: LookAnswer, errno: u32) -> Answer
    ensures { ComesToBehind (errs_on_file errno) look result }
{
    match look {
        LookAnswer::Is(Look::File { .. }) => refusal(errno),
        LookAnswer::Is(Look::Folder | Look::Missing) => refusal(ENOENT),
        LookAnswer::Failed => refusal(EIO),
    }
}

/// Room for the look of a request, which is taken before the tree is asked.
pub fn room_for_look(alloc: Global) -> Result<List<Look>, WantOfMemory>
    ensures { IfOk result (λ room. length room ≡ 1) }
{
    let mut room = List::new(alloc);
    room.push(Look::Missing)?;
    Ok(room)
}

/// What was done, with the look in the room that was taken for it.
pub fn done(room: List<Look>, asked: Asked) -> NodeDone
    requires { length room ≡ 1 }
    ensures { result ≡ record {
      answer = asked.answer;
      looks = taken asked.look;
      listed = None;
      now = None;
      generation = None;
      fault = fault_of asked.look;
    } }
{
    let Asked { answer, look } = asked;
    NodeDone {
        answer,
        looks: looks_in(room, look),
        listed: None,
        now: None,
        generation: None,
        fault: fault_of(look),
    }
}

/// What an open file's attributes show at its name.
pub fn look_of_attr(name: &FileName, answer: AttrAnswer) -> LookAnswer
    ensures { result ≡ look_of_attr name.now answer }
{
    match answer {
        AttrAnswer::Is { size, moment } => LookAnswer::Is(Look::File {
            generation: name.generation,
            size,
            moment,
        }),
        AttrAnswer::NotFile => LookAnswer::Is(Look::Missing),
        AttrAnswer::Failed => LookAnswer::Failed,
    }
}

/// The looks that were taken.
fn looks_in(mut room: List<Look>, look: Option<LookAnswer>) -> List<Look>
    requires { length room ≡ 1 }
    ensures { result ≡ taken look }
{
    match look {
        Some(answer) => looks_of(room, answer),
        None => {
            room.truncate(0);
            room
        }
    }
}

/// The look that was taken, unless it failed.
fn looks_of(mut room: List<Look>, answer: LookAnswer) -> List<Look>
    requires { length room ≡ 1 }
    ensures { result ≡ taken (Some answer) }
{
    match answer {
        LookAnswer::Is(shown) => room.set(0, shown),
        LookAnswer::Failed => room.truncate(0),
    }
    room
}

/// The device that failed.
fn fault_of(look: Option<LookAnswer>) -> Fault
    ensures { result ≡ fault_of look }
{
    match look {
        Some(LookAnswer::Failed) => Fault::Tree,
        Some(LookAnswer::Is(_)) | None => Fault::None,
    }
}
