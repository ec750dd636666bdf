//! FUSE_READ: the bytes of an open file.

ghost use Rattle.std.specs.Prelude.{◌≡◌, [], ◌∷◌, IfOk, None, OnErr, not, option_copied};
ghost use Rattle.host_tree.specs.declared.tree.TreeCall.TheVariants as TreeCall;
ghost use Rattle.portal_model.specs.declared.reply.Answer.TheVariants as Answer;
ghost use Rattle.portal_model.specs.declared.reply.Code.TheVariants as Code;
ghost use Rattle.portal_model.specs.declared.request.NodeOp.TheVariants as NodeOp;
ghost use Rattle.portal_model.specs.Errno.{eacces, ebadf};
ghost use Rattle.portal_model.specs.NodeVerdict.{errs_if};
ghost use Rattle.portal_model.specs.Place.{reach_at};
ghost use Rattle.portal_model.specs.Read.{read, read_name, read_open};
ghost use Rattle.portal_model.specs.State.{State};
ghost use Rattle.app_view.specs.Books.{Lends};
ghost use Rattle.node_looks.specs.ReadFiles.{FindsAny};
ghost use Rattle.node_looks.specs.Done.{Does};
ghost use Rattle.app_view.specs.Opened.{file_of};
ghost use Rattle.node_looks.specs.TreeCalls.{Calling, WasCalledOnce, unfailed};

use crate::asked::{Asked, done, no_such_file, refusal, room_for_look, tree_failed};
use crate::listed::asks_too_much;
use crate::served::{FileBook, NodeCall, NodeDone};
use app_view::{OpenFile, ViewBook, allowed_now, open_file};
use host_tree::{HostTree, TreeRead};
use open_handles::{Handle, Handles};
use portal_base::files::FileName;
use portal_base::memory::WantOfMemory;
use portal_base::who::Who;
use portal_model::errno::{EACCES, EBADF, EINVAL};
use portal_model::reply::{Answer, NodeAnswer};
use std::alloc::Global;

/// Answers a caller's READ of at most `size` bytes from an offset on, of the open file
/// of a number: the bytes that are there. A number of no open file, or of one that
/// wasn't opened to be read, is EBADF.
///
/// Whatever has become of the document and of the rights in it, unless it is strict:
/// then it is EACCES where the subject of the node's view may not read the document
/// now, for which of n documents it takes about n steps. Where memory is wanting, the
/// tree was called once at most.
pub fn read<T: HostTree>(
    alloc: Global,
    book: &FileBook,
    handles: &Handles,
    tree: &mut T,
    call: &NodeCall,
    fh: u64,
    offset: u64,
    size: u32,
) -> Result<NodeDone, WantOfMemory>
    ensures ok { call.now.request.now.op ≡ NodeOp.Read fh offset size → IfOk result (λ done.
        Does book.now call.now handles.now (T.is tree.old) done handles.now (T.is tree.new)) }
    ensures unclocked { IfOk result (λ done. done.now ≡ None) }
    ensures err { OnErr result (WasCalledOnce (T.is tree.old) (T.is tree.new)) }
{
    let room = room_for_look(alloc)?;
    let handle = handles.get(call.seat, fh);
    let asked = content(&book.view, tree, call.who, handle, offset, size)?;
    Ok(done(room, asked))
}

/// The answer.
fn content<T: HostTree>(
    book: &ViewBook,
    tree: &mut T,
    who: &Who,
    handle: Option<&Handle>,
    offset: u64,
    size: u32,
) -> Result<Asked, WantOfMemory>
    ensures ok { IfOk result (λ asked. (s : State) → Lends book.now s → FindsAny size
        (λ bytes. read (reach_at s who.now) bytes offset size (option_copied handle.entry))
        (T.is tree.old) asked (T.is tree.new)) }
    ensures err { OnErr result (Calling (T.is tree.old) (unfailed TreeCall.Read ∷ [])
        (T.is tree.old).told (T.is tree.new)) }
{
    // More is refused and not cut short.
    if asks_too_much(size) {
        return Ok(refused(EINVAL));
    }
    match open_file(handle) {
        None => Ok(refused(EBADF)),
        Some(file) => content_of(book, tree, who, file, offset, size),
    }
}

/// A refusal for which the tree wasn't asked.
fn refused(errno: u32) -> Asked
    ensures { result ≡ record {
      answer = Answer.Refused (Code.Errno errno);
      look = None;
    } }
{
    Asked {
        answer: refusal(errno),
        look: None,
    }
}

/// The answer to a READ of an open file.
fn content_of<T: HostTree>(
    book: &ViewBook,
    tree: &mut T,
    who: &Who,
    file: OpenFile,
    offset: u64,
    size: u32,
) -> Result<Asked, WantOfMemory>
    ensures ok { IfOk result (λ asked. (s : State) → Lends book.now s → FindsAny size
        (λ bytes. read_open (reach_at s who.now) bytes offset size (file_of file.entry))
        (T.is tree.old) asked (T.is tree.new)) }
    ensures err { OnErr result (Calling (T.is tree.old) (unfailed TreeCall.Read ∷ [])
        (T.is tree.old).told (T.is tree.new)) }
{
    let allowed = allowed_now(book, who, file);
    content_where(file.read, allowed.read, tree, file.name, offset, size)
}

/// The answer to a READ of a file that was opened to be read or not, and may be read
/// now or not.
fn content_where<T: HostTree>(
    opened: bool,
    may_read: bool,
    tree: &mut T,
    name: &FileName,
    offset: u64,
    size: u32,
) -> Result<Asked, WantOfMemory>
    ensures ok { IfOk result (λ asked. FindsAny size (λ bytes. errs_if (not opened) ebadf
        (errs_if (not may_read) eacces (read_name bytes offset size name.now)))
        (T.is tree.old) asked (T.is tree.new)) }
    ensures err { OnErr result (Calling (T.is tree.old) (unfailed TreeCall.Read ∷ [])
        (T.is tree.old).told (T.is tree.new)) }
{
    if !opened {
        return Ok(refused(EBADF));
    }
    if !may_read {
        return Ok(refused(EACCES));
    }
    content_named(tree, name, offset, size)
}

/// The answer to a READ of a file.
fn content_named<T: HostTree>(
    tree: &mut T,
    name: &FileName,
    offset: u64,
    size: u32,
) -> Result<Asked, WantOfMemory>
    ensures ok { IfOk result (λ asked. FindsAny size
        (λ bytes. read_name bytes offset size name.now) (T.is tree.old) asked (T.is tree.new)) }
    ensures err { OnErr result (Calling (T.is tree.old) (unfailed TreeCall.Read ∷ [])
        (T.is tree.old).told (T.is tree.new)) }
{
    match tree.read(name, offset, size) {
        TreeRead::Got(bytes) => Ok(Asked {
            answer: Answer::Node(NodeAnswer::Content(bytes)),
            look: None,
        }),
        TreeRead::NotFile => Ok(no_such_file()),
        TreeRead::Failed => Ok(tree_failed()),
        TreeRead::Memory => Err(WantOfMemory),
    }
}
