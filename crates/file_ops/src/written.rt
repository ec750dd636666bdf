//! FUSE_WRITE: bytes over those of an open file.

ghost use Rattle.std.specs.Prelude.{◌≡◌, ℕ, ◌+◌, ◌≤◌, IfOk, OnErr, length, nat_lt, not, option_copied};
ghost use Rattle.open_handles.specs.Opened.{HandleTable, handle_of, opened_on};
ghost use Rattle.portal_model.specs.declared.request.NodeOp.TheVariants as NodeOp;
ghost use Rattle.portal_model.specs.Errno.{eacces, ebadf};
ghost use Rattle.portal_model.specs.NodeVerdict.{HandlesStay, errs_if};
ghost use Rattle.portal_model.specs.Place.{reach_at};
ghost use Rattle.portal_model.specs.State.{State};
ghost use Rattle.portal_model.specs.Write.{write, write_content, write_name, write_open};
ghost use Rattle.app_view.specs.Books.{Lends};
ghost use Rattle.node_looks.specs.Done.{Does, MayRead, Reads};
ghost use Rattle.app_view.specs.Opened.{file_of};
ghost use Rattle.node_looks.specs.TreeCalls.{WasCalledUpTo};
ghost use Rattle.file_ops.specs.Tries.{Goes, done_of_ended, moment_of};

use crate::tried::{Ended, Tried, came_of, room_for_looks};
use app_view::{OpenFile, allowed_now, open_file};
use host_tree::HostTree;
use node_looks::served::{FileBook, NodeCall, NodeDone};
use portal_base::files::FileName;
use portal_base::memory::WantOfMemory;
use portal_base::outside::Clock;
use portal_base::who::Who;
use portal_model::errno::{EACCES, EBADF, EFBIG, EINVAL};
use portal_model::handle::Handle;
use portal_model::reply::NodeAnswer;
use std::alloc::Global;

/// The most that is written at once, in bytes.
const WRITE_LIMIT: usize = 131_072;

/// Answers a WRITE of bytes from an offset on, by the open handle of its number. A
/// number of no file that was opened to be written is EBADF.
///
/// Whatever has become of the document and of the rights in it, unless it is strict:
/// then it is EACCES where the subject of the node's view may not read and write the
/// document now, for which of n documents it takes about n steps. It takes one call of
/// the tree, and for that the moment of now. Where memory is wanting the tree was called
/// once at most, and no file has changed.
pub fn write<T: HostTree, C: Clock>(
    alloc: Global,
    book: &FileBook,
    tree: &mut T,
    clock: &mut C,
    call: &NodeCall,
    handle: Option<&Handle>,
    offset: u64,
    content: &[u8],
) -> Result<NodeDone, WantOfMemory>
    ensures ok { (table : HandleTable) (fh : ℕ) →
        handle_of (opened_on table.seats call.now.seat) fh ≡ option_copied handle.entry →
        call.now.request.now.op ≡ NodeOp.Write fh offset content.now → IfOk result (λ done.
        Does book.now call.now table (T.is tree.old) done table (T.is tree.new)) }
    ensures clock { IfOk result (λ done. Reads C.reads clock.old done.now clock.new) }
    ensures err { OnErr result (WasCalledUpTo 1 (T.is tree.old) (T.is tree.new)) }
    ensures clock_err { OnErr result (MayRead C.reads clock.old clock.new) }
{
    let room = room_for_looks(alloc)?;
    let ended = written(book, tree, clock, call.who, handle, offset, content)?;
    Ok(Tried::unlooked(ended).done(room))
}

/// How the request ends.
fn written<T: HostTree, C: Clock>(
    book: &FileBook,
    tree: &mut T,
    clock: &mut C,
    who: &Who,
    handle: Option<&Handle>,
    offset: u64,
    content: &[u8],
) -> Result<Ended, WantOfMemory>
    ensures ok { IfOk result (λ ended. (s : State) → Lends book.now.view s → Goes
        (write (reach_at s who.now) book.now.file_limit offset content.now
        (option_copied handle.entry)) (T.is tree.old) (done_of_ended ended) HandlesStay
        (T.is tree.new)) }
    ensures clock { IfOk result (λ ended. Reads C.reads clock.old
        (moment_of ended.call) clock.new) }
    ensures err { OnErr result (WasCalledUpTo 1 (T.is tree.old) (T.is tree.new)) }
    ensures clock_err { OnErr result (MayRead C.reads clock.old clock.new) }
{
    // More than INIT's `max_write` is refused and not cut short.
    if content.len() > WRITE_LIMIT {
        return Ok(Ended::refused(EINVAL));
    }
    match open_file(handle) {
        Some(file) => write_open(book, tree, clock, who, file, offset, content),
        None => Ok(Ended::refused(EBADF)),
    }
}

/// How the request ends on an open file.
fn write_open<T: HostTree, C: Clock>(
    book: &FileBook,
    tree: &mut T,
    clock: &mut C,
    who: &Who,
    file: OpenFile,
    offset: u64,
    content: &[u8],
) -> Result<Ended, WantOfMemory>
    requires { length content.now ≤ 131072 }
    ensures ok { IfOk result (λ ended. (s : State) → Lends book.now.view s → Goes
        (write_open (reach_at s who.now) book.now.file_limit offset content.now
        (file_of file.entry)) (T.is tree.old) (done_of_ended ended) HandlesStay (T.is tree.new)) }
    ensures clock { IfOk result (λ ended. Reads C.reads clock.old
        (moment_of ended.call) clock.new) }
    ensures err { OnErr result (WasCalledUpTo 1 (T.is tree.old) (T.is tree.new)) }
    ensures clock_err { OnErr result (MayRead C.reads clock.old clock.new) }
{
    let allowed = allowed_now(&book.view, who, file);
    write_where(
        file.write,
        allowed.write,
        tree,
        clock,
        file.name,
        book.file_limit,
        offset,
        content,
    )
}

/// How the request ends on a file that was opened to be written or not, and may be
/// written now or not.
fn write_where<T: HostTree, C: Clock>(
    opened: bool,
    may_write: bool,
    tree: &mut T,
    clock: &mut C,
    name: &FileName,
    file_limit: u64,
    offset: u64,
    content: &[u8],
) -> Result<Ended, WantOfMemory>
    requires { length content.now ≤ 131072 }
    ensures ok { IfOk result (λ ended. Goes (errs_if (not opened) ebadf
        (errs_if (not may_write) eacces (write_content file_limit name.now offset content.now)))
        (T.is tree.old) (done_of_ended ended) HandlesStay (T.is tree.new)) }
    ensures clock { IfOk result (λ ended. Reads C.reads clock.old
        (moment_of ended.call) clock.new) }
    ensures err { OnErr result (WasCalledUpTo 1 (T.is tree.old) (T.is tree.new)) }
    ensures clock_err { OnErr result (MayRead C.reads clock.old clock.new) }
{
    if !opened {
        return Ok(Ended::refused(EBADF));
    }
    if !may_write {
        return Ok(Ended::refused(EACCES));
    }
    if content.is_empty() {
        return Ok(Ended::told(NodeAnswer::Written { size: 0 }));
    }
    write_named(tree, clock, name, file_limit, offset, content)
}

/// How a request with bytes ends on a file that may be written.
fn write_named<T: HostTree, C: Clock>(
    tree: &mut T,
    clock: &mut C,
    name: &FileName,
    file_limit: u64,
    offset: u64,
    content: &[u8],
) -> Result<Ended, WantOfMemory>
    requires { length content.now ≤ 131072 }
    ensures ok { IfOk result (λ ended.
        Goes (write_name file_limit name.now offset content.now) (T.is tree.old)
        (done_of_ended ended) HandlesStay (T.is tree.new)) }
    ensures clock { IfOk result (λ ended. Reads C.reads clock.old
        (moment_of ended.call) clock.new) }
    ensures err { OnErr result (WasCalledUpTo 1 (T.is tree.old) (T.is tree.new)) }
    ensures clock_err { OnErr result (MayRead C.reads clock.old clock.new) }
{
    if is_past(file_limit, offset, content.len()) {
        return Ok(Ended::refused(EFBIG));
    }
    let now = clock.now();
    let came = came_of(tree.write(name, offset, content, now))?;
    let size = content.len() as u32;
    Ok(Ended::by_call(now, came, NodeAnswer::Written { size }))
}

/// Says whether so many bytes from an offset on pass a limit.
fn is_past(limit: u64, offset: u64, len: usize) -> bool
    ensures { result ≡ nat_lt limit (offset + len) }
{
    // Offset and length come from the client, so they are added without a wrap.
    match offset.checked_add(len as u64) {
        Some(end) => end > limit,
        None => true,
    }
}
