//! Sending what answers items.

ghost use Rattle.std.specs.Prelude.{◌≡◌, ◌≤◌, [], ◌++◌, length, IsOk, OnOk};
ghost use Rattle.futures.specs.Task.{IsArmed, Keeps};
ghost use Rattle.poll_steps.specs.Steps.{Flushes, IfFlushWaits};
ghost use Rattle.session.specs.Items.{joined};

use bytes::BytesMut;
use futures::task::Context;
use poll_ends::outside::{PollSink, PollWrote};
use portal_base::list::{ByteList, List};
use portal_base::memory::WantOfMemory;
use std::mem;

/// How far bytes were sent.
#[derive(Clone, Copy)]
pub enum Flushed {
    /// All of them.
    All,
    /// The sink takes no more yet.
    NotYet,
    /// A write failed.
    Failed,
}

/// Sends bytes, as many as the sink takes, and leaves the others.
pub fn flush<K: PollSink>(unsent: &mut BytesMut, sink: &mut K, context: &mut Context<'_>) -> Flushed
    ensures flushes { Flushes unsent.old.items (K.told sink.old) (K.counts sink.old) result
        unsent.new.items (K.told sink.new) (K.counts sink.new) }
    ensures registered { IfFlushWaits result (IsArmed context.new) }
    ensures kept { Keeps context.old context.new }
{
    'bytes: while !unsent.is_empty() {
        match sink.poll_write(context, unsent.as_slice()) {
            PollWrote::Took(len) => unsent.advance(len),
            PollWrote::NotYet => return Flushed::NotYet,
            PollWrote::Failed => return Flushed::Failed,
        }
    }
    Flushed::All
}

/// Takes pieces over, to be sent one behind another, and hands their list back, empty but for
/// what was sent from before, where that can be kept.
///
/// Nothing is unsent. One piece is sent from where it was spelled, so no memory is wanted for it.
pub fn put(unsent: &mut BytesMut, pieces: List<ByteList>) -> Result<List<ByteList>, WantOfMemory>
    requires sent { unsent.old.items ≡ [] }
    ensures put { OnOk result (unsent.new.items ≡ joined pieces) }
    ensures one { length pieces ≤ 1 → IsOk result }
{
    if pieces.len() > 1 {
        put_each(unsent, pieces.as_slice())?;
        return Ok(pieces);
    }
    let mut pieces = pieces.into_vec();
    let Some(piece) = pieces.pop() else {
        return Ok(List::from_vec(pieces));
    };
    let sent = mem::replace(unsent, BytesMut::from_vec(piece.into_vec()));
    if let Ok(buffer) = sent.into_vec() {
        // It has the place of the piece.
        let _ = pieces.push(List::from_vec(buffer));
    }
    Ok(List::from_vec(pieces))
}

/// Puts pieces behind each other, to be sent.
fn put_each(unsent: &mut BytesMut, pieces: &[ByteList]) -> Result<(), WantOfMemory>
    ensures { OnOk result (unsent.new.items ≡ unsent.old.items ++ joined pieces.now) }
{
    'pieces: for piece in pieces {
        unsent.extend_from_slice(piece.as_slice())?;
    }
    Ok(())
}
