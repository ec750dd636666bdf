//! What a service tells.

use crate::links::Links;
use host_tree::HostTree;
use portal_base::list::ByteList;
use portal_base::outside::{Clock, Words};
use portal_history::History;
use record_keeper::Keeper;
use serve_posts::status::ServeStatus;
use vector_lines::error::LineError;
use vector_lines::output::Output;
use worker_gate::worker::{Post, WorkEnd};

/// Adds how each worker ended, what its links were answered, and what its seat asked in the last
/// round.
pub fn put_status<T: HostTree, K: Keeper, C: Clock, W: Words>(
    out: &mut Output,
    status: &ServeStatus<Links<'_>, T, K, C, W>,
) {
    match status {
        ServeStatus::Ended {
            posts,
            ends,
            portal,
            rounds,
        } => put_ends(
            out,
            posts.as_slice(),
            ends.as_slice(),
            portal.history(),
            *rounds,
        ),
        ServeStatus::Refused(refusal) => out.debug(&refusal.error),
        ServeStatus::Memory => out.debug(&LineError::Memory),
    }
}

fn put_ends(
    out: &mut Output,
    posts: &[Post<Links<'_>>],
    ends: &[WorkEnd],
    history: &History,
    rounds: u64,
) {
    let mut worker = 0u32;
    for (post, end) in posts.iter().zip(ends) {
        worker = worker.saturating_add(1);
        out.text("worker ");
        out.shown(&worker);
        out.text(": ");
        out.debug(end);
        out.text("\n");
        for link in post.listener.back() {
            put_pieces(out, link.sink.pieces());
        }
        put_entries(out, worker, history);
    }
    out.number(history.len());
    out.text(" entries, round ");
    out.number(rounds);
}

/// Adds a line for each piece that was written.
fn put_pieces(out: &mut Output, pieces: &[ByteList]) {
    for piece in pieces {
        out.text("wrote ");
        out.digits(piece.as_slice());
        out.text("\n");
    }
}

/// Adds a line for each request of a seat in the history.
fn put_entries(out: &mut Output, seat: u32, history: &History) {
    for place in 0..history.len() {
        if let Some(entry) = history.entry(place)
            && entry.seat == seat
        {
            out.text("asked ");
            out.debug(&entry.request);
            out.text("\n");
        }
    }
}
