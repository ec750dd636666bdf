//! The same connections, served by a session that waits.

ghost use Rattle.std.specs.Prelude.{◌≡◌, [], false};
ghost use Rattle.portal_model.specs.Seated.{is_open, state_seen};

use crate::client::{Line, SCRIPT, client_of, limits_for};
use portal_base::list::{ByteList, List};
use portal_base::outside::{MemorySink, MemorySource};
use portal_core::local_desk::LocalDesk;
use portal_core::storied::Storied;
use portal_desk::Desk;
use portal_lines::opened_by;
use session::act::Client;
use session::connection::serve_connection;
use session::served::Served;
use std::alloc::Global;
use vector_lines::error::VectorError;

/// How a connection ended, and what was written on it.
#[derive(Drop)]
pub struct Half {
    /// How it ended.
    pub served: Served,
    /// The bytes that were written.
    pub written: ByteList,
}

/// What a connection came to over a portal of its own.
#[derive(Drop)]
pub struct Came {
    /// How it ended, and what was written on it.
    pub half: Half,
    /// How many entries the history has then.
    pub entries: u64,
}

/// Whether two connections came to the same.
pub fn same(one: &Came, other: &Came) -> bool {
    one.half.served == other.half.served
        && one.entries == other.entries
        && one.half.written.as_slice() == other.half.written.as_slice()
}

/// What the connection of a line comes to, served by `serve_connection`.
pub fn served(alloc: Global, line: &Line<'_>) -> Result<Came, VectorError> {
    match opened_by(alloc, SCRIPT, limits_for(line)) {
        Ok(portal) => served_over(alloc, portal, line),
        Err(error) => Err(error),
    }
}

/// The same over a portal that has no connection yet.
#[tactic(auto, using(crate::proofs::Closed::none_open))]
fn served_over<S: Storied + Drop>(
    alloc: Global,
    portal: S,
    line: &Line<'_>,
) -> Result<Came, VectorError>
    requires { S.entries portal ≡ [] }
{
    portal.known();
    let mut portal = portal;
    let half = served_at(alloc, LocalDesk::new(&mut portal, 1), line);
    let entries = portal.entry_count();
    drop(portal);
    Ok(Came {
        half: half?,
        entries,
    })
}

/// The same at a desk.
fn served_at<D: Desk + Drop>(alloc: Global, desk: D, line: &Line<'_>) -> Result<Half, VectorError>
    requires { is_open (state_seen (D.seated desk)) (D.seated desk).seat ≡ false }
{
    let client = client_of(alloc, line)?;
    served_to(alloc, desk, &client, line.bytes)
}

/// The same of its client, which sends bytes.
fn served_to<D: Desk + Drop>(
    alloc: Global,
    desk: D,
    client: &Client,
    bytes: &[u8],
) -> Result<Half, VectorError>
    requires { is_open (state_seen (D.seated desk)) (D.seated desk).seat ≡ false }
{
    let mut desk = desk;
    let mut source = MemorySource::new(List::copied(alloc, bytes)?, 0);
    let mut sink = MemorySink::new(alloc, 0);
    let served = serve_connection(
        alloc,
        &mut desk,
        &client.who,
        client.kind,
        &client.settings,
        &mut source,
        &mut sink,
    );
    let written = joined(alloc, sink.pieces().as_slice())?;
    Ok(Half { served, written })
}

/// The bytes of pieces.
fn joined(alloc: Global, pieces: &[ByteList]) -> Result<ByteList, VectorError> {
    let mut bytes = List::new(alloc);
    for piece in pieces {
        bytes.extend_from_slice(piece.as_slice())?;
    }
    Ok(bytes)
}
