//! Serving one connection over a source and a sink.

ghost use Rattle.std.specs.Prelude.{◌≡◌, ◌<◌, ◌≤◌, length, false};
ghost use Rattle.portal_base.specs.Outside.{ReadCounts, Reads};
ghost use Rattle.portal_desk.specs.Knowing.{Known};
ghost use Rattle.portal_model.specs.Seated.{is_open, state_seen};
ghost use Rattle.session.specs.Ledger.{world};
ghost use Rattle.session.specs.Standings.{client, fresh};
ghost use Rattle.session.specs.Pumps.{longest_piece, spring, Pumps};
ghost use Rattle.session.specs.Sessions.{IsOpen};
ghost use Rattle.session.specs.Connections.{Serves, served_by};
ghost use Rattle.session.specs.Hearing.{IsHeard};
ghost use Rattle.session.specs.Isolation.{IsIsolated};

use crate::parts::front;
use crate::served::{Fed, Served};
use crate::session::Session;
use portal_base::limits::Settings;
use portal_base::outside::{ReadAnswer, Sink, Source};
use portal_base::who::{Kind, Who};
use portal_desk::Desk;
use portal_model::reply::Refused;
use std::alloc::Global;

/// How many bytes are asked of the source at first.
const FIRST_PIECE: usize = 16_384;

// A WRITE of 128 KiB, the greatest that INIT grants, fits in.
/// How many bytes are asked of the source at a time, once so many came as were asked.
const LONGEST_PIECE: usize = 262_144;

/// Why no more pieces are read.
#[derive(Clone, Copy, PartialEq, Eq)]
pub enum Pumped {
    /// The source ended.
    End,
    /// A read failed.
    Fault,
    /// The session is over.
    Over,
}

/// Reads the next bytes into the front of the buffer.
fn read_piece<S: Source>(source: &mut S, buffer: &mut Vec<u8>) -> ReadAnswer
    requires { 0 < length buffer.old.items }
    ensures reads { Reads (S.left source.old) buffer.new.items result (S.left source.new) }
    ensures counts { ReadCounts (S.faults source.old) result (S.faults source.new) }
    ensures long { length buffer.new.items ≡ length buffer.old.items }
{
    source.read(buffer.as_mut_slice())
}

/// Behind a piece that filled the buffer, that is made as long as pieces may be.
fn widen(buffer: &mut Vec<u8>, came: usize)
    requires { length buffer.old.items ≤ longest_piece }
    ensures least { length buffer.old.items ≤ length buffer.new.items }
    ensures most { length buffer.new.items ≤ longest_piece }
{
    // So a client that is idle, or sends little at a time, holds little.
    if came == buffer.len() {
        // Where there is no memory for that it goes on as it is.
        let _ = buffer.resize(LONGEST_PIECE, 0);
    }
}

/// Feeds the pieces of the source to the session, one after another, each as it
/// came.
fn pump<D: Desk, S: Source, K: Sink>(
    alloc: Global,
    session: &mut Session,
    desk: &mut D,
    source: &mut S,
    sink: &mut K,
    buffer: &mut Vec<u8>,
) -> Pumped
    requires fresh { session.old ≡ fresh session.old.client }
    requires some { 0 < length buffer.old.items }
    requires most { length buffer.old.items ≤ longest_piece }
    ensures pumps { Pumps session.old.client result
        (spring (S.left source.old) (S.faults source.old))
        (spring (S.left source.new) (S.faults source.new))
        (world (D.seated desk.old) (K.told sink.old) (K.faults sink.old)) session.new
        (world (D.seated desk.new) (K.told sink.new) (K.faults sink.new)) }
    ensures stays_open { IsOpen session.old.client (D.seated desk.old)
        → IsOpen session.old.client (D.seated desk.new) }
    ensures goes { D.goes desk.old desk.new }
{
    'pieces: loop {
        match read_piece(source, buffer) {
            ReadAnswer::End => return Pumped::End,
            ReadAnswer::Failed => return Pumped::Fault,
            ReadAnswer::Got(len) => {
                match session.feed(alloc, desk, front(buffer.as_slice(), len), sink) {
                    Fed::More => widen(buffer, len),
                    _ => return Pumped::Over,
                }
            }
        }
    }
}

/// Serves one connection from Enter to Leave.
///
/// Every item is asked and answered as soon as it is whole: an answer is
/// written before the next piece is read, as `serve_runs` shows. The desk's
/// seat has no open connection.
pub fn serve_connection<D: Desk, S: Source, K: Sink>(
    alloc: Global,
    desk: &mut D,
    who: &Who,
    kind: Kind,
    settings: &Settings,
    source: &mut S,
    sink: &mut K,
) -> Served
    requires { is_open (state_seen (D.seated desk.old)) (D.seated desk.old).seat ≡ false }
    // What the ending means: which items were read, asked and answered.
    ensures serves { Serves (client who.now kind settings.now) result
        (spring (S.left source.old) (S.faults source.old))
        (spring (S.left source.new) (S.faults source.new))
        (world (D.seated desk.old) (K.told sink.old) (K.faults sink.old))
        (world (D.seated desk.new) (K.told sink.new) (K.faults sink.new)) }
    // The desk's seat has no open connection then either.
    ensures closed_now { is_open (state_seen (D.seated desk.new)) (D.seated desk.new).seat ≡ false }
    // The history that the desk sees is legal from an opening state, and the seat's entries in it
    // are its own.
    ensures known { Known (D.seated desk.new) }
    // None of the connection's requests meets a seat that isn't there: one on a
    // node has an answer that a frame tells, one on documents isn't answered
    // `NotHere`, and any other is done.
    ensures heard { IsHeard (D.seated desk.old) (D.seated desk.new) }
    // What an application is replied is a function of its trace: over a tree that
    // tells its files with all bytes, and over any other but for the bytes that a READ
    // shows, and their number.
    ensures isolated { IsIsolated who.now (D.seated desk.old) (D.seated desk.new) }
    ensures goes { D.goes desk.old desk.new }
{
    desk.known();
    let Ok(mut buffer) = vec![in alloc; 0; FIRST_PIECE] else {
        return Served::Memory;
    };
    let mut session = match Session::begin(alloc, desk, who, kind, settings) {
        Ok(session) => session,
        Err(refused) => {
            desk.known();
            return refused_ending(refused);
        }
    };
    let pumped = pump(alloc, &mut session, desk, source, sink, &mut buffer);
    let served = session.end(alloc, desk);
    desk.known();
    match pumped {
        Pumped::Fault => Served::ReadFault,
        _ => served,
    }
}

/// How a connection ends whose Enter is refused.
pub fn refused_ending(refused: Refused) -> Served
    ensures { result ≡ served_by refused }
{
    match refused {
        Refused::Memory => Served::Memory,
        Refused::Full { cost, limit } => Served::Full { cost, limit },
    }
}
