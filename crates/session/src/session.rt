//! A session: one connection, from Enter to Leave.

ghost use Rattle.std.specs.Prelude.{◌≡◌, ◌++◌, [], length, true, false, IfOk, OnOk, OnErr, Ok};
ghost use Rattle.portal_model.specs.Seated.{Asks, is_open, state_seen};
ghost use Rattle.session.specs.Cuts.{Cuts, no_item};
ghost use Rattle.session.specs.Isolation.{IsIsolated};
ghost use Rattle.session.specs.Ledger.{Stops, held_after, world};
ghost use Rattle.session.specs.Sessions.{Opens, Enters, Feeds, Closes, IsBound, IsOpen, fed_of};
ghost use Rattle.session.specs.Sessions.{ending};
ghost use Rattle.session.specs.Pushes.{Pushes, goes_on, has_begun, is_bus, is_ready};
ghost use Rattle.session.specs.Standings.{client as the_client};
ghost use Rattle.session.specs.declared.served.Stop.TheVariants as stop;

use crate::act::Client;
use crate::parts::behind;
use crate::phase::{Phase, first_phase};
use crate::room::Room;
use crate::serve::{Run, Stage, serve_items, serve_untold};
use crate::served::{Fed, Served, Stop};
use bytes::BytesMut;
use portal_base::limits::Settings;
use portal_base::memory::{Replica, WantOfMemory};
use portal_base::outside::Sink;
use portal_base::who::{Kind, Who};
use portal_desk::Desk;
use portal_model::reply::{Refused, Reply};
use portal_model::request::Request;
use std::alloc::Global;
use std::marker::Model;

/// How many bytes a connection may have.
pub const LONGEST_STREAM: u64 = 1 << 40;

/// One connection of a client, open at a desk.
///
/// Contracts see its client, how far its stream has come, how many bytes were
/// taken as items, the rest behind them, and what the last piece came to.
#[derive(Drop)]
pub struct Session {
    client: Client,
    stage: Stage,
    room: Room,
    before: u64,
    rest: BytesMut,
    fed: Fed,
}

impl Model for Session {
    ghost use Rattle.session.specs.Standings.{Standing, Stands};

    ghost Value = { Standing };

    ghost view = { λ s. record {
      client = s.client;
      stage = s.stage;
      before = s.before;
      rest = s.rest.items;
      fed = s.fed;
    } };

    ghost invariant = { λ s. Stands s.stage.phase s.before s.rest.items s.fed };
}

impl Session {
    /// Opens a connection: Enter is asked.
    ///
    /// The desk's seat has no open connection.
    pub fn begin<D: Desk>(
        alloc: Global,
        desk: &mut D,
        who: &Who,
        kind: Kind,
        settings: &Settings,
    ) -> Result<Session, Refused>
        requires { is_open (state_seen (D.seated desk.old)) (D.seated desk.old).seat ≡ false }
        ensures opens { Opens (the_client who.now kind settings.now) (D.seated desk.old) result
            (D.seated desk.new) }
        // Then the connection is open.
        ensures open_now { OnOk result (IsOpen (the_client who.now kind settings.now)
            (D.seated desk.new)) }
        // Or the seat has none, as before.
        ensures still_closed { OnErr result
            (is_open (state_seen (D.seated desk.new)) (D.seated desk.new).seat ≡ false) }
        // What an application is replied is a function of its trace, as `serve_connection`
        // says of the whole connection.
        ensures isolated { IsIsolated who.now (D.seated desk.old) (D.seated desk.new) }
        ensures goes { D.goes desk.old desk.new }
    {
        let client = client_of(alloc, who, kind, settings)?;
        enter(alloc, desk, who, kind)?;
        Ok(Session {
            client,
            stage: Stage {
                phase: first_phase(kind),
                serial: 0,
            },
            room: Room::new(alloc),
            before: 0,
            rest: BytesMut::new(alloc),
            fed: Fed::More,
        })
    }

    /// Takes the next piece of the stream, cut anywhere, and asks and answers
    /// each item that is whole now. What stands behind the last of them is held.
    ///
    /// After anything but `More` it answers the same again, and takes nothing.
    pub fn feed<D: Desk, K: Sink>(
        &mut self,
        alloc: Global,
        desk: &mut D,
        piece: &[u8],
        sink: &mut K,
    ) -> Fed
        ensures feeds { Feeds self.old.fed self.old
            (world (D.seated desk.old) (K.told sink.old) (K.faults sink.old)) piece.now result
            self.new (world (D.seated desk.new) (K.told sink.new) (K.faults sink.new)) }
        // The client stays, and the connection stays open.
        ensures client_stays { self.new.client ≡ self.old.client }
        ensures stays_open { IsOpen self.old.client (D.seated desk.old)
            → IsOpen self.old.client (D.seated desk.new) }
        // What an application is replied while its connection is open is a function of its
        // trace: over a tree that tells its files with all bytes, and over any other but for
        // the bytes that a READ shows, and their number.
        ensures isolated { IsOpen self.old.client (D.seated desk.old)
            → IsIsolated self.old.client.who (D.seated desk.old) (D.seated desk.new) }
        ensures goes { D.goes desk.old desk.new }
    {
        match self.fed {
            Fed::More => {}
            fed => return fed,
        }
        let room = LONGEST_STREAM - self.before - self.rest.len() as u64;
        // This comes ahead of everything else, also of want of memory.
        if piece.len() as u64 > room {
            self.fed = Fed::Over(Served::Spent);
            return self.fed;
        }
        desk.known();
        match take(
            alloc,
            &self.client,
            &mut self.stage,
            &mut self.room,
            &mut self.rest,
            piece,
            desk,
            sink,
        ) {
            Ok(run) => {
                self.before += run.len as u64;
                self.fed = fed_of(self.before, run.stop);
            }
            Err(halt) => self.fed = halt,
        }
        desk.known();
        self.fed
    }

    /// How many bytes are held behind those that were taken as items.
    pub fn held(&self) -> usize
        ensures { result ≡ length self.now.rest }
    {
        self.rest.len()
    }

    /// Closes the connection: Leave is asked. Answers how it ended, where its
    /// input ended after the last piece.
    ///
    /// The desk's seat has an open connection of the session's client.
    pub fn end<D: Desk>(self, alloc: Global, desk: &mut D) -> Served
        requires { IsOpen self.client (D.seated desk.old) }
        ensures closes { Closes self (D.seated desk.old) result (D.seated desk.new) }
        // The seat has no open connection then.
        ensures closed_now { is_open (state_seen (D.seated desk.new)) (D.seated desk.new).seat
            ≡ false }
        // What an application is replied is a function of its trace here, too.
        ensures isolated { IsIsolated self.client.who (D.seated desk.old) (D.seated desk.new) }
        ensures goes { D.goes desk.old desk.new }
    {
        leave(alloc, desk);
        ending(self.fed, self.rest.as_slice())
    }
}

impl Session {
    /// Whether a host may be told what it wasn't told yet before its next item: the
    /// session is one on a bus, its handshake is over (D-Bus Specification,
    /// "Authentication Protocol"), and it isn't over itself.
    pub fn ready(&self) -> bool
        ensures { result ≡ is_ready self.now }
    {
        is_bus(self.client.kind) && has_begun(&self.stage.phase) && goes_on(self.fed)
    }

    /// Tells a host what it wasn't told yet, without waiting for its next item: one
    /// Collect is asked, and its signals are written with the next serials. Where it
    /// is refused nothing is written, and the answer is `More`.
    ///
    /// What is held of the stream stays, and so does the number of bytes before it.
    /// After `WriteFault` and `Memory` the session is over, as after those of `feed`.
    pub fn push<D: Desk, K: Sink>(&mut self, alloc: Global, desk: &mut D, sink: &mut K) -> Fed
        requires host { self.old.client.who ≡ Who.Host }
        requires ready { is_ready self.old ≡ true }
        ensures pushes { Pushes self.old
            (world (D.seated desk.old) (K.told sink.old) (K.faults sink.old)) result self.new
            (world (D.seated desk.new) (K.told sink.new) (K.faults sink.new)) }
        // The connection stays open.
        ensures stays_open { IsOpen self.old.client (D.seated desk.old)
            → IsOpen self.old.client (D.seated desk.new) }
        // What an application is replied is a function of its trace: none asks here.
        ensures isolated { IsIsolated self.old.client.who (D.seated desk.old)
            (D.seated desk.new) }
        ensures goes { D.goes desk.old desk.new }
    {
        desk.known();
        let told = serve_untold(alloc, self.stage.serial, desk, sink);
        desk.known();
        match told {
            Ok(serial) => {
                self.stage.serial = serial;
                Fed::More
            }
            Err(halt) => {
                self.fed = halt;
                halt
            }
        }
    }
}

/// Asks and answers each item that is whole with a piece, and holds what stands
/// behind the last of them. Where it halts the same is held as before.
///
/// What is held has too few bytes for an item.
fn take<D: Desk, K: Sink>(
    alloc: Global,
    client: &Client,
    stage: &mut Stage,
    room: &mut Room,
    held: &mut BytesMut,
    piece: &[u8],
    desk: &mut D,
    sink: &mut K,
) -> Result<Run, Fed>
    requires { Cuts stage.old.phase held.old.items (no_item stop.More) }
    ensures stops { Stops client.now result stage.old
        (world (D.seated desk.old) (K.told sink.old) (K.faults sink.old))
        (held.old.items ++ piece.now) stage.new
        (world (D.seated desk.new) (K.told sink.new) (K.faults sink.new)) }
    ensures held { held.new.items ≡ held_after result held.old.items piece.now }
    ensures goes { D.goes desk.old desk.new }
{
    if held.is_empty() {
        return take_in_place(alloc, client, stage, room, held, piece, desk, sink);
    }
    take_behind(alloc, client, stage, room, held, piece, desk, sink)
}

/// The same where nothing is held: the piece is served where it lies.
fn take_in_place<D: Desk, K: Sink>(
    alloc: Global,
    client: &Client,
    stage: &mut Stage,
    room: &mut Room,
    held: &mut BytesMut,
    piece: &[u8],
    desk: &mut D,
    sink: &mut K,
) -> Result<Run, Fed>
    requires { held.old.items ≡ [] }
    ensures stops { Stops client.now result stage.old
        (world (D.seated desk.old) (K.told sink.old) (K.faults sink.old))
        (held.old.items ++ piece.now) stage.new
        (world (D.seated desk.new) (K.told sink.new) (K.faults sink.new)) }
    ensures held { held.new.items ≡ held_after result held.old.items piece.now }
    ensures goes { D.goes desk.old desk.new }
{
    // A piece that comes while nothing is held is served where it lies, and only what stands
    // behind its last item is copied.
    let run = serve_items(alloc, client, stage, room, piece, 0, desk, sink)?;
    match held.extend_from_slice(behind(piece, run.len)) {
        Ok(()) => Ok(run),
        Err(_) => Err(Fed::Memory),
    }
}

/// The same where something is held: the piece is put behind it.
fn take_behind<D: Desk, K: Sink>(
    alloc: Global,
    client: &Client,
    stage: &mut Stage,
    room: &mut Room,
    held: &mut BytesMut,
    piece: &[u8],
    desk: &mut D,
    sink: &mut K,
) -> Result<Run, Fed>
    requires { Cuts stage.old.phase held.old.items (no_item stop.More) }
    ensures stops { Stops client.now result stage.old
        (world (D.seated desk.old) (K.told sink.old) (K.faults sink.old))
        (held.old.items ++ piece.now) stage.new
        (world (D.seated desk.new) (K.told sink.new) (K.faults sink.new)) }
    ensures held { held.new.items ≡ held_after result held.old.items piece.now }
    ensures goes { D.goes desk.old desk.new }
{
    // The end of a line is sought from the last byte that was held, and other items tell their
    // length in their first bytes: so a piece costs no time for what was held before.
    let seen = held.len();
    if held.extend_from_slice(piece).is_err() {
        return Err(Fed::Memory);
    }
    match serve_items(
        alloc,
        client,
        stage,
        room,
        held.as_slice(),
        seen,
        desk,
        sink,
    ) {
        Ok(run) => {
            held.advance(run.len);
            Ok(run)
        }
        Err(halt) => {
            held.truncate(seen);
            Err(halt)
        }
    }
}

fn is_bus(kind: Kind) -> bool
    ensures { result ≡ is_bus kind }
{
    matches!(kind, Kind::Bus)
}

/// Whether the handshake is over.
fn has_begun(phase: &Phase) -> bool
    ensures { result ≡ has_begun phase.now }
{
    matches!(phase, Phase::Messages)
}

/// Whether a session goes on whose last piece came to this.
fn goes_on(fed: Fed) -> bool
    ensures { result ≡ goes_on fed }
{
    matches!(fed, Fed::More)
}

fn client_of(
    alloc: Global,
    who: &Who,
    kind: Kind,
    settings: &Settings,
) -> Result<Client, WantOfMemory>
    ensures { IfOk result (λ made. made ≡ the_client who.now kind settings.now) }
{
    Ok(Client {
        who: who.replica(alloc)?,
        kind,
        settings: settings.replica(alloc)?,
    })
}

/// Asks Enter, where there is memory to ask it.
fn enter<D: Desk>(alloc: Global, desk: &mut D, who: &Who, kind: Kind) -> Result<(), Refused>
    requires { is_open (state_seen (D.seated desk.old)) (D.seated desk.old).seat ≡ false }
    ensures entered { Enters who.now kind (D.seated desk.old) result (D.seated desk.new) }
    ensures open_now { OnOk result (IsBound who.now kind (D.seated desk.new)) }
    ensures still_closed { OnErr result
        (is_open (state_seen (D.seated desk.new)) (D.seated desk.new).seat ≡ false) }
    ensures isolated { IsIsolated who.now (D.seated desk.old) (D.seated desk.new) }
    ensures goes { D.goes desk.old desk.new }
{
    desk.known();
    let request = Request::Enter {
        who: who.replica(alloc)?,
        kind,
    };
    let asked = desk.ask(alloc, request);
    desk.known();
    let _ = asked?;
    Ok(())
}

/// Asks Leave, which isn't refused where a connection is open.
fn leave<D: Desk>(alloc: Global, desk: &mut D)
    requires { is_open (state_seen (D.seated desk.old)) (D.seated desk.old).seat ≡ true }
    ensures left { (reply : Reply) × Asks (D.seated desk.old) Request.Leave (Ok reply)
        (D.seated desk.new) }
    ensures closed_now { is_open (state_seen (D.seated desk.new)) (D.seated desk.new).seat ≡ false }
    ensures isolated { (who : Who) (kind : Kind) → IsBound who kind (D.seated desk.old)
        → IsIsolated who (D.seated desk.old) (D.seated desk.new) }
    ensures goes { D.goes desk.old desk.new }
{
    desk.known();
    let _ = desk.ask(alloc, Request::Leave);
    desk.known();
}

/// What bytes came to behind whose whole items this stands, at this byte of
/// the stream.
pub fn fed_of(at: u64, stop: Stop) -> Fed
    ensures { result ≡ fed_of at stop }
{
    match stop {
        Stop::More => Fed::More,
        Stop::Bad { rule } => Fed::Over(Served::Malformed { at, rule }),
        Stop::TooLong => Fed::Over(Served::LineTooLong { at }),
    }
}

/// How a connection ends whose last piece came to this, and which has this
/// rest.
pub fn ending(fed: Fed, rest: &[u8]) -> Served
    ensures { result ≡ ending fed rest.now }
{
    match fed {
        Fed::More if rest.is_empty() => Served::Ended,
        Fed::More => Served::Cut {
            rest: rest.len() as u64,
        },
        Fed::Over(served) => served,
        Fed::WriteFault => Served::WriteFault,
        Fed::Memory => Served::Memory,
    }
}
