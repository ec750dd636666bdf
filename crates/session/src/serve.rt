//! Asking and answering the items of a stream.
//!
//! An error is what the client's piece comes to then: `Fed::WriteFault` or
//! `Fed::Memory`, and no other.

ghost use Rattle.std.specs.Prelude.{◌≡◌, ◌≤◌, ◌∷◌, [], ◌++◌, length, map, take};
ghost use Rattle.std.specs.Prelude.{IfErr, IfOk, IfSome, option_to_list, true};
ghost use Rattle.std.specs.List.{list_all};
ghost use Rattle.dbus_dispatch.specs.Signals.{signal_of};
ghost use Rattle.dbus_dispatch.specs.Writable.{IsWritable};
ghost use Rattle.portal_model.specs.Valid.{is_sound_change};
ghost use Rattle.session.specs.declared.act.Act.{Act as AnAct};
ghost use Rattle.session.specs.declared.act.Client.{Client as AClient};
ghost use Rattle.session.specs.Answers.{last_spoken, spoken};
ghost use Rattle.session.specs.Asked.{MayAnswer, asked_by};
ghost use Rattle.session.specs.Cuts.{Cuts, no_item, whole_item};
ghost use Rattle.session.specs.Dues.{Became, CanTell, due_of};
ghost use Rattle.session.specs.Rooms.{FitsItsOp, IsTakenFor};
ghost use Rattle.session.specs.declared.served.Stop.TheVariants as stop;
ghost use Rattle.session.specs.Pushes.{Tells};
ghost use Rattle.session.specs.Ledger.{world, Sends, ActEnds, Collected, ItemEnds, LacksAt, Stops};

use crate::act::{Act, Client, ItemError};
use crate::answer::{Parted, Told, answer, part};
use crate::item::read_item;
use crate::parts::{behind, front};
use crate::phase::{Phase, next_cut};
use crate::room::Room;
use crate::served::{Fed, Stop};
use crate::speech::spoken;
use dbus_types::message::OutMessage;
use portal_base::list::{ByteList, List};
use portal_base::outside::{Sink, WriteAnswer};
use portal_desk::Desk;
use portal_model::reply::Change;
use portal_model::request::Request;
use std::alloc::Global;

/// How far a stream has come.
#[derive(Drop)]
pub struct Stage {
    /// What is due next.
    pub phase: Phase,
    /// The serial of the last message that was written, 0 before the first.
    pub serial: u32,
}

/// How far the whole items of some bytes reach, and why no more are taken.
#[derive(Clone, Copy, PartialEq, Eq)]
pub struct Run {
    /// The length of the items together, in bytes.
    pub len: usize,
    /// Why no item behind them is taken.
    pub stop: Stop,
}

/// Writes pieces, one after another, and answers this serial.
fn send_each<K: Sink>(sink: &mut K, pieces: &[ByteList], serial: u32) -> Result<u32, Fed>
    ensures sends { Sends pieces.now result (K.told sink.old) (K.faults sink.old)
        (K.told sink.new) (K.faults sink.new) }
    ensures last { IfOk result (λ last. last ≡ serial) }
    ensures fault { IfErr result (λ halt. halt ≡ Fed.WriteFault) }
{
    for piece in pieces {
        match sink.write(piece.as_slice()) {
            WriteAnswer::Done => {}
            WriteAnswer::Failed => return Err(Fed::WriteFault),
        }
    }
    Ok(serial)
}

/// Writes the signals that tell of changes, and behind them a message where
/// there is one, each with the next serial as one piece, and answers the last
/// serial. Where there is no memory for all of them none is written.
fn send_messages<K: Sink>(
    alloc: Global,
    serial: u32,
    changes: &[Change],
    message: &Option<OutMessage>,
    sink: &mut K,
) -> Result<u32, Fed>
    requires sound { list_all is_sound_change changes.now ≡ true }
    requires writable { IfSome message.now IsWritable }
    ensures sends { Sends (spoken serial (map signal_of changes.now
        ++ option_to_list message.now)) result (K.told sink.old) (K.faults sink.old)
        (K.told sink.new) (K.faults sink.new) }
    ensures last { IfOk result (λ last. last ≡ last_spoken serial (map signal_of changes.now
        ++ option_to_list message.now)) }
{
    // All signals and the answer are spelled before the first is written: where there is no memory
    // for one nothing of the answer is written.
    match spoken(alloc, serial, changes, message) {
        Ok(speech) => send_each(sink, speech.pieces.as_slice(), speech.serial),
        Err(_) => Err(Fed::Memory),
    }
}

/// Asks for what the host was not told yet, which is answered. A refusal leaves
/// it untold.
fn ask_untold<D: Desk>(alloc: Global, desk: &mut D) -> List<Change>
    ensures asked { Collected (Request.Collect ∷ []) result (D.seated desk.old)
        (D.seated desk.new) }
    ensures sound { list_all is_sound_change result ≡ true }
    ensures goes { D.goes desk.old desk.new }
{
    match desk.ask(alloc, Request::Collect) {
        Ok(reply) => {
            desk.known();
            reply.signals
        }
        Err(_) => List::new(alloc),
    }
}

/// Tells a host what it was not told yet, where there is something to tell, and
/// answers the last serial. A refusal leaves it untold, and nothing is written.
pub fn serve_untold<D: Desk, K: Sink>(
    alloc: Global,
    serial: u32,
    desk: &mut D,
    sink: &mut K,
) -> Result<u32, Fed>
    ensures tells { Tells result serial
        (world (D.seated desk.old) (K.told sink.old) (K.faults sink.old))
        (world (D.seated desk.new) (K.told sink.new) (K.faults sink.new)) }
    ensures goes { D.goes desk.old desk.new }
{
    let changes = ask_untold(alloc, desk);
    // Where there is nothing to tell no memory is wanted.
    if changes.is_empty() {
        return Ok(serial);
    }
    send_messages(alloc, serial, changes.as_slice(), &None, sink)
}

/// Asks a request, where there is one, and says what became of it.
fn ask<D: Desk>(alloc: Global, request: Option<Request>, desk: &mut D) -> Told
    ensures became { Became (option_to_list request) result (D.seated desk.old)
        (D.seated desk.new) }
    ensures fits { (c : AClient) (act : AnAct) → MayAnswer c act
        → asked_by act ≡ option_to_list request → CanTell (due_of act) result }
    ensures short { (act : AnAct) → asked_by act ≡ option_to_list request
        → FitsItsOp act result }
    ensures goes { D.goes desk.old desk.new }
{
    let Some(request) = request else {
        return Told::Nothing;
    };
    match desk.ask(alloc, request) {
        Ok(reply) => {
            desk.known();
            Told::Reply(reply)
        }
        Err(refused) => Told::Refused(refused),
    }
}

/// Asks what an item asks and answers it, behind this serial. Answers the last
/// serial.
fn serve_act<D: Desk, K: Sink>(
    alloc: Global,
    client: &Client,
    act: Act,
    serial: u32,
    room: &mut Room,
    desk: &mut D,
    sink: &mut K,
) -> Result<u32, Fed>
    requires answers { MayAnswer client.now act }
    requires taken { IsTakenFor client.now serial act room.old }
    ensures ends { ActEnds client.now result act serial
        (world (D.seated desk.old) (K.told sink.old) (K.faults sink.old))
        (world (D.seated desk.new) (K.told sink.new) (K.faults sink.new)) }
    // There was memory for the frame of all but a READ and a READDIR, and for an answer that tells
    // a call little, where no signal rides ahead of it.
    ensures lacks { IfErr result (LacksAt client.now act serial
        (world (D.seated desk.old) (K.told sink.old) (K.faults sink.old))
        (world (D.seated desk.new) (K.told sink.new) (K.faults sink.new))) }
    ensures goes { D.goes desk.old desk.new }
{
    let Parted { request, due } = part(act);
    let told = ask(alloc, request, desk);
    // All of the answer is spelled before the first piece is written: where there is no memory for
    // one piece nothing of it is written.
    match answer(alloc, client, due, told, serial, room) {
        Ok(speech) => {
            let sent = send_each(sink, speech.pieces.as_slice(), speech.serial);
            room.keep(client.kind, speech.pieces);
            sent
        }
        Err(_) => Err(Fed::Memory),
    }
}

/// Asks and answers one whole item. Where it asks nothing, says why, and all
/// stays as it was.
fn serve_item<D: Desk, K: Sink>(
    alloc: Global,
    client: &Client,
    stage: &mut Stage,
    room: &mut Room,
    item: &[u8],
    desk: &mut D,
    sink: &mut K,
) -> Result<Option<Stop>, Fed>
    requires { Cuts stage.old.phase item.now (whole_item (length item.now)) }
    ensures ends { ItemEnds client.now result stage.old
        (world (D.seated desk.old) (K.told sink.old) (K.faults sink.old)) item.now stage.new
        (world (D.seated desk.new) (K.told sink.new) (K.faults sink.new)) }
    ensures goes { D.goes desk.old desk.new }
{
    match read_item(alloc, client, &mut stage.phase, item) {
        Ok(act) => {
            // Behind a change there has to be memory to tell it.
            if room.take(alloc, client, &act, stage.serial).is_err() {
                return Err(Fed::Memory);
            }
            match serve_act(alloc, client, act, stage.serial, room, desk, sink) {
                Ok(serial) => {
                    stage.serial = serial;
                    Ok(None)
                }
                Err(halt) => Err(halt),
            }
        }
        Err(ItemError::Breaks { rule }) => Ok(Some(Stop::Bad { rule })),
        Err(ItemError::Memory) => Err(Fed::Memory),
    }
}

/// Asks and answers each whole item of the bytes, one after another, up to the
/// first place where none stands that may be asked.
///
/// The first `seen` bytes were too few for an item. They aren't searched again.
pub fn serve_items<D: Desk, K: Sink>(
    alloc: Global,
    client: &Client,
    stage: &mut Stage,
    room: &mut Room,
    bytes: &[u8],
    seen: usize,
    desk: &mut D,
    sink: &mut K,
) -> Result<Run, Fed>
    requires within { seen ≤ length bytes.now }
    requires too_few { Cuts stage.old.phase (take seen bytes.now) (no_item stop.More) }
    ensures stops { Stops client.now result stage.old
        (world (D.seated desk.old) (K.told sink.old) (K.faults sink.old)) bytes.now stage.new
        (world (D.seated desk.new) (K.told sink.new) (K.faults sink.new)) }
    ensures goes { D.goes desk.old desk.new }
{
    let mut len = 0;
    let mut seen = seen;
    'items: loop {
        let left = behind(bytes, len);
        let item = match next_cut(&stage.phase, left, seen) {
            Ok(len) => front(left, len),
            Err(stop) => return Ok(Run { len, stop }),
        };
        match serve_item(alloc, client, stage, room, item, desk, sink) {
            Ok(None) => {
                len += item.len();
                seen = 0;
            }
            Ok(Some(stop)) => return Ok(Run { len, stop }),
            Err(halt) => return Err(halt),
        }
    }
}
