//! What an item asks of the portal, and how it is answered once that was asked.
//!
//! Who asks stands between the two: a desk that waits, or one that may say that
//! it is busy.

ghost use Rattle.std.specs.Prelude.{◌≡◌, ◌<◌, ◌≤◌, [], ◌++◌, ℕ, List as AList, map, option_to_list, true, IfOk, IfSome};
ghost use Rattle.std.specs.Prelude.{IsOk, OnErr, vec_capacity};
ghost use Rattle.std.specs.List.{list_all};
ghost use Rattle.dbus_dispatch.specs.Signals.{signal_of};
ghost use Rattle.dbus_dispatch.specs.Writable.{IsWritable};
ghost use Rattle.portal_model.specs.Valid.{is_sound_change};
ghost use Rattle.session.specs.Answers.{last_spoken, spoken};
ghost use Rattle.dbus_types.specs.declared.message.OutMessage.{OutMessage as AnOutMessage};
ghost use Rattle.session.specs.Asked.{asked_by, collect_requests, reply_to as message_to};
ghost use Rattle.session.specs.Dues.{CanTell, due_of, frames_due, said_of, signals_told};
ghost use Rattle.bus_answers.specs.Begun.{IsBegun};
ghost use Rattle.bus_answers.specs.Little.{is_little};
ghost use Rattle.dbus_dispatch.specs.Replies.{reply_of};
ghost use Rattle.dbus_dispatch.specs.Writable.{IsToldTo};
ghost use Rattle.session.specs.Answers.{serial_after as next_serial};
ghost use Rattle.session.specs.Rooms.{AreShort, HasReturn, HasRoomFor, IsLonger, IsMore, frame_room};

use crate::act::{Act, Client};
use crate::frame::{answer_frame, has_no_reply, refusal_frame, told_frame};
use crate::item::reply_to;
use crate::room::{Room, handed_out};
use crate::speech::{Speech, serial_after, spoken};
use bus_answers::begun::{Begun, finish, take_little};
use dbus_dispatch::ask::expects_reply;
use dbus_dispatch::refused::refused_message;
use dbus_dispatch::reply::reply_message;
use dbus_types::message::{Message, OutMessage};
use portal_base::list::{ByteList, List};
use portal_base::memory::WantOfMemory;
use portal_model::reply::{Change, NodeAnswer, Refused, Reply};
use portal_model::request::Request;
use std::alloc::Global;

/// How an item is answered.
#[derive(Debug, Drop)]
pub enum Due {
    /// It isn't answered.
    Nothing,
    /// A reply of the handshake.
    Line {
        /// The reply, with its CR LF.
        reply: ByteList,
    },
    /// A call that the portal has no part in.
    Call {
        /// The answer, where the call expects one.
        reply: Option<OutMessage>,
    },
    /// A call that asked the portal.
    Portal {
        /// The call.
        call: Message,
    },
    /// A request on a node.
    Node {
        /// The number that the reply has to carry.
        unique: u64,
        /// Whether there is no reply, whatever becomes of it.
        is_quiet: bool,
    },
    /// A frame that the portal has no part in.
    Local {
        /// The number that the reply has to carry.
        unique: u64,
        /// The answer. There is no reply where it is quiet.
        answer: NodeAnswer,
    },
}

/// What an item asks, and how it is answered.
#[derive(Debug, Drop)]
pub struct Parted {
    /// What is asked of the portal, where something is.
    pub request: Option<Request>,
    /// How it is answered.
    pub due: Due,
}

/// What became of what an item asked.
#[derive(Debug, Drop)]
pub enum Told {
    /// It asked nothing.
    Nothing,
    /// It was answered.
    Reply(Reply),
    /// It was refused.
    Refused(Refused),
}

/// What an item asks, apart from how it is answered.
pub fn part(act: Act) -> Parted
    ensures request { option_to_list result.request ≡ asked_by act }
    ensures due { result.due ≡ due_of act }
{
    match act {
        Act::Nothing => silent(Due::Nothing),
        Act::Line { reply } => silent(Due::Line { reply }),
        Act::Call { reply, collects } => Parted {
            request: collect_request(collects),
            due: Due::Call { reply },
        },
        Act::Portal { call, request } => Parted {
            request: Some(request),
            due: Due::Portal { call },
        },
        Act::Node { unique, request } => {
            let is_quiet = has_no_reply(&request.op);
            Parted {
                request: Some(Request::Node(request)),
                due: Due::Node { unique, is_quiet },
            }
        }
        Act::Local { unique, answer } => silent(Due::Local { unique, answer }),
    }
}

/// Nothing is asked.
fn silent(due: Due) -> Parted
    ensures request { option_to_list result.request ≡ [] }
    ensures due { result.due ≡ due }
{
    Parted { request: None, due }
}

/// What asks for what the host was not told yet, where it is to be asked.
fn collect_request(collects: bool) -> Option<Request>
    ensures { option_to_list result ≡ collect_requests collects }
{
    if collects {
        Some(Request::Collect)
    } else {
        None
    }
}

/// The pieces that answer an item, behind this serial, and the last serial.
///
/// What became of the item's request can be told, and the room is taken: there is memory for
/// whatever frame isn't longer, and for an answer that tells a call little.
pub fn answer(
    alloc: Global,
    client: &Client,
    due: Due,
    told: Told,
    serial: u32,
    room: &mut Room,
) -> Result<Speech, WantOfMemory>
    requires can_tell { CanTell due told }
    requires taken { HasRoomFor client.now serial due room.old }
    ensures pieces { IfOk result (λ speech. speech.pieces
        ≡ frames_due due told ++ spoken serial (said_of client.now due told)) }
    ensures serial { IfOk result (λ speech. speech.serial
        ≡ last_spoken serial (said_of client.now due told)) }
    ensures lacks { OnErr result (IsLonger due told) }
{
    match due {
        Due::Nothing => Ok(Speech {
            pieces: List::new(alloc),
            serial,
        }),
        Due::Line { reply } => one_piece(alloc, &mut room.pieces, serial, Some(reply)),
        Due::Call { reply } => answer_locally(alloc, serial, &reply, told),
        Due::Portal { call } => answer_call(alloc, client, serial, &call, told, room),
        Due::Node { unique, is_quiet } => {
            let frame = node_frame(alloc, &mut room.frame, unique, is_quiet, told)?;
            one_piece(alloc, &mut room.pieces, serial, frame)
        }
        Due::Local { unique, answer } => {
            let frame = told_frame(alloc, &mut room.frame, unique, &answer)?;
            one_piece(alloc, &mut room.pieces, serial, frame)
        }
    }
}

/// One piece, where there is one, and no message: the serial stays. It stands in this list, which
/// is handed out then.
fn one_piece(
    alloc: Global,
    list: &mut Vec<ByteList>,
    serial: u32,
    piece: Option<ByteList>,
) -> Result<Speech, WantOfMemory>
    ensures pieces { IfOk result (λ speech. speech.pieces ≡ option_to_list piece) }
    ensures serial { IfOk result (λ speech. speech.serial ≡ serial) }
    ensures room { 0 < vec_capacity list.old → IsOk result }
{
    let Some(piece) = piece else {
        return Ok(Speech {
            pieces: List::new(alloc),
            serial,
        });
    };
    let mut pieces = handed_out(alloc, list);
    pieces.push(piece)?;
    Ok(Speech {
        pieces: List::from_vec(pieces),
        serial,
    })
}

/// The signals that tell what the host was not told yet, and behind them the
/// answer, where there is one.
fn answer_locally(
    alloc: Global,
    serial: u32,
    reply: &Option<OutMessage>,
    told: Told,
) -> Result<Speech, WantOfMemory>
    requires sound { list_all is_sound_change (signals_told told) ≡ true }
    requires writable { IfSome reply.now IsWritable }
    ensures pieces { IfOk result (λ speech. speech.pieces
        ≡ spoken serial (map signal_of (signals_told told) ++ option_to_list reply.now)) }
    ensures serial { IfOk result (λ speech. speech.serial
        ≡ last_spoken serial (map signal_of (signals_told told) ++ option_to_list reply.now)) }
{
    match told {
        Told::Nothing | Told::Refused(_) => spoken(alloc, serial, &[], reply),
        Told::Reply(told) => spoken(alloc, serial, told.signals.as_slice(), reply),
    }
}

/// The signals, and behind them what a call is told of its request, where it
/// expects a reply.
fn answer_call(
    alloc: Global,
    client: &Client,
    serial: u32,
    call: &Message,
    told: Told,
    room: &mut Room,
) -> Result<Speech, WantOfMemory>
    requires can_tell { CanTell (Due.Portal call.now) told }
    requires taken { HasReturn client.now serial call.now room.old }
    ensures pieces { IfOk result (λ speech. speech.pieces
        ≡ spoken serial (said_of client.now (Due.Portal call.now) told)) }
    ensures serial { IfOk result (λ speech. speech.serial
        ≡ last_spoken serial (said_of client.now (Due.Portal call.now) told)) }
    ensures lacks { OnErr result (IsMore call.now told) }
{
    match told {
        Told::Nothing => Ok(Speech {
            pieces: List::new(alloc),
            serial,
        }),
        Told::Reply(told) => answer_reply(alloc, client, serial, call, &told, room),
        Told::Refused(refused) => {
            let answer = refused_message(alloc, &refused, call);
            say(alloc, serial, &[], call, answer)
        }
    }
}

/// The same of a reply. Where it tells little, and no signal rides ahead of it, the return that was
/// begun is finished.
fn answer_reply(
    alloc: Global,
    client: &Client,
    serial: u32,
    call: &Message,
    told: &Reply,
    room: &mut Room,
) -> Result<Speech, WantOfMemory>
    requires can_tell { CanTell (Due.Portal call.now) (Told.Reply told.now) }
    requires taken { HasReturn client.now serial call.now room.old }
    ensures pieces { IfOk result (λ speech. speech.pieces
        ≡ spoken serial (said_of client.now (Due.Portal call.now) (Told.Reply told.now))) }
    ensures serial { IfOk result (λ speech. speech.serial
        ≡ last_spoken serial (said_of client.now (Due.Portal call.now) (Told.Reply told.now))) }
    ensures lacks { OnErr result (IsMore call.now (Told.Reply told.now)) }
{
    if told.signals.len() > 0 {
        return say_reply(alloc, client, serial, call, told);
    }
    match take_little(&mut room.begun, &told.answer) {
        Some(begun) => {
            let pieces = &mut room.pieces;
            say_begun(alloc, serial, call, told, begun, pieces)
        }
        None => say_reply(alloc, client, serial, call, told),
    }
}

/// The signals, and behind them a reply, with memory of their own.
fn say_reply(
    alloc: Global,
    client: &Client,
    serial: u32,
    call: &Message,
    told: &Reply,
) -> Result<Speech, WantOfMemory>
    requires { CanTell (Due.Portal call.now) (Told.Reply told.now) }
    ensures pieces { IfOk result (λ speech. speech.pieces
        ≡ spoken serial (said_of client.now (Due.Portal call.now) (Told.Reply told.now))) }
    ensures serial { IfOk result (λ speech. speech.serial
        ≡ last_spoken serial (said_of client.now (Due.Portal call.now) (Told.Reply told.now))) }
{
    let answer = reply_message(alloc, &told.answer, call, &client.settings);
    say(alloc, serial, told.signals.as_slice(), call, answer)
}

/// A reply that tells little, where the call expects one: its return was begun. It stands alone in
/// this list, which is handed out then.
fn say_begun(
    alloc: Global,
    serial: u32,
    call: &Message,
    told: &Reply,
    begun: Begun,
    list: &mut Vec<ByteList>,
) -> Result<Speech, WantOfMemory>
    requires begun { (mountpoint : AList ℕ)
        × IsBegun mountpoint call.now (next_serial serial) begun }
    requires little { is_little begun.method told.now.answer ≡ true }
    requires to_call { IsToldTo call.now told.now.answer }
    ensures pieces { (mountpoint : AList ℕ) →
        IsBegun mountpoint call.now (next_serial serial) begun → IfOk result (λ speech.
        speech.pieces ≡ spoken serial
        (option_to_list (message_to call.now (reply_of mountpoint call.now told.now.answer)))) }
    ensures serial { (mountpoint : AList ℕ) →
        IsBegun mountpoint call.now (next_serial serial) begun → IfOk result (λ speech.
        speech.serial ≡ last_spoken serial
        (option_to_list (message_to call.now (reply_of mountpoint call.now told.now.answer)))) }
    ensures room { 0 < vec_capacity list.old → IsOk result }
{
    if !expects_reply(call) {
        return Ok(Speech {
            pieces: List::new(alloc),
            serial,
        });
    }
    let piece = finish(begun, &told.answer)?;
    one_piece(alloc, list, serial_after(serial), Some(piece))
}

/// The signals that tell of changes, and behind them the answer to a call,
/// where the call expects one.
fn say(
    alloc: Global,
    serial: u32,
    changes: &[Change],
    call: &Message,
    answer: Result<OutMessage, WantOfMemory>,
) -> Result<Speech, WantOfMemory>
    requires sound { list_all is_sound_change changes.now ≡ true }
    requires writable { IfOk answer IsWritable }
    ensures pieces { (message : AnOutMessage) → IfOk answer (λ a. a ≡ message)
        → IfOk result (λ speech. speech.pieces ≡ spoken serial (map signal_of changes.now
        ++ option_to_list (message_to call.now message))) }
    ensures serial { (message : AnOutMessage) → IfOk answer (λ a. a ≡ message)
        → IfOk result (λ speech. speech.serial ≡ last_spoken serial (map signal_of changes.now
        ++ option_to_list (message_to call.now message))) }
{
    match answer {
        Ok(message) => spoken(alloc, serial, changes, &reply_to(call, message)),
        Err(error) => Err(error),
    }
}

/// The frame that tells what became of a request on a node, where it has one.
fn node_frame(
    alloc: Global,
    buffer: &mut Vec<u8>,
    unique: u64,
    is_quiet: bool,
    told: Told,
) -> Result<Option<ByteList>, WantOfMemory>
    ensures frame { IfOk result (λ frame. option_to_list frame
        ≡ frames_due (Due.Node unique is_quiet) told) }
    ensures room { frame_room ≤ vec_capacity buffer.old
        → AreShort (frames_due (Due.Node unique is_quiet) told) → IsOk result }
{
    match told {
        Told::Nothing => Ok(None),
        // What rides in the reply is passed over: a mount waits for no change, so there is none.
        Told::Reply(reply) => answer_frame(alloc, buffer, unique, reply.answer),
        Told::Refused(_) if is_quiet => Ok(None),
        Told::Refused(refused) => refusal_frame(alloc, buffer, unique, refused),
    }
}
