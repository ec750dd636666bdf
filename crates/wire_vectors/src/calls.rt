//! Calls: what they ask, and what they are told.

ghost use Rattle.std.specs.Prelude.{◌≢◌};
ghost use Rattle.dbus_dispatch.specs.Writable.{CanBeAnswered};

use crate::answers::{answer_of, letters, put_made, put_message, text};
use crate::parts::{put_after, put_digits};
use crate::requests::put_request;
use crate::stack::byte;
use dbus_dispatch::ask::{Ask, expects_reply, request_of};
use dbus_dispatch::refused::refused_message;
use dbus_dispatch::reply::reply_message;
use dbus_message::write::write_message;
use dbus_types::equal::is_byte;
use dbus_types::message::Message;
use dbus_types::signature::read_signature;
use dbus_types::types::{Endian, Value, WireType};
use portal_base::boxed::Boxed;
use portal_base::limits::{Limits, Settings};
use portal_base::list::List;
use portal_base::names::host_path::HostPath;
use portal_base::text::Text;
use portal_model::reply::{Answer, Refused};
use std::alloc::Global;
use vector_lines::error::LineError;
use vector_lines::notation::{cut, small_number};
use vector_lines::output::Output;

/// What a call with the serial 7 is answered:
///
/// - `call PATH INTERFACE MEMBER SIGNATURE ARGUMENT ..`: without the portal, or what it asks the
///   portal. `-` stands for no interface and for no arguments' types; each argument is a text. `*`
///   is for each type its first value.
/// - `reply SERIAL PATH INTERFACE MEMBER SIGNATURE ARGUMENT ..`: the bytes of the answer to the
///   same call, with that serial.
/// - `ping TYPE FLAGS`: to a message of this type and these flags that names Ping on `/`, and
///   whether the answer is written.
/// - `told PATH MEMBER ANSWER`: with this answer of the portal.
/// - `long N`: with an identifier of N letters, `returns`, or the error in its place.
/// - `refused memory` or `refused full`: where the request is no entry of the history.
pub fn call(alloc: Global, out: &mut Output, kind: &str, rest: &str) -> Result<(), LineError> {
    let mut call = first_call(alloc);
    put_by_kind(alloc, out, kind, &mut call, rest)
}

/// A call without a path, a name or arguments.
fn first_call(alloc: Global) -> Message {
    Message {
        endian: Endian::Big,
        kind: 1,
        flags: 0,
        serial: 7,
        path: None,
        interface: None,
        member: None,
        error: None,
        reply_serial: None,
        signature: List::new(alloc),
        fds: 0,
        body: List::new(alloc),
    }
}

fn put_by_kind(
    alloc: Global,
    out: &mut Output,
    kind: &str,
    call: &mut Message,
    rest: &str,
) -> Result<(), LineError> {
    match kind {
        "call" => {
            fill(alloc, call, rest)?;
            put_asked(alloc, out, call, None)
        }
        "reply" => {
            let (serial, rest) = cut(rest);
            let serial = small_number(serial)?;
            fill(alloc, call, rest)?;
            put_asked(alloc, out, call, Some(serial))
        }
        "ping" => put_ping(alloc, out, call, rest),
        "told" => put_told(alloc, out, call, rest),
        "long" => put_long(alloc, out, call, rest),
        _ => put_refused(alloc, out, call, rest),
    }
}

/// Gives a call what the words of a line name.
fn fill(alloc: Global, call: &mut Message, words: &str) -> Result<(), LineError> {
    let (path, rest) = cut(words);
    let (interface, rest) = cut(rest);
    let (member, rest) = cut(rest);
    let (signature, arguments) = cut(rest);
    call.path = field(alloc, path)?;
    call.interface = field(alloc, interface)?;
    call.member = field(alloc, member)?;
    if signature != "-" {
        call.signature = read_signature(alloc, signature.as_bytes())?;
    }
    if arguments == "*" {
        put_blanks(alloc, &mut call.body, call.signature.as_slice())
    } else {
        put_texts(alloc, &mut call.body, arguments)
    }
}

/// A text, or nothing for `-`.
fn field(alloc: Global, word: &str) -> Result<Option<Text>, LineError> {
    match word {
        "-" => Ok(None),
        _ => Ok(Some(Text::copied(alloc, word)?)),
    }
}

/// Texts with spaces between them as values; `-` is the empty text.
fn put_texts(alloc: Global, values: &mut List<Value>, words: &str) -> Result<(), LineError> {
    for word in words.split_whitespace() {
        values.push(Value::Str(text(alloc, word)?))?;
    }
    Ok(())
}

/// For each type its first value: an empty text or array, 0 or false, and in a
/// variant the byte 0.
fn put_blanks(
    alloc: Global,
    values: &mut List<Value>,
    kinds: &[WireType],
) -> Result<(), LineError> {
    for kind in kinds {
        values.push(blank(alloc, kind)?)?;
    }
    Ok(())
}

fn blank(alloc: Global, kind: &WireType) -> Result<Value, LineError> {
    match kind {
        WireType::Bool => Ok(Value::Bool(false)),
        WireType::U32 => Ok(Value::U32(0)),
        WireType::Handle => Ok(Value::Handle(0)),
        WireType::Str => Ok(Value::Str(Text::new(alloc))),
        WireType::Variant => Ok(Value::Variant(Boxed::new(alloc, Value::Byte(0))?)),
        WireType::Array(element) if is_byte(element.get()) => Ok(Value::Bytes(List::new(alloc))),
        WireType::Array(element) => Ok(Value::Array {
            element: element.share()?,
            items: List::new(alloc),
        }),
        _ => Ok(Value::Byte(0)),
    }
}

fn settings(alloc: Global) -> Result<Settings, LineError> {
    Ok(Settings {
        limits: Limits {
            documents: 1,
            made: 1,
            history: 1,
            handles: 1,
            queued: 1,
            file_bytes: 1,
        },
        mountpoint: HostPath::read(alloc, b"/run/doc")?,
        guid: [0; 16],
    })
}

/// What a message asks. With a serial what is answered without the portal is in bytes.
pub fn put_asked(
    alloc: Global,
    out: &mut Output,
    message: &Message,
    serial: Option<u32>,
) -> Result<(), LineError> {
    let settings = settings(alloc)?;
    let ask = request_of(alloc, message, &settings)?;
    match serial {
        Some(serial) if serial != 0 => put_answered(alloc, out, &ask, serial),
        _ => put_shown(out, &ask),
    }
    Ok(())
}

/// The bytes of what is answered without the portal, with this serial.
fn put_answered(alloc: Global, out: &mut Output, ask: &Ask, serial: u32)
    requires answers { CanBeAnswered ask.now }
    requires serial { serial ≢ 0 }
{
    match ask {
        Ask::Local(message) => put_digits(out, write_message(alloc, message, serial)),
        ask => put_shown(out, ask),
    }
}

fn put_shown(out: &mut Output, ask: &Ask) {
    match ask {
        Ask::Local(message) => put_message(out, message),
        Ask::Ignore => out.text("ignored"),
        Ask::Portal(request) => put_request(out, request),
    }
}

/// What a Ping of this type and these flags asks, and whether its answer is written.
fn put_ping(
    alloc: Global,
    out: &mut Output,
    ping: &mut Message,
    words: &str,
) -> Result<(), LineError> {
    let (kind, flags) = cut(words);
    ping.kind = byte(kind)?;
    ping.flags = byte(flags)?;
    fill(alloc, ping, "/ org.freedesktop.DBus.Peer Ping -")?;
    put_asked(alloc, out, ping, None)?;
    put_after(out, " ", &expects_reply(ping));
    Ok(())
}

/// What a call of a method is told with an answer.
fn put_told(
    alloc: Global,
    out: &mut Output,
    call: &mut Message,
    words: &str,
) -> Result<(), LineError> {
    let (path, words) = cut(words);
    let (member, words) = cut(words);
    call.path = field(alloc, path)?;
    call.member = field(alloc, member)?;
    let answer = answer_of(alloc, words)?;
    put_reply(alloc, out, call, &answer, false)
}

/// What a call is told with an identifier of so many letters.
fn put_long(
    alloc: Global,
    out: &mut Output,
    call: &mut Message,
    count: &str,
) -> Result<(), LineError> {
    let count = small_number(count)?;
    fill(alloc, call, "/org/freedesktop/portal/documents - Lookup -")?;
    let answer = letters(alloc, count)?;
    put_reply(alloc, out, call, &answer, true)
}

fn put_reply(
    alloc: Global,
    out: &mut Output,
    call: &Message,
    answer: &Answer,
    is_brief: bool,
) -> Result<(), LineError> {
    let settings = settings(alloc)?;
    put_made(
        out,
        &reply_message(alloc, answer, call, &settings),
        is_brief,
    );
    Ok(())
}

/// What a call is told that was refused.
fn put_refused(
    alloc: Global,
    out: &mut Output,
    call: &mut Message,
    word: &str,
) -> Result<(), LineError> {
    let refused = match word {
        "memory" => Refused::Memory,
        "full" => Refused::Full {
            cost: 262,
            limit: 262,
        },
        _ => return Err(LineError::BadLine),
    };
    fill(alloc, call, "/ - Add hbb")?;
    put_made(out, &refused_message(alloc, &refused, call), false);
    Ok(())
}
