//! Messages, cut from a stream and read.

ghost use Rattle.dbus_message.specs.Rules.{IsWhole};

use crate::calls::put_asked;
use crate::names::put_kinds;
use crate::parts::{put_after, put_values};
use dbus_message::read::read_message;
use dbus_message::split::split;
use dbus_types::message::Message;
use dbus_types::types::Endian;
use portal_base::split::Split;
use portal_base::text::Text;
use std::alloc::Global;
use vector_lines::error::LineError;
use vector_lines::notation::bytes;
use vector_lines::output::Output;

/// `split BYTES`: whether a message stands at the front of the bytes.
/// `message BYTES`: the message that the bytes are, or the rule that they break
/// first; `More`, or `Whole` with its length, where they are not one message.
/// `asks BYTES`: what the message of these bytes asks.
pub fn message(alloc: Global, out: &mut Output, kind: &str, rest: &str) -> Result<(), LineError> {
    let bytes = bytes(alloc, rest)?;
    let bytes = bytes.as_slice();
    match split(bytes) {
        Split::Whole { len } if len == bytes.len() && kind != "split" => {
            put_read(alloc, out, kind, bytes)
        }
        found => {
            out.debug(&found);
            Ok(())
        }
    }
}

fn put_read(alloc: Global, out: &mut Output, kind: &str, bytes: &[u8]) -> Result<(), LineError>
    requires { IsWhole bytes.now }
{
    match read_message(alloc, bytes) {
        Ok(message) => {
            if kind == "asks" {
                put_asked(alloc, out, &message, None)
            } else {
                put_message(alloc, out, &message);
                Ok(())
            }
        }
        Err(error) => {
            out.debug(&error);
            Ok(())
        }
    }
}

/// The parts of a message: the order of its bytes, its type, flags and serial,
/// the fields that it has by their names, and its body.
fn put_message(alloc: Global, out: &mut Output, message: &Message) {
    out.text(match message.endian {
        Endian::Little => "l",
        Endian::Big => "B",
    });
    put_after(out, " type ", &message.kind);
    put_after(out, " flags ", &message.flags);
    put_after(out, " serial ", &message.serial);
    put_text(out, " path ", &message.path);
    put_text(out, " interface ", &message.interface);
    put_text(out, " member ", &message.member);
    put_text(out, " error ", &message.error);
    if let Some(serial) = message.reply_serial {
        put_after(out, " reply to ", &serial);
    }
    if message.fds != 0 {
        put_after(out, " fds ", &message.fds);
    }
    if !message.signature.is_empty() {
        out.text(" body ");
        put_kinds(alloc, out, message.signature.as_slice());
        put_values(out, &message.body);
    }
}

fn put_text(out: &mut Output, name: &str, field: &Option<Text>) {
    if let Some(text) = field {
        out.text(name);
        out.text(text.as_str());
    }
}
