//! Writing messages.
//!
//! Source: D-Bus Specification, "Message Format" and "Header Fields".

ghost use Rattle.std.specs.Prelude.{◌≡◌, ◌≢◌, ◌++◌, ◌==◌, [], ◌∷◌, length, IfOk, OnOk, List, ℕ};
ghost use Rattle.std.specs.Int.{w32};
ghost use Rattle.dbus_types.specs.declared.types.Endian.TheVariants.{Little};
ghost use Rattle.dbus_types.specs.declared.types.Value.TheVariants as V;
ghost use Rattle.dbus_values.specs.Spells.{number};
ghost use Rattle.dbus_values.specs.Spelling.{spelling, spellings};
ghost use Rattle.dbus_message.specs.Fields.{field_type};
ghost use Rattle.dbus_message.specs.Messages.{IsMessage};
ghost use Rattle.dbus_message.specs.Written.{last_part as part_after, kind_out, body_out, return_fields, fields_out, front_bytes, IsWritten, CanWrite, stands_for};

use crate::fields::{ERROR_NAME, INTERFACE, MEMBER, PATH, REPLY_SERIAL, SIGNATURE};
use crate::header::{
    BODY_ALIGNMENT, BODY_LENGTH_AT, FIELDS_AT, FIXED_LEN, LITTLE_ENDIAN, PROTOCOL_VERSION,
};
use dbus_marshal::header_field::{
    write_number_field, write_path_field, write_signature_field, write_text_field,
};
use dbus_marshal::write::{overwrite_length, pad, write_all};
use dbus_types::message::{ERROR, METHOD_RETURN, NO_REPLY_EXPECTED, OutMessage, SIGNAL};
use dbus_types::types::Value;
use portal_base::list::{ByteList, List};
use portal_base::memory::WantOfMemory;
use portal_base::text::Text;
use std::alloc::Global;

/// The part of a name after its last `.`.
fn last_part(name: &str) -> &str
    ensures { result.now ≡ part_after name.now }
{
    match name.rsplit_once('.') {
        Some((_, last)) => last,
        None => name,
    }
}

/// Puts the fields of a return.
fn put_return_fields(out: &mut ByteList, to: u32, body: &[Value]) -> Result<(), WantOfMemory>
    ensures { OnOk result (out.new ≡ out.old
        ++ spellings Little (length out.old) (return_fields to body.now)) }
{
    write_number_field(out, REPLY_SERIAL, to)?;
    // A return without a body has no SIGNATURE, where a signal has one.
    if body.is_empty() {
        return Ok(());
    }
    write_signature_field(out, SIGNATURE, body)
}

/// Puts the fields of a message, in rising order of their codes.
fn put_fields(out: &mut ByteList, message: &OutMessage, body: &[Value]) -> Result<(), WantOfMemory>
    requires { body.now ≡ body_out message.now }
    ensures { OnOk result (out.new ≡ out.old
        ++ spellings Little (length out.old) (fields_out message.now)) }
{
    match message {
        OutMessage::Return { to, .. } => put_return_fields(out, *to, body),
        OutMessage::Error { to, name } => {
            write_text_field(out, ERROR_NAME, name.as_bytes())?;
            write_number_field(out, REPLY_SERIAL, *to)?;
            write_signature_field(out, SIGNATURE, body)
        }
        OutMessage::Signal {
            path,
            interface,
            member,
            ..
        } => {
            write_path_field(out, PATH, path.as_bytes())?;
            write_text_field(out, INTERFACE, interface.as_bytes())?;
            write_text_field(out, MEMBER, member.as_bytes())?;
            write_signature_field(out, SIGNATURE, body)
        }
    }
}

fn kind_of(message: &OutMessage) -> u8
    ensures { result ≡ kind_out message.now }
{
    match message {
        OutMessage::Return { .. } => METHOD_RETURN,
        OutMessage::Error { .. } => ERROR,
        OutMessage::Signal { .. } => SIGNAL,
    }
}

/// The header of a message up to its last field. Its body's length is still to
/// be put into it; that of the fields is put behind them.
fn header(
    alloc: Global,
    message: &OutMessage,
    body: &[Value],
    serial: u32,
) -> Result<ByteList, WantOfMemory>
    requires { body.now ≡ body_out message.now }
    ensures { IfOk result (λ bytes. bytes ≡ (108 ∷ kind_out message.now ∷ 1 ∷ 1 ∷ 0 ∷ 0 ∷ 0 ∷ 0
        ∷ number Little w32 serial)
        ++ spelling Little 12 (V.Array field_type (fields_out message.now))) }
{
    let mut bytes = List::new(alloc);
    let kind = kind_of(message);
    bytes.extend_from_slice(&[LITTLE_ENDIAN, kind, NO_REPLY_EXPECTED, PROTOCOL_VERSION])?;
    bytes.extend_from_slice(&[0, 0, 0, 0])?;
    bytes.extend_from_slice(&serial.to_le_bytes())?;
    bytes.extend_from_slice(&[0, 0, 0, 0])?;
    put_fields(&mut bytes, message, body)?;
    let len = bytes.len() - FIXED_LEN;
    overwrite_length(&mut bytes, FIELDS_AT, len);
    Ok(bytes)
}

/// The header of a message, and the padding behind it.
fn front_of(
    alloc: Global,
    message: &OutMessage,
    body: &[Value],
    serial: u32,
) -> Result<ByteList, WantOfMemory>
    requires { body.now ≡ body_out message.now }
    ensures { IfOk result (λ bytes. bytes ≡ front_bytes message.now serial) }
{
    let mut bytes = header(alloc, message, body, serial)?;
    pad(&mut bytes, BODY_ALIGNMENT)?;
    Ok(bytes)
}

/// The bytes of a message up to its body. The body's length is still to be put into them, in the
/// four bytes from the fifth on.
pub fn write_front(
    alloc: Global,
    message: &OutMessage,
    serial: u32,
) -> Result<ByteList, WantOfMemory>
    ensures { IfOk result (λ bytes. bytes ≡ front_bytes message.now serial) }
{
    match message {
        OutMessage::Return { body, .. } => front_of(alloc, message, body.as_slice(), serial),
        OutMessage::Signal { body, .. } => front_of(alloc, message, body.as_slice(), serial),
        OutMessage::Error { name, .. } => {
            let text = Text::copied(alloc, last_part(name.as_str()))?;
            let mut body = List::new(alloc);
            body.push(Value::Str(text))?;
            front_of(alloc, message, body.as_slice(), serial)
        }
    }
}

/// The bytes of a message with a body. It is put behind the header, and then
/// its length into the header.
fn write_with(
    alloc: Global,
    message: &OutMessage,
    body: &[Value],
    serial: u32,
) -> Result<ByteList, WantOfMemory>
    requires { body.now ≡ body_out message.now }
    ensures { (text : List ℕ) → IsWritten message.now serial text
        → IfOk result (λ bytes. bytes ≡ text) }
{
    let mut bytes = header(alloc, message, body, serial)?;
    pad(&mut bytes, BODY_ALIGNMENT)?;
    let start = bytes.len();
    write_all(&mut bytes, body)?;
    let len = bytes.len() - start;
    overwrite_length(&mut bytes, BODY_LENGTH_AT, len);
    Ok(bytes)
}

/// Writes a message with a serial: with the lowest byte of each number first,
/// the flag that no reply is expected, and the fields in rising order.
///
/// Source: D-Bus Specification, "Message Format" and "Header Fields".
pub fn write_message(
    alloc: Global,
    message: &OutMessage,
    serial: u32,
) -> Result<ByteList, WantOfMemory>
    requires { CanWrite message.now serial }
    ensures written { IfOk result (λ bytes. IsWritten message.now serial bytes) }
    // There is no other spelling.
    ensures one { (text : List ℕ) → IsWritten message.now serial text
        → IfOk result (λ bytes. bytes ≡ text) }
    // What was written is read again.
    ensures message { IfOk result (λ bytes. IsMessage bytes (stands_for message.now serial)) }
{
    // That the parts are of their kinds and that it is short enough is asked for, and not checked
    // again.
    match message {
        OutMessage::Return { body, .. } => write_with(alloc, message, body.as_slice(), serial),
        OutMessage::Signal { body, .. } => write_with(alloc, message, body.as_slice(), serial),
        OutMessage::Error { name, .. } => {
            let text = Text::copied(alloc, last_part(name.as_str()))?;
            let mut body = List::new(alloc);
            body.push(Value::Str(text))?;
            write_with(alloc, message, body.as_slice(), serial)
        }
    }
}
