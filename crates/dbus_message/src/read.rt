//! Reading messages.
//!
//! Source: D-Bus Specification, "Message Format".

ghost use Rattle.std.specs.Prelude.{◌≡◌, ◌≤◌, ◌==◌, ℕ, length, drop, IfOk};
ghost use Rattle.std.specs.List.{list_all};
ghost use Rattle.dbus_types.specs.declared.message.Message.{Message as TheMessage};
ghost use Rattle.dbus_message.specs.Header.{endian_of as endian_in};
ghost use Rattle.dbus_message.specs.Rules.{IsWhole, IsFirstBroken};
ghost use Rattle.dbus_message.specs.Answers.{IsReadFields};
ghost use Rattle.dbus_message.specs.Messages.{SaysHeader, SaysFields, IsMessage, IsReadAs, IsRefusedFor, IsReading};

use crate::content::{Content, read_content};
use crate::error::{MessageError, broken};
use crate::fields::{
    ERROR_NAME, HIGHEST_CODE, INTERFACE, MEMBER, PATH, REPLY_SERIAL, SIGNATURE, UNIX_FDS, are_good,
    has_needed, number_of, take_text, text_of,
};
use crate::header::{FIELDS_AT, SERIAL_AT, body_start, endian_of, fields_end, number_at};
use crate::rule;
use dbus_marshal::header::{HeaderField, read_header};
use dbus_types::message::Message;
use dbus_types::types::Endian;
use portal_base::list::List;
use std::alloc::Global;

/// The fields of a message that have codes of the table, where its bytes are
/// given up to the end of the fields. The values of others are only checked.
fn read_fields(
    alloc: Global,
    endian: Endian,
    bytes: &[u8],
) -> Result<List<HeaderField>, MessageError>
    requires { 12 ≤ length bytes.now }
    ensures { IsReadFields endian (drop 12 bytes.now) result }
{
    match read_header(alloc, endian, bytes, FIELDS_AT, HIGHEST_CODE) {
        Ok(read) => {
            // A path or a signature of another form has failed as a spelling by now, and so breaks
            // this rule; a name of another form breaks the next.
            if read.next < bytes.len() {
                return Err(MessageError::Bad { rule: rule::FIELDS });
            }
            Ok(read.fields)
        }
        Err(error) => Err(broken(rule::FIELDS, error)),
    }
}

fn are_zeros(bytes: &[u8]) -> bool
    ensures { result ≡ list_all (λ b. b == 0) bytes.now }
{
    bytes.iter().all(|byte| *byte == 0)
}

/// The message that the header, the fields and the body say. Its texts are moved out
/// of the fields, and not copied.
fn message_of(endian: Endian, bytes: &[u8], fields: List<HeaderField>, content: Content) -> Message
    requires long { 16 ≤ length bytes.now }
    requires known { endian ≡ endian_in bytes.now }
    ensures header { SaysHeader bytes.now result }
    ensures fields { SaysFields fields result }
    ensures body { (result.signature ≡ content.types) × (result.body ≡ content.values) }
{
    let reply_serial = number_of(fields.as_slice(), REPLY_SERIAL);
    let fds = number_of(fields.as_slice(), UNIX_FDS).unwrap_or(0);
    let mut fields = fields.into_vec();
    let path = take_text(&mut fields, PATH);
    let interface = take_text(&mut fields, INTERFACE);
    let member = take_text(&mut fields, MEMBER);
    let error = take_text(&mut fields, ERROR_NAME);
    Message {
        endian,
        kind: bytes[1],
        flags: bytes[2],
        serial: number_at(endian, bytes, SERIAL_AT),
        path,
        interface,
        member,
        error,
        reply_serial,
        signature: content.types,
        fds,
        body: content.values,
    }
}

/// Reads a message, which is as long as its header states, and whose header
/// keeps the first five rules: `split` answers so.
///
/// `Bad` names the first of the other rules that the bytes break. Fields and
/// flags that are not known are passed over.
///
/// Source: D-Bus Specification, "Message Format".
pub fn read_message(alloc: Global, bytes: &[u8]) -> Result<Message, MessageError>
    requires { IsWhole bytes.now }
    ensures reading { IsReading bytes.now result }
    // What is a message is read as it.
    ensures only { (m : TheMessage) → IsMessage bytes.now m → IsReadAs m result }
    // What breaks a rule is refused for it.
    ensures refused { (rule : ℕ) → IsFirstBroken bytes.now rule → IsRefusedFor rule result }
{
    let endian = endian_of(bytes);
    let end = fields_end(bytes);
    let start = body_start(bytes);
    let fields = match read_fields(alloc, endian, &bytes[..end]) {
        Ok(fields) => fields,
        Err(error) => return Err(error),
    };
    if !are_good(fields.as_slice()) {
        return Err(MessageError::Bad { rule: rule::TABLE });
    }
    if !has_needed(bytes[1], fields.as_slice()) {
        return Err(MessageError::Bad { rule: rule::NEEDED });
    }
    if !are_zeros(&bytes[end..start]) {
        return Err(MessageError::Bad {
            rule: rule::PADDING,
        });
    }
    let signature = text_of(fields.as_slice(), SIGNATURE);
    match read_content(alloc, endian, signature, &bytes[start..]) {
        Ok(content) => Ok(message_of(endian, bytes, fields, content)),
        Err(error) => Err(error),
    }
}
