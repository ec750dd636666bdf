//! What an answer of the portal is told as.
//!
//! Source: D-Bus Specification, "Message Protocol".

ghost use Rattle.std.specs.Prelude.{◌≡◌, ℕ, ◌+◌, nat_le, length, map, IfOk};
ghost use Rattle.dbus_types.specs.declared.types.Endian.TheVariants.{Little};
ghost use Rattle.dbus_values.specs.Spelling.{spellings};
ghost use Rattle.dbus_types.specs.Types.{types_text};
ghost use Rattle.dbus_values.specs.Values.{type_of};
ghost use Rattle.dbus_values.specs.Spells.{gap};
ghost use Rattle.portal_model.specs.Changed.{message_limit};
ghost use Rattle.dbus_dispatch.specs.Replies.{error_of, error_in, return_or_limit, return_length, reply_of};
ghost use Rattle.dbus_calls.specs.declared.method.Method.{Method as AMethod};
ghost use Rattle.dbus_calls.specs.Calls.{found};
ghost use Rattle.dbus_dispatch.specs.Writable.{IsInUtf8, IsToldTo, IsWritable};

use crate::ask::{fits, returned};
use crate::body::body_of;
use dbus_calls::call::found;
use dbus_calls::error_name::ErrorName;
use dbus_marshal::write::write_value;
use dbus_types::message::{Message, OutMessage};
use dbus_types::types::Value;
use dbus_values::write::signature_text;
use portal_base::limits::Settings;
use portal_base::list::List;
use portal_base::memory::WantOfMemory;
use portal_model::reply::{Answer, Code};
use std::alloc::Global;

/// The longest message, in bytes.
const LONGEST_MESSAGE: usize = 16_777_216;

/// How many bytes of a return stand ahead of the text of its signature, with
/// the zero byte behind that text.
const AHEAD_OF_SIGNATURE: usize = 30;

/// The reply to a call whose request has this answer: the return with its
/// values, or the error. It is LimitsExceeded in place of a return that would
/// be longer than a message may be, and there alone.
///
/// Where the answer is as the portal gives it to such a call, the reply can be
/// written, with each serial that isn't 0.
pub fn reply_message(
    alloc: Global,
    answer: &Answer,
    call: &Message,
    settings: &Settings,
) -> Result<OutMessage, WantOfMemory>
    ensures replies { IfOk result (λ reply. reply
        ≡ reply_of settings.now.mountpoint call.now answer.now) }
    ensures writable { IsToldTo call.now answer.now → IfOk result IsWritable }
{
    let mountpoint = settings.mountpoint.as_bytes();
    fits(call.serial);
    reply_of(alloc, answer, call, mountpoint)
}

/// The same, by the mount point.
fn reply_of(
    alloc: Global,
    answer: &Answer,
    call: &Message,
    mountpoint: &[u8],
) -> Result<OutMessage, WantOfMemory>
    ensures told { IfOk result (λ reply. reply
        ≡ reply_of mountpoint.now call.now answer.now) }
    ensures utf8 { (method : AMethod) → found call.now ≡ Ok method
        → IfOk result (λ reply. IsInUtf8 answer.now) }
{
    let method = match found(call) {
        Ok(method) => method,
        Err(error) => return error.answer_to(alloc, call),
    };
    match error_in(answer) {
        Some(error) => error.answer_to(alloc, call),
        None => match body_of(alloc, method, mountpoint, answer) {
            Ok(body) => return_or_limit(alloc, call, body),
            Err(error) => Err(error),
        },
    }
}

/// The error of a refusal.
fn error_of(code: Code) -> ErrorName
    ensures { result ≡ error_of code }
{
    match code {
        Code::InvalidArgs => ErrorName::InvalidArgs,
        Code::AccessDenied => ErrorName::AccessDenied,
        Code::LimitsExceeded => ErrorName::LimitsExceeded,
        Code::NotFound => ErrorName::NotFound,
        Code::NotAllowed => ErrorName::NotAllowed,
        Code::InvalidArgument => ErrorName::InvalidArgument,
        // An answer to a request on a node is none that the portal gives to a call.
        Code::Failed | Code::Errno(_) | Code::NotHere => ErrorName::Failed,
    }
}

/// The error that an answer is.
fn error_in(answer: &Answer) -> Option<ErrorName>
    ensures { result ≡ error_in answer.now }
{
    match answer {
        Answer::Refused(code) => Some(error_of(*code)),
        Answer::Node(_) => Some(ErrorName::Failed),
        _ => None,
    }
}

/// The return of a call, or the error where it would be too long.
fn return_or_limit(
    alloc: Global,
    call: &Message,
    body: List<Value>,
) -> Result<OutMessage, WantOfMemory>
    ensures { IfOk result (λ reply. reply ≡ return_or_limit call.now body) }
{
    match is_within_limit(alloc, call, body.as_slice()) {
        Ok(true) => Ok(returned(call, body)),
        Ok(false) => ErrorName::LimitsExceeded.answer_to(alloc, call),
        Err(error) => Err(error),
    }
}

/// Says whether the return of a call is no longer than a message may be.
fn is_within_limit(alloc: Global, call: &Message, body: &[Value]) -> Result<bool, WantOfMemory>
    ensures { IfOk result (λ within. within
        ≡ nat_le (return_length call.now body.now) message_limit) }
{
    if body.is_empty() {
        return Ok(true);
    }
    // No call tells how long a spelling is without writing it, so the return is spelled once more.
    let signature = signature_len(alloc, body)?;
    let values = body_len(alloc, body)?;
    Ok(is_short(signature, values))
}

/// How long the text of the signature of values is.
fn signature_len(alloc: Global, body: &[Value]) -> Result<usize, WantOfMemory>
    ensures { IfOk result (λ len. len ≡ length (types_text (map type_of body.now))) }
{
    Ok(signature_text(alloc, body)?.len())
}

/// How many bytes the spellings of values take, one after another.
fn body_len(alloc: Global, body: &[Value]) -> Result<usize, WantOfMemory>
    ensures { IfOk result (λ len. len ≡ length (spellings Little 0 body.now)) }
{
    let mut bytes = List::new(alloc);
    for value in body {
        write_value(&mut bytes, value)?;
    }
    Ok(bytes.len())
}

/// Says whether a return is within the limit, by the length of the text of its
/// signature and of its body.
fn is_short(signature: usize, body: usize) -> bool
    ensures { result ≡ nat_le (30 + signature + gap 8 (30 + signature) + body) message_limit }
{
    if signature > LONGEST_MESSAGE || body > LONGEST_MESSAGE {
        return false;
    }
    let fields = AHEAD_OF_SIGNATURE + signature;
    let header = fields + (8 - fields % 8) % 8;
    header + body <= LONGEST_MESSAGE
}
