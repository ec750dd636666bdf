//! What a message asks.
//!
//! Source: D-Bus Specification, "Message Protocol" and "Standard Interfaces".

ghost use Rattle.std.specs.Prelude.{◌≡◌, ◌≢◌, ◌<◌, ◌^◌, ◌↔◌, [], ◌∷◌, IfOk};
ghost use Rattle.dbus_requests.specs.Arguments.{request_in};
ghost use Rattle.dbus_dispatch.specs.Asks.{ask_of, asked, asked_of_portal, returned, expects_reply};
ghost use Rattle.dbus_dispatch.specs.Writable.{CanBeAnswered};

use crate::body::{closed_bytes, only};
use crate::properties::{dictionary, interface_in, value_in, variant};
use dbus_calls::call::{called, object_of};
use dbus_calls::error_name::ErrorName;
use dbus_calls::method::Method;
use dbus_requests::request::request_in;
use dbus_types::message::{METHOD_CALL, Message, NO_REPLY_EXPECTED, OutMessage};
use dbus_types::types::Value;
use portal_base::limits::Settings;
use portal_base::list::List;
use portal_base::memory::WantOfMemory;
use portal_model::request::Request;
use std::alloc::Global;

/// What a message asks.
#[derive(Drop)]
pub enum Ask {
    /// This answer, and nothing of the portal. It is written only where the
    /// call expects a reply.
    Local(OutMessage),
    /// Nothing: the message is no call.
    Ignore,
    /// This request to the portal.
    Portal(Request),
}

/// Says whether a message is a call that expects a reply, be it a return or an
/// error. A call that expects none is answered all the same, and the answer
/// isn't written.
pub fn expects_reply(message: &Message) -> bool
    ensures { result ≡ expects_reply message.now }
{
    // A call that expects no reply asks what it would ask with one, since signals that wait go out
    // at its place too.
    message.kind == METHOD_CALL && message.flags & NO_REPLY_EXPECTED == 0
}

/// Says what a message asks. What it answers can be written, with each serial
/// that isn't 0.
pub fn request_of(
    alloc: Global,
    message: &Message,
    settings: &Settings,
) -> Result<Ask, WantOfMemory>
    ensures asks { IfOk result (λ ask. ask ≡ ask_of settings.now message.now) }
    ensures writable { IfOk result CanBeAnswered }
    ensures ignored { IfOk result (λ ask. (ask ≡ Ask.Ignore) ↔ (message.now.kind ≢ METHOD_CALL)) }
{
    if message.kind != METHOD_CALL {
        return Ok(Ask::Ignore);
    }
    // A path on the host tells its rule here, which is what an answer with it needs to be written.
    let mountpoint = settings.mountpoint.as_bytes();
    fits(message.serial);
    match called(message) {
        Ok(method) => asked(alloc, message, mountpoint, method),
        Err(error) => Ok(Ask::Local(error.answer_to(alloc, message)?)),
    }
}

/// Says to a caller's proof that a serial is a number of 32 bits.
pub(crate) fn fits(serial: u32)
    ensures { serial < 2 ^ 32 }
{}

/// What a call of a method asks that no rule refuses.
fn asked(
    alloc: Global,
    call: &Message,
    mountpoint: &[u8],
    method: Method,
) -> Result<Ask, WantOfMemory>
    ensures { IfOk result (λ ask. ask ≡ asked mountpoint.now call.now method) }
{
    let answer = match method {
        Method::Ping => returned(call, List::new(alloc)),
        Method::Get => match value_in(object_of(call), call.body.as_slice()) {
            Ok(number) => returned(call, only(alloc, variant(alloc, number)?)?),
            Err(error) => error.answer_to(alloc, call)?,
        },
        Method::GetAll => match interface_in(object_of(call), call.body.as_slice()) {
            Ok(interface) => returned(call, only(alloc, dictionary(alloc, interface)?)?),
            Err(error) => error.answer_to(alloc, call)?,
        },
        Method::GetMountPoint => {
            let path = closed_bytes(alloc, mountpoint)?;
            returned(call, only(alloc, path)?)
        }
        _ => return asked_of_portal(alloc, call, method),
    };
    Ok(Ask::Local(answer))
}

/// What a call asks the portal, or the refusal of arguments that aren't those
/// of its method.
fn asked_of_portal(alloc: Global, call: &Message, method: Method) -> Result<Ask, WantOfMemory>
    ensures { IfOk result (λ ask. ask ≡ asked_of_portal call.now (request_in call.now method)) }
{
    match request_in(alloc, call, method)? {
        Some(request) => Ok(Ask::Portal(request)),
        None => Ok(Ask::Local(ErrorName::InvalidArgs.answer_to(alloc, call)?)),
    }
}

/// The return of a call.
pub(crate) fn returned(call: &Message, body: List<Value>) -> OutMessage
    ensures { result ≡ returned call.now body }
{
    OutMessage::Return {
        to: call.serial,
        body,
    }
}
