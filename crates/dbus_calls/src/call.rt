//! Which method a call asks for, or which refusal comes first.
//!
//! Source: D-Bus Specification, "Header Fields" and "Method Calls".

ghost use Rattle.std.specs.Prelude.{◌≡◌, [], unwrap_or};
ghost use Rattle.dbus_calls.specs.Calls.{object_of, names_ping, found, called};

use crate::error_name::ErrorName;
use crate::interface::interface_named;
use crate::method::{Method, method_at, method_named};
use crate::object::{Object, object_at};
use crate::signature::have_signature;
use dbus_types::message::Message;
use portal_base::text::Text;

/// The object that a call is sent to.
pub fn object_of(call: &Message) -> Object
    ensures { result ≡ object_of call.now }
{
    object_at(bytes_of(&call.path))
}

/// The method that a call asks for, or the first refusal that applies: of the
/// object, of the interface, of the method, of the signature.
///
/// A call that names no interface means the one interface of its object that
/// has the member.
pub fn called(call: &Message) -> Result<Method, ErrorName>
    ensures { result ≡ called call.now }
{
    let method = match found(call) {
        Ok(method) => method,
        Err(error) => return Err(error),
    };
    // The signature is compared as its text. A message that was read has arguments of its types.
    if have_signature(call.signature.as_slice(), method.takes()) {
        Ok(method)
    } else {
        Err(ErrorName::InvalidArgs)
    }
}

/// The method that a call means, or the first refusal but that of the
/// signature.
pub fn found(call: &Message) -> Result<Method, ErrorName>
    ensures { result ≡ found call.now }
{
    let object = object_of(call);
    // A path that names no object counts as one with Peer alone, of which Ping is answered where
    // its interface is named.
    if object == Object::Nothing && !names_ping(call) {
        return Err(ErrorName::UnknownObject);
    }
    let member = bytes_of(&call.member);
    let method = match &call.interface {
        Some(name) => match interface_named(object, name.as_bytes()) {
            Some(interface) => method_named(interface, member),
            None => return Err(ErrorName::UnknownInterface),
        },
        None => method_at(object, member),
    };
    method.ok_or(ErrorName::UnknownMethod)
}

/// Says whether a call names Ping with its interface.
fn names_ping(call: &Message) -> bool
    ensures { result ≡ names_ping call.now }
{
    bytes_of(&call.interface) == b"org.freedesktop.DBus.Peer".as_slice()
        && bytes_of(&call.member) == b"Ping".as_slice()
}

/// The bytes of a field; none where it is missing.
fn bytes_of(field: &Option<Text>) -> &[u8]
    ensures { result.now ≡ unwrap_or field.now [] }
{
    match field {
        Some(text) => text.as_bytes(),
        None => b"",
    }
}
