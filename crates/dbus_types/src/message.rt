//! Messages as they are read, and as they are to be written.
//!
//! Source: D-Bus Specification, "Message Format" and "Header Fields".

ghost use Rattle.std.specs.Prelude.{◌≡◌};
ghost use Rattle.dbus_types.specs.Messages.{error_reply, method_call, method_return, no_reply_expected, signal_emission};

use crate::types::{Endian, Value, WireType};
use portal_base::list::List;
use portal_base::text::Text;

/// The type of a method call.
pub const METHOD_CALL: u8 = 1;

/// The type of a method's return.
pub const METHOD_RETURN: u8 = 2;

/// The type of an error in place of a return.
pub const ERROR: u8 = 3;

/// The type of a signal.
pub const SIGNAL: u8 = 4;

/// The flag that no reply is expected.
pub const NO_REPLY_EXPECTED: u8 = 1;

/// The types of messages and the flag are the numbers of the standard.
///
/// It does nothing; its contract is the law.
pub fn message_types_are_told()
    ensures call { METHOD_CALL ≡ method_call }
    ensures method_return { METHOD_RETURN ≡ method_return }
    ensures error { ERROR ≡ error_reply }
    ensures signal { SIGNAL ≡ signal_emission }
    ensures flag { NO_REPLY_EXPECTED ≡ no_reply_expected }
{}

// Messages as plain data stand below the crates that read and write bytes, so that what makes and
// answers them needs neither.
/// A message that was read.
#[derive(Debug, Drop)]
pub struct Message {
    /// The order of the bytes of its numbers.
    pub endian: Endian,
    /// Its type: 1 for a call, 2 for a return, 3 for an error, 4 for a signal;
    /// others are to be ignored.
    pub kind: u8,
    /// Its flags, of which 1 says that no reply is expected.
    pub flags: u8,
    /// Its serial, which isn't 0.
    pub serial: u32,
    /// The field PATH: the object that is called, or that signals.
    pub path: Option<Text>,
    /// The field INTERFACE.
    pub interface: Option<Text>,
    /// The field MEMBER: the method or the signal.
    pub member: Option<Text>,
    /// The field ERROR_NAME.
    pub error: Option<Text>,
    /// The field REPLY_SERIAL: the serial of the call that is answered.
    pub reply_serial: Option<u32>,
    /// The types of the field SIGNATURE, none without it.
    pub signature: List<WireType>,
    /// The field UNIX_FDS: how many file descriptors come with the message; 0
    /// without it.
    pub fds: u32,
    /// The values of the body.
    pub body: List<Value>,
}

/// A message to be written.
#[derive(Debug, Drop)]
pub enum OutMessage {
    /// The return of a call.
    Return {
        /// The serial of the call.
        to: u32,
        /// What it returns.
        body: List<Value>,
    },
    /// An error in place of a return. Its body is one text, the part of its
    /// name after the last `.`.
    Error {
        /// The serial of the call.
        to: u32,
        /// The name of the error.
        name: Text,
    },
    /// A signal.
    Signal {
        /// The object that signals.
        path: Text,
        /// The interface of the signal.
        interface: Text,
        /// The name of the signal.
        member: Text,
        /// What it tells.
        body: List<Value>,
    },
}
