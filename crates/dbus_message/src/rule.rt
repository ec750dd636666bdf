//! The rules of a message, by number, in the order in which a reader looks for
//! them.
//!
//! Source: D-Bus Specification, "Message Format" and "Header Fields".

/// Byte 0 is `l` or `B`.
pub const ENDIAN: u32 = 1;

/// The type of the message isn't 0.
pub const KIND: u32 = 2;

/// The version of the protocol is 1.
pub const VERSION: u32 = 3;

/// The serial isn't 0.
pub const SERIAL: u32 = 4;

/// The whole message has at most 16,777,216 bytes.
pub const LENGTH: u32 = 5;

/// The fields are a spelling of `a(yv)`.
pub const FIELDS: u32 = 6;

/// Each field is one that the table of header fields allows, and no code of the
/// table stands twice.
pub const TABLE: u32 = 7;

/// No field that the message's type needs is missing.
pub const NEEDED: u32 = 8;

/// The padding ahead of the body is zero.
pub const PADDING: u32 = 9;

/// The body is the spelling of values of the SIGNATURE's types.
pub const BODY: u32 = 10;

/// A body that isn't empty has a SIGNATURE.
pub const EXPLAINED: u32 = 11;
