//! The first 16 bytes of a message.
//!
//! Source: D-Bus Specification, "Message Format".

ghost use Rattle.std.specs.Prelude.{◌≡◌, ◌+◌, ◌<◌, ◌≤◌, ◌^◌, length};
ghost use Rattle.dbus_message.specs.Header.{number_at as number_in, endian_of as endian_in, fields_end as fields_end_in, body_start as body_start_in, stated_len as stated_len_in};

use byteorder::{BigEndian, ByteOrder, LittleEndian};
use dbus_types::types::Endian;

/// The first byte of a message whose numbers have their lowest byte first.
pub(crate) const LITTLE_ENDIAN: u8 = b'l';

/// The first byte of a message whose numbers have their highest byte first.
pub(crate) const BIG_ENDIAN: u8 = b'B';

/// The version of the protocol, which is byte 3.
pub(crate) const PROTOCOL_VERSION: u8 = 1;

/// Where the length of the body stands.
pub(crate) const BODY_LENGTH_AT: usize = 4;

/// Where the serial stands.
pub(crate) const SERIAL_AT: usize = 8;

/// Where the array of the fields begins, with its length in bytes.
pub(crate) const FIELDS_AT: usize = 12;

/// The length in bytes of what stands ahead of the first field.
pub(crate) const FIXED_LEN: usize = 16;

/// The offset of the body is a multiple of this.
pub(crate) const BODY_ALIGNMENT: usize = 8;

/// The number of 32 bits at an offset.
pub(crate) fn number_at(endian: Endian, bytes: &[u8], at: usize) -> u32
    requires { at + 4 ≤ length bytes.now }
    ensures { result ≡ number_in endian bytes.now at }
{
    let raw = &bytes[at..at + 4];
    match endian {
        Endian::Little => LittleEndian::read_u32(raw),
        Endian::Big => BigEndian::read_u32(raw),
    }
}

/// The order of the bytes of numbers.
pub(crate) fn endian_of(bytes: &[u8]) -> Endian
    requires { 0 < length bytes.now }
    ensures { result ≡ endian_in bytes.now }
{
    if bytes[0] == BIG_ENDIAN {
        Endian::Big
    } else {
        Endian::Little
    }
}

/// Where the fields end.
pub(crate) fn fields_end(bytes: &[u8]) -> usize
    requires { 16 ≤ length bytes.now }
    ensures at { result ≡ fields_end_in bytes.now }
    ensures small { result < 2 ^ 33 }
{
    FIXED_LEN + number_at(endian_of(bytes), bytes, FIELDS_AT) as usize
}

/// Where the body begins: at the next multiple of 8.
pub(crate) fn body_start(bytes: &[u8]) -> usize
    requires { 16 ≤ length bytes.now }
    ensures at { result ≡ body_start_in bytes.now }
    ensures small { result < 2 ^ 34 }
{
    fields_end(bytes).next_multiple_of(BODY_ALIGNMENT)
}

/// The length of the whole message.
pub(crate) fn stated_len(bytes: &[u8]) -> usize
    requires { 16 ≤ length bytes.now }
    ensures { result ≡ stated_len_in bytes.now }
{
    body_start(bytes) + number_at(endian_of(bytes), bytes, BODY_LENGTH_AT) as usize
}
