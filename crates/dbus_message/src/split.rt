//! Cutting messages from a stream.
//!
//! Source: D-Bus Specification, "Message Format".

ghost use Rattle.std.specs.Prelude.{◌≡◌, ◌≤◌, length, MatchOption};
ghost use Rattle.dbus_message.specs.Rules.{KeepsHeader, IsFirstBroken};
ghost use Rattle.dbus_message.specs.Messages.{IsSplit};

use crate::header::{
    BIG_ENDIAN, FIXED_LEN, LITTLE_ENDIAN, PROTOCOL_VERSION, SERIAL_AT, endian_of, number_at,
    stated_len,
};
use crate::rule;
use portal_base::split::Split;

/// The greatest length of a message in bytes.
const LONGEST: usize = 16_777_216;

/// The first of the five rules of the header that the bytes break.
fn broken_header(bytes: &[u8]) -> Option<u32>
    requires { 16 ≤ length bytes.now }
    ensures { MatchOption result (KeepsHeader bytes.now) (λ rule. (rule ≤ 5)
        × IsFirstBroken bytes.now rule) }
{
    if bytes[0] != LITTLE_ENDIAN && bytes[0] != BIG_ENDIAN {
        return Some(rule::ENDIAN);
    }
    if bytes[1] == 0 {
        return Some(rule::KIND);
    }
    if bytes[3] != PROTOCOL_VERSION {
        return Some(rule::VERSION);
    }
    if number_at(endian_of(bytes), bytes, SERIAL_AT) == 0 {
        return Some(rule::SERIAL);
    }
    if stated_len(bytes) > LONGEST {
        return Some(rule::LENGTH);
    }
    None
}

/// Says whether a message stands at the front of the bytes, and its length.
///
/// The rules of the header are looked at as soon as 16 bytes are there: `Bad`
/// names the first of 1 to 5 that they break. No memory is taken.
pub fn split(bytes: &[u8]) -> Split
    ensures { IsSplit bytes.now result }
{
    if bytes.len() < FIXED_LEN {
        return Split::More;
    }
    // A header that breaks a rule is told as soon as it is there, however many bytes it says will
    // follow.
    match broken_header(bytes) {
        Some(rule) => Split::Bad { rule },
        None => {
            let len = stated_len(bytes);
            if bytes.len() < len {
                Split::More
            } else {
                Split::Whole { len }
            }
        }
    }
}
