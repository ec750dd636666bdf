//! Reading the pieces that values are spelled with, each at an offset.
//!
//! Source: D-Bus Specification, "Marshaling (Wire Format)".

ghost use Rattle.std.specs.Prelude.{◌≡◌, ◌+◌, ◌<◌, ◌≤◌, ◌^◌, length, take, drop, IfOk, ◌==◌};
ghost use Rattle.std.specs.Int.{w16, w32, w64};
ghost use Rattle.std.specs.List.{list_any};
ghost use Rattle.dbus_basic.specs.Reading.{Gives, after, place};
ghost use Rattle.dbus_basic.specs.Fields.{zeros as zeros_in, padded as padded_in, byte_at as byte_in, taken as taken_in, ended as ended_in, number_at as number_in, truth as truth_in};

use crate::error::ReadError;
use byteorder::{BigEndian, ByteOrder, LittleEndian};
use dbus_types::types::Endian;

/// The byte at a place, and the place after it. `Short` where the bytes end.
#[tactic(auto, using(crate::proofs::Places::byte_none, crate::proofs::Places::byte_some))]
pub fn byte_at(bytes: &[u8], at: usize) -> Result<(u8, usize), ReadError>
    requires { at ≤ length bytes.now }
    ensures read { Gives (after bytes.now) result (byte_in at (drop at bytes.now)) }
    ensures within { IfOk result (λ r. (at < r.1) × (r.1 ≤ length bytes.now)) }
{
    match bytes.get(at) {
        Some(byte) => Ok((*byte, at + 1)),
        None => Err(ReadError::Short { at }),
    }
}

/// The place after so many zero bytes.
#[tactic(auto, using(crate::proofs::Places::zeros_nothing, crate::proofs::Places::zeros_none, crate::proofs::Places::zeros_zero, crate::proofs::Places::zeros_other))]
fn skip_zeros(bytes: &[u8], at: usize, count: usize) -> Result<usize, ReadError>
    requires { at ≤ length bytes.now }
    ensures read { Gives (place bytes.now) result (zeros_in count at (drop at bytes.now)) }
    ensures within { IfOk result (λ next. (at ≤ next) × (next ≤ length bytes.now)) }
{
    let mut next = at;
    let mut left = count;
    while left > 0 {
        match bytes.get(next) {
            // Of padding it is the byte that is missing.
            None => return Err(ReadError::Short { at: next }),
            Some(0) => {
                next += 1;
                left -= 1;
            }
            Some(_) => return Err(ReadError::Padding { at: next }),
        }
    }
    Ok(next)
}

/// The next multiple of an alignment, over zero bytes. `Padding` at the first of
/// them that is another, `Short` where the bytes end among them.
pub fn skip_padding(bytes: &[u8], at: usize, to: usize) -> Result<usize, ReadError>
    requires place { at ≤ length bytes.now }
    requires to { 0 < to }
    ensures read { Gives (place bytes.now) result (padded_in to at (drop at bytes.now)) }
    ensures within { IfOk result (λ next. (at ≤ next) × (next ≤ length bytes.now)) }
{
    skip_zeros(bytes, at, at.next_multiple_of(to) - at)
}

/// So many bytes from a place on, and the place after them. `Short` where the
/// bytes end inside them.
#[tactic(auto, unfolding(crate::specs::Fields::taken))]
pub fn taken(bytes: &[u8], at: usize, count: usize) -> Result<(&[u8], usize), ReadError>
    requires { at ≤ length bytes.now }
    ensures read { Gives (λ r. after bytes.now (r.0.now, r.1)) result
        (taken_in count at (drop at bytes.now)) }
    ensures window { IfOk result (λ r. drop at (take r.1 bytes.now) ≡ r.0.now) }
    ensures body { IfOk result (λ r. r.0.now ≡ take count (drop at bytes.now)) }
    ensures within { IfOk result (λ r. (r.1 ≡ at + count) × (r.1 ≤ length bytes.now)
        × (length r.0.now ≡ count)) }
{
    // A field that the bytes end in is short at its first byte, not where they end.
    if bytes.len() - at < count {
        return Err(ReadError::Short { at });
    }
    Ok((&bytes[at..at + count], at + count))
}

/// The place after the zero byte behind a text. Another byte is the error that
/// the caller gives, and `Short` says that there is none.
#[tactic(auto, using(crate::proofs::Places::ended_none, crate::proofs::Places::ended_zero, crate::proofs::Places::ended_other))]
pub fn ended(bytes: &[u8], at: usize, error: ReadError) -> Result<usize, ReadError>
    requires { at ≤ length bytes.now }
    ensures read { Gives (place bytes.now) result (ended_in error at (drop at bytes.now)) }
    ensures within { IfOk result (λ next. (at < next) × (next ≤ length bytes.now)) }
{
    match bytes.get(at) {
        None => Err(ReadError::Short { at }),
        Some(0) => Ok(at + 1),
        Some(_) => Err(error),
    }
}

/// The number of 16 bits at a place, and the place after it. `Short` where the
/// bytes end inside it.
#[tactic(auto, unfolding(crate::specs::Fields::number_at))]
pub fn number_16(endian: Endian, bytes: &[u8], at: usize) -> Result<(u16, usize), ReadError>
    requires { at ≤ length bytes.now }
    ensures read { Gives (after bytes.now) result (number_in endian w16 at (drop at bytes.now)) }
    ensures within { IfOk result (λ r. (at < r.1) × (r.1 ≤ length bytes.now)) }
{
    let (raw, next) = taken(bytes, at, 2)?;
    let number = match endian {
        Endian::Little => LittleEndian::read_u16(raw),
        Endian::Big => BigEndian::read_u16(raw),
    };
    Ok((number, next))
}

/// The number of 32 bits at a place, and the place after it. `Short` where the
/// bytes end inside it.
#[tactic(auto, unfolding(crate::specs::Fields::number_at))]
pub fn number_32(endian: Endian, bytes: &[u8], at: usize) -> Result<(u32, usize), ReadError>
    requires { at ≤ length bytes.now }
    ensures read { Gives (after bytes.now) result (number_in endian w32 at (drop at bytes.now)) }
    ensures within { IfOk result (λ r. (at < r.1) × (r.1 ≤ length bytes.now)) }
{
    let (raw, next) = taken(bytes, at, 4)?;
    let number = match endian {
        Endian::Little => LittleEndian::read_u32(raw),
        Endian::Big => BigEndian::read_u32(raw),
    };
    Ok((number, next))
}

/// The number of 64 bits at a place, and the place after it. `Short` where the
/// bytes end inside it.
#[tactic(auto, unfolding(crate::specs::Fields::number_at))]
pub fn number_64(endian: Endian, bytes: &[u8], at: usize) -> Result<(u64, usize), ReadError>
    requires { at ≤ length bytes.now }
    ensures read { Gives (after bytes.now) result (number_in endian w64 at (drop at bytes.now)) }
    ensures within { IfOk result (λ r. (at < r.1) × (r.1 ≤ length bytes.now)) }
{
    let (raw, next) = taken(bytes, at, 8)?;
    let number = match endian {
        Endian::Little => LittleEndian::read_u64(raw),
        Endian::Big => BigEndian::read_u64(raw),
    };
    Ok((number, next))
}

/// The boolean that a number is: 0 or 1. `BadBool` for any other, which began at
/// this place.
#[tactic(auto, unfolding(crate::specs::Fields::truth))]
pub fn truth(at: usize, number: u32) -> Result<bool, ReadError>
    ensures { Gives (λ b. b) result (truth_in at number) }
{
    match number {
        0 => Ok(false),
        1 => Ok(true),
        _ => Err(ReadError::BadBool { at }),
    }
}

/// Says whether a text has a zero byte.
pub fn has_zero(text: &[u8]) -> bool
    ensures { result ≡ list_any (λ b. b == 0) text.now }
{
    text.iter().any(|byte| *byte == 0)
}
