//! Reading values that hold no other.

ghost use Rattle.std.specs.Prelude.{◌≡◌, ◌+◌, ◌<◌, ◌≤◌, ◌^◌, length, take, drop, true, false, IfOk, MatchOption};
ghost use Rattle.std.specs.Int.{w16, w32, w64, cast_signed};
ghost use Rattle.dbus_types.specs.declared.types.WireType.{out-WireType};
ghost use Rattle.dbus_basic.specs.Reading.{Gives, after, place, past};
ghost use Rattle.dbus_marshal.specs.Reads.{is_text, is_path_text, padded_number, text_at, signature_at as signature_in, fixed, flat};

use crate::signature::check_at;
use dbus_basic::error::ReadError;
use dbus_basic::fields::{
    byte_at, ended, has_zero, number_16, number_32, number_64, skip_padding, taken, truth,
};
use dbus_types::names::is_object_path;
use dbus_types::types::{Endian, Value, WireType};
use portal_base::text::Text;
use std::alloc::Global;
use std::str;

/// The bytes as a text, where they are UTF-8 without zero bytes.
#[tactic(auto, using(crate::proofs::Words::not_utf8, crate::proofs::Words::utf8))]
fn as_text(raw: &[u8]) -> Option<&str>
    ensures { MatchOption result (is_text raw.now ≡ false) (λ text. (is_text raw.now ≡ true)
        × (text.now ≡ raw.now)) }
{
    match str::from_utf8(raw) {
        Ok(text) => {
            if has_zero(raw) {
                return None;
            }
            Some(text)
        }
        Err(_) => None,
    }
}

/// The bytes as the path of an object, where they are one.
fn as_path(raw: &[u8]) -> Option<&str>
    ensures { MatchOption result (is_path_text raw.now ≡ false)
        (λ text. (is_path_text raw.now ≡ true) × (text.now ≡ raw.now)) }
{
    match as_text(raw) {
        Some(text) => {
            if !is_object_path(raw) {
                return None;
            }
            Some(text)
        }
        None => None,
    }
}

#[tactic(auto, unfolding(crate::specs::Reads::text_at))]
fn string_at(endian: Endian, bytes: &[u8], at: usize) -> Result<(&str, usize), ReadError>
    requires { at ≤ length bytes.now }
    ensures read { Gives (λ r. after bytes.now (r.0.now, r.1)) result
        (text_at endian is_text at (drop at bytes.now)) }
    ensures within { IfOk result (λ r. (at < r.1) × (r.1 ≤ length bytes.now)) }
{
    let (count, start) = number_32(endian, bytes, at)?;
    let (raw, end) = taken(bytes, start, count as usize)?;
    // The bytes of a text come before the zero byte behind it.
    match as_text(raw) {
        Some(text) => {
            let next = ended(bytes, end, ReadError::BadText { at: end })?;
            Ok((text, next))
        }
        None => Err(ReadError::BadText { at: start }),
    }
}

#[tactic(auto, unfolding(crate::specs::Reads::text_at))]
fn path_at(endian: Endian, bytes: &[u8], at: usize) -> Result<(&str, usize), ReadError>
    requires { at ≤ length bytes.now }
    ensures read { Gives (λ r. after bytes.now (r.0.now, r.1)) result
        (text_at endian is_path_text at (drop at bytes.now)) }
    ensures within { IfOk result (λ r. (at < r.1) × (r.1 ≤ length bytes.now)) }
{
    let (count, start) = number_32(endian, bytes, at)?;
    let (raw, end) = taken(bytes, start, count as usize)?;
    match as_path(raw) {
        Some(text) => {
            let next = ended(bytes, end, ReadError::BadText { at: end })?;
            Ok((text, next))
        }
        None => Err(ReadError::BadText { at: start }),
    }
}

#[tactic(auto, unfolding(crate::specs::Reads::signature_at))]
fn signature_at(bytes: &[u8], at: usize) -> Result<(&str, usize), ReadError>
    requires { at ≤ length bytes.now }
    ensures read { Gives (λ r. after bytes.now (r.0.now, r.1)) result
        (signature_in at (drop at bytes.now)) }
    ensures within { IfOk result (λ r. (at < r.1) × (r.1 ≤ length bytes.now)) }
{
    let (count, start) = byte_at(bytes, at)?;
    let (raw, end) = taken(bytes, start, count as usize)?;
    check_at(raw, start)?;
    match as_text(raw) {
        Some(text) => {
            let next = ended(bytes, end, ReadError::BadSignature { at: end })?;
            Ok((text, next))
        }
        None => Err(ReadError::BadSignature { at: start }),
    }
}

/// The number at the next multiple of two.
fn padded_16(endian: Endian, bytes: &[u8], at: usize) -> Result<(u16, usize), ReadError>
    requires { at ≤ length bytes.now }
    ensures read { Gives (after bytes.now) result
        (padded_number endian 2 w16 at (drop at bytes.now)) }
    ensures within { IfOk result (λ r. (at < r.1) × (r.1 ≤ length bytes.now)) }
{
    let start = skip_padding(bytes, at, 2)?;
    number_16(endian, bytes, start)
}

/// The number at the next multiple of four.
fn padded_32(endian: Endian, bytes: &[u8], at: usize) -> Result<(u32, usize), ReadError>
    requires { at ≤ length bytes.now }
    ensures read { Gives (after bytes.now) result
        (padded_number endian 4 w32 at (drop at bytes.now)) }
    ensures within { IfOk result (λ r. (at < r.1) × (r.1 ≤ length bytes.now)) }
{
    let start = skip_padding(bytes, at, 4)?;
    number_32(endian, bytes, start)
}

/// The number at the next multiple of eight.
fn padded_64(endian: Endian, bytes: &[u8], at: usize) -> Result<(u64, usize), ReadError>
    requires { at ≤ length bytes.now }
    ensures read { Gives (after bytes.now) result
        (padded_number endian 8 w64 at (drop at bytes.now)) }
    ensures within { IfOk result (λ r. (at < r.1) × (r.1 ≤ length bytes.now)) }
{
    let start = skip_padding(bytes, at, 8)?;
    number_64(endian, bytes, start)
}

#[tactic(auto, unfolding(crate::specs::Reads::fixed))]
fn read_fixed(
    endian: Endian,
    bytes: &[u8],
    at: usize,
    kind: &WireType,
) -> Result<(Value, usize), ReadError>
    requires { at ≤ length bytes.now }
    ensures read { Gives (after bytes.now) result
        (fixed endian (out-WireType kind.now) at (drop at bytes.now)) }
    ensures within { IfOk result (λ r. (at < r.1) × (r.1 ≤ length bytes.now)) }
{
    match kind {
        WireType::I16 => {
            let (number, next) = padded_16(endian, bytes, at)?;
            Ok((Value::I16(number.cast_signed()), next))
        }
        WireType::U16 => {
            let (number, next) = padded_16(endian, bytes, at)?;
            Ok((Value::U16(number), next))
        }
        WireType::I32 => {
            let (number, next) = padded_32(endian, bytes, at)?;
            Ok((Value::I32(number.cast_signed()), next))
        }
        WireType::U32 => {
            let (number, next) = padded_32(endian, bytes, at)?;
            Ok((Value::U32(number), next))
        }
        WireType::Handle => {
            let (number, next) = padded_32(endian, bytes, at)?;
            Ok((Value::Handle(number), next))
        }
        WireType::I64 => {
            let (number, next) = padded_64(endian, bytes, at)?;
            Ok((Value::I64(number.cast_signed()), next))
        }
        WireType::U64 => {
            let (number, next) = padded_64(endian, bytes, at)?;
            Ok((Value::U64(number), next))
        }
        WireType::Double => {
            let (number, next) = padded_64(endian, bytes, at)?;
            Ok((Value::Double(number), next))
        }
        _ => Err(ReadError::TooDeep { at }),
    }
}

/// The value of a type with no value inside.
#[tactic(auto, unfolding(crate::specs::Reads::flat))]
pub(crate) fn read_flat(
    alloc: Global,
    endian: Endian,
    bytes: &[u8],
    at: usize,
    kind: &WireType,
) -> Result<(Value, usize), ReadError>
    requires { at ≤ length bytes.now }
    ensures read { Gives (after bytes.now) result
        (flat endian (out-WireType kind.now) at (drop at bytes.now)) }
    ensures within { IfOk result (λ r. (at < r.1) × (r.1 ≤ length bytes.now)) }
{
    match kind {
        WireType::Byte => {
            let (byte, next) = byte_at(bytes, at)?;
            Ok((Value::Byte(byte), next))
        }
        WireType::Bool => {
            let start = skip_padding(bytes, at, 4)?;
            let (number, next) = number_32(endian, bytes, start)?;
            let truth = truth(start, number)?;
            Ok((Value::Bool(truth), next))
        }
        WireType::Str => {
            let start = skip_padding(bytes, at, 4)?;
            let (text, next) = string_at(endian, bytes, start)?;
            Ok((Value::Str(Text::copied(alloc, text)?), next))
        }
        WireType::ObjectPath => {
            let start = skip_padding(bytes, at, 4)?;
            let (path, next) = path_at(endian, bytes, start)?;
            Ok((Value::ObjectPath(Text::copied(alloc, path)?), next))
        }
        WireType::Signature => {
            let (text, next) = signature_at(bytes, at)?;
            Ok((Value::Signature(Text::copied(alloc, text)?), next))
        }
        _ => read_fixed(endian, bytes, at, kind),
    }
}

fn check_fixed(endian: Endian, bytes: &[u8], at: usize, kind: &WireType) -> Result<usize, ReadError>
    requires { at ≤ length bytes.now }
    ensures read { Gives (place bytes.now) result
        (past (fixed endian (out-WireType kind.now) at (drop at bytes.now))) }
    ensures within { IfOk result (λ next. (at < next) × (next ≤ length bytes.now)) }
{
    let (_, next) = read_fixed(endian, bytes, at, kind)?;
    Ok(next)
}

/// The place after the value of a type with no value inside, which is checked
/// as it is where it is read.
#[tactic(auto, unfolding(crate::specs::Reads::flat))]
pub(crate) fn check_flat(
    endian: Endian,
    bytes: &[u8],
    at: usize,
    kind: &WireType,
) -> Result<usize, ReadError>
    requires { at ≤ length bytes.now }
    ensures read { Gives (place bytes.now) result
        (past (flat endian (out-WireType kind.now) at (drop at bytes.now))) }
    ensures within { IfOk result (λ next. (at < next) × (next ≤ length bytes.now)) }
{
    match kind {
        WireType::Byte => {
            let (_, next) = byte_at(bytes, at)?;
            Ok(next)
        }
        WireType::Bool => {
            let start = skip_padding(bytes, at, 4)?;
            let (number, next) = number_32(endian, bytes, start)?;
            let _ = truth(start, number)?;
            Ok(next)
        }
        WireType::Str => {
            let start = skip_padding(bytes, at, 4)?;
            let (_, next) = string_at(endian, bytes, start)?;
            Ok(next)
        }
        WireType::ObjectPath => {
            let start = skip_padding(bytes, at, 4)?;
            let (_, next) = path_at(endian, bytes, start)?;
            Ok(next)
        }
        WireType::Signature => {
            let (_, next) = signature_at(bytes, at)?;
            Ok(next)
        }
        _ => check_fixed(endian, bytes, at, kind),
    }
}
