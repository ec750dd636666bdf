//! Where values end, going by the lengths that stand ahead of them. So the
//! elements of an array are counted before the list of them is taken, and that
//! list never grows.
//!
//! Source: D-Bus Specification, "Marshaling (Wire Format)".

ghost use Rattle.std.specs.Prelude.{◌≡◌, ◌+◌, ◌<◌, ◌≤◌, length, IfOk};

use crate::signature::type_at;
use dbus_basic::error::ReadError;
use dbus_basic::fields::{byte_at, number_32, skip_padding, taken};
use dbus_types::layout::alignment_of;
use dbus_types::types::{Endian, WireType};
use std::alloc::Global;

/// The place after a value of a type, as far as lengths tell: what stands
/// between is not looked at.
#[cycle(skip)]
fn skip_value(
    alloc: Global,
    endian: Endian,
    bytes: &[u8],
    at: usize,
    kind: &WireType,
    depth: u32,
) -> Result<usize, ReadError>
    requires { at ≤ length bytes.now }
    ensures { IfOk result (λ next. (at < next) × (next ≤ length bytes.now)) }
{
    if depth == 0 {
        return Err(ReadError::TooDeep { at });
    }
    match kind {
        WireType::Array(element) => skip_array(endian, bytes, at, element.get()),
        WireType::Struct(kinds) => {
            skip_members(alloc, endian, bytes, at, kinds.as_slice(), depth - 1)
        }
        WireType::DictEntry { key, value } => {
            skip_entry(alloc, endian, bytes, at, key.get(), value.get(), depth - 1)
        }
        WireType::Variant => skip_variant(alloc, endian, bytes, at, depth - 1),
        WireType::Str | WireType::ObjectPath => skip_text(endian, bytes, at),
        WireType::Signature => {
            let (_, next) = skip_signature(bytes, at)?;
            Ok(next)
        }
        _ => skip_number(bytes, at, alignment_of(kind)),
    }
}

/// A byte, a boolean or a number takes as many bytes as it is aligned to.
fn skip_number(bytes: &[u8], at: usize, size: usize) -> Result<usize, ReadError>
    requires place { at ≤ length bytes.now }
    requires some { 0 < size }
    ensures { IfOk result (λ next. (at < next) × (next ≤ length bytes.now)) }
{
    let start = skip_padding(bytes, at, size)?;
    let (_, next) = taken(bytes, start, size)?;
    Ok(next)
}

fn skip_text(endian: Endian, bytes: &[u8], at: usize) -> Result<usize, ReadError>
    requires { at ≤ length bytes.now }
    ensures { IfOk result (λ next. (at < next) × (next ≤ length bytes.now)) }
{
    let start = skip_padding(bytes, at, 4)?;
    let (count, begins) = number_32(endian, bytes, start)?;
    let (_, end) = taken(bytes, begins, count as usize)?;
    let (_, next) = byte_at(bytes, end)?;
    Ok(next)
}

/// The bytes of a signature, and the place after it.
fn skip_signature(bytes: &[u8], at: usize) -> Result<(&[u8], usize), ReadError>
    requires { at ≤ length bytes.now }
    ensures next { IfOk result (λ r. (at < r.1) × (r.1 ≤ length bytes.now)) }
    ensures short { IfOk result (λ r. length r.0.now ≤ 255) }
{
    let (count, begins) = byte_at(bytes, at)?;
    let (signature, end) = taken(bytes, begins, count as usize)?;
    let (_, next) = byte_at(bytes, end)?;
    Ok((signature, next))
}

fn skip_array(
    endian: Endian,
    bytes: &[u8],
    at: usize,
    element: &WireType,
) -> Result<usize, ReadError>
    requires { at ≤ length bytes.now }
    ensures { IfOk result (λ next. (at < next) × (next ≤ length bytes.now)) }
{
    let start = skip_padding(bytes, at, 4)?;
    let (count, begins) = number_32(endian, bytes, start)?;
    let from = skip_padding(bytes, begins, alignment_of(element))?;
    let (_, next) = taken(bytes, from, count as usize)?;
    Ok(next)
}

/// A struct without members is no type, and stands nowhere.
#[cycle(skip)]
fn skip_members(
    alloc: Global,
    endian: Endian,
    bytes: &[u8],
    at: usize,
    kinds: &[WireType],
    depth: u32,
) -> Result<usize, ReadError>
    requires { at ≤ length bytes.now }
    ensures { IfOk result (λ next. (at < next) × (next ≤ length bytes.now)) }
{
    if kinds.is_empty() {
        return Err(ReadError::BadSignature { at });
    }
    let mut next = skip_padding(bytes, at, 8)?;
    for kind in kinds {
        match skip_value(alloc, endian, bytes, next, kind, depth) {
            Ok(end) => next = end,
            Err(error) => return Err(error),
        }
    }
    Ok(next)
}

#[cycle(skip)]
fn skip_entry(
    alloc: Global,
    endian: Endian,
    bytes: &[u8],
    at: usize,
    key: &WireType,
    value: &WireType,
    depth: u32,
) -> Result<usize, ReadError>
    requires { at ≤ length bytes.now }
    ensures { IfOk result (λ next. (at < next) × (next ≤ length bytes.now)) }
{
    let start = skip_padding(bytes, at, 8)?;
    let middle = skip_value(alloc, endian, bytes, start, key, depth)?;
    skip_value(alloc, endian, bytes, middle, value, depth)
}

#[cycle(skip)]
fn skip_variant(
    alloc: Global,
    endian: Endian,
    bytes: &[u8],
    at: usize,
    depth: u32,
) -> Result<usize, ReadError>
    requires { at ≤ length bytes.now }
    ensures { IfOk result (λ next. (at < next) × (next ≤ length bytes.now)) }
{
    let (signature, start) = skip_signature(bytes, at)?;
    let kind = type_at(alloc, signature, at)?;
    skip_value(alloc, endian, bytes, start, &kind, depth)
}

/// Says whether all values of a type take as many bytes as they are aligned to.
fn is_number(kind: &WireType) -> bool {
    matches!(
        kind,
        WireType::Byte
            | WireType::Bool
            | WireType::I16
            | WireType::U16
            | WireType::I32
            | WireType::U32
            | WireType::I64
            | WireType::U64
            | WireType::Double
            | WireType::Handle
    )
}

/// How many elements stand between a place and the end of the bytes, or how
/// many stand ahead of the first that goes wrong.
pub(crate) fn count_elements(
    alloc: Global,
    endian: Endian,
    bytes: &[u8],
    at: usize,
    kind: &WireType,
    depth: u32,
) -> usize
    requires { at ≤ length bytes.now }
{
    if is_number(kind) {
        return (bytes.len() - at) / alignment_of(kind);
    }
    let mut count = 0;
    let mut next = at;
    while next < bytes.len() {
        match skip_value(alloc, endian, bytes, next, kind, depth) {
            Ok(end) => {
                count += 1;
                next = end;
            }
            // What goes wrong is told by the reader, which comes to the same place.
            Err(_) => return count,
        }
    }
    count
}
