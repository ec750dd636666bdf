//! Checking values without making them: what reading them comes to, and the
//! place after them. Memory is taken for nothing but the type that a variant
//! names.
//!
//! Source: D-Bus Specification, "Marshaling (Wire Format)".

ghost use Rattle.std.specs.Prelude.{◌≡◌, ◌+◌, ◌<◌, ◌≤◌, length, drop, IfOk};
ghost use Rattle.dbus_types.specs.declared.types.WireType.TheOpen.{WireType-F};
ghost use Rattle.dbus_basic.specs.Reading.{Gives, place, past, verdict};
ghost use Rattle.dbus_marshal.specs.Reads.{inside_at, layer, members, elements, reads};

use crate::flat::check_flat;
use crate::read::{LONGEST_ARRAY, array_error};
use crate::signature::type_at;
use dbus_basic::error::ReadError;
use dbus_basic::fields::{byte_at, ended, number_32, skip_padding, taken};
use dbus_types::equal::is_byte;
use dbus_types::layout::alignment_of;
use dbus_types::types::{Endian, WireType};
use std::alloc::Global;

/// The place after the value of a type, with at most so many values in each
/// other.
#[cycle(check)]
#[tactic(auto, unfolding(crate::specs::Reads::layer), using(crate::proofs::Depths::reads_none, crate::proofs::Depths::reads_more))]
fn check_within(
    alloc: Global,
    endian: Endian,
    bytes: &[u8],
    at: usize,
    kind: &WireType,
    depth: u32,
) -> Result<usize, ReadError>
    requires { at ≤ length bytes.now }
    ensures read { Gives (place bytes.now) result
        (past (reads depth endian kind.now at (drop at bytes.now))) }
    ensures within { IfOk result (λ next. (at < next) × (next ≤ length bytes.now)) }
{
    if depth == 0 {
        return Err(ReadError::TooDeep { at });
    }
    match kind {
        WireType::Array(element) => {
            check_array(alloc, endian, bytes, at, element.get(), depth - 1)
        }
        WireType::Struct(kinds) => {
            check_struct(alloc, endian, bytes, at, kinds.as_slice(), depth - 1)
        }
        WireType::DictEntry { key, value } => {
            check_entry(alloc, endian, bytes, at, key.get(), value.get(), depth - 1)
        }
        WireType::Variant => check_inside(alloc, endian, bytes, at, depth - 1),
        _ => check_flat(endian, bytes, at, kind),
    }
}

#[cycle(check)]
#[tactic(auto, unfolding(crate::specs::Reads::layer))]
fn check_array(
    alloc: Global,
    endian: Endian,
    bytes: &[u8],
    at: usize,
    element: &WireType,
    depth: u32,
) -> Result<usize, ReadError>
    requires { at ≤ length bytes.now }
    ensures read { Gives (place bytes.now) result (past
        (layer (reads depth endian) endian (WireType-F.Array element.now) at (drop at bytes.now))) }
    ensures within { IfOk result (λ next. (at < next) × (next ≤ length bytes.now)) }
{
    let start = skip_padding(bytes, at, 4)?;
    let (count, begins) = number_32(endian, bytes, start)?;
    if LONGEST_ARRAY < count {
        return Err(ReadError::TooLong { at: start });
    }
    let from = skip_padding(bytes, begins, alignment_of(element))?;
    let (_body, end) = taken(bytes, from, count as usize)?;
    match check_elements(alloc, endian, &bytes[..end], from, element, depth) {
        Ok(()) => Ok(end),
        Err(error) => Err(array_error(error)),
    }
}

#[cycle(check)]
fn check_elements(
    alloc: Global,
    endian: Endian,
    bytes: &[u8],
    at: usize,
    element: &WireType,
    depth: u32,
) -> Result<(), ReadError>
    requires { at ≤ length bytes.now }
    ensures read { Gives (λ checked. checked) result (verdict
        (elements (length (drop at bytes.now)) (reads depth endian element.now) at
        (drop at bytes.now))) }
{
    if depth > 0 && is_byte(element) {
        return Ok(());
    }
    let mut next = at;
    while next < bytes.len() {
        match check_within(alloc, endian, bytes, next, element, depth) {
            Ok(end) => next = end,
            Err(error) => return Err(error),
        }
    }
    Ok(())
}

#[cycle(check)]
#[tactic(auto, unfolding(crate::specs::Reads::layer))]
fn check_struct(
    alloc: Global,
    endian: Endian,
    bytes: &[u8],
    at: usize,
    kinds: &[WireType],
    depth: u32,
) -> Result<usize, ReadError>
    requires { at ≤ length bytes.now }
    ensures read { Gives (place bytes.now) result (past
        (layer (reads depth endian) endian (WireType-F.Struct kinds.now) at (drop at bytes.now))) }
    ensures within { IfOk result (λ next. (at < next) × (next ≤ length bytes.now)) }
{
    if kinds.is_empty() {
        return Err(ReadError::BadSignature { at });
    }
    let start = skip_padding(bytes, at, 8)?;
    check_members(alloc, endian, bytes, start, kinds, depth)
}

#[cycle(check)]
fn check_members(
    alloc: Global,
    endian: Endian,
    bytes: &[u8],
    at: usize,
    kinds: &[WireType],
    depth: u32,
) -> Result<usize, ReadError>
    requires { at ≤ length bytes.now }
    ensures read { Gives (place bytes.now) result
        (past (members (reads depth endian) kinds.now at (drop at bytes.now))) }
    ensures within { IfOk result (λ next. (at + length kinds.now ≤ next)
        × (next ≤ length bytes.now)) }
{
    let mut next = at;
    for kind in kinds {
        match check_within(alloc, endian, bytes, next, kind, depth) {
            Ok(end) => next = end,
            Err(error) => return Err(error),
        }
    }
    Ok(next)
}

#[cycle(check)]
#[tactic(auto, unfolding(crate::specs::Reads::layer))]
fn check_entry(
    alloc: Global,
    endian: Endian,
    bytes: &[u8],
    at: usize,
    key: &WireType,
    value: &WireType,
    depth: u32,
) -> Result<usize, ReadError>
    requires { at ≤ length bytes.now }
    ensures read { Gives (place bytes.now) result (past
        (layer (reads depth endian) endian (WireType-F.DictEntry key.now value.now) at
        (drop at bytes.now))) }
    ensures within { IfOk result (λ next. (at < next) × (next ≤ length bytes.now)) }
{
    let start = skip_padding(bytes, at, 8)?;
    let middle = check_within(alloc, endian, bytes, start, key, depth)?;
    check_within(alloc, endian, bytes, middle, value, depth)
}

/// The place after what a variant holds: the signature of one type, and a value
/// of that type.
#[cycle(check)]
#[tactic(auto, unfolding(crate::specs::Reads::inside_at))]
pub(crate) fn check_inside(
    alloc: Global,
    endian: Endian,
    bytes: &[u8],
    at: usize,
    depth: u32,
) -> Result<usize, ReadError>
    requires { at ≤ length bytes.now }
    ensures read { Gives (place bytes.now) result
        (past (inside_at (reads depth endian) at (drop at bytes.now))) }
    ensures within { IfOk result (λ next. (at < next) × (next ≤ length bytes.now)) }
{
    let (count, begins) = byte_at(bytes, at)?;
    let (signature, end) = taken(bytes, begins, count as usize)?;
    let kind = type_at(alloc, signature, begins)?;
    let start = ended(bytes, end, ReadError::BadSignature { at: end })?;
    check_within(alloc, endian, bytes, start, &kind, depth)
}
