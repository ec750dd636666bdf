//! Reading values.
//!
//! Source: D-Bus Specification, "Marshaling (Wire Format)".

ghost use Rattle.std.specs.Prelude.{◌≡◌, ◌+◌, ◌-◌, ◌<◌, ◌≤◌, ◌^◌, ℕ, List, ◌++◌, [], length, map, take, drop, IfOk};
ghost use Rattle.dbus_types.specs.declared.types.Value.{Value as Value'};
ghost use Rattle.dbus_types.specs.declared.types.Value.TheVariants as V;
ghost use Rattle.dbus_types.specs.declared.types.WireType.TheVariants as W;
ghost use Rattle.dbus_types.specs.declared.types.WireType.{out-WireType};
ghost use Rattle.dbus_types.specs.declared.types.Endian.{Endian as Endian'};
ghost use Rattle.dbus_types.specs.declared.types.WireType.TheOpen.{WireType-F};
ghost use Rattle.dbus_types.specs.Types.{IsValidType};
ghost use Rattle.dbus_values.specs.Values.{type_of, KeepsRules};
ghost use Rattle.dbus_basic.specs.declared.error.ReadError.{ReadError as ReadError'};
ghost use Rattle.dbus_values.specs.Spells.{Spells};
ghost use Rattle.dbus_marshal.specs.Breaks.{Breaks};
ghost use Rattle.dbus_basic.specs.Reading.{Gives, IsRead, IsStopped, IsRefused, after};
ghost use Rattle.dbus_marshal.specs.Reads.{array_error, arrayed, inside_at, layer, members, elements, reads};

use crate::flat::read_flat;
use crate::signature::type_at;
use crate::skip::count_elements;
use dbus_basic::error::ReadError;
use dbus_basic::fields::{byte_at, ended, number_32, skip_padding, taken};
use dbus_types::equal::is_byte;
use dbus_types::layout::alignment_of;
use dbus_types::shared::Shared;
use dbus_types::types::{Endian, Value, WireType};
use portal_base::boxed::Boxed;
use portal_base::list::{ByteList, List};
use portal_base::memory::WantOfMemory;
use std::alloc::Global;

/// The greatest length of an array in bytes.
pub(crate) const LONGEST_ARRAY: u32 = 67_108_864;

/// How many values may stand in each other: each in at most 64 arrays, structs,
/// dict entries and variants, itself not counted.
///
/// Source: D-Bus Specification, "Marshaling (Wire Format)": a variant must not
/// make the depth of the containers larger than 64.
const MOST_VALUES: u32 = 65;

/// Where the bytes end inside an array, they end at its length.
pub(crate) fn array_error(error: ReadError) -> ReadError
    ensures { result ≡ array_error error }
{
    match error {
        ReadError::Short { at } => ReadError::BadArray { at },
        ReadError::Padding { at } => ReadError::Padding { at },
        ReadError::BadBool { at } => ReadError::BadBool { at },
        ReadError::BadText { at } => ReadError::BadText { at },
        ReadError::TooLong { at } => ReadError::TooLong { at },
        ReadError::BadSignature { at } => ReadError::BadSignature { at },
        ReadError::TooDeep { at } => ReadError::TooDeep { at },
        ReadError::BadArray { at } => ReadError::BadArray { at },
        ReadError::Memory => ReadError::Memory,
    }
}

/// The value of a type at a place, with at most so many values in each other.
#[cycle(read)]
#[tactic(auto, unfolding(crate::specs::Reads::layer), using(crate::proofs::Depths::reads_none, crate::proofs::Depths::reads_more))]
fn read_within(
    alloc: Global,
    endian: Endian,
    bytes: &[u8],
    at: usize,
    kind: &WireType,
    depth: u32,
) -> Result<(Value, usize), ReadError>
    requires { at ≤ length bytes.now }
    ensures read { Gives (after bytes.now) result
        (reads depth endian kind.now at (drop at bytes.now)) }
    ensures within { IfOk result (λ r. (at < r.1) × (r.1 ≤ length bytes.now)) }
{
    if depth == 0 {
        return Err(ReadError::TooDeep { at });
    }
    match kind {
        WireType::Array(element) => read_array(alloc, endian, bytes, at, element, depth - 1),
        WireType::Struct(kinds) => {
            read_struct(alloc, endian, bytes, at, kinds.as_slice(), depth - 1)
        }
        WireType::DictEntry { key, value } => {
            read_entry(alloc, endian, bytes, at, key.get(), value.get(), depth - 1)
        }
        WireType::Variant => read_variant(alloc, endian, bytes, at, depth - 1),
        _ => read_flat(alloc, endian, bytes, at, kind),
    }
}

#[cycle(read)]
#[tactic(auto, unfolding(crate::specs::Reads::layer))]
fn read_array(
    alloc: Global,
    endian: Endian,
    bytes: &[u8],
    at: usize,
    shared: &Shared<WireType>,
    depth: u32,
) -> Result<(Value, usize), ReadError>
    requires { at ≤ length bytes.now }
    ensures read { Gives (after bytes.now) result
        (layer (reads depth endian) endian (WireType-F.Array shared.now) at (drop at bytes.now)) }
    ensures within { IfOk result (λ r. (at < r.1) × (r.1 ≤ length bytes.now)) }
{
    let element = shared.get();
    // The order of the checks is that of the bytes: the length, the padding ahead of the elements,
    // whether as many bytes are there, and then the elements.
    let start = skip_padding(bytes, at, 4)?;
    let (count, begins) = number_32(endian, bytes, start)?;
    if LONGEST_ARRAY < count {
        return Err(ReadError::TooLong { at: start });
    }
    let from = skip_padding(bytes, begins, alignment_of(element))?;
    let (body, end) = taken(bytes, from, count as usize)?;
    match read_items(alloc, endian, &bytes[..end], from, shared, depth) {
        Ok(array) => Ok((array, end)),
        Err(error) => Err(array_error(error)),
    }
}

/// The array of the elements between a place and the end of the bytes.
#[cycle(read)]
fn read_items(
    alloc: Global,
    endian: Endian,
    bytes: &[u8],
    at: usize,
    shared: &Shared<WireType>,
    depth: u32,
) -> Result<Value, ReadError>
    requires { at ≤ length bytes.now }
    ensures { Gives (λ array. array) result (arrayed shared.now
        (elements (length (drop at bytes.now)) (reads depth endian shared.now) at
        (drop at bytes.now))) }
{
    let element = shared.get();
    // Bytes are copied at once, and held packed.
    if is_byte(element) {
        let packed = read_bytes(alloc, &bytes[at..], at, depth)?;
        return Ok(Value::Bytes(packed));
    }
    let items = read_elements(alloc, endian, bytes, at, element, depth)?;
    let element = shared.share()?;
    Ok(Value::Array { element, items })
}

/// An empty list with room for so many values.
pub(crate) fn room_for<T>(alloc: Global, count: usize) -> Result<List<T>, WantOfMemory>
    ensures { IfOk result (λ values. values ≡ []) }
{
    let room = Vec::with_capacity(alloc, count)?;
    Ok(List::from_vec(room))
}

/// The elements of an array of bytes, which are copied at once.
fn read_bytes(alloc: Global, bytes: &[u8], at: usize, depth: u32) -> Result<ByteList, ReadError>
    ensures { (endian : Endian') → Gives (map (λ n. V.Byte n)) result
        (elements (length bytes.now) (reads depth endian W.Byte) at bytes.now) }
{
    if depth > 0 {
        return Ok(List::copied(alloc, bytes)?);
    }
    if bytes.is_empty() {
        return Ok(List::new(alloc));
    }
    Err(ReadError::TooDeep { at })
}

#[cycle(read)]
fn read_elements(
    alloc: Global,
    endian: Endian,
    bytes: &[u8],
    at: usize,
    element: &WireType,
    depth: u32,
) -> Result<List<Value>, ReadError>
    requires { at ≤ length bytes.now }
    ensures read { Gives (λ items. items) result
        (elements (length (drop at bytes.now)) (reads depth endian element.now) at
        (drop at bytes.now)) }
{
    // The elements are counted first, by the lengths that stand ahead of them, so that their list
    // has exactly as many places as there are elements.
    let count = count_elements(alloc, endian, bytes, at, element, depth);
    let mut items = room_for(alloc, count)?;
    let mut next = at;
    while next < bytes.len() {
        match read_within(alloc, endian, bytes, next, element, depth) {
            Ok((item, end)) => {
                items.push(item)?;
                next = end;
            }
            Err(error) => return Err(error),
        }
    }
    Ok(items)
}

#[cycle(read)]
#[tactic(auto, unfolding(crate::specs::Reads::layer))]
fn read_struct(
    alloc: Global,
    endian: Endian,
    bytes: &[u8],
    at: usize,
    kinds: &[WireType],
    depth: u32,
) -> Result<(Value, usize), ReadError>
    requires { at ≤ length bytes.now }
    ensures read { Gives (after bytes.now) result
        (layer (reads depth endian) endian (WireType-F.Struct kinds.now) at (drop at bytes.now)) }
    ensures within { IfOk result (λ r. (at < r.1) × (r.1 ≤ length bytes.now)) }
{
    // Any type may be asked for. Of those that break the rules of types only a struct without
    // members has no row in the table of spellings.
    if kinds.is_empty() {
        return Err(ReadError::BadSignature { at });
    }
    let start = skip_padding(bytes, at, 8)?;
    let (values, next) = read_members(alloc, endian, bytes, start, kinds, depth)?;
    Ok((Value::Struct(values), next))
}

#[cycle(read)]
fn read_members(
    alloc: Global,
    endian: Endian,
    bytes: &[u8],
    at: usize,
    kinds: &[WireType],
    depth: u32,
) -> Result<(List<Value>, usize), ReadError>
    requires { at ≤ length bytes.now }
    ensures read { Gives (after bytes.now) result
        (members (reads depth endian) kinds.now at (drop at bytes.now)) }
    ensures within { IfOk result (λ r. (at + length kinds.now ≤ r.1) × (r.1 ≤ length bytes.now)) }
{
    let mut values = room_for(alloc, kinds.len())?;
    let mut next = at;
    for kind in kinds {
        match read_within(alloc, endian, bytes, next, kind, depth) {
            Ok((value, end)) => {
                values.push(value)?;
                next = end;
            }
            Err(error) => return Err(error),
        }
    }
    Ok((values, next))
}

#[cycle(read)]
#[tactic(auto, unfolding(crate::specs::Reads::layer))]
fn read_entry(
    alloc: Global,
    endian: Endian,
    bytes: &[u8],
    at: usize,
    key: &WireType,
    value: &WireType,
    depth: u32,
) -> Result<(Value, usize), ReadError>
    requires { at ≤ length bytes.now }
    ensures read { Gives (after bytes.now) result
        (layer (reads depth endian) endian (WireType-F.DictEntry key.now value.now) at
        (drop at bytes.now)) }
    ensures within { IfOk result (λ r. (at < r.1) × (r.1 ≤ length bytes.now)) }
{
    let start = skip_padding(bytes, at, 8)?;
    let (key, middle) = read_within(alloc, endian, bytes, start, key, depth)?;
    let (value, next) = read_within(alloc, endian, bytes, middle, value, depth)?;
    let key = Boxed::new(alloc, key)?;
    let value = Boxed::new(alloc, value)?;
    Ok((Value::DictEntry { key, value }, next))
}

#[cycle(read)]
fn read_variant(
    alloc: Global,
    endian: Endian,
    bytes: &[u8],
    at: usize,
    depth: u32,
) -> Result<(Value, usize), ReadError>
    requires { at ≤ length bytes.now }
    ensures read { Gives (after bytes.now) result
        (layer (reads depth endian) endian WireType-F.Variant at (drop at bytes.now)) }
    ensures within { IfOk result (λ r. (at < r.1) × (r.1 ≤ length bytes.now)) }
{
    let (value, next) = read_inside(alloc, endian, bytes, at, depth)?;
    Ok((Value::Variant(Boxed::new(alloc, value)?), next))
}

/// What a variant holds: the signature of one type, and a value of that type.
#[cycle(read)]
#[tactic(auto, unfolding(crate::specs::Reads::inside_at))]
pub(crate) fn read_inside(
    alloc: Global,
    endian: Endian,
    bytes: &[u8],
    at: usize,
    depth: u32,
) -> Result<(Value, usize), ReadError>
    requires { at ≤ length bytes.now }
    ensures read { Gives (after bytes.now) result
        (inside_at (reads depth endian) at (drop at bytes.now)) }
    ensures within { IfOk result (λ r. (at < r.1) × (r.1 ≤ length bytes.now)) }
{
    let (count, begins) = byte_at(bytes, at)?;
    let (signature, end) = taken(bytes, begins, count as usize)?;
    // An empty signature goes wrong at its own start, and a second type where it begins.
    let kind = type_at(alloc, signature, begins)?;
    let start = ended(bytes, end, ReadError::BadSignature { at: end })?;
    read_within(alloc, endian, bytes, start, &kind, depth)
}

/// A value that was read.
#[derive(Debug, Drop)]
pub struct ReadValue {
    /// The value.
    pub value: Value,
    /// The index of the byte after it.
    pub next: usize,
}

/// Reads the value of a type that the bytes spell from a place, whose index is
/// the offset that alignments go by.
///
/// The error is that of the first break from the left. A field that the bytes
/// end in is `Short` at its first byte. Of an array, its length comes first,
/// then the padding ahead of its elements, then whether as many bytes are
/// there as the length says, and then the elements. Of a text, its bytes come
/// before the zero byte behind it.
pub fn read_value(
    alloc: Global,
    endian: Endian,
    bytes: &[u8],
    at: usize,
    kind: &WireType,
) -> Result<ReadValue, ReadError>
    requires { at ≤ length bytes.now }
    // What is read is spelled there.
    ensures found { IfOk result (λ r. (at ≤ r.next) × (r.next ≤ length bytes.now)
        × Spells endian at kind.now r.value (take (r.next - at) (drop at bytes.now))) }
    // What is spelled there is read, unless memory runs out.
    ensures only { (value : Value') (text rest : List ℕ) → Spells endian at kind.now value text
        → drop at bytes.now ≡ text ++ rest
        → IsRead result (λ r. (r.value ≡ value) × (r.next ≡ at + length text)) }
    // What is read has the type, and keeps the rules of values: each stands in at most 64 others,
    // among them.
    ensures keeps { IsValidType kind.now
        → IfOk result (λ r. (type_of r.value ≡ kind.now) × KeepsRules r.value) }
    // What is refused goes wrong so.
    ensures broken { IsStopped result
        (λ error. Breaks endian at kind.now (drop at bytes.now) error) }
    // What goes wrong so is refused for just this, unless memory runs out.
    ensures first { (error : ReadError') → Breaks endian at kind.now (drop at bytes.now) error
        → IsRefused error result }
{
    let (value, next) = read_within(alloc, endian, bytes, at, kind, MOST_VALUES)?;
    Ok(ReadValue { value, next })
}
