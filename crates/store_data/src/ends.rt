//! Where pieces of a spelling end, as far as a message goes: `None` where that
//! is past the longest message. Nothing here takes memory.
//!
//! Source: D-Bus Specification, "Marshaling (Wire Format)".

ghost use Rattle.std.specs.Prelude.{◌≡◌, ℕ, ◌+◌, ◌<◌, length, map};
ghost use Rattle.std.specs.Int.{w16, w32, w64};
ghost use Rattle.dbus_types.specs.declared.types.Endian.TheVariants.{Little};
ghost use Rattle.dbus_types.specs.Types.{type_text, types_text};
ghost use Rattle.dbus_values.specs.Values.{type_of};
ghost use Rattle.dbus_values.specs.Spells.{gap, number};
ghost use Rattle.dbus_values.specs.Spelling.{aligned, bytes_body, text_body, signature_body};
ghost use Rattle.store_data.specs.Ends.{Ends};

use dbus_types::types::{Value, WireType};

/// The longest message of a connection, in bytes.
pub(crate) const LONGEST_MESSAGE: usize = 16_777_216;

/// The end of so many bytes.
pub(crate) fn end_of(at: usize, count: usize) -> Option<usize>
    ensures { Ends (at + count) result }
{
    let end = at.checked_add(count)?;
    if end <= LONGEST_MESSAGE {
        Some(end)
    } else {
        None
    }
}

/// The end of the padding up to a multiple of an alignment.
pub(crate) fn padding_end(at: usize, to: usize) -> Option<usize>
    requires { 0 < to }
    ensures { Ends (at + gap to at) result }
{
    end_of(at, (to - at % to) % to)
}

/// The end of a number of two bytes, whichever it is.
pub(crate) fn end_16(at: usize) -> Option<usize>
    ensures { (n : ℕ) → Ends (at + length (aligned 2 (λ start. number Little w16 n) at)) result }
{
    let start = padding_end(at, 2)?;
    end_of(start, 2)
}

/// The end of a number of four bytes, whichever it is.
pub(crate) fn end_32(at: usize) -> Option<usize>
    ensures { (n : ℕ) → Ends (at + length (aligned 4 (λ start. number Little w32 n) at)) result }
{
    let start = padding_end(at, 4)?;
    end_of(start, 4)
}

/// The end of a number of eight bytes, whichever it is.
pub(crate) fn end_64(at: usize) -> Option<usize>
    ensures { (n : ℕ) → Ends (at + length (aligned 8 (λ start. number Little w64 n) at)) result }
{
    let start = padding_end(at, 8)?;
    end_of(start, 8)
}

/// The end of a text with its length in four bytes.
pub(crate) fn text_end(at: usize, text: &[u8]) -> Option<usize>
    ensures { Ends (at + length (aligned 4 (λ start. text_body Little text.now) at)) result }
{
    let start = padding_end(at, 4)?;
    let bytes = end_of(start, 4)?;
    let zero = end_of(bytes, text.len())?;
    end_of(zero, 1)
}

/// The end of bytes with their number in four bytes.
pub(crate) fn bytes_end(at: usize, bytes: &[u8]) -> Option<usize>
    ensures { Ends (at + length (aligned 4 (λ start. bytes_body Little bytes.now) at)) result }
{
    let start = padding_end(at, 4)?;
    let first = end_of(start, 4)?;
    end_of(first, bytes.len())
}

/// The end of a text with its length in one byte.
pub(crate) fn signature_end(at: usize, text: &[u8]) -> Option<usize>
    ensures { Ends (at + length (signature_body text.now)) result }
{
    let bytes = end_of(at, 1)?;
    let zero = end_of(bytes, text.len())?;
    end_of(zero, 1)
}

/// The end of the text of a type.
#[cycle(type_end)]
fn type_end(at: usize, kind: &WireType) -> Option<usize>
    ensures { Ends (at + length (type_text kind.now)) result }
{
    match kind {
        WireType::Array(element) => type_end(end_of(at, 1)?, element.get()),
        WireType::Struct(members) => {
            let first = end_of(at, 1)?;
            let last = types_end(first, members.as_slice())?;
            end_of(last, 1)
        }
        WireType::DictEntry { key, value } => {
            let first = end_of(at, 1)?;
            let second = type_end(first, key.get())?;
            let last = type_end(second, value.get())?;
            end_of(last, 1)
        }
        _ => end_of(at, 1),
    }
}

/// The end of the texts of types, one after another.
#[cycle(type_end)]
fn types_end(at: usize, kinds: &[WireType]) -> Option<usize>
    ensures { Ends (at + length (types_text kinds.now)) result }
{
    let mut end = at;
    for kind in kinds {
        end = type_end(end, kind)?;
    }
    end_of(end, 0)
}

/// The end of the text of a value's type.
#[cycle(type_of_end)]
pub(crate) fn type_of_end(at: usize, value: &Value) -> Option<usize>
    ensures { Ends (at + length (type_text (type_of value.now))) result }
{
    match value {
        Value::Bytes(_) => end_of(at, 2),
        Value::Array { element, .. } => type_end(end_of(at, 1)?, element.get()),
        Value::Struct(members) => {
            let first = end_of(at, 1)?;
            let last = types_of_end(first, members.as_slice())?;
            end_of(last, 1)
        }
        Value::DictEntry { key, value } => {
            let first = end_of(at, 1)?;
            let second = type_of_end(first, key.get())?;
            let last = type_of_end(second, value.get())?;
            end_of(last, 1)
        }
        _ => end_of(at, 1),
    }
}

/// The end of the texts of values' types, one after another.
#[cycle(type_of_end)]
fn types_of_end(at: usize, values: &[Value]) -> Option<usize>
    ensures { Ends (at + length (types_text (map type_of values.now))) result }
{
    let mut end = at;
    for value in values {
        end = type_of_end(end, value)?;
    }
    end_of(end, 0)
}
