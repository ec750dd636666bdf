//! Reading the fields of a message's header: an array of structs of a byte and
//! a variant, without a tree of values for each. The values of fields that
//! nobody knows are checked, and not made.
//!
//! Source: D-Bus Specification, "Message Format", "Header Fields".

ghost use Rattle.std.specs.Prelude.{◌≡◌, ◌+◌, ◌-◌, ◌<◌, ◌≤◌, ◌^◌, ℕ, List, ◌++◌, length, take, drop, filter, IfOk};
ghost use Rattle.dbus_types.specs.declared.types.Value.{Value as Value'};
ghost use Rattle.dbus_types.specs.declared.types.Value.TheVariants as V;
ghost use Rattle.dbus_values.specs.Spells.{Spells};
ghost use Rattle.dbus_basic.specs.Reading.{Gives, IsRead, after};
ghost use Rattle.dbus_marshal.specs.Reads.{elements, field_at, field_type, fields_type, fields_at, has_code_to, kept, sifted};

use crate::check::check_inside;
use crate::read::{LONGEST_ARRAY, array_error, read_inside, room_for};
use dbus_basic::error::ReadError;
use dbus_basic::fields::{byte_at, number_32, skip_padding, taken};
use dbus_types::types::{Endian, Value};
use portal_base::list::List;
use std::alloc::Global;
use std::marker::Model;

/// The alignment of a struct, and so of a header field, in bytes.
const FIELD_ALIGNMENT: usize = 8;

/// How many values may stand in each other inside the value of a header field,
/// itself counted: it stands in the array, the struct and the variant.
const MOST_VALUES_INSIDE: u32 = 62;

// Contracts see the value that it is, so that definitions speak of `a(yv)` as of any other type.
/// A field of a message's header, which contracts see as the struct of a byte
/// and a variant that it is.
#[derive(Drop)]
pub struct HeaderField {
    /// The code of the field.
    pub code: u8,
    /// The value in its variant.
    pub value: Value,
}

impl Model for HeaderField {
    ghost use Rattle.std.specs.Prelude.{[], ◌∷◌};
    ghost use Rattle.dbus_types.specs.declared.types.Value.{Value as Value'};
    ghost use Rattle.dbus_types.specs.declared.types.Value.TheVariants as V;
    ghost use Rattle.dbus_types.specs.contracts.types.Value as e;
    ghost use Rattle.std.specs.Coded.{codes};

    ghost Value = { Value' };

    ghost coded = { Prim.hlevel (codes, e.the_row.coded) };

    ghost view = { λ f. V.Struct (V.Byte f.code ∷ V.Variant f.value ∷ []) };
}

/// The field at a place where its code is at most so high, and otherwise only
/// the place after it.
#[tactic(auto, unfolding(crate::specs::Reads::field_at))]
fn read_field(
    alloc: Global,
    endian: Endian,
    bytes: &[u8],
    at: usize,
    highest: u8,
) -> Result<(Option<HeaderField>, usize), ReadError>
    requires { at ≤ length bytes.now }
    ensures read { Gives (after bytes.now) result
        (kept highest (field_at endian at (drop at bytes.now))) }
    ensures within { IfOk result (λ r. (at < r.1) × (r.1 ≤ length bytes.now)) }
{
    let start = skip_padding(bytes, at, FIELD_ALIGNMENT)?;
    let (code, middle) = byte_at(bytes, start)?;
    // Nobody reads the value of such a field, so it is checked and not made.
    if highest < code {
        let next = check_inside(alloc, endian, bytes, middle, MOST_VALUES_INSIDE)?;
        return Ok((None, next));
    }
    let (value, next) = read_inside(alloc, endian, bytes, middle, MOST_VALUES_INSIDE)?;
    Ok((Some(HeaderField { code, value }), next))
}

/// The fields up to the end of the bytes. Each but the last takes a multiple of
/// its alignment, so that their list is taken once.
fn read_fields(
    alloc: Global,
    endian: Endian,
    bytes: &[u8],
    at: usize,
    highest: u8,
) -> Result<List<HeaderField>, ReadError>
    requires { at ≤ length bytes.now }
    ensures read { Gives (λ fields. fields) result (sifted highest
        (elements (length (drop at bytes.now)) (field_at endian) at (drop at bytes.now))) }
{
    let mut fields = room_for(alloc, (bytes.len() - at) / FIELD_ALIGNMENT + 1)?;
    let mut next = at;
    while next < bytes.len() {
        match read_field(alloc, endian, bytes, next, highest) {
            Ok((field, end)) => {
                if let Some(field) = field {
                    fields.push(field)?;
                }
                next = end;
            }
            Err(error) => return Err(error),
        }
    }
    Ok(fields)
}

#[tactic(auto, unfolding(crate::specs::Reads::fields_at))]
fn read_array(
    alloc: Global,
    endian: Endian,
    bytes: &[u8],
    at: usize,
    highest: u8,
) -> Result<(List<HeaderField>, usize), ReadError>
    requires { at ≤ length bytes.now }
    ensures read { Gives (after bytes.now) result
        (fields_at highest endian at (drop at bytes.now)) }
    ensures within { IfOk result (λ r. (at < r.1) × (r.1 ≤ length bytes.now)) }
{
    let start = skip_padding(bytes, at, 4)?;
    let (count, begins) = number_32(endian, bytes, start)?;
    if LONGEST_ARRAY < count {
        return Err(ReadError::TooLong { at: start });
    }
    let from = skip_padding(bytes, begins, FIELD_ALIGNMENT)?;
    let (_body, end) = taken(bytes, from, count as usize)?;
    match read_fields(alloc, endian, &bytes[..end], from, highest) {
        Ok(fields) => Ok((fields, end)),
        Err(error) => Err(array_error(error)),
    }
}

/// The fields of a header that were read.
#[derive(Drop)]
pub struct ReadHeader {
    /// The fields whose codes are at most as high as was asked, in their order.
    pub fields: List<HeaderField>,
    /// The index of the byte after their array.
    pub next: usize,
}

/// Reads the array of a header's fields that the bytes spell from a place, whose
/// index is the offset that alignments go by: what `read_value` reads of
/// `a(yv)`, without the fields whose codes are above `highest`. Of these it is
/// only checked that they are spelled.
///
/// It fails where `read_value` fails, and for the same reason.
///
/// Source: D-Bus Specification, "Message Format".
pub fn read_header(
    alloc: Global,
    endian: Endian,
    bytes: &[u8],
    at: usize,
    highest: u8,
) -> Result<ReadHeader, ReadError>
    requires { at ≤ length bytes.now }
    // What is read is spelled there, among fields of higher codes.
    ensures found { IfOk result (λ r. (at ≤ r.next) × (r.next ≤ length bytes.now)
        × (all : List Value') × (r.fields ≡ filter (has_code_to highest) all)
        × Spells endian at fields_type (V.Array field_type all)
        (take (r.next - at) (drop at bytes.now))) }
    // What is spelled there is read, unless memory runs out.
    ensures only { (all : List Value') (text rest : List ℕ)
        → Spells endian at fields_type (V.Array field_type all) text
        → drop at bytes.now ≡ text ++ rest
        → IsRead result (λ r. (r.fields ≡ filter (has_code_to highest) all)
        × (r.next ≡ at + length text)) }
{
    let (fields, next) = read_array(alloc, endian, bytes, at, highest)?;
    Ok(ReadHeader { fields, next })
}
