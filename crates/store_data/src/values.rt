//! The walk over the spelling of a value that keeps the rules of values. It ends
//! at what the spelling alone forbids: a text of 4 GiB or more, or an array
//! whose elements have more than 64 MiB.
//!
//! Source: D-Bus Specification, "Marshaling (Wire Format)".

ghost use Rattle.std.specs.Prelude.{◌≡◌, ℕ, ◌+◌, ◌%◌, ◌<◌, ◌^◌, All, map, length, nat_le, nat_lt};
ghost use Rattle.dbus_types.specs.declared.types.Value.{out-Value};
ghost use Rattle.dbus_values.specs.Spells.{gap};
ghost use Rattle.dbus_values.specs.Spelling.{spelled_length, spelled_lengths};
ghost use Rattle.dbus_types.specs.Types.{IsValidType, type_text};
ghost use Rattle.dbus_values.specs.Values.{LeafKeeps, type_of};
ghost use Rattle.portal_model.specs.Data.{all_keep, is_variant_type, judged};
ghost use Rattle.store_data.specs.Walks.{Keeps, Passes, Stands, ahead_of_elements};

use crate::walk::{Walk, from_here, padded, passing};
use dbus_types::layout::alignment_of;
use dbus_types::types::{Value, WireType};
use dbus_values::keeping::type_leaves;

/// How many bytes the elements of an array may have.
const LONGEST_ARRAY: u64 = 67_108_864;

/// The greatest length of a signature in bytes.
const LONGEST_SIGNATURE: u64 = 255;

/// The greatest number of a text's bytes.
const LONGEST_TEXT: u64 = 4_294_967_295;

/// Past a number of so many bytes.
fn number_end(walk: Walk, width: u64) -> Walk
    requires some { 0 < width }
    requires divides { 8 % width ≡ 0 }
    ensures { (passed at : ℕ) → Stands passed at walk
        → Stands (passed + (gap width at + width)) (at + (gap width at + width)) result }
{
    passing(padded(walk, width), width)
}

/// Past a text of so many bytes with their number ahead and a zero byte behind.
fn text_end(walk: Walk, count: usize) -> Option<Walk>
    ensures { (passed at : ℕ) → Stands passed at walk → Passes (nat_lt count (2 ^ 32))
        (passed + (gap 4 at + (4 + count + 1))) (at + (gap 4 at + (4 + count + 1))) result }
{
    let count = count as u64;
    if count > LONGEST_TEXT {
        return None;
    }
    Some(passing(padded(walk, 4), 4 + count + 1))
}

/// Past a value that holds no other.
fn leaf_end(walk: Walk, value: &Value) -> Option<Walk>
    ensures { (passed at : ℕ) → LeafKeeps (out-Value value.now) → Stands passed at walk
        → Passes ((judged value.now).1 at)
        (passed + spelled_length at value.now) (at + spelled_length at value.now) result }
{
    match value {
        Value::Byte(_) => Some(passing(walk, 1)),
        Value::Bool(_) => Some(number_end(walk, 4)),
        Value::I16(_) => Some(number_end(walk, 2)),
        Value::U16(_) => Some(number_end(walk, 2)),
        Value::I32(_) => Some(number_end(walk, 4)),
        Value::U32(_) => Some(number_end(walk, 4)),
        Value::I64(_) => Some(number_end(walk, 8)),
        Value::U64(_) => Some(number_end(walk, 8)),
        Value::Double(_) => Some(number_end(walk, 8)),
        Value::Handle(_) => Some(number_end(walk, 4)),
        Value::Str(text) => text_end(walk, text.len()),
        Value::ObjectPath(path) => text_end(walk, path.len()),
        Value::Signature(text) => {
            let count = text.len() as u64;
            Some(passing(passing(walk, count), 2))
        }
        Value::Variant(_) => None,
        Value::Bytes(_) => None,
        Value::Array { .. } => None,
        Value::Struct(_) => None,
        Value::DictEntry { .. } => None,
    }
}

/// Past the signature that stands ahead of a value in its variant, where the
/// value's type is a single complete one within the limits.
pub(crate) fn signature_end(walk: Walk, inner: &Value) -> Option<Walk>
    ensures { let kind = type_of inner.now in let count = 1 + length (type_text kind) + 1
        in (passed at : ℕ) → IsValidType kind → Stands passed at walk
        → Passes (is_variant_type kind) (passed + count) (at + count) result }
{
    let left = type_leaves(inner, LONGEST_SIGNATURE)?;
    Some(passing(walk, 2 + (LONGEST_SIGNATURE - left)))
}

/// Where the first element of an array begins.
fn elements_start(walk: Walk, element: &WireType) -> Walk
    ensures { (passed at : ℕ) → Stands passed at walk
        → Stands (passed + ahead_of_elements element.now at)
        (at + ahead_of_elements element.now at) result }
{
    padded(number_end(walk, 4), alignment_of(element) as u64)
}

/// Past the elements of an array, of which a walk from the first has come to
/// their end.
fn elements_end(first: Walk, body: Walk) -> Option<Walk>
    ensures { (passed at count : ℕ) → Stands passed at first → Stands count (at + count) body
        → Passes (nat_le count 67_108_864) (passed + count) (at + count) result }
{
    if body.bytes > LONGEST_ARRAY {
        return None;
    }
    Some(passing(first, body.bytes))
}

/// Past an array of so many bytes.
fn bytes_end(walk: Walk, count: usize) -> Option<Walk>
    ensures { (passed at : ℕ) → Stands passed at walk → Passes (nat_le count 67_108_864)
        (passed + (gap 4 at + (4 + count))) (at + (gap 4 at + (4 + count))) result }
{
    let count = count as u64;
    if count > LONGEST_ARRAY {
        return None;
    }
    Some(passing(padded(walk, 4), 4 + count))
}

/// Past a value that keeps the rules of values.
#[cycle(value_end)]
pub(crate) fn value_end(walk: Walk, value: &Value) -> Option<Walk>
    ensures { (passed at : ℕ) → Keeps value.now → Stands passed at walk
        → Passes ((judged value.now).1 at)
        (passed + spelled_length at value.now) (at + spelled_length at value.now) result }
{
    match value {
        Value::Variant(inner) => {
            let inner = inner.get();
            let inside = signature_end(walk, inner)?;
            value_end(inside, inner)
        }
        Value::Bytes(bytes) => bytes_end(walk, bytes.len()),
        Value::Array { element, items } => {
            let first = elements_start(walk, element);
            let body = values_end(from_here(first), items.as_slice())?;
            elements_end(first, body)
        }
        Value::Struct(members) => {
            if members.is_empty() {
                return None;
            }
            values_end(padded(walk, 8), members.as_slice())
        }
        Value::DictEntry { key, value } => {
            let second = value_end(padded(walk, 8), key.get())?;
            value_end(second, value.get())
        }
        _ => leaf_end(walk, value),
    }
}

/// Past values that keep the rules, one after another.
#[cycle(value_end)]
fn values_end(walk: Walk, values: &[Value]) -> Option<Walk>
    ensures { (passed at : ℕ) → All Keeps values.now → Stands passed at walk
        → Passes (all_keep (map judged values.now) at)
        (passed + spelled_lengths at values.now) (at + spelled_lengths at values.now) result }
{
    let mut end = walk;
    for value in values {
        end = value_end(end, value)?;
    }
    Some(end)
}
