//! Whether a value keeps the rules. Nothing here takes memory.
//!
//! Source: D-Bus Specification, "Type System".

ghost use Rattle.std.specs.Prelude.{◌≡◌, ◌+◌, ◌<◌, ◌≤◌, ◌≢◌, true, IsTrue, ◌↔◌, map, length, All, MatchOption};
ghost use Rattle.dbus_types.specs.Types.{role, members_role, greatest, arrays_deep, brackets_deep, type_text, types_text, IsValidType, IsVariantType};
ghost use Rattle.dbus_values.specs.Values.{type_of, IsText, IsSignatureText, LeafKeeps, KeepsWithin, KeepsRules};
ghost use Rattle.dbus_types.specs.declared.types.Value.{out-Value};
ghost use Rattle.dbus_types.specs.declared.types.Value.TheVariants as V;

use crate::nesting::MOST_NESTED;
use crate::typing::has_type;
use dbus_types::equal::is_byte;
use dbus_types::names::is_object_path;
use dbus_types::roles::Role;
use dbus_types::rules::{arrays_within, brackets_within, is_single, role_of};
use dbus_types::signature::{LONGEST, MOST_ARRAYS, MOST_BRACKETS, check_signature};
use dbus_types::types::{Value, WireType};
use portal_base::text::has_no_zero;

/// Where the type of a value may stand.
#[cycle(roles)]
fn role_of_type(value: &Value) -> Role
    ensures { result ≡ role (type_of value.now) }
{
    match value {
        Value::Variant(_) | Value::Bytes(_) => Role::Single,
        Value::Array { element, .. } => match role_of(element) {
            Role::Nowhere => Role::Nowhere,
            _ => Role::Single,
        },
        Value::Struct(members) => {
            if members.is_empty() {
                return Role::Nowhere;
            }
            role_of_types(members.as_slice())
        }
        Value::DictEntry { key, value } => match (
            role_of_type(key.get()),
            role_of_type(value.get()),
        ) {
            (Role::Basic, Role::Basic | Role::Single) => Role::Entry,
            _ => Role::Nowhere,
        },
        _ => Role::Basic,
    }
}

#[cycle(roles)]
fn role_of_types(values: &[Value]) -> Role
    ensures { result ≡ members_role (map role (map type_of values.now)) }
{
    for value in values {
        match role_of_type(value) {
            Role::Basic | Role::Single => {}
            _ => return Role::Nowhere,
        }
    }
    Role::Single
}

#[cycle(arrays)]
fn type_arrays_within(value: &Value, limit: u32) -> bool
    ensures { IsTrue result ↔ (arrays_deep (type_of value.now) ≤ limit) }
{
    match value {
        Value::Bytes(_) => limit > 0,
        Value::Array { element, .. } => limit > 0 && arrays_within(element, limit - 1),
        Value::Struct(members) => types_arrays_within(members.as_slice(), limit),
        Value::DictEntry { key, value } => {
            type_arrays_within(key.get(), limit) && type_arrays_within(value.get(), limit)
        }
        _ => true,
    }
}

#[cycle(arrays)]
fn types_arrays_within(values: &[Value], limit: u32) -> bool
    ensures { IsTrue result ↔ (greatest (map arrays_deep (map type_of values.now)) ≤ limit) }
{
    for value in values {
        if !type_arrays_within(value, limit) {
            return false;
        }
    }
    true
}

#[cycle(brackets)]
fn type_brackets_within(value: &Value, limit: u32) -> bool
    ensures { IsTrue result ↔ (brackets_deep (type_of value.now) ≤ limit) }
{
    match value {
        Value::Array { element, .. } => brackets_within(element, limit),
        Value::Struct(members) => limit > 0 && types_brackets_within(members.as_slice(), limit - 1),
        Value::DictEntry { key, value } => {
            limit > 0
                && type_brackets_within(key.get(), limit - 1)
                && type_brackets_within(value.get(), limit - 1)
        }
        _ => true,
    }
}

#[cycle(brackets)]
fn types_brackets_within(values: &[Value], limit: u32) -> bool
    ensures { IsTrue result ↔ (greatest (map brackets_deep (map type_of values.now)) ≤ limit) }
{
    for value in values {
        if !type_brackets_within(value, limit) {
            return false;
        }
    }
    true
}

/// How many of so many bytes the text of a type leaves.
#[cycle(text)]
fn text_leaves(kind: &WireType, limit: u64) -> Option<u64>
    ensures { MatchOption result (limit < length (type_text kind.now))
        (λ left. left + length (type_text kind.now) ≡ limit) }
{
    match kind {
        WireType::Array(element) => text_leaves(element.get(), limit.checked_sub(1)?),
        WireType::Struct(members) => texts_leave(members.as_slice(), limit.checked_sub(2)?),
        WireType::DictEntry { key, value } => {
            let left = text_leaves(key.get(), limit.checked_sub(2)?)?;
            text_leaves(value.get(), left)
        }
        _ => limit.checked_sub(1),
    }
}

#[cycle(text)]
fn texts_leave(kinds: &[WireType], limit: u64) -> Option<u64>
    ensures { MatchOption result (limit < length (types_text kinds.now))
        (λ left. left + length (types_text kinds.now) ≡ limit) }
{
    let mut left = limit;
    for kind in kinds {
        match text_leaves(kind, left) {
            Some(less) => left = less,
            None => return None,
        }
    }
    Some(left)
}

/// How many of so many bytes the text of a value's type leaves.
#[cycle(type_text)]
pub fn type_leaves(value: &Value, limit: u64) -> Option<u64>
    ensures { MatchOption result (limit < length (type_text (type_of value.now)))
        (λ left. left + length (type_text (type_of value.now)) ≡ limit) }
{
    match value {
        Value::Bytes(_) => limit.checked_sub(2),
        Value::Array { element, .. } => text_leaves(element, limit.checked_sub(1)?),
        Value::Struct(members) => types_leave(members.as_slice(), limit.checked_sub(2)?),
        Value::DictEntry { key, value } => {
            let left = type_leaves(key.get(), limit.checked_sub(2)?)?;
            type_leaves(value.get(), left)
        }
        _ => limit.checked_sub(1),
    }
}

#[cycle(type_text)]
fn types_leave(values: &[Value], limit: u64) -> Option<u64>
    ensures { MatchOption result (limit < length (types_text (map type_of values.now)))
        (λ left. left + length (types_text (map type_of values.now)) ≡ limit) }
{
    let mut left = limit;
    for value in values {
        match type_leaves(value, left) {
            Some(less) => left = less,
            None => return None,
        }
    }
    Some(left)
}

/// Says whether the type of a value keeps the rules.
fn has_valid_type(value: &Value) -> bool
    ensures { IsTrue result ↔ IsValidType (type_of value.now) }
{
    is_single(role_of_type(value))
        && type_arrays_within(value, MOST_ARRAYS)
        && type_brackets_within(value, MOST_BRACKETS)
}

/// Says whether a variant can carry the type of a value.
fn has_variant_type(value: &Value) -> bool
    ensures { IsTrue result ↔ IsVariantType (type_of value.now) }
{
    has_valid_type(value) && type_leaves(value, LONGEST as u64).is_some()
}

/// Says whether a text has no zero byte.
fn is_text(text: &str) -> bool
    ensures { IsTrue result ↔ IsText text.now }
{
    has_no_zero(text.as_bytes())
}

fn is_signature(text: &[u8]) -> bool
    ensures { IsTrue result ↔ IsSignatureText text.now }
{
    check_signature(text).is_ok()
}

/// Says that a number fits its type, as each does: a proof knows it of a
/// number that is read.
fn fits<N: Copy + Drop>(_number: N) -> bool
    ensures { result ≡ true }
{
    // Contracts see a number without an end, and one that is too large for its type has no
    // spelling: so that it fits is one of the rules of values.
    true
}

/// Says whether a value holds no other and keeps the rules.
fn leaf_keeps(value: &Value) -> bool
    ensures { IsTrue result ↔ LeafKeeps (out-Value value.now) }
{
    match value {
        Value::Byte(number) => fits(*number),
        Value::Bool(_) => true,
        Value::I16(number) => fits(*number),
        Value::U16(number) => fits(*number),
        Value::I32(number) => fits(*number),
        Value::U32(number) => fits(*number),
        Value::I64(number) => fits(*number),
        Value::U64(number) => fits(*number),
        Value::Double(bits) => fits(*bits),
        Value::Handle(index) => fits(*index),
        Value::Str(text) => is_text(text.as_str()),
        Value::ObjectPath(text) => is_object_path(text.as_bytes()),
        Value::Signature(text) => is_signature(text.as_bytes()),
        Value::Variant(_) => false,
        Value::Bytes(_) => false,
        Value::Array { .. } => false,
        Value::Struct(_) => false,
        Value::DictEntry { .. } => false,
    }
}

/// Says whether an array of packed bytes keeps the rules, and each of its bytes
/// stands in at most so many arrays of it: in one, and in none where it is empty.
fn bytes_keep(bytes: &[u8], depth: u32) -> bool
    ensures { IsTrue result ↔ KeepsWithin depth (V.Bytes bytes.now) }
{
    if depth == 0 {
        return bytes.is_empty();
    }
    true
}

/// Says whether a value and those inside it keep the rules, and each of these
/// stands in at most so many arrays, structs, dict entries and variants of it:
/// in none where nothing is inside, as in an empty array.
#[cycle(keeps)]
fn keeps_within(value: &Value, depth: u32) -> bool
    ensures { IsTrue result ↔ KeepsWithin depth value.now }
{
    match value {
        Value::Variant(inner) => {
            let inner = inner.get();
            if depth == 0 {
                return false;
            }
            if !has_variant_type(inner) {
                return false;
            }
            keeps_within(inner, depth - 1)
        }
        Value::Bytes(bytes) => bytes_keep(bytes.as_slice(), depth),
        Value::Array { element, items } => {
            let kind = element.get();
            // Bytes are packed, as `Value::Bytes`.
            if is_byte(kind) {
                return false;
            }
            if depth == 0 {
                return items.is_empty();
            }
            items_keep(items.as_slice(), kind, depth - 1)
        }
        Value::Struct(members) => {
            if depth == 0 {
                return members.is_empty();
            }
            members_keep(members.as_slice(), depth - 1)
        }
        Value::DictEntry { key, value } => {
            if depth == 0 {
                return false;
            }
            if !keeps_within(key.get(), depth - 1) {
                return false;
            }
            keeps_within(value.get(), depth - 1)
        }
        _ => leaf_keeps(value),
    }
}

#[cycle(keeps)]
fn items_keep(items: &[Value], element: &WireType, depth: u32) -> bool
    ensures { IsTrue result ↔ All (λ v. (type_of v ≡ element.now) × KeepsWithin depth v) items.now }
{
    for item in items {
        if !has_type(item, element) {
            return false;
        }
        if !keeps_within(item, depth) {
            return false;
        }
    }
    true
}

#[cycle(keeps)]
fn members_keep(members: &[Value], depth: u32) -> bool
    ensures { IsTrue result ↔ All (KeepsWithin depth) members.now }
{
    for member in members {
        if !keeps_within(member, depth) {
            return false;
        }
    }
    true
}

/// Says whether a value keeps the rules: its type is a single complete type
/// within the limits; texts hold no zero byte, paths and signatures have
/// their form; each item of an array has the type of its elements, bytes are
/// packed, and a variant can carry the type of its value; and each value inside
/// stands in at most 64 arrays, structs, dict entries and variants.
///
/// Source: D-Bus Specification, "Type System", "Valid Signatures".
pub fn keeps_rules(value: &Value) -> bool
    ensures { IsTrue result ↔ KeepsRules value.now }
{
    // The lengths of arrays and texts aren't looked at: they bound spellings alone, and a spelling
    // that is too long isn't one.
    has_valid_type(value) && keeps_within(value, MOST_NESTED)
}
