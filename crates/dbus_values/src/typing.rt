//! Whether a value has a type. Nothing here takes memory.
//!
//! Source: D-Bus Specification, "Type System".

ghost use Rattle.std.specs.Prelude.{◌≡◌, IsTrue, ◌↔◌, map};
ghost use Rattle.dbus_values.specs.Values.{type_of as type_in};

use dbus_types::equal::{is_byte, same_type};
use dbus_types::types::{Value, WireType};

/// Says whether a value has a type.
#[cycle(has_type)]
pub fn has_type(value: &Value, kind: &WireType) -> bool
    ensures { IsTrue result ↔ (type_in value.now ≡ kind.now) }
{
    match value {
        Value::Byte(_) => matches!(kind, WireType::Byte),
        Value::Bool(_) => matches!(kind, WireType::Bool),
        Value::I16(_) => matches!(kind, WireType::I16),
        Value::U16(_) => matches!(kind, WireType::U16),
        Value::I32(_) => matches!(kind, WireType::I32),
        Value::U32(_) => matches!(kind, WireType::U32),
        Value::I64(_) => matches!(kind, WireType::I64),
        Value::U64(_) => matches!(kind, WireType::U64),
        Value::Double(_) => matches!(kind, WireType::Double),
        Value::Str(_) => matches!(kind, WireType::Str),
        Value::ObjectPath(_) => matches!(kind, WireType::ObjectPath),
        Value::Signature(_) => matches!(kind, WireType::Signature),
        Value::Handle(_) => matches!(kind, WireType::Handle),
        Value::Variant(_) => matches!(kind, WireType::Variant),
        Value::Bytes(_) => match kind {
            WireType::Array(other) => is_byte(other.get()),
            _ => false,
        },
        Value::Array { element, .. } => match kind {
            WireType::Array(other) => same_type(element, other.get()),
            _ => false,
        },
        Value::Struct(members) => match kind {
            WireType::Struct(kinds) => have_types(members.as_slice(), kinds.as_slice()),
            _ => false,
        },
        Value::DictEntry { key, value } => match kind {
            WireType::DictEntry { key: k, value: v } => {
                has_type(key.get(), k.get()) && has_type(value.get(), v.get())
            }
            _ => false,
        },
    }
}

/// Says whether values have these types, one after the other.
#[cycle(has_type)]
fn have_types(values: &[Value], kinds: &[WireType]) -> bool
    ensures { IsTrue result ↔ (map type_in values.now ≡ kinds.now) }
{
    if values.len() != kinds.len() {
        return false;
    }
    for index in 0..values.len() {
        if !has_type(&values[index], &kinds[index]) {
            return false;
        }
    }
    true
}
