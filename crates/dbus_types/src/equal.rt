//! Whether two types are the same, and whether a type is that of bytes.
//!
//! `same_type` stands where Rust has `==`: its contract says that the two are equal, and
//! not only that they are alike by the type's own rule.

ghost use Rattle.std.specs.Prelude.{◌≡◌, IsTrue, ◌↔◌};
ghost use Rattle.dbus_types.specs.declared.types.WireType.TheVariants as W;

use crate::types::WireType;

/// Says whether a type is that of bytes.
pub fn is_byte(kind: &WireType) -> bool
    ensures { IsTrue result ↔ (kind.now ≡ W.Byte) }
{
    matches!(kind, WireType::Byte)
}

/// Says whether two types are the same.
#[cycle(same_types)]
pub fn same_type(a: &WireType, b: &WireType) -> bool
    ensures { IsTrue result ↔ (a.now ≡ b.now) }
{
    match a {
        WireType::Byte => matches!(b, WireType::Byte),
        WireType::Bool => matches!(b, WireType::Bool),
        WireType::I16 => matches!(b, WireType::I16),
        WireType::U16 => matches!(b, WireType::U16),
        WireType::I32 => matches!(b, WireType::I32),
        WireType::U32 => matches!(b, WireType::U32),
        WireType::I64 => matches!(b, WireType::I64),
        WireType::U64 => matches!(b, WireType::U64),
        WireType::Double => matches!(b, WireType::Double),
        WireType::Str => matches!(b, WireType::Str),
        WireType::ObjectPath => matches!(b, WireType::ObjectPath),
        WireType::Signature => matches!(b, WireType::Signature),
        WireType::Handle => matches!(b, WireType::Handle),
        WireType::Variant => matches!(b, WireType::Variant),
        WireType::Array(x) => match b {
            WireType::Array(y) => same_type(x.get(), y.get()),
            _ => false,
        },
        WireType::Struct(x) => match b {
            WireType::Struct(y) => same_members(x.as_slice(), y.as_slice()),
            _ => false,
        },
        WireType::DictEntry { key, value } => match b {
            WireType::DictEntry { key: k, value: v } => {
                same_type(key.get(), k.get()) && same_type(value.get(), v.get())
            }
            _ => false,
        },
    }
}

#[cycle(same_types)]
fn same_members(a: &[WireType], b: &[WireType]) -> bool
    ensures { IsTrue result ↔ (a.now ≡ b.now) }
{
    if a.len() != b.len() {
        return false;
    }
    for index in 0..a.len() {
        if !same_type(&a[index], &b[index]) {
            return false;
        }
    }
    true
}
