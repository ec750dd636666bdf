//! How the values of a type lie.
//!
//! Source: D-Bus Specification, "Marshaling (Wire Format)", "Alignment".

ghost use Rattle.std.specs.Prelude.{◌≡◌, ◌<◌};
ghost use Rattle.dbus_types.specs.Types.{alignment};

use crate::types::WireType;

/// The alignment of a type's values in bytes: the offset of each is a multiple
/// of 1, 2, 4 or 8.
pub fn alignment_of(kind: &WireType) -> usize
    ensures known { result ≡ alignment kind.now }
    ensures positive { 0 < result }
{
    match kind {
        WireType::Byte | WireType::Signature | WireType::Variant => 1,
        WireType::I16 | WireType::U16 => 2,
        WireType::Bool | WireType::I32 | WireType::U32 | WireType::Handle => 4,
        WireType::Str | WireType::ObjectPath | WireType::Array(_) => 4,
        WireType::I64 | WireType::U64 | WireType::Double => 8,
        WireType::Struct(_) | WireType::DictEntry { .. } => 8,
    }
}
