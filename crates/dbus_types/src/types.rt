//! Types and values as trees.
//!
//! Source: D-Bus Specification, "Type System".

/// The order of the bytes of a number.
#[derive(Clone, Copy, Debug, PartialEq, Eq)]
pub enum Endian {
    /// The lowest byte first.
    Little,
    /// The highest byte first.
    Big,
}

use crate::shared::Shared;
use portal_base::boxed::Boxed;
use portal_base::list::{ByteList, List};
use portal_base::text::Text;

/// A type of D-Bus.
#[derive(Debug, Drop)]
pub enum WireType {
    /// `y`
    Byte,
    /// `b`
    Bool,
    /// `n`
    I16,
    /// `q`
    U16,
    /// `i`
    I32,
    /// `u`
    U32,
    /// `x`
    I64,
    /// `t`
    U64,
    /// `d`
    Double,
    /// `s`
    Str,
    /// `o`
    ObjectPath,
    /// `g`
    Signature,
    /// `h`, the index of a file descriptor.
    Handle,
    /// `v`
    Variant,
    /// `a` and the type of an element, which the arrays of this type share.
    Array(Shared<WireType>),
    /// `(`, the types of the members, `)`.
    Struct(List<WireType>),
    /// `{`, the type of the key, the type of the value, `}`.
    DictEntry {
        /// The type of the key, which is basic.
        key: Boxed<WireType>,
        /// The type of the value.
        value: Boxed<WireType>,
    },
}

/// A value of D-Bus.
#[derive(Debug, Drop)]
pub enum Value {
    /// A byte.
    Byte(u8),
    /// A boolean.
    Bool(bool),
    /// A signed number of 16 bits.
    I16(i16),
    /// An unsigned number of 16 bits.
    U16(u16),
    /// A signed number of 32 bits.
    I32(i32),
    /// An unsigned number of 32 bits.
    U32(u32),
    /// A signed number of 64 bits.
    I64(i64),
    /// An unsigned number of 64 bits.
    U64(u64),
    /// A double, as the number of its eight bytes.
    Double(u64),
    /// A text without zero bytes.
    Str(Text),
    /// The path of an object.
    ObjectPath(Text),
    /// The text of a list of types.
    Signature(Text),
    /// The index of a file descriptor.
    Handle(u32),
    /// A value with its type, which is known from the value.
    Variant(Boxed<Value>),
    // Packed bytes are a variant of their own, since readers match on variants and a value is to
    // have only one form: an `Array` of bytes breaks the rules of values, and no reader makes one.
    /// An array of bytes, packed; it is the only form of one.
    Bytes(ByteList),
    /// Values of one type, which isn't that of bytes.
    Array {
        // A copy for each array would take gigabytes for two million empty arrays of a struct of
        // 251 members.
        /// The type of each item, which arrays of one type share.
        element: Shared<WireType>,
        /// The items.
        items: List<Value>,
    },
    /// One or more values.
    Struct(List<Value>),
    /// An item of an array that is a dictionary.
    DictEntry {
        /// The key.
        key: Boxed<Value>,
        /// The value of the key.
        value: Boxed<Value>,
    },
}
