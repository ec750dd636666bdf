//! Whether types have a signature, told without writing theirs out.
//!
//! Source: D-Bus Specification, "Type System".

ghost use Rattle.std.specs.Prelude.{◌≡◌, [], ◌∷◌, ◌++◌};
ghost use Rattle.std.specs.Option.{option_copied};
ghost use Rattle.std.specs.Str.{bytes_eq};
ghost use Rattle.dbus_types.specs.Types.{type_text, types_text};
ghost use Rattle.dbus_calls.specs.Signatures.{IsBehind};

use dbus_types::types::WireType;

/// Says whether types have a signature.
pub(crate) fn have_signature(kinds: &[WireType], signature: &[u8]) -> bool
    ensures { result ≡ bytes_eq (types_text kinds.now) signature.now }
{
    match behind_types(signature, kinds) {
        Some(rest) => rest.is_empty(),
        None => false,
    }
}

/// What is left of a text behind a byte.
fn behind_byte(text: &[u8], byte: u8) -> Option<&[u8]>
    ensures { IsBehind (byte ∷ []) text.now (option_copied result) }
{
    match text {
        [first, rest @ ..] if *first == byte => Some(rest),
        _ => None,
    }
}

/// What is left of a text behind that of a type.
#[cycle(behind)]
fn behind_type<'a>(text: &'a [u8], kind: &WireType) -> Option<&'a [u8]>
    ensures { IsBehind (type_text kind.now) text.now (option_copied result) }
{
    match kind {
        WireType::Byte => behind_byte(text, b'y'),
        WireType::Bool => behind_byte(text, b'b'),
        WireType::I16 => behind_byte(text, b'n'),
        WireType::U16 => behind_byte(text, b'q'),
        WireType::I32 => behind_byte(text, b'i'),
        WireType::U32 => behind_byte(text, b'u'),
        WireType::I64 => behind_byte(text, b'x'),
        WireType::U64 => behind_byte(text, b't'),
        WireType::Double => behind_byte(text, b'd'),
        WireType::Str => behind_byte(text, b's'),
        WireType::ObjectPath => behind_byte(text, b'o'),
        WireType::Signature => behind_byte(text, b'g'),
        WireType::Handle => behind_byte(text, b'h'),
        WireType::Variant => behind_byte(text, b'v'),
        WireType::Array(element) => match behind_byte(text, b'a') {
            Some(rest) => behind_type(rest, element.get()),
            None => None,
        },
        WireType::Struct(kinds) => behind_struct(text, kinds.as_slice()),
        WireType::DictEntry { key, value } => {
            let first = behind_byte(text, b'{')?;
            let second = behind_type(first, key.get())?;
            let end = behind_type(second, value.get())?;
            behind_byte(end, b'}')
        }
    }
}

/// What is left of a text behind that of a struct.
#[cycle(behind)]
fn behind_struct<'a>(text: &'a [u8], kinds: &[WireType]) -> Option<&'a [u8]>
    ensures { IsBehind (40 ∷ (types_text kinds.now ++ 41 ∷ [])) text.now (option_copied result) }
{
    match behind_byte(text, b'(') {
        Some(members) => match behind_types(members, kinds) {
            Some(end) => behind_byte(end, b')'),
            None => None,
        },
        None => None,
    }
}

/// What is left of a text behind those of types, one after the other.
#[cycle(behind)]
fn behind_types<'a>(text: &'a [u8], kinds: &[WireType]) -> Option<&'a [u8]>
    ensures { IsBehind (types_text kinds.now) text.now (option_copied result) }
{
    let mut rest = text;
    for kind in kinds {
        match behind_type(rest, kind) {
            Some(next) => rest = next,
            None => return None,
        }
    }
    Some(rest)
}
