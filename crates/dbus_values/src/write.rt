//! Writing the text of types.
//!
//! Source: D-Bus Specification, "Type System".

ghost use Rattle.std.specs.Prelude.{◌≡◌, ◌++◌, OnOk, OnErr, IfOk, drop, map};
ghost use Rattle.dbus_types.specs.Types.{type_text, types_text};
ghost use Rattle.dbus_values.specs.Values.{type_of};
ghost use Rattle.dbus_values.specs.Extends.{Extends};

use dbus_types::types::{Value, WireType};
use portal_base::list::{ByteList, List};
use portal_base::memory::WantOfMemory;
use portal_base::text::Text;
use std::alloc::Global;

/// Puts the text of a type at the end; where memory runs out, a part of it
/// may stand there.
#[cycle(put)]
#[tactic(auto, using(crate::proofs::ListFronts::extends_refl, crate::proofs::ListFronts::extends_append, crate::proofs::ListFronts::extends_trans, dbus_types::proofs::TypeLayers::text_struct))]
fn put_type(out: &mut List<u8>, kind: &WireType) -> Result<(), WantOfMemory>
    ensures ok { OnOk result (out.new ≡ out.old ++ type_text kind.now) }
    ensures err { OnErr result (Extends out.old out.new) }
{
    match kind {
        WireType::Byte => out.push(b'y'),
        WireType::Bool => out.push(b'b'),
        WireType::I16 => out.push(b'n'),
        WireType::U16 => out.push(b'q'),
        WireType::I32 => out.push(b'i'),
        WireType::U32 => out.push(b'u'),
        WireType::I64 => out.push(b'x'),
        WireType::U64 => out.push(b't'),
        WireType::Double => out.push(b'd'),
        WireType::Str => out.push(b's'),
        WireType::ObjectPath => out.push(b'o'),
        WireType::Signature => out.push(b'g'),
        WireType::Handle => out.push(b'h'),
        WireType::Variant => out.push(b'v'),
        WireType::Array(element) => {
            out.push(b'a')?;
            put_type(out, element.get())
        }
        WireType::Struct(kinds) => {
            out.push(b'(')?;
            put_types(out, kinds.as_slice())?;
            out.push(b')')
        }
        WireType::DictEntry { key, value } => {
            out.push(b'{')?;
            put_type(out, key.get())?;
            put_type(out, value.get())?;
            out.push(b'}')
        }
    }
}

/// Puts the texts of types at the end, one after the other.
#[cycle(put)]
#[tactic(auto, using(crate::proofs::ListFronts::extends_refl, crate::proofs::ListFronts::extends_append, crate::proofs::ListFronts::extends_trans))]
fn put_types(out: &mut List<u8>, kinds: &[WireType]) -> Result<(), WantOfMemory>
    ensures ok { OnOk result (out.new ≡ out.old ++ types_text kinds.now) }
    ensures err { OnErr result (Extends out.old out.new) }
{
    for kind in kinds {
        put_type(out, kind)?;
    }
    Ok(())
}

/// Puts the text of a value's type at the end.
#[cycle(put_of)]
#[tactic(auto, using(crate::proofs::ListFronts::extends_refl, crate::proofs::ListFronts::extends_append, crate::proofs::ListFronts::extends_trans, dbus_types::proofs::TypeLayers::text_struct))]
pub fn put_type_of(out: &mut List<u8>, value: &Value) -> Result<(), WantOfMemory>
    ensures ok { OnOk result (out.new ≡ out.old ++ type_text (type_of value.now)) }
    ensures err { OnErr result (Extends out.old out.new) }
{
    match value {
        Value::Byte(_) => out.push(b'y'),
        Value::Bool(_) => out.push(b'b'),
        Value::I16(_) => out.push(b'n'),
        Value::U16(_) => out.push(b'q'),
        Value::I32(_) => out.push(b'i'),
        Value::U32(_) => out.push(b'u'),
        Value::I64(_) => out.push(b'x'),
        Value::U64(_) => out.push(b't'),
        Value::Double(_) => out.push(b'd'),
        Value::Str(_) => out.push(b's'),
        Value::ObjectPath(_) => out.push(b'o'),
        Value::Signature(_) => out.push(b'g'),
        Value::Handle(_) => out.push(b'h'),
        Value::Variant(_) => out.push(b'v'),
        Value::Bytes(_) => {
            out.push(b'a')?;
            out.push(b'y')
        }
        Value::Array { element, .. } => {
            out.push(b'a')?;
            put_type(out, element)
        }
        Value::Struct(members) => {
            out.push(b'(')?;
            put_types_of(out, members.as_slice())?;
            out.push(b')')
        }
        Value::DictEntry { key, value } => {
            out.push(b'{')?;
            put_type_of(out, key.get())?;
            put_type_of(out, value.get())?;
            out.push(b'}')
        }
    }
}

/// Puts the texts of values' types at the end, one after the other.
#[cycle(put_of)]
#[tactic(auto, using(crate::proofs::ListFronts::extends_refl, crate::proofs::ListFronts::extends_append, crate::proofs::ListFronts::extends_trans))]
fn put_types_of(out: &mut List<u8>, values: &[Value]) -> Result<(), WantOfMemory>
    ensures ok { OnOk result (out.new ≡ out.old ++ types_text (map type_of values.now)) }
    ensures err { OnErr result (Extends out.old out.new) }
{
    for value in values {
        put_type_of(out, value)?;
    }
    Ok(())
}

/// The text of a list of types. `read_signature` reads it again where it is a
/// signature: within the limits of depth and at most 255 bytes long.
pub fn write_signature(alloc: Global, kinds: &[WireType]) -> Result<ByteList, WantOfMemory>
    ensures { IfOk result (λ text. text ≡ types_text kinds.now) }
{
    let mut text = List::new(alloc);
    put_types(&mut text, kinds)?;
    Ok(text)
}

/// The signature of values: the texts of their types, one after the other.
pub fn signature_text(alloc: Global, values: &[Value]) -> Result<Text, WantOfMemory>
    ensures { IfOk result (λ text. text ≡ types_text (map type_of values.now)) }
{
    let mut codes = List::new(alloc);
    put_types_of(&mut codes, values)?;
    // Codes are ASCII, of which nothing is replaced.
    let text = String::from_utf8_lossy(alloc, codes.as_slice())?;
    Ok(Text::from_string(text))
}
