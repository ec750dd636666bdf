//! Writing values.
//!
//! Source: D-Bus Specification, "Marshaling (Wire Format)".

ghost use Rattle.std.specs.Prelude.{◌≡◌, ◌+◌, ◌<◌, ◌≤◌, ◌^◌, ℕ, List, ◌++◌, OnOk, OnErr, length, take, drop, map, replicate, slice_set};
ghost use Rattle.std.specs.Int.{to_le_bytes, w8, w16, w32, w64};
ghost use Rattle.dbus_types.specs.declared.types.Value.{Value as Value'};
ghost use Rattle.dbus_types.specs.declared.types.Value.TheVariants as V;
ghost use Rattle.dbus_types.specs.declared.types.WireType.{WireType as WireType'};
ghost use Rattle.dbus_types.specs.declared.types.Endian.{Endian as Endian'};
ghost use Rattle.dbus_types.specs.declared.types.Endian.TheVariants.{Little};
ghost use Rattle.dbus_values.specs.Spells.{Spells, gap};
ghost use Rattle.dbus_values.specs.Spelling.{Extends, aligned, spelled, spelling, spellings, signature_body, text_body, array_body, bytes_body};

pub use crate::put::{overwrite_length, pad};
use crate::put::{put_16, put_32, put_64, put_bytes, put_length, put_short_text, put_text};
use crate::signature::put_signature;
use dbus_types::layout::alignment_of;
use dbus_types::types::Value;
use portal_base::list::ByteList;
use portal_base::memory::WantOfMemory;

#[cycle(write)]
#[tactic(auto, using(dbus_values::proofs::ListFronts::extends_refl, dbus_values::proofs::ListFronts::extends_append, dbus_values::proofs::ListFronts::extends_trans))]
fn write(out: &mut ByteList, value: &Value) -> Result<(), WantOfMemory>
    ensures ok { OnOk result (out.new ≡ out.old ++ spelling Little (length out.old) value.now) }
    ensures err { OnErr result (Extends out.old out.new) }
{
    match value {
        Value::Byte(number) => out.push(*number),
        Value::Bool(truth) => put_32(out, if *truth { 1 } else { 0 }),
        Value::I16(number) => put_16(out, number.cast_unsigned()),
        Value::U16(number) => put_16(out, *number),
        Value::I32(number) => put_32(out, number.cast_unsigned()),
        Value::U32(number) => put_32(out, *number),
        Value::I64(number) => put_64(out, number.cast_unsigned()),
        Value::U64(number) => put_64(out, *number),
        Value::Double(bits) => put_64(out, *bits),
        Value::Handle(index) => put_32(out, *index),
        Value::Str(text) => put_text(out, text.as_bytes()),
        Value::ObjectPath(path) => put_text(out, path.as_bytes()),
        Value::Signature(text) => put_short_text(out, text.as_bytes()),
        Value::Variant(inner) => {
            put_signature(out, inner.get())?;
            write(out, inner.get())
        }
        Value::Bytes(bytes) => put_bytes(out, bytes.as_slice()),
        Value::Array { element, items } => {
            write_array(out, alignment_of(element), items.as_slice())
        }
        Value::Struct(members) => {
            pad(out, 8)?;
            write_all(out, members.as_slice())
        }
        Value::DictEntry { key, value } => {
            pad(out, 8)?;
            write(out, key.get())?;
            write(out, value.get())
        }
    }
}

#[cycle(write)]
#[tactic(auto, using(dbus_values::proofs::ListFronts::extends_refl, dbus_values::proofs::ListFronts::extends_append, dbus_values::proofs::ListFronts::extends_trans))]
fn write_array(out: &mut ByteList, to: usize, items: &[Value]) -> Result<(), WantOfMemory>
    requires { 0 < to }
    ensures ok { OnOk result (out.new ≡ out.old ++ (replicate (gap 4 (length out.old)) 0
        ++ array_body Little to (map (spelled Little) items.now)
        (length out.old + gap 4 (length out.old)))) }
    ensures err { OnErr result (Extends out.old out.new) }
{
    pad(out, 4)?;
    // The length is written over behind the elements: to know it ahead each would have to be
    // spelled twice.
    let hole = out.len();
    put_length(out, 0)?;
    pad(out, to)?;
    let begins = out.len();
    write_all(out, items)?;
    let len = out.len() - begins;
    overwrite_length(out, hole, len);
    Ok(())
}

/// Puts the spellings of values, one after another, at the end of a list, whose
/// length is the offset of the first.
///
/// Where there is no memory the list begins with what it had.
#[cycle(write)]
#[tactic(auto, using(dbus_values::proofs::ListFronts::extends_refl, dbus_values::proofs::ListFronts::extends_append, dbus_values::proofs::ListFronts::extends_trans))]
pub fn write_all(out: &mut ByteList, values: &[Value]) -> Result<(), WantOfMemory>
    ensures ok { OnOk result (out.new ≡ out.old ++ spellings Little (length out.old) values.now) }
    ensures err { OnErr result (Extends out.old out.new) }
{
    for value in values {
        write(out, value)?;
    }
    Ok(())
}

/// Puts the spelling of a value, with the lowest byte of each number first, at
/// the end of a list, whose length is the offset.
///
/// Where there is no memory the list stays as it was. What is put for a value
/// that breaks a rule, and so has no spelling, is `spelling` all the same.
pub fn write_value(out: &mut ByteList, value: &Value) -> Result<(), WantOfMemory>
    ensures written { OnOk result (out.new ≡ out.old
        ++ spelling Little (length out.old) value.now) }
    ensures ok { (kind : WireType') (text : List ℕ)
        → Spells Little (length out.old) kind value.now text
        → OnOk result (out.new ≡ out.old ++ text) }
    ensures err { OnErr result (out.new ≡ out.old) }
{
    let len = out.len();
    match write(out, value) {
        Ok(()) => Ok(()),
        Err(error) => {
            out.truncate(len);
            Err(error)
        }
    }
}

/// No spelling begins another of the same type at the same offset: what was
/// written is read again, whatever follows.
pub fn one_spelling()
    ensures { (endian : Endian') (at : ℕ) (kind : WireType') (value other : Value')
        (text last rest more : List ℕ) → Spells endian at kind value text
        → Spells endian at kind other last
        → text ++ rest ≡ last ++ more → (value ≡ other) × (text ≡ last) × (rest ≡ more) }
{}
