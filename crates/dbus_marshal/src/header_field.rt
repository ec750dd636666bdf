//! Writing the fields of a message's header, each of which is a struct of its
//! code and of a variant.
//!
//! Where one of these finds no memory, the list still begins with what it had.
//!
//! Source: D-Bus Specification, "Message Format" and "Header Fields".

ghost use Rattle.std.specs.Prelude.{◌≡◌, ◌++◌, [], ◌∷◌, OnOk, OnErr, length, map, replicate};
ghost use Rattle.dbus_types.specs.declared.types.Endian.TheVariants.{Little};
ghost use Rattle.dbus_types.specs.declared.types.Value.TheVariants as V;
ghost use Rattle.dbus_values.specs.Spells.{gap};
ghost use Rattle.dbus_values.specs.Spelling.{Extends, signature_body, spelling};
ghost use Rattle.dbus_types.specs.Types.{types_text};
ghost use Rattle.dbus_values.specs.Values.{type_of};

use crate::put::{overwrite_byte, pad, put_32, put_text};
use dbus_types::types::Value;
use dbus_values::write::put_type_of;
use portal_base::list::ByteList;
use portal_base::memory::WantOfMemory;

/// Puts the code of a field and the signature of its value, which is of one
/// letter.
#[tactic(auto, using(dbus_values::proofs::ListFronts::extends_refl, dbus_values::proofs::ListFronts::extends_append, dbus_values::proofs::ListFronts::extends_trans))]
fn put_head(out: &mut ByteList, code: u8, letter: u8) -> Result<(), WantOfMemory>
    ensures ok { OnOk result (out.new ≡ (out.old ++ replicate (gap 8 (length out.old)) 0)
        ++ (code ∷ 1 ∷ letter ∷ 0 ∷ [])) }
    ensures err { OnErr result (Extends out.old out.new) }
{
    pad(out, 8)?;
    out.extend_from_slice(&[code, 1, letter, 0])
}

/// Puts the field of a code whose value is a number of 32 bits.
#[tactic(auto, using(dbus_values::proofs::ListFronts::extends_refl, dbus_values::proofs::ListFronts::extends_append, dbus_values::proofs::ListFronts::extends_trans))]
pub fn write_number_field(out: &mut ByteList, code: u8, number: u32) -> Result<(), WantOfMemory>
    ensures ok { OnOk result (out.new ≡ out.old ++ spelling Little (length out.old)
        (V.Struct (V.Byte code ∷ V.Variant (V.U32 number) ∷ []))) }
    ensures err { OnErr result (Extends out.old out.new) }
{
    put_head(out, code, b'u')?;
    put_32(out, number)
}

/// Puts the field of a code whose value is a text.
#[tactic(auto, using(dbus_values::proofs::ListFronts::extends_refl, dbus_values::proofs::ListFronts::extends_append, dbus_values::proofs::ListFronts::extends_trans))]
pub fn write_text_field(out: &mut ByteList, code: u8, text: &[u8]) -> Result<(), WantOfMemory>
    ensures ok { OnOk result (out.new ≡ out.old ++ spelling Little (length out.old)
        (V.Struct (V.Byte code ∷ V.Variant (V.Str text.now) ∷ []))) }
    ensures err { OnErr result (Extends out.old out.new) }
{
    put_head(out, code, b's')?;
    put_text(out, text)
}

/// Puts the field of a code whose value is the path of an object.
#[tactic(auto, using(dbus_values::proofs::ListFronts::extends_refl, dbus_values::proofs::ListFronts::extends_append, dbus_values::proofs::ListFronts::extends_trans))]
pub fn write_path_field(out: &mut ByteList, code: u8, path: &[u8]) -> Result<(), WantOfMemory>
    ensures ok { OnOk result (out.new ≡ out.old ++ spelling Little (length out.old)
        (V.Struct (V.Byte code ∷ V.Variant (V.ObjectPath path.now) ∷ []))) }
    ensures err { OnErr result (Extends out.old out.new) }
{
    put_head(out, code, b'o')?;
    put_text(out, path)
}

/// Puts the texts of values' types, one after another.
#[tactic(auto, using(dbus_values::proofs::ListFronts::extends_refl, dbus_values::proofs::ListFronts::extends_append, dbus_values::proofs::ListFronts::extends_trans))]
fn put_types(out: &mut ByteList, values: &[Value]) -> Result<(), WantOfMemory>
    ensures ok { OnOk result (out.new ≡ out.old ++ types_text (map type_of values.now)) }
    ensures err { OnErr result (Extends out.old out.new) }
{
    for value in values {
        put_type_of(out, value)?;
    }
    Ok(())
}

/// Puts the signature of values, behind its length.
#[tactic(auto, using(dbus_values::proofs::ListFronts::extends_refl, dbus_values::proofs::ListFronts::extends_append, dbus_values::proofs::ListFronts::extends_trans))]
fn put_signature(out: &mut ByteList, values: &[Value]) -> Result<(), WantOfMemory>
    ensures ok { OnOk result (out.new ≡ out.old
        ++ signature_body (types_text (map type_of values.now))) }
    ensures err { OnErr result (Extends out.old out.new) }
{
    // The types are put at once, and counted behind, so that no text of them is made.
    let hole = out.len();
    out.push(0)?;
    let begins = out.len();
    put_types(out, values)?;
    let count = out.len() - begins;
    overwrite_byte(out, hole, count);
    out.push(0)
}

/// Puts the field of a code whose value is the signature of a body.
#[tactic(auto, using(dbus_values::proofs::ListFronts::extends_refl, dbus_values::proofs::ListFronts::extends_append, dbus_values::proofs::ListFronts::extends_trans))]
pub fn write_signature_field(
    out: &mut ByteList,
    code: u8,
    body: &[Value],
) -> Result<(), WantOfMemory>
    ensures ok { OnOk result (out.new ≡ out.old ++ spelling Little (length out.old)
        (V.Struct (V.Byte code ∷ V.Variant
        (V.Signature (types_text (map type_of body.now))) ∷ []))) }
    ensures err { OnErr result (Extends out.old out.new) }
{
    put_head(out, code, b'g')?;
    put_signature(out, body)
}
