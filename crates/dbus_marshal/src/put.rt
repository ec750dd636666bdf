//! Writing the pieces that values are spelled with.
//!
//! Where one of these finds no memory, the list still begins with what it had.

ghost use Rattle.std.specs.Prelude.{◌≡◌, ◌+◌, ◌<◌, ◌≤◌, ◌^◌, ◌++◌, OnOk, OnErr, length, take, drop, replicate, slice_set};
ghost use Rattle.std.specs.Int.{to_le_bytes, w8, w16, w32, w64};
ghost use Rattle.dbus_types.specs.declared.types.Endian.TheVariants.{Little};
ghost use Rattle.dbus_values.specs.Spells.{gap, number as number_bytes};
ghost use Rattle.dbus_values.specs.Spelling.{Extends, aligned, bytes_body, signature_body, text_body};

use portal_base::list::ByteList;
use portal_base::memory::WantOfMemory;

/// Puts zero bytes behind others up to a multiple of an alignment.
#[tactic(auto, using(dbus_values::proofs::ListFronts::extends_append))]
pub fn pad(out: &mut ByteList, to: usize) -> Result<(), WantOfMemory>
    requires { 0 < to }
    ensures ok { OnOk result (out.new ≡ out.old ++ replicate (gap to (length out.old)) 0) }
    ensures err { OnErr result (Extends out.old out.new) }
{
    let count = (to - out.len() % to) % to;
    for written in 0..count {
        let _ = written;
        out.push(0)?;
    }
    Ok(())
}

/// The lowest four bytes of a number.
fn four_bytes(number: usize) -> [u8; 4]
    ensures { result ≡ to_le_bytes w32 number }
{
    let bytes = (number as u64).to_le_bytes();
    [bytes[0], bytes[1], bytes[2], bytes[3]]
}

/// The lowest byte of a number.
fn one_byte(number: usize) -> [u8; 1]
    ensures { result ≡ to_le_bytes w8 number }
{
    let bytes = (number as u64).to_le_bytes();
    [bytes[0]]
}

/// Writes the lowest four bytes of a number over those at a place.
#[tactic(auto, using(crate::proofs::BytesSet::four_set))]
pub fn overwrite_length(out: &mut ByteList, at: usize, number: usize)
    requires { at + 4 ≤ length out.old }
    ensures { out.new ≡ take at out.old ++ (to_le_bytes w32 number ++ drop (at + 4) out.old) }
{
    let bytes = four_bytes(number);
    // The list's length is a `usize`, and so are the places below it.
    let _len = out.len();
    out.set(at, bytes[0]);
    out.set(at + 1, bytes[1]);
    out.set(at + 2, bytes[2]);
    out.set(at + 3, bytes[3]);
}

/// Writes the lowest byte of a number over the one at a place.
pub(crate) fn overwrite_byte(out: &mut ByteList, at: usize, number: usize)
    requires { at < length out.old }
    ensures { out.new ≡ take at out.old ++ (to_le_bytes w8 number ++ drop (at + 1) out.old) }
{
    let bytes = one_byte(number);
    out.set(at, bytes[0]);
}

#[tactic(auto, using(dbus_values::proofs::ListFronts::extends_refl))]
pub(crate) fn put_length(out: &mut ByteList, number: usize) -> Result<(), WantOfMemory>
    ensures ok { OnOk result (out.new ≡ out.old ++ to_le_bytes w32 number) }
    ensures err { OnErr result (Extends out.old out.new) }
{
    out.extend_from_slice(&four_bytes(number))
}

#[tactic(auto, using(dbus_values::proofs::ListFronts::extends_refl, dbus_values::proofs::ListFronts::extends_append, dbus_values::proofs::ListFronts::extends_trans))]
pub(crate) fn put_16(out: &mut ByteList, number: u16) -> Result<(), WantOfMemory>
    ensures ok { OnOk result (out.new ≡ out.old
        ++ aligned 2 (λ start. number_bytes Little w16 number) (length out.old)) }
    ensures err { OnErr result (Extends out.old out.new) }
{
    pad(out, 2)?;
    out.extend_from_slice(&number.to_le_bytes())
}

#[tactic(auto, using(dbus_values::proofs::ListFronts::extends_refl, dbus_values::proofs::ListFronts::extends_append, dbus_values::proofs::ListFronts::extends_trans))]
pub(crate) fn put_32(out: &mut ByteList, number: u32) -> Result<(), WantOfMemory>
    ensures ok { OnOk result (out.new ≡ out.old
        ++ aligned 4 (λ start. number_bytes Little w32 number) (length out.old)) }
    ensures err { OnErr result (Extends out.old out.new) }
{
    pad(out, 4)?;
    out.extend_from_slice(&number.to_le_bytes())
}

#[tactic(auto, using(dbus_values::proofs::ListFronts::extends_refl, dbus_values::proofs::ListFronts::extends_append, dbus_values::proofs::ListFronts::extends_trans))]
pub(crate) fn put_64(out: &mut ByteList, number: u64) -> Result<(), WantOfMemory>
    ensures ok { OnOk result (out.new ≡ out.old
        ++ aligned 8 (λ start. number_bytes Little w64 number) (length out.old)) }
    ensures err { OnErr result (Extends out.old out.new) }
{
    pad(out, 8)?;
    out.extend_from_slice(&number.to_le_bytes())
}

/// A text with its length in four bytes.
#[tactic(auto, using(dbus_values::proofs::ListFronts::extends_refl, dbus_values::proofs::ListFronts::extends_append, dbus_values::proofs::ListFronts::extends_trans))]
pub(crate) fn put_text(out: &mut ByteList, text: &[u8]) -> Result<(), WantOfMemory>
    ensures ok { OnOk result (out.new ≡ out.old
        ++ aligned 4 (λ start. text_body Little text.now) (length out.old)) }
    ensures err { OnErr result (Extends out.old out.new) }
{
    pad(out, 4)?;
    put_length(out, text.len())?;
    out.extend_from_slice(text)?;
    out.push(0)
}

/// Bytes with their number in four bytes.
#[tactic(auto, using(dbus_values::proofs::ListFronts::extends_refl, dbus_values::proofs::ListFronts::extends_append, dbus_values::proofs::ListFronts::extends_trans))]
pub(crate) fn put_bytes(out: &mut ByteList, bytes: &[u8]) -> Result<(), WantOfMemory>
    ensures ok { OnOk result (out.new ≡ out.old
        ++ aligned 4 (λ start. bytes_body Little bytes.now) (length out.old)) }
    ensures err { OnErr result (Extends out.old out.new) }
{
    pad(out, 4)?;
    put_length(out, bytes.len())?;
    out.extend_from_slice(bytes)
}

/// A text with its length in one byte.
#[tactic(auto, using(dbus_values::proofs::ListFronts::extends_refl, dbus_values::proofs::ListFronts::extends_append, dbus_values::proofs::ListFronts::extends_trans))]
pub(crate) fn put_short_text(out: &mut ByteList, text: &[u8]) -> Result<(), WantOfMemory>
    ensures ok { OnOk result (out.new ≡ out.old ++ signature_body text.now) }
    ensures err { OnErr result (Extends out.old out.new) }
{
    out.extend_from_slice(&one_byte(text.len()))?;
    out.extend_from_slice(text)?;
    out.push(0)
}
