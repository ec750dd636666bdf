//! What is put into a buffer that has room for it.
//!
//! Where there is room no memory is wanted.

ghost use Rattle.std.specs.Prelude.{◌≡◌, ◌+◌, ◌*◌, ◌<◌, ◌≤◌, ◌++◌, drop, length, replicate, take, true, IsOk, OnOk};
ghost use Rattle.std.specs.Int.{to_le_bytes, w32};
ghost use Rattle.std.specs.List.{list_all};
ghost use Rattle.dbus_types.specs.declared.types.Endian.TheVariants.{Little};
ghost use Rattle.dbus_values.specs.Spells.{gap, number as number_bytes};
ghost use Rattle.dbus_values.specs.Spelling.{aligned, text_body};
ghost use Rattle.bus_answers.specs.Begun.{extra_at, texts_at};
ghost use Rattle.bus_answers.specs.Little.{is_short};
ghost use Rattle.bus_answers.specs.Rooms.{HasRoom, TakesRoom};

use portal_base::memory::WantOfMemory;
use portal_base::text::Text;

/// How many bytes stand in a buffer.
pub(crate) fn len_of(out: &Vec<u8>) -> usize
    ensures { result ≡ length out.now.items }
{
    out.as_slice().len()
}

/// Puts bytes at the end.
fn put_bytes(out: &mut Vec<u8>, more: &[u8]) -> Result<(), WantOfMemory>
    ensures items { OnOk result (out.new.items ≡ out.old.items ++ more.now) }
    ensures room { HasRoom out.old (length more.now) → IsOk result }
    ensures takes { TakesRoom out.old (length more.now) out.new }
{
    out.extend_from_slice(more)?;
    Ok(())
}

/// Puts a few zeros at the end.
fn put_zeros(out: &mut Vec<u8>, count: usize) -> Result<(), WantOfMemory>
    requires { count < 8 }
    ensures items { OnOk result (out.new.items ≡ out.old.items ++ replicate count 0) }
    ensures room { HasRoom out.old count → IsOk result }
    ensures takes { TakesRoom out.old count out.new }
{
    put_bytes(out, &[0; 7][..count])
}

/// Puts zeros up to a multiple of 4.
fn pad_4(out: &mut Vec<u8>) -> Result<(), WantOfMemory>
    ensures items { OnOk result (out.new.items ≡ out.old.items
        ++ replicate (gap 4 (length out.old.items)) 0) }
    ensures room { HasRoom out.old 3 → IsOk result }
    ensures takes { TakesRoom out.old 3 out.new }
{
    put_zeros(out, gap_4(len_of(out)))
}

/// Puts zeros up to a multiple of 8.
fn pad_8(out: &mut Vec<u8>) -> Result<(), WantOfMemory>
    ensures items { OnOk result (out.new.items ≡ out.old.items
        ++ replicate (gap 8 (length out.old.items)) 0) }
    ensures room { HasRoom out.old 7 → IsOk result }
    ensures takes { TakesRoom out.old 7 out.new }
{
    put_zeros(out, gap_8(len_of(out)))
}

/// How far a length is from a multiple of 4.
fn gap_4(len: usize) -> usize
    ensures value { result ≡ gap 4 len }
    ensures small { result < 4 }
{
    (4 - len % 4) % 4
}

/// How far a length is from a multiple of 8.
fn gap_8(len: usize) -> usize
    ensures value { result ≡ gap 8 len }
    ensures small { result < 8 }
{
    (8 - len % 8) % 8
}

/// The lowest four bytes of a number.
fn four_bytes(number: usize) -> [u8; 4]
    ensures { result ≡ to_le_bytes w32 number }
{
    let bytes = (number as u64).to_le_bytes();
    [bytes[0], bytes[1], bytes[2], bytes[3]]
}

/// Puts the lowest four bytes of a number at the end.
pub(crate) fn put_number(out: &mut Vec<u8>, number: usize) -> Result<(), WantOfMemory>
    ensures items { OnOk result (out.new.items ≡ out.old.items ++ number_bytes Little w32 number) }
    ensures room { HasRoom out.old 4 → IsOk result }
    ensures takes { TakesRoom out.old 4 out.new }
{
    put_bytes(out, &four_bytes(number))
}

/// Puts a text at the end, as it is spelled there.
fn put_text(out: &mut Vec<u8>, text: &[u8]) -> Result<(), WantOfMemory>
    ensures items { OnOk result (out.new.items ≡ out.old.items
        ++ aligned 4 (λ start. text_body Little text.now) (length out.old.items)) }
    ensures room { HasRoom out.old (length text.now + 12) → IsOk result }
    ensures takes { TakesRoom out.old (length text.now + 12) out.new }
{
    pad_4(out)?;
    put_number(out, text.len())?;
    put_bytes(out, text)?;
    put_bytes(out, &[0])
}

/// Puts short texts at the end, one after another, as they are spelled there.
pub(crate) fn put_texts(out: &mut Vec<u8>, texts: &[Text]) -> Result<(), WantOfMemory>
    requires { list_all is_short texts.now ≡ true }
    ensures items { OnOk result (out.new.items ≡ out.old.items
        ++ texts_at (length out.old.items) texts.now) }
    ensures room { HasRoom out.old (20 * length texts.now) → IsOk result }
    ensures takes { TakesRoom out.old (20 * length texts.now) out.new }
{
    for text in texts {
        put_text(out, text.as_bytes())?;
    }
    Ok(())
}

/// Puts the mount point under its key at the end, of the bytes that spell it from byte 4 on.
pub(crate) fn put_extra(out: &mut Vec<u8>, extra: &[u8]) -> Result<(), WantOfMemory>
    requires { 8 ≤ length extra.now }
    ensures items { OnOk result (out.new.items ≡ out.old.items
        ++ extra_at (length out.old.items) extra.now) }
    ensures room { HasRoom out.old (length extra.now + 10) → IsOk result }
    ensures takes { TakesRoom out.old (length extra.now + 10) out.new }
{
    pad_4(out)?;
    put_bytes(out, count_in(extra))?;
    pad_8(out)?;
    put_bytes(out, entry_in(extra))?;
    Ok(())
}

/// The number of the bytes of the entry.
fn count_in(extra: &[u8]) -> &[u8]
    requires { 8 ≤ length extra.now }
    ensures bytes { result.now ≡ drop 4 (take 8 extra.now) }
    ensures four { length result.now ≡ 4 }
{
    extra.split_at(8).0.split_at(4).1
}

/// The entry.
fn entry_in(extra: &[u8]) -> &[u8]
    requires { 8 ≤ length extra.now }
    ensures bytes { result.now ≡ drop 8 extra.now }
    ensures rest { length result.now + 8 ≡ length extra.now }
{
    extra.split_at(8).1
}
