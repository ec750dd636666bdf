//! Places and identifiers behind the header of a return.

ghost use Rattle.std.specs.Prelude.{◌≡◌, ◌+◌, ◌-◌, ◌*◌, ◌≤◌, ◌++◌, drop, length, take, true, IfOk, IsOk};
ghost use Rattle.std.specs.Int.{w32};
ghost use Rattle.std.specs.List.{list_all};
ghost use Rattle.dbus_types.specs.declared.types.Endian.TheVariants.{Little};
ghost use Rattle.dbus_values.specs.Spells.{number as number_bytes};
ghost use Rattle.bus_answers.specs.Begun.{full_at, ids_at, named_at, texts_at, with_body};
ghost use Rattle.bus_answers.specs.Little.{is_short};
ghost use Rattle.bus_answers.specs.Rooms.{HasRoom};

use crate::put::{len_of, put_extra, put_number, put_texts};
use dbus_calls::method::Method;
use dbus_marshal::write::overwrite_length;
use portal_base::list::{ByteList, List};
use portal_base::memory::WantOfMemory;
use portal_base::text::Text;

/// Where the length of a message's body stands.
const BODY_LENGTH_AT: usize = 4;

/// A place behind a header.
pub(crate) fn with_place(front: Vec<u8>, place: u32) -> Result<ByteList, WantOfMemory>
    requires { 8 ≤ length front.items }
    ensures bytes { IfOk result (λ bytes. bytes
        ≡ with_body front.items (number_bytes Little w32 place)) }
    ensures room { HasRoom front 4 → IsOk result }
{
    let mut out = front;
    let start = len_of(&out);
    put_number(&mut out, place as usize)?;
    Ok(sealed(List::from_vec(out), start))
}

/// The identifiers that a call of a method returns, behind a header.
pub(crate) fn with_ids(
    method: Method,
    front: Vec<u8>,
    extra: &[u8],
    ids: &[Text],
) -> Result<ByteList, WantOfMemory>
    requires long { 8 ≤ length front.items }
    requires wide { 8 ≤ length extra.now }
    requires short { list_all is_short ids.now ≡ true }
    ensures bytes { IfOk result (λ bytes. bytes ≡ with_body front.items
        (ids_at method (length front.items) extra.now ids.now)) }
    ensures room { HasRoom front (20 * length ids.now + (length extra.now + 14)) → IsOk result }
{
    match method {
        Method::AddFull => with_array(front, extra, ids),
        Method::AddNamedFull => with_named(front, extra, ids),
        _ => with_texts(front, ids),
    }
}

/// Identifiers, one after another.
fn with_texts(front: Vec<u8>, ids: &[Text]) -> Result<ByteList, WantOfMemory>
    requires long { 8 ≤ length front.items }
    requires short { list_all is_short ids.now ≡ true }
    ensures bytes { IfOk result (λ bytes. bytes
        ≡ with_body front.items (texts_at (length front.items) ids.now)) }
    ensures room { HasRoom front (20 * length ids.now) → IsOk result }
{
    let mut out = front;
    let start = len_of(&out);
    put_texts(&mut out, ids)?;
    Ok(sealed(List::from_vec(out), start))
}

/// The same, with the mount point behind them.
fn with_named(front: Vec<u8>, extra: &[u8], ids: &[Text]) -> Result<ByteList, WantOfMemory>
    requires long { 8 ≤ length front.items }
    requires wide { 8 ≤ length extra.now }
    requires short { list_all is_short ids.now ≡ true }
    ensures bytes { IfOk result (λ bytes. bytes
        ≡ with_body front.items (named_at (length front.items) extra.now ids.now)) }
    ensures room { HasRoom front (20 * length ids.now + (length extra.now + 10)) → IsOk result }
{
    let mut out = front;
    let start = len_of(&out);
    put_texts(&mut out, ids)?;
    put_extra(&mut out, extra)?;
    Ok(sealed(List::from_vec(out), start))
}

/// Identifiers as one array, with the mount point behind it.
fn with_array(front: Vec<u8>, extra: &[u8], ids: &[Text]) -> Result<ByteList, WantOfMemory>
    requires long { 8 ≤ length front.items }
    requires wide { 8 ≤ length extra.now }
    requires short { list_all is_short ids.now ≡ true }
    ensures bytes { IfOk result (λ bytes. bytes
        ≡ with_body front.items (full_at (length front.items) extra.now ids.now)) }
    ensures room { HasRoom front (20 * length ids.now + (length extra.now + 14)) → IsOk result }
{
    let mut out = front;
    let start = len_of(&out);
    // The array's length is written over behind its elements.
    put_number(&mut out, 0)?;
    let begins = len_of(&out);
    put_texts(&mut out, ids)?;
    let len = len_of(&out) - begins;
    put_extra(&mut out, extra)?;
    let mut bytes = List::from_vec(out);
    overwrite_length(&mut bytes, start, len);
    Ok(sealed(bytes, start))
}

/// A message whose body begins there, with the body's length put in.
fn sealed(mut bytes: ByteList, start: usize) -> ByteList
    requires front { 8 ≤ start }
    requires within { start ≤ length bytes }
    ensures { result ≡ take 4 bytes
        ++ (number_bytes Little w32 (length bytes - start) ++ drop 8 bytes) }
{
    let len = bytes.len() - start;
    overwrite_length(&mut bytes, BODY_LENGTH_AT, len);
    bytes
}
