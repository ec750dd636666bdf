//! Values, read and written.

use crate::parts::put_after;
use crate::stack::type_of;
use dbus_marshal::read::{ReadValue, read_value};
use dbus_marshal::write::write_value;
use dbus_types::types::{Endian, Value};
use portal_base::list::List;
use std::alloc::Global;
use vector_lines::error::LineError;
use vector_lines::notation::{bytes, cut, small_number};
use vector_lines::output::Output;
use vector_lines::values::put_value;

/// `value TYPE AT ORDER BYTES`: the value of the type that the bytes spell from
/// the one at AT on, where numbers have their lowest byte (`l`) or their
/// highest (`B`) first; the place behind it; and its spelling at that place
/// again, with the lowest byte first. Or why none is spelled.
pub fn value(alloc: Global, out: &mut Output, rest: &str) -> Result<(), LineError> {
    let (kind, rest) = cut(rest);
    let (at, rest) = cut(rest);
    let (order, rest) = cut(rest);
    let at = small_number(at)? as usize;
    let endian = endian(order)?;
    let bytes = bytes(alloc, rest)?;
    put_read(alloc, out, kind, at, endian, bytes.as_slice())
}

fn endian(word: &str) -> Result<Endian, LineError> {
    match word {
        "l" => Ok(Endian::Little),
        "B" => Ok(Endian::Big),
        _ => Err(LineError::BadLine),
    }
}

fn put_read(
    alloc: Global,
    out: &mut Output,
    kind: &str,
    at: usize,
    endian: Endian,
    bytes: &[u8],
) -> Result<(), LineError> {
    if at > bytes.len() {
        return Err(LineError::BadLine);
    }
    let kind = type_of(alloc, kind)?;
    match read_value(alloc, endian, bytes, at, &kind) {
        Ok(found) => put_found(alloc, out, &found, at),
        Err(error) => {
            out.debug(&error);
            Ok(())
        }
    }
}

fn put_found(
    alloc: Global,
    out: &mut Output,
    found: &ReadValue,
    at: usize,
) -> Result<(), LineError> {
    put_value(out, &found.value);
    put_after(out, " to ", &found.next);
    out.text(": ");
    put_written(alloc, out, at, &found.value)
}

/// What is written of a value at a place.
fn put_written(alloc: Global, out: &mut Output, at: usize, value: &Value) -> Result<(), LineError> {
    let mut bytes = List::new(alloc);
    bytes.resize(at, 0xff)?;
    write_value(&mut bytes, value)?;
    out.digits(bytes.as_slice().get(at..).unwrap_or(b""));
    Ok(())
}
