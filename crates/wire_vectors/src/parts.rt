//! Parts that several answers have.

use dbus_types::types::Value;
use portal_base::list::{ByteList, List};
use portal_base::memory::WantOfMemory;
use std::fmt::Debug;
use vector_lines::output::Output;
use vector_lines::values;

/// A text, and behind it a value as a programmer sees it.
pub fn put_after<T: Debug>(out: &mut Output, text: &str, value: &T) {
    out.text(text);
    out.debug(value);
}

/// The digits of bytes that were made.
pub fn put_digits(out: &mut Output, made: Result<ByteList, WantOfMemory>) {
    match made {
        Ok(bytes) => out.digits(bytes.as_slice()),
        Err(error) => out.debug(&error),
    }
}

/// Values between parentheses, behind a space.
pub fn put_values(out: &mut Output, all: &List<Value>) {
    out.text(" (");
    values::put_values(out, all.as_slice());
    out.text(")");
}
