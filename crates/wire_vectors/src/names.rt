//! Names and signatures.

use dbus_types::names::{is_interface, is_member, is_object_path};
use dbus_types::signature::{check_signature, read_signature};
use dbus_types::types::WireType;
use dbus_values::write::write_signature;
use std::alloc::Global;
use vector_lines::error::LineError;
use vector_lines::notation;
use vector_lines::output::Output;

/// `name TEXT`: of what the text is a name, each of which is told.
pub fn name(alloc: Global, out: &mut Output, rest: &str) -> Result<(), LineError> {
    let text = notation::text(alloc, rest)?;
    let text = text.as_slice();
    let (path, interface, member) = (is_object_path(text), is_interface(text), is_member(text));
    if path {
        out.text("path");
    }
    if interface {
        out.text("interface");
    }
    if member {
        out.text("member");
    }
    if !path && !interface && !member {
        out.text("nothing");
    }
    Ok(())
}

/// `signature TEXT`: how many types it has, and their text; or where it breaks.
pub fn signature(alloc: Global, out: &mut Output, rest: &str) -> Result<(), LineError> {
    let text = notation::text(alloc, rest)?;
    let text = text.as_slice();
    match check_signature(text) {
        Ok(()) => put_counted(alloc, out, text),
        Err(error) => {
            out.debug(&error);
            Ok(())
        }
    }
}

/// How many types a text has, and their signature.
fn put_counted(alloc: Global, out: &mut Output, text: &[u8]) -> Result<(), LineError> {
    let kinds = read_signature(alloc, text)?;
    out.number(kinds.len() as u64);
    out.text(" ");
    put_kinds(alloc, out, kinds.as_slice());
    Ok(())
}

/// Types as a signature.
pub fn put_kinds(alloc: Global, out: &mut Output, kinds: &[WireType]) {
    match write_signature(alloc, kinds) {
        Ok(text) => out.lossy(text.as_slice()),
        Err(error) => out.debug(&error),
    }
}
