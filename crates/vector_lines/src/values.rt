//! How lines write values of D-Bus.

use crate::output::Output;
use dbus_types::types::Value;
use portal_base::text::Text;

/// Adds a value: a byte and a double by the digits of their bytes, texts between quotes,
/// a variant as `<value>`, arrays as `[..]`, structs as `(..)` and dict entries as
/// `{key: value}`.
#[cycle(put)]
pub fn put_value(out: &mut Output, value: &Value) {
    match value {
        Value::Variant(inner) => {
            out.text("<");
            put_value(out, inner.get());
            out.text(">");
        }
        Value::Bytes(bytes) => put_bytes(out, bytes.as_slice()),
        Value::Array { items, .. } => {
            out.text("[");
            put_values(out, items.as_slice());
            out.text("]");
        }
        Value::Struct(members) => {
            out.text("(");
            put_values(out, members.as_slice());
            out.text(")");
        }
        Value::DictEntry { key, value } => {
            out.text("{");
            put_value(out, key.get());
            out.text(": ");
            put_value(out, value.get());
            out.text("}");
        }
        _ => put_leaf(out, value),
    }
}

/// Adds values with commas between them.
#[cycle(put)]
pub fn put_values(out: &mut Output, values: &[Value]) {
    for (index, value) in values.iter().enumerate() {
        if index > 0 {
            out.text(", ");
        }
        put_value(out, value);
    }
}

/// Adds bytes with commas between them.
fn put_bytes(out: &mut Output, bytes: &[u8]) {
    out.text("[");
    for (index, byte) in bytes.iter().enumerate() {
        if index > 0 {
            out.text(", ");
        }
        out.byte(*byte);
    }
    out.text("]");
}

/// Adds a value that holds no other.
fn put_leaf(out: &mut Output, value: &Value) {
    match value {
        Value::Byte(byte) => out.byte(*byte),
        Value::Bool(truth) => out.debug(truth),
        Value::I16(number) => out.debug(number),
        Value::U16(number) => out.debug(number),
        Value::I32(number) => out.debug(number),
        Value::U32(number) => out.debug(number),
        Value::I64(number) => out.debug(number),
        Value::U64(number) => out.debug(number),
        Value::Double(bits) => out.bits(*bits),
        Value::Str(text) => put_quoted(out, "", text),
        Value::ObjectPath(path) => put_quoted(out, "path ", path),
        Value::Signature(text) => put_quoted(out, "signature ", text),
        Value::Handle(index) => {
            out.text("handle ");
            out.number(u64::from(*index));
        }
        _ => {}
    }
}

/// Adds a text between quotes, behind the name of its type.
fn put_quoted(out: &mut Output, name: &str, text: &Text) {
    out.text(name);
    out.text("\"");
    out.text(text.as_str());
    out.text("\"");
}
