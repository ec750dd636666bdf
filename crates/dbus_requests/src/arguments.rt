//! What the arguments of calls are, by their types.
//!
//! Source: D-Bus Specification, "Type System".

ghost use Rattle.std.specs.Prelude.{◌≡◌, IfOk};
ghost use Rattle.std.specs.Option.{option_copied};
ghost use Rattle.dbus_types.specs.declared.types.Value.{out-Value};
ghost use Rattle.dbus_requests.specs.Arguments.{text_of, flag_of, number_of, handle_of, bytes_of, items_of, inside_of, row_of, handles_in, texts_in, rows_in, text_alone, bytes_alone};

use dbus_types::types::Value;
use portal_base::list::{ByteList, List};
use portal_base::memory::{Replica, WantOfMemory};
use portal_base::text::Text;
use portal_model::records::Row;
use std::alloc::Global;

/// The text that a value is.
pub fn text_of(value: &Value) -> Option<&Text>
    ensures { option_copied result ≡ text_of (out-Value value.now) }
{
    match value {
        Value::Str(text) => Some(text),
        _ => None,
    }
}

/// The boolean that a value is.
pub(crate) fn flag_of(value: &Value) -> Option<bool>
    ensures { result ≡ flag_of (out-Value value.now) }
{
    match value {
        Value::Bool(flag) => Some(*flag),
        _ => None,
    }
}

/// The number that a value of type `u` is.
pub(crate) fn number_of(value: &Value) -> Option<u32>
    ensures { result ≡ number_of (out-Value value.now) }
{
    match value {
        Value::U32(number) => Some(*number),
        _ => None,
    }
}

/// The index of the handle that a value is.
pub(crate) fn handle_of(value: &Value) -> Option<u32>
    ensures { result ≡ handle_of (out-Value value.now) }
{
    match value {
        Value::Handle(index) => Some(*index),
        _ => None,
    }
}

/// The bytes of the array of bytes that a value is.
pub(crate) fn bytes_of(value: &Value) -> Option<&ByteList>
    ensures { option_copied result ≡ bytes_of (out-Value value.now) }
{
    match value {
        Value::Bytes(bytes) => Some(bytes),
        _ => None,
    }
}

/// The items of the array of another type than that of bytes that a value is.
pub(crate) fn items_of(value: &Value) -> Option<&List<Value>>
    ensures { option_copied result ≡ items_of (out-Value value.now) }
{
    match value {
        Value::Array { items, .. } => Some(items),
        _ => None,
    }
}

/// The value that stands in the variant that a value is.
pub(crate) fn inside_of(value: &Value) -> Option<&Value>
    ensures { option_copied result ≡ inside_of (out-Value value.now) }
{
    match value {
        Value::Variant(inside) => Some(inside.get()),
        _ => None,
    }
}

/// The handles among the items of an array.
pub(crate) fn handles_in(alloc: Global, items: &[Value]) -> Result<List<u32>, WantOfMemory>
    ensures { IfOk result (λ handles. handles ≡ handles_in items.now) }
{
    let mut handles = List::new(alloc);
    for item in items {
        if let Some(handle) = handle_of(item) {
            handles.push(handle)?;
        }
    }
    Ok(handles)
}

/// The texts among the items of an array.
pub(crate) fn texts_in(alloc: Global, items: &[Value]) -> Result<List<Text>, WantOfMemory>
    ensures { IfOk result (λ texts. texts ≡ texts_in items.now) }
{
    let mut texts = List::new(alloc);
    // Items of another type are in no message that was read, and are passed over.
    for item in items {
        if let Some(text) = text_of(item) {
            texts.push(text.replica(alloc)?)?;
        }
    }
    Ok(texts)
}

/// The row that an entry of `a{sas}` is.
fn row_of(alloc: Global, entry: &Value) -> Result<Option<Row>, WantOfMemory>
    ensures { IfOk result (λ row. row ≡ row_of (out-Value entry.now)) }
{
    let Value::DictEntry { key, value } = entry else {
        return Ok(None);
    };
    match (text_of(key.get()), items_of(value.get())) {
        (Some(app), Some(names)) => Ok(Some(Row {
            app: app.replica(alloc)?,
            names: texts_in(alloc, names.as_slice())?,
        })),
        _ => Ok(None),
    }
}

/// The rows among the items of an array.
pub(crate) fn rows_in(alloc: Global, items: &[Value]) -> Result<List<Row>, WantOfMemory>
    ensures { IfOk result (λ rows. rows ≡ rows_in items.now) }
{
    let mut rows = List::new(alloc);
    for item in items {
        if let Some(row) = row_of(alloc, item)? {
            rows.push(row)?;
        }
    }
    Ok(rows)
}

/// The text that is the only argument.
pub(crate) fn text_alone(arguments: &[Value]) -> Option<&Text>
    ensures { option_copied result ≡ text_alone arguments.now }
{
    match arguments {
        [argument] => text_of(argument),
        _ => None,
    }
}

/// The bytes of the array of bytes that is the only argument.
pub(crate) fn bytes_alone(arguments: &[Value]) -> Option<&ByteList>
    ensures { option_copied result ≡ bytes_alone arguments.now }
{
    match arguments {
        [argument] => bytes_of(argument),
        _ => None,
    }
}
