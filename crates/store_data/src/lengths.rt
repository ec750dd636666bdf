//! How long the signal Changed is that tells of an entry, from the lengths of
//! its parts alone: nothing is spelled, and no memory taken.
//!
//! Source: D-Bus Specification, "Marshaling (Wire Format)".

ghost use Rattle.std.specs.Prelude.{◌≡◌, ℕ, ◌+◌, ◌<◌, [], ◌∷◌, false, map, nat_le};
ghost use Rattle.dbus_types.specs.declared.types.Value.TheVariants as V;
ghost use Rattle.dbus_values.specs.Spelling.{spelled_length, spelled_lengths};
ghost use Rattle.dbus_values.specs.Values.{type_of};
ghost use Rattle.portal_model.specs.Changed.{changed_header, changed_length, changed_value, message_limit, row_value, rows_value, texts_value};
ghost use Rattle.portal_model.specs.Store.{can_be_told, record_of};
ghost use Rattle.store_data.specs.Ends.{Ends, elements_at, inside_at};

use crate::ends::{
    LONGEST_MESSAGE, bytes_end, end_16, end_32, end_64, end_of, padding_end, signature_end,
    text_end, type_of_end,
};
use dbus_types::layout::alignment_of;
use dbus_types::types::Value;
use portal_base::text::Text;
use portal_model::records::{EntryRecord, Row};
use portal_model::store::StoredEntry;

/// How many bytes stand ahead of the body of the signal.
const CHANGED_HEADER: usize = 160;

/// Says whether the signal that tells of an entry is no longer than a message
/// may be, which is 16,777,216 bytes.
pub fn can_be_told(entry: &StoredEntry) -> bool
    ensures { result ≡ can_be_told entry.now }
{
    fits_message(entry_end(entry))
}

/// Says the same of a kept entry whose data is this variant.
pub fn record_can_be_told(entry: &EntryRecord, datum: &Value) -> bool
    ensures { result ≡ nat_le (changed_length entry.now datum.now) message_limit }
{
    fits_message(record_end(entry, datum))
}

/// Says whether a signal whose body ends there is no longer than a message may
/// be.
fn fits_message(end: Option<usize>) -> bool
    ensures { (body : ℕ) → Ends body end
        → result ≡ nat_le (changed_header + body) message_limit }
{
    match end {
        Some(end) => end <= LONGEST_MESSAGE - CHANGED_HEADER,
        None => false,
    }
}

/// The end of the signal's body, which begins at 0.
fn entry_end(entry: &StoredEntry) -> Option<usize>
    ensures { let body = changed_value (record_of entry.now) (V.Variant entry.now.datum)
        in Ends (spelled_length 0 body) result }
{
    let datum = front_end(&entry.table, &entry.id)?;
    let rows = variant_end(datum, entry.datum.value())?;
    rows_end(rows, entry.rows.as_slice())
}

/// The same end for a kept entry whose data is this variant.
fn record_end(entry: &EntryRecord, datum: &Value) -> Option<usize>
    ensures { Ends (spelled_length 0 (changed_value entry.now datum.now)) result }
{
    let front = front_end(&entry.table, &entry.id)?;
    let rows = value_end(front, datum)?;
    rows_end(rows, entry.rows.as_slice())
}

/// The end of what stands ahead of the data: the table, the identifier, and that
/// the entry isn't deleted.
fn front_end(table: &Text, id: &Text) -> Option<usize>
    ensures { let front = V.Str table.now ∷ V.Str id.now ∷ V.Bool false ∷ []
        in Ends (spelled_lengths 0 front) result }
{
    let start = str_end(0, table)?;
    let deleted = str_end(start, id)?;
    false_end(deleted)
}

/// The end of a text.
fn str_end(at: usize, text: &Text) -> Option<usize>
    ensures { Ends (at + spelled_length at (V.Str text.now)) result }
{
    text_end(at, text.as_bytes())
}

/// The end of the boolean that says that the entry isn't deleted.
fn false_end(at: usize) -> Option<usize>
    ensures { Ends (at + spelled_length at (V.Bool false)) result }
{
    end_32(at)
}

/// The end of a value in its variant.
fn variant_end(at: usize, value: &Value) -> Option<usize>
    ensures { Ends (at + spelled_length at (V.Variant value.now)) result }
{
    let inside = inside_variant(at, value)?;
    value_end(inside, value)
}

/// The end of rows as `a{sas}`.
fn rows_end(at: usize, rows: &[Row]) -> Option<usize>
    ensures { Ends (at + spelled_length at (rows_value rows.now)) result }
{
    let first = first_element(at, 8)?;
    each_row_end(first, rows)
}

/// The end of rows, one after another.
fn each_row_end(at: usize, rows: &[Row]) -> Option<usize>
    ensures { Ends (at + spelled_lengths at (map row_value rows.now)) result }
{
    let mut end = at;
    for row in rows {
        end = row_end(end, row)?;
    }
    end_of(end, 0)
}

/// The end of a row as `{sas}`.
fn row_end(at: usize, row: &Row) -> Option<usize>
    ensures { Ends (at + spelled_length at (row_value row.now)) result }
{
    let app = padding_end(at, 8)?;
    let names = str_end(app, &row.app)?;
    texts_end(names, row.names.as_slice())
}

/// The end of texts as `as`.
fn texts_end(at: usize, texts: &[Text]) -> Option<usize>
    ensures { Ends (at + spelled_length at (texts_value texts.now)) result }
{
    let first = first_element(at, 4)?;
    each_text_end(first, texts)
}

/// The end of texts, one after another.
fn each_text_end(at: usize, texts: &[Text]) -> Option<usize>
    ensures { Ends (at + spelled_lengths at (map (λ t. V.Str t) texts.now)) result }
{
    let mut end = at;
    for text in texts {
        end = str_end(end, text)?;
    }
    end_of(end, 0)
}

/// Where the first element of an array would begin, by its alignment.
fn first_element(at: usize, to: usize) -> Option<usize>
    requires { 0 < to }
    ensures { Ends (elements_at to at) result }
{
    let length = padding_end(at, 4)?;
    let padding = end_of(length, 4)?;
    padding_end(padding, to)
}

/// Where the value inside a variant begins.
fn inside_variant(at: usize, value: &Value) -> Option<usize>
    ensures { Ends (inside_at (type_of value.now) at) result }
{
    let text = end_of(at, 1)?;
    let zero = type_of_end(text, value)?;
    end_of(zero, 1)
}

/// The end of a value.
#[cycle(value_end)]
fn value_end(at: usize, value: &Value) -> Option<usize>
    ensures { Ends (at + spelled_length at value.now) result }
{
    match value {
        Value::Byte(_) => end_of(at, 1),
        Value::Bool(_) => end_32(at),
        Value::I16(_) => end_16(at),
        Value::U16(_) => end_16(at),
        Value::I32(_) => end_32(at),
        Value::U32(_) => end_32(at),
        Value::I64(_) => end_64(at),
        Value::U64(_) => end_64(at),
        Value::Double(_) => end_64(at),
        Value::Handle(_) => end_32(at),
        Value::Str(text) => text_end(at, text.as_bytes()),
        Value::ObjectPath(path) => text_end(at, path.as_bytes()),
        Value::Signature(text) => signature_end(at, text.as_bytes()),
        Value::Variant(inner) => {
            let inner = inner.get();
            let inside = inside_variant(at, inner)?;
            value_end(inside, inner)
        }
        Value::Bytes(bytes) => bytes_end(at, bytes.as_slice()),
        Value::Array { element, items } => {
            let first = first_element(at, alignment_of(element))?;
            values_end(first, items.as_slice())
        }
        Value::Struct(members) => {
            let first = padding_end(at, 8)?;
            values_end(first, members.as_slice())
        }
        Value::DictEntry { key, value } => {
            let first = padding_end(at, 8)?;
            let second = value_end(first, key.get())?;
            value_end(second, value.get())
        }
    }
}

/// The end of values, one after another.
#[cycle(value_end)]
fn values_end(at: usize, values: &[Value]) -> Option<usize>
    ensures { Ends (at + spelled_lengths at values.now) result }
{
    let mut end = at;
    for value in values {
        end = value_end(end, value)?;
    }
    end_of(end, 0)
}
