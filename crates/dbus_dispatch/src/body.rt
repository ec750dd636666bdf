//! The values that calls return.
//!
//! Source: XDG Desktop Portal documentation,
//! "org.freedesktop.portal.Documents" and
//! "org.freedesktop.impl.portal.PermissionStore".

ghost use Rattle.std.specs.Prelude.{◌≡◌, [], ◌∷◌, ◌++◌, IfOk, IsUtf8, All};
ghost use Rattle.dbus_types.specs.declared.types.Value.TheVariants as V;
ghost use Rattle.portal_model.specs.Changed.{rows_value as value_of_rows, row_value as value_of_row, texts_value as value_of_texts};
ghost use Rattle.portal_base.specs.Names.{doc_text};
ghost use Rattle.dbus_dispatch.specs.Asks.{closed_bytes};
ghost use Rattle.dbus_dispatch.specs.Replies.{extra, listed_value, documents_value, each_text, identifiers, body_of};
ghost use Rattle.dbus_dispatch.specs.Writable.{IsInUtf8, IsRowInUtf8};

use dbus_calls::method::Method;
use dbus_types::shared::Shared;
use dbus_types::types::{Value, WireType};
use portal_base::boxed::Boxed;
use portal_base::list::List;
use portal_base::memory::{Replica, WantOfMemory};
use portal_base::text::Text;
use portal_model::datum::Datum;
use portal_model::records::Row;
use portal_model::reply::{Answer, ListedDocument};
use std::alloc::Global;

/// The values that a call of a method returns with this answer. None where it
/// is an error.
pub fn body_of(
    alloc: Global,
    method: Method,
    mountpoint: &[u8],
    answer: &Answer,
) -> Result<List<Value>, WantOfMemory>
    ensures told { IfOk result (λ body. body ≡ body_of method mountpoint.now answer.now) }
    ensures utf8 { IfOk result (λ body. IsInUtf8 answer.now) }
{
    match answer {
        Answer::Place(place) => only(alloc, Value::U32(*place)),
        Answer::Ids(ids) => identifiers(alloc, method, mountpoint, ids.as_slice()),
        Answer::Info { path, rights } => pair(
            alloc,
            closed_bytes(alloc, path.as_slice())?,
            rows_value(alloc, rights.as_slice())?,
        ),
        Answer::Listed(documents) => { only(alloc, documents_value(alloc, documents.as_slice())?) }
        Answer::Entry { rows, datum } => entry(alloc, rows.as_slice(), datum),
        Answer::Names(names) => only(alloc, texts_value(alloc, names.as_slice())?),
        Answer::Done | Answer::Refused(_) | Answer::Node(_) => Ok(List::new(alloc)),
    }
}

/// Identifiers, with the mount point for a full call.
fn identifiers(
    alloc: Global,
    method: Method,
    mountpoint: &[u8],
    ids: &[Text],
) -> Result<List<Value>, WantOfMemory>
    ensures { IfOk result (λ body. body ≡ identifiers method mountpoint.now ids.now) }
{
    match method {
        Method::AddFull => pair(alloc, texts_value(alloc, ids)?, extra(alloc, mountpoint)?),
        Method::AddNamedFull => with_extra(each_text(alloc, ids)?, extra(alloc, mountpoint)?),
        _ => each_text(alloc, ids),
    }
}

/// The rows and the data of an entry.
fn entry(alloc: Global, rows: &[Row], datum: &Datum) -> Result<List<Value>, WantOfMemory>
    ensures told { IfOk result (λ body. body ≡ value_of_rows rows.now
        ∷ V.Variant datum.now ∷ []) }
    ensures utf8 { IfOk result (λ body. All IsRowInUtf8 rows.now) }
{
    let first = rows_value(alloc, rows)?;
    let inside = datum.replica(alloc)?.into_value();
    pair(alloc, first, Value::Variant(Boxed::new(alloc, inside)?))
}

/// Values with one more behind them.
fn with_extra(mut values: List<Value>, extra: Value) -> Result<List<Value>, WantOfMemory>
    ensures { IfOk result (λ list. list ≡ values ++ extra ∷ []) }
{
    values.push(extra)?;
    Ok(values)
}

/// A list of one value.
pub(crate) fn only(alloc: Global, value: Value) -> Result<List<Value>, WantOfMemory>
    ensures { IfOk result (λ list. list ≡ value ∷ []) }
{
    let mut list = List::new(alloc);
    list.push(value)?;
    Ok(list)
}

/// A list of two values.
fn pair(alloc: Global, first: Value, second: Value) -> Result<List<Value>, WantOfMemory>
    ensures { IfOk result (λ list. list ≡ first ∷ second ∷ []) }
{
    let mut list = List::new(alloc);
    list.push(first)?;
    list.push(second)?;
    Ok(list)
}

/// Bytes as `ay`, with a zero byte behind them.
pub(crate) fn closed_bytes(alloc: Global, bytes: &[u8]) -> Result<Value, WantOfMemory>
    ensures { IfOk result (λ value. value ≡ closed_bytes bytes.now) }
{
    let mut closed = List::copied(alloc, bytes)?;
    closed.push(0)?;
    Ok(Value::Bytes(closed))
}

/// A text as a value.
pub(crate) fn text_value(alloc: Global, text: &Text) -> Result<Value, WantOfMemory>
    ensures told { IfOk result (λ value. value ≡ V.Str text.now) }
    ensures utf8 { IfOk result (λ value. IsUtf8 text.now) }
{
    let characters = text.as_str();
    Ok(Value::Str(Text::copied(alloc, characters)?))
}

/// Texts, each as a value.
fn each_text(alloc: Global, texts: &[Text]) -> Result<List<Value>, WantOfMemory>
    ensures told { IfOk result (λ values. values ≡ each_text texts.now) }
    ensures utf8 { IfOk result (λ values. All IsUtf8 texts.now) }
{
    let mut values = List::new(alloc);
    for text in texts {
        values.push(text_value(alloc, text)?)?;
    }
    Ok(values)
}

/// Texts as `as`.
fn texts_value(alloc: Global, texts: &[Text]) -> Result<Value, WantOfMemory>
    ensures told { IfOk result (λ value. value ≡ value_of_texts texts.now) }
    ensures utf8 { IfOk result (λ value. All IsUtf8 texts.now) }
{
    Ok(Value::Array {
        element: Shared::new(alloc, WireType::Str)?,
        items: each_text(alloc, texts)?,
    })
}

/// The mount point under its key, as `a{sv}`.
pub fn extra(alloc: Global, mountpoint: &[u8]) -> Result<Value, WantOfMemory>
    ensures { IfOk result (λ value. value ≡ extra mountpoint.now) }
{
    let key = Value::Str(Text::copied(alloc, "mountpoint")?);
    let value = Value::Variant(Boxed::new(alloc, closed_bytes(alloc, mountpoint)?)?);
    let entry = Value::DictEntry {
        key: Boxed::new(alloc, key)?,
        value: Boxed::new(alloc, value)?,
    };
    let element = WireType::DictEntry {
        key: Boxed::new(alloc, WireType::Str)?,
        value: Boxed::new(alloc, WireType::Variant)?,
    };
    Ok(Value::Array {
        element: Shared::new(alloc, element)?,
        items: only(alloc, entry)?,
    })
}

/// Rows as `a{sas}`.
pub(crate) fn rows_value(alloc: Global, rows: &[Row]) -> Result<Value, WantOfMemory>
    ensures told { IfOk result (λ value. value ≡ value_of_rows rows.now) }
    ensures utf8 { IfOk result (λ value. All IsRowInUtf8 rows.now) }
{
    let mut items = List::new(alloc);
    for row in rows {
        items.push(row_value(alloc, row)?)?;
    }
    let names = WireType::Array(Shared::new(alloc, WireType::Str)?);
    let element = WireType::DictEntry {
        key: Boxed::new(alloc, WireType::Str)?,
        value: Boxed::new(alloc, names)?,
    };
    Ok(Value::Array {
        element: Shared::new(alloc, element)?,
        items,
    })
}

fn row_value(alloc: Global, row: &Row) -> Result<Value, WantOfMemory>
    ensures told { IfOk result (λ value. value ≡ value_of_row row.now) }
    ensures utf8 { IfOk result (λ value. IsRowInUtf8 row.now) }
{
    let key = text_value(alloc, &row.app)?;
    let value = texts_value(alloc, row.names.as_slice())?;
    Ok(Value::DictEntry {
        key: Boxed::new(alloc, key)?,
        value: Boxed::new(alloc, value)?,
    })
}

/// Documents with their paths, as `a{say}`.
fn documents_value(alloc: Global, documents: &[ListedDocument]) -> Result<Value, WantOfMemory>
    ensures { IfOk result (λ value. value ≡ documents_value documents.now) }
{
    let mut items = List::new(alloc);
    for document in documents {
        items.push(listed_value(alloc, document)?)?;
    }
    let path = WireType::Array(Shared::new(alloc, WireType::Byte)?);
    let element = WireType::DictEntry {
        key: Boxed::new(alloc, WireType::Str)?,
        value: Boxed::new(alloc, path)?,
    };
    Ok(Value::Array {
        element: Shared::new(alloc, element)?,
        items,
    })
}

fn listed_value(alloc: Global, document: &ListedDocument) -> Result<Value, WantOfMemory>
    ensures { IfOk result (λ value. value ≡ listed_value document.now) }
{
    let key = Value::Str(identifier(alloc, document)?);
    let value = closed_bytes(alloc, document.path.as_slice())?;
    Ok(Value::DictEntry {
        key: Boxed::new(alloc, key)?,
        value: Boxed::new(alloc, value)?,
    })
}

/// The eight digits of a document's identifier.
fn identifier(alloc: Global, document: &ListedDocument) -> Result<Text, WantOfMemory>
    ensures { IfOk result (λ text. text ≡ doc_text document.now.id.number) }
{
    // Digits are ASCII, of which nothing is replaced.
    let text = String::from_utf8_lossy(alloc, &document.id.text())?;
    Ok(Text::from_string(text))
}
