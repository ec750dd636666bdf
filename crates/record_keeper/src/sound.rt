//! Which records may be kept.

ghost use Rattle.std.specs.Prelude.{◌≡◌, ◌↔◌, IfOk, IsTrue};
ghost use Rattle.std.specs.List.{list_any, list_all};
ghost use Rattle.dbus_types.specs.declared.types.Value.{Value as Value'};
ghost use Rattle.portal_model.specs.Changed.{HasDatum};
ghost use Rattle.portal_model.specs.Valid.{has_texts as row_has_texts, is_text};
ghost use Rattle.record_keeper.specs.SoundRecords.{IsSoundEntry, has_entry_texts as has_texts, is_empty_row as is_empty};

use crate::datum::read_datum;
use crate::keys::keys_rise;
use dbus_marshal::write::one_spelling;
use portal_base::memory::WantOfMemory;
use portal_base::text::{Text, has_no_zero};
use portal_model::records::{EntryRecord, Row};
use std::alloc::Global;
use store_data::record_can_be_told;

/// Whether an entry may be kept, as far as that depends on it alone: its texts
/// have no zero byte, its table isn't `documents`, its rows stand in rising
/// byte order of their applications' keys and none is empty, its data is the
/// whole spelling of a variant without a handle, and the message that tells of
/// it is no longer than 16,777,216 bytes.
pub fn is_sound_entry(alloc: Global, entry: &EntryRecord) -> Result<bool, WantOfMemory>
    ensures { IfOk result (λ sound. IsTrue sound ↔ IsSoundEntry entry.now) }
{
    // The table of documents is the portal's own, and no call of the permission store reaches it.
    if !has_sound_texts(entry) || entry.table.as_bytes() == b"documents".as_slice() {
        return Ok(false);
    }
    let rows = entry.rows.as_slice();
    if has_empty_row(rows) || !keys_rise(rows) {
        return Ok(false);
    }
    has_datum(alloc, entry)
}

/// Whether none of the texts has a zero byte.
fn are_texts(texts: &[Text]) -> bool
    ensures { result ≡ list_all is_text texts.now }
{
    texts.iter().all(|text| has_no_zero(text.as_bytes()))
}

/// Whether no text of a row has a zero byte.
fn has_sound_row(row: &Row) -> bool
    ensures { result ≡ row_has_texts row.now }
{
    has_no_zero(row.app.as_bytes()) && are_texts(row.names.as_slice())
}

/// Whether no text of the rows has a zero byte.
fn have_sound_rows(rows: &[Row]) -> bool
    ensures { result ≡ list_all row_has_texts rows.now }
{
    rows.iter().all(|row| has_sound_row(row))
}

/// Whether no text of an entry has a zero byte.
fn has_sound_texts(entry: &EntryRecord) -> bool
    ensures { result ≡ has_texts entry.now }
{
    has_no_zero(entry.table.as_bytes())
        && has_no_zero(entry.id.as_bytes())
        && have_sound_rows(entry.rows.as_slice())
}

/// Whether a row has no permission.
fn is_empty_row(row: &Row) -> bool
    ensures { result ≡ is_empty row.now }
{
    match row.names.as_slice() {
        [] => true,
        [_, ..] => false,
    }
}

/// Whether one of the rows has no permission.
fn has_empty_row(rows: &[Row]) -> bool
    ensures { result ≡ list_any is_empty rows.now }
{
    rows.iter().any(|row| is_empty_row(row))
}

/// Whether an entry has data, with which the message that tells of the entry
/// is short enough.
fn has_datum(alloc: Global, entry: &EntryRecord) -> Result<bool, WantOfMemory>
    ensures { IfOk result (λ has. IsTrue has ↔ ((datum : Value') × HasDatum entry.now datum)) }
{
    let Some(datum) = read_datum(alloc, entry.datum.as_slice())? else {
        return Ok(false);
    };
    one_spelling();
    Ok(record_can_be_told(entry, &datum))
}
