//! The entries of the permission store that records keep.
//!
//! Source: D-Bus Specification, "Marshaling (Wire Format)".

ghost use Rattle.std.specs.Prelude.{◌≡◌, IfOk};
ghost use Rattle.std.specs.List.{All};
ghost use Rattle.record_keeper.specs.KeptEntries.{KeepEntries, KeepsEntry};
ghost use Rattle.record_keeper.specs.SoundRecords.{IsValidEntry};

use crate::datum::read_datum;
use dbus_types::types::Value;
use portal_base::list::List;
use portal_base::memory::WantOfMemory;
use portal_model::datum::Datum;
use portal_model::records::EntryRecord;
use portal_model::store::StoredEntry;
use std::alloc::Global;

/// The entries that records keep, in their order: the data of each is read.
pub fn kept_entries(
    alloc: Global,
    records: List<EntryRecord>,
) -> Result<List<StoredEntry>, WantOfMemory>
    requires { All IsValidEntry records }
    ensures { IfOk result (KeepEntries records) }
{
    let records = records.into_vec();
    // Room is taken once: a list that grows has up to twice as much.
    let mut entries = Vec::with_capacity(alloc, records.len())?;
    for kept in records {
        entries.push(kept_entry(alloc, kept)?)?;
    }
    Ok(List::from_vec(entries))
}

/// The entry that a record keeps.
fn kept_entry(alloc: Global, kept: EntryRecord) -> Result<StoredEntry, WantOfMemory>
    requires { IsValidEntry kept }
    ensures { IfOk result (KeepsEntry kept) }
{
    let EntryRecord {
        table,
        id,
        datum,
        rows,
    } = kept;
    let Some(variant) = read_datum(alloc, datum.as_slice())? else {
        unreachable!();
    };
    let Value::Variant(inside) = variant else {
        unreachable!();
    };
    Ok(StoredEntry {
        table,
        id,
        datum: Datum::new(inside.into_inner()),
        rows,
    })
}
