//! The change of the records that outlive a run, where an entry is set.

ghost use Rattle.std.specs.Prelude.{◌≡◌, ◌&&◌, nat_eq, length, IfOk, option_map};
ghost use Rattle.std.specs.Cmp.Lexicographic.{pointwise};
ghost use Rattle.std.specs.List.{list_all, zip};
ghost use Rattle.dbus_types.specs.declared.types.Endian.TheVariants.{Little};
ghost use Rattle.dbus_types.specs.declared.types.Value.TheVariants as V;
ghost use Rattle.dbus_values.specs.Spelling.{spelling};
ghost use Rattle.portal_model.specs.Store.{record_of};
ghost use Rattle.portal_model.specs.Valid.{entry_told};
ghost use Rattle.store_serving.specs.Records.{SetsRecord, former_record, is_kept, same_row, same_rows};

use dbus_marshal::write::write_value;
use dbus_types::types::Value;
use permission_table::TableEntry;
use portal_base::boxed::Boxed;
use portal_base::list::{ByteList, List};
use portal_base::memory::{Replica, WantOfMemory};
use portal_model::datum::Datum;
use portal_model::records::{EntryRecord, RecordChange, Row};
use portal_model::reply::Change;
use std::alloc::Global;

/// The change of the records with which an entry becomes so that had this
/// content, or none: nothing where its record stays.
pub(crate) fn record_change(
    alloc: Global,
    former: &Option<TableEntry>,
    change: &Change,
) -> Result<Option<RecordChange>, WantOfMemory>
    ensures { IfOk result (SetsRecord
        (former_record change.now.table change.now.id former.now)
        (record_of (entry_told change.now))) }
{
    let datum = spelled(alloc, &change.datum)?;
    let kept = is_kept(alloc, former, change, &datum)?;
    // A call that sets what is there is told, and not kept again.
    if kept {
        return Ok(None);
    }
    Ok(Some(RecordChange::SetEntry(EntryRecord {
        table: change.table.replica(alloc)?,
        id: change.id.replica(alloc)?,
        datum,
        rows: change.rows.replica(alloc)?,
    })))
}

/// Says whether an entry was there with the rows of the change and this spelled data.
fn is_kept(
    alloc: Global,
    former: &Option<TableEntry>,
    change: &Change,
    datum: &ByteList,
) -> Result<bool, WantOfMemory>
    ensures { IfOk result (λ kept. kept ≡ is_kept former.now change.now.rows datum.now) }
{
    match former {
        None => Ok(false),
        Some(former) => {
            let before = spelled(alloc, &former.datum)?;
            Ok(same_rows(former.rows.as_slice(), change.rows.as_slice()) && before == *datum)
        }
    }
}

/// The spelling of data as a variant, with the lowest byte of each number first.
fn spelled(alloc: Global, datum: &Datum) -> Result<ByteList, WantOfMemory>
    ensures { IfOk result (λ bytes. bytes ≡ spelling Little 0 (V.Variant datum.now)) }
{
    let inner = datum.replica(alloc)?.into_value();
    let variant = Value::Variant(Boxed::new(alloc, inner)?);
    let mut bytes = List::new(alloc);
    write_value(&mut bytes, &variant)?;
    Ok(bytes)
}

/// Says whether rows are the same.
fn same_rows(rows: &[Row], others: &[Row]) -> bool
    ensures { result ≡ same_rows rows.now others.now }
{
    rows.len() == others.len()
        && rows
            .iter()
            .zip(others)
            .all(|(row, other)| same_row(row, other))
}

/// Says whether two rows are the same.
fn same_row(row: &Row, other: &Row) -> bool
    ensures { result ≡ same_row row.now other.now }
{
    row.app == other.app && row.names == other.names
}
