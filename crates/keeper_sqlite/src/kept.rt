//! Which changes the tables have a place for.
//!
//! The tables have the applications of a document or an entry in byte order of
//! their names, each once, and none without a permission.

ghost use Rattle.std.specs.Prelude.{◌≡◌, ◌↔◌, All, IsTrue, map};
ghost use Rattle.std.specs.List.{list_any};
ghost use Rattle.keeper_sqlite.specs.Kept.{AreRows, CanKeep};
ghost use Rattle.record_keeper.specs.SoundRecords.{IsRising, is_empty_row};

use portal_model::records::{GrantRecord, RecordChange, Row};
use std::cmp::Ordering;

/// What is an application's: its rights or its row.
trait OfApplication {
    ghost use Rattle.std.specs.Prelude.{List, ℕ};

    /// The application's name.
    ghost name_of: { Self → List ℕ };

    /// The application's name.
    fn name(&self) -> &[u8]
        ensures { result.now ≡ name_of self.now };
}

impl OfApplication for Row {
    ghost name_of = { λ row. row.app };

    fn name(&self) -> &[u8] {
        self.app.as_bytes()
    }
}

impl OfApplication for GrantRecord {
    ghost name_of = { λ grant. grant.app };

    fn name(&self) -> &[u8] {
        self.app.as_slice()
    }
}

/// Whether the tables have a place for each of the changes.
pub(crate) fn can_keep_all(changes: &[RecordChange]) -> bool
    ensures { IsTrue result ↔ All CanKeep changes.now }
{
    // What it keeps is what it was given: changes whose applications don't rise are refused rather
    // than put in order.
    for change in changes {
        if !can_keep(change) {
            return false;
        }
    }
    true
}

/// Whether the tables have a place for a change.
fn can_keep(change: &RecordChange) -> bool
    ensures { IsTrue result ↔ CanKeep change.now }
{
    match change {
        RecordChange::AddDocument(document) => names_rise(document.grants.as_slice()),
        RecordChange::RemoveDocument { .. } => true,
        RecordChange::SetGrants { number: _, grants } => names_rise(grants.as_slice()),
        RecordChange::SetEntry(entry) => can_keep_rows(entry.rows.as_slice()),
        RecordChange::RemoveEntry { .. } => true,
        RecordChange::Upgrade => true,
    }
}

/// Whether the tables have a place for the rows of an entry.
fn can_keep_rows(rows: &[Row]) -> bool
    ensures { IsTrue result ↔ AreRows rows.now }
{
    !has_empty_row(rows) && names_rise(rows)
}

/// Whether a row has no permission.
fn is_empty(row: &Row) -> bool
    ensures { result ≡ is_empty_row row.now }
{
    match row.names.as_slice() {
        [] => true,
        [_, ..] => false,
    }
}

/// Whether one of the rows has no permission.
fn has_empty_row(rows: &[Row]) -> bool
    ensures { result ≡ list_any is_empty_row rows.now }
{
    rows.iter().any(|row| is_empty(row))
}

/// Whether each application's name stands behind that of the one before it, in
/// byte order.
fn names_rise<T: OfApplication>(items: &[T]) -> bool
    ensures { IsTrue result ↔ IsRising (map T.name_of items.now) }
{
    let mut at = 1;
    while at < items.len() {
        if !matches!(items[at - 1].name().cmp(items[at].name()), Ordering::Less) {
            return false;
        }
        at += 1;
    }
    true
}
