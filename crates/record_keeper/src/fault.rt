//! What is wrong with kept records, if anything is.

ghost use Rattle.std.specs.Prelude.{◌≡◌, ◌↔◌, IfOk, IsTrue, MatchOption};
ghost use Rattle.record_keeper.specs.BadRecords.{IsVersion, IsWrong, AllGood, IsFirstBad, IsGoodDocument, IsGoodEntry};

use crate::earlier::{EarlierDocuments, take_entry};
use crate::name_set::NameSet;
use portal_base::limits::Limits;
use portal_base::memory::WantOfMemory;
use portal_model::records::{DocRecord, EntryRecord, Records};
use std::alloc::Global;

/// The version of records that are written.
pub const RECORDS_VERSION: u32 = 2;

/// The version of records in which no document is strict.
pub const FIRST_VERSION: u32 = 1;

/// What is wrong with kept records, so that no portal opens with them.
#[derive(Clone, Copy, Debug, PartialEq, Eq)]
pub enum RecordsFault {
    /// They have another version than [`FIRST_VERSION`] and [`RECORDS_VERSION`].
    BadVersion {
        /// The version that they have.
        found: u32,
    },
    /// One of them is bad.
    BadRecord {
        /// How many records stand before the first bad one: documents are
        /// counted first, and then entries.
        index: u64,
    },
}

/// What is wrong with kept records under the limits of live and of made
/// documents, or `None` where a portal can open with them.
///
/// A document is bad where it is strict in records of the first version, where its
/// path is none on the host, where one of the applications that it grants rights to
/// has no application's name, where they don't rise in byte order, where one of them
/// has no right or another than the four, where its number stood before, or where a
/// limit is passed with it. An entry is bad where [`is_sound_entry`] says that it isn't
/// sound, or where its table and identifier stood before.
///
/// [`is_sound_entry`]: crate::is_sound_entry
pub fn records_fault(
    alloc: Global,
    records: &Records,
    limits: &Limits,
) -> Result<Option<RecordsFault>, WantOfMemory>
    ensures { IfOk result (IsWrong limits.now records.now) }
{
    // The version comes ahead of every record: those of another version have no meaning here.
    let found = records.version;
    if !is_version(found) {
        return Ok(Some(RecordsFault::BadVersion { found }));
    }
    let documents = records.documents.as_slice();
    if let Some(place) = first_bad_document(alloc, documents, found, limits)? {
        let index = place as u64;
        return Ok(Some(RecordsFault::BadRecord { index }));
    }
    if let Some(place) = first_bad_entry(alloc, records.entries.as_slice())? {
        let index = documents.len() as u64 + place as u64;
        return Ok(Some(RecordsFault::BadRecord { index }));
    }
    Ok(None)
}

/// Whether records have such a version.
fn is_version(version: u32) -> bool
    ensures { IsTrue result ↔ IsVersion version }
{
    version == FIRST_VERSION || version == RECORDS_VERSION
}

/// The place of the first bad document in records of a version.
fn first_bad_document(
    alloc: Global,
    documents: &[DocRecord],
    version: u32,
    limits: &Limits,
) -> Result<Option<usize>, WantOfMemory>
    ensures { IfOk result (λ place. MatchOption place
        (AllGood (IsGoodDocument version limits.now) documents.now)
        (IsFirstBad (IsGoodDocument version limits.now) documents.now)) }
{
    let mut earlier = EarlierDocuments::new(alloc);
    for (place, document) in documents.iter().enumerate() {
        let taken = earlier.take(alloc, document, version, limits)?;
        if !taken {
            return Ok(Some(place));
        }
    }
    Ok(None)
}

/// The place of the first bad entry.
fn first_bad_entry(alloc: Global, entries: &[EntryRecord]) -> Result<Option<usize>, WantOfMemory>
    ensures { IfOk result (λ place. MatchOption place
        (AllGood IsGoodEntry entries.now) (IsFirstBad IsGoodEntry entries.now)) }
{
    let mut keys = NameSet::new(alloc);
    for (place, entry) in entries.iter().enumerate() {
        let taken = take_entry(alloc, &mut keys, entry)?;
        if !taken {
            return Ok(Some(place));
        }
    }
    Ok(None)
}
