//! Changes of records, into room that was taken ahead.

ghost use Rattle.std.specs.Prelude.{◌≡◌, ℕ, ◌+◌, ◌<◌, ◌≤◌, length, vec_len, vec_capacity};
ghost use Rattle.std.specs.List.{filter, position};
ghost use Rattle.portal_model.specs.RecordChanges.{changed, changed_by, change_first, is_numbered, is_other_number, is_of_key, is_other_key, set_entry};

use crate::fault::RECORDS_VERSION;
use portal_base::list::List;
use portal_base::text::Text;
use portal_model::records::{DocRecord, EntryRecord, GrantRecord, RecordChange};

/// Makes the changes one after another.
pub(crate) fn make_all(
    version: &mut u32,
    documents: &mut Vec<DocRecord>,
    entries: &mut Vec<EntryRecord>,
    changes: List<RecordChange>,
)
    requires documents { vec_len documents.old + length changes ≤ vec_capacity documents.old }
    requires entries { vec_len entries.old + length changes ≤ vec_capacity entries.old }
    ensures { record {
      version = version.new;
      documents = documents.new.items;
      entries = entries.new.items;
    }
        ≡ changed_by changes (record {
          version = version.old;
          documents = documents.old.items;
          entries = entries.old.items;
        }) }
{
    for change in changes.into_vec() {
        make(version, documents, entries, change);
    }
}

/// Makes one change.
fn make(
    version: &mut u32,
    documents: &mut Vec<DocRecord>,
    entries: &mut Vec<EntryRecord>,
    change: RecordChange,
)
    requires documents { vec_len documents.old < vec_capacity documents.old }
    requires entries { vec_len entries.old < vec_capacity entries.old }
    ensures made { record {
      version = version.new;
      documents = documents.new.items;
      entries = entries.new.items;
    }
        ≡ changed change (record {
          version = version.old;
          documents = documents.old.items;
          entries = entries.old.items;
        }) }
    ensures documents { (vec_len documents.new ≤ vec_len documents.old + 1)
        × (vec_capacity documents.new ≡ vec_capacity documents.old) }
    ensures entries { (vec_len entries.new ≤ vec_len entries.old + 1)
        × (vec_capacity entries.new ≡ vec_capacity entries.old) }
{
    match change {
        RecordChange::AddDocument(document) => documents.push_reserved(document),
        RecordChange::RemoveDocument { number } => remove_document(documents, number),
        RecordChange::SetGrants { number, grants } => set_grants(documents, number, grants),
        RecordChange::SetEntry(entry) => set_entry(entries, entry),
        RecordChange::RemoveEntry { table, id } => remove_entry(entries, &table, &id),
        RecordChange::Upgrade => *version = RECORDS_VERSION,
    }
}

/// The document of a number goes away.
fn remove_document(documents: &mut Vec<DocRecord>, number: u32)
    ensures items { documents.new.items ≡ filter (is_other_number number) documents.old.items }
    ensures len { vec_len documents.new ≤ vec_len documents.old }
    ensures capacity { vec_capacity documents.new ≡ vec_capacity documents.old }
{
    documents.retain(|document| document.number != number);
}

/// The document of a number has these rights given, in its place.
fn set_grants(documents: &mut Vec<DocRecord>, number: u32, grants: List<GrantRecord>)
    ensures items { documents.new.items
        ≡ change_first (is_numbered number)
        (λ d. record d { grants = grants }) documents.old.items }
    ensures len { vec_len documents.new ≡ vec_len documents.old }
    ensures capacity { vec_capacity documents.new ≡ vec_capacity documents.old }
{
    if let Some(at) = place_of_document(documents, number) {
        documents[at].grants = grants;
    }
}

/// The place of the document of a number.
fn place_of_document(documents: &[DocRecord], number: u32) -> Option<usize>
    ensures { result ≡ position (is_numbered number) documents.now }
{
    // Of several records of one number a change goes to the first.
    documents
        .iter()
        .position(|document| document.number == number)
}

/// The entry stands in the place of the one with its table and identifier, or
/// else behind the others.
fn set_entry(entries: &mut Vec<EntryRecord>, entry: EntryRecord)
    requires { vec_len entries.old < vec_capacity entries.old }
    ensures items { entries.new.items ≡ set_entry entry entries.old.items }
    ensures len { vec_len entries.new ≤ vec_len entries.old + 1 }
    ensures capacity { vec_capacity entries.new ≡ vec_capacity entries.old }
{
    match place_of_entry(entries, &entry.table, &entry.id) {
        Some(at) => entries[at] = entry,
        None => entries.push_reserved(entry),
    }
}

/// The place of the entry of a table and an identifier.
fn place_of_entry(entries: &[EntryRecord], table: &Text, id: &Text) -> Option<usize>
    ensures { result ≡ position (is_of_key table.now id.now) entries.now }
{
    entries.iter().position(|entry| is_of_key(entry, table, id))
}

/// The entry of a table and an identifier goes away.
fn remove_entry(entries: &mut Vec<EntryRecord>, table: &Text, id: &Text)
    ensures items { entries.new.items ≡ filter (is_other_key table.now id.now) entries.old.items }
    ensures len { vec_len entries.new ≤ vec_len entries.old }
    ensures capacity { vec_capacity entries.new ≡ vec_capacity entries.old }
{
    entries.retain(|entry| !is_of_key(entry, table, id));
}

/// Says whether an entry is of a table and an identifier.
fn is_of_key(entry: &EntryRecord, table: &Text, id: &Text) -> bool
    ensures { result ≡ is_of_key table.now id.now entry.now }
{
    entry.table == *table && entry.id == *id
}
