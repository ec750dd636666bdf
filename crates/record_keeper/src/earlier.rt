//! What the check of records keeps of those that it has passed.

ghost use Rattle.std.specs.Prelude.{◌≡◌, ◌↔◌, false, IsTrue, ◌<◌, ◌^◌, ◌+◌, ◌++◌, ◌∷◌, [], IfOk, OnOk, fold};
ghost use Rattle.std.specs.BTreeSet.{contains, insert_key};
ghost use Rattle.std.specs.Ordering.{nat_cmp};
ghost use Rattle.portal_base.specs.Names.{is_app_name};
ghost use Rattle.record_keeper.specs.BadRecords.{first_version, names_granted};
ghost use Rattle.record_keeper.specs.SoundRecords.{IsSoundDocument};
ghost use Rattle.record_keeper.specs.Earlier.{KeepsDocuments, TakesDocument, TakesEntry, key_text};
ghost use Rattle.record_keeper.specs.Naming.{also_named};

use crate::fault::FIRST_VERSION;
use crate::name_set::{Name, NameSet};
use crate::naming::Named;
use crate::sound::is_sound_entry;
use crate::sound_document::is_sound_document;
use portal_base::limits::Limits;
use portal_base::list::List;
use portal_base::memory::WantOfMemory;
use portal_model::records::{DocRecord, EntryRecord};
use portal_model::state::APPLICATIONS_LIMIT;
use std::alloc::Global;
use std::collections::BTreeSet;

/// What is kept of the documents before one.
#[derive(Drop)]
pub struct EarlierDocuments {
    /// How many they are.
    pub count: u64,
    /// Their numbers.
    pub numbers: BTreeSet<u32>,
    /// The applications that they grant rights to.
    pub applications: Named,
}

impl EarlierDocuments {
    /// No documents.
    pub fn new(alloc: Global) -> EarlierDocuments
        ensures { KeepsDocuments result [] }
    {
        EarlierDocuments {
            count: 0,
            numbers: BTreeSet::new(alloc),
            applications: Named::new(alloc),
        }
    }

    /// Whether a document is good in records of a version behind those that are
    /// kept. Then it is kept too.
    pub fn take(
        &mut self,
        alloc: Global,
        document: &DocRecord,
        version: u32,
        limits: &Limits,
    ) -> Result<bool, WantOfMemory>
        ensures { IfOk result (TakesDocument version limits.now self.old document.now self.new) }
    {
        // The record with which a limit is passed is the bad one, though the one before it would
        // do.
        if self.count >= limits.documents || self.count >= limits.made {
            return Ok(false);
        }
        if self.numbers.contains(&document.number) {
            return Ok(false);
        }
        if !is_sound_document(document) || !suits_version(document, version) {
            return Ok(false);
        }
        self.put(alloc, document)?;
        Ok(self.applications.len() <= APPLICATIONS_LIMIT as usize)
    }

    /// Keeps a sound document.
    fn put(&mut self, alloc: Global, document: &DocRecord) -> Result<(), WantOfMemory>
        requires sound { IsSoundDocument document.now }
        requires room { self.old.count + 1 < 2 ^ 64 }
        ensures count { OnOk result (self.new.count ≡ self.old.count + 1) }
        ensures numbers { OnOk result (self.new.numbers.keys
            ≡ insert_key nat_cmp self.old.numbers.keys document.now.number) }
        ensures applications { OnOk result (self.new.applications
            ≡ fold also_named self.old.applications (names_granted document.now)) }
    {
        self.count += 1;
        self.numbers.insert(document.number)?;
        self.applications
            .add_granted(alloc, document.grants.as_slice())
    }
}

/// Whether a version has documents as this one: the first has no strict ones.
fn suits_version(document: &DocRecord, version: u32) -> bool
    ensures { IsTrue result ↔ (version ≡ first_version → document.now.strict ≡ false) }
{
    version != FIRST_VERSION || !document.strict
}

/// The table and the identifier of an entry in one text.
fn key_of(alloc: Global, entry: &EntryRecord) -> Result<Name, WantOfMemory>
    ensures { IfOk result (λ key. key ≡ key_text entry.now.table entry.now.id) }
{
    let mut key = List::copied(alloc, entry.table.as_bytes())?;
    key.push(0)?;
    key.extend_from_slice(entry.id.as_bytes())?;
    Ok(Name::from_bytes(key))
}

/// Whether an entry is good behind those whose keys are kept. Then its key is
/// kept too.
pub fn take_entry(
    alloc: Global,
    keys: &mut NameSet,
    entry: &EntryRecord,
) -> Result<bool, WantOfMemory>
    ensures { IfOk result (TakesEntry keys.old entry.now keys.new) }
{
    let sound = is_sound_entry(alloc, entry)?;
    if !sound {
        return Ok(false);
    }
    let key = key_of(alloc, entry)?;
    if keys.has(&key) {
        return Ok(false);
    }
    keys.add(key)?;
    Ok(true)
}
