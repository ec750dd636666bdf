//! Starting a portal with the records that its keeper loads.

ghost use Rattle.std.specs.Prelude.{◌≡◌, ◌<◌, ◌^◌, [], ◌∷◌, None, IfErr, IfOk, OnErr, OnOk};
ghost use Rattle.portal_desk.specs.Opening.{IsOpeningState};
ghost use Rattle.portal_model.specs.Opening.{opened_over};
ghost use Rattle.portal_model.specs.Valid.{Valid};
ghost use Rattle.portal_model.specs.declared.records.RecordChange.TheVariants.{Upgrade};
ghost use Rattle.portal_start.specs.Loading.{AreLists, AreBad, IsOpening, LoadsBadly, LoadsGood, Upgrades, UpgradesBadly};
ghost use Rattle.record_keeper.specs.BadRecords.{AreGood, first_version};
ghost use Rattle.record_keeper.specs.Keepers.{Applies};
ghost use Rattle.record_keeper.specs.declared.keeper.KeeperDone.TheVariants.{Done};

use crate::copies::{copies, copies_of_entries};
use crate::opening;
use document_records::{Applications, Documents, Grants};
use permission_table::Tables;
use permission_table::laws::valid_entries_are_held;
use portal_base::limits::Limits;
use portal_base::list::List;
use portal_base::memory::WantOfMemory;
use portal_model::opening::OpeningState;
use portal_model::records::{RecordChange, Records};
use record_keeper::laws::good_records_keep_good_entries;
use record_keeper::{FIRST_VERSION, Keeper, KeeperDone, KeeperLoad, RecordsFault, records_fault};
use save_files::Temps;
use std::alloc::Global;
use thiserror::Error;

/// Why no portal starts.
#[derive(Clone, Copy, Debug, PartialEq, Eq, Error)]
pub enum StartError {
    /// The keeper failed to load the records, or to bring those of version 1 to
    /// version 2.
    #[error("the keeper failed to load the records")]
    KeeperFault,
    /// The records have another version than 1 and 2.
    #[error("the records have the version {found}")]
    BadVersion {
        /// The version that they have.
        found: u32,
    },
    /// One of the records is bad.
    #[error("the record {index} is bad")]
    BadRecord {
        /// How many records stand before the first bad one: documents are
        /// counted first, and then entries.
        index: u64,
    },
    /// There was no memory.
    #[error("no memory for a portal")]
    Memory,
}

/// The devices of a portal that didn't start, and why.
#[derive(Drop)]
pub struct StartRefusal<T, K, C, W> {
    /// Why no portal starts.
    pub error: StartError,
    /// The tree, as it was.
    pub tree: T,
    /// The keeper, which was asked once, or twice where its records are of version 1.
    pub keeper: K,
    /// The clock, as it was.
    pub clock: C,
    /// The words, as they were.
    pub words: W,
}

/// The lists that a portal starts with.
#[derive(Drop)]
pub struct Lists {
    /// The opening state, with an empty list of files.
    pub opening: OpeningState,
    /// Its documents.
    pub documents: Documents,
    /// The rights in them.
    pub rights: Grants,
    /// The numbered applications.
    pub applications: Applications,
    /// The tables of the permission store.
    pub tables: Tables,
    /// The generations that were taken, and no temporary.
    pub temps: Temps,
}

/// Loads the records of a keeper, which are to be good under the limits. Those of
/// version 1 become those of version 2, by one change alone.
#[tactic(auto, using(crate::proofs::Upgrading::not_upgraded))]
pub fn load<K: Keeper>(alloc: Global, keeper: &mut K, limits: &Limits) -> Result<Lists, StartError>
    requires made { limits.now.made < 2 ^ 32 }
    requires queued { limits.now.queued < 2 ^ 32 }
    ensures good { IfOk result (λ lists. LoadsGood limits.now (K.is keeper.old) lists.opening
        (K.is keeper.new)) }
    ensures lists { IfOk result AreLists }
    ensures valid { IfOk result (λ lists. Valid (opened_over None lists.opening)) }
    ensures started { IfOk result (λ lists. IsOpeningState (opened_over None lists.opening)) }
    ensures bad { IfErr result (λ error. LoadsBadly limits.now (K.is keeper.old) error
        (K.is keeper.new)) }
{
    let records = match keeper.load() {
        KeeperLoad::Got(records) => records,
        KeeperLoad::Failed => return Err(StartError::KeeperFault),
        KeeperLoad::Memory => return Err(StartError::Memory),
    };
    let version = records.version;
    // Records that are bad stay as they are, of whichever version.
    let lists = lists_of(alloc, records, limits)?;
    match upgrade_first(alloc, keeper, version) {
        Ok(()) => Ok(lists),
        Err(error) => Err(error),
    }
}

/// Makes the records of a keeper those of this version, where they are of the
/// first.
fn upgrade_first<K: Keeper>(alloc: Global, keeper: &mut K, version: u32) -> Result<(), StartError>
    ensures ok { OnOk result (Upgrades version (K.is keeper.old) (K.is keeper.new)) }
    ensures first { OnErr result (version ≡ first_version) }
    ensures bad { IfErr result (λ error. UpgradesBadly (K.is keeper.old) error
        (K.is keeper.new)) }
{
    if version != FIRST_VERSION {
        return Ok(());
    }
    upgrade(alloc, keeper)
}

/// Makes the records of a keeper those of this version, by one change alone.
fn upgrade<K: Keeper>(alloc: Global, keeper: &mut K) -> Result<(), StartError>
    ensures ok { OnOk result (Applies (Upgrade ∷ []) (K.is keeper.old) Done (K.is keeper.new)) }
    ensures bad { IfErr result (λ error. UpgradesBadly (K.is keeper.old) error
        (K.is keeper.new)) }
{
    let Ok(changes) = upgrade_alone(alloc) else {
        return Err(StartError::Memory);
    };
    match keeper.apply(&changes) {
        KeeperDone::Done => Ok(()),
        KeeperDone::Failed => Err(StartError::KeeperFault),
        KeeperDone::Memory => Err(StartError::Memory),
    }
}

/// The change to this version, and no other.
fn upgrade_alone(alloc: Global) -> Result<List<RecordChange>, WantOfMemory>
    ensures { IfOk result (λ changes. changes ≡ Upgrade ∷ []) }
{
    let mut changes = List::new(alloc);
    changes.push(RecordChange::Upgrade)?;
    Ok(changes)
}

/// The lists that records stand for, which are to be good.
fn lists_of(alloc: Global, records: Records, limits: &Limits) -> Result<Lists, StartError>
    requires made { limits.now.made < 2 ^ 32 }
    requires queued { limits.now.queued < 2 ^ 32 }
    ensures good { IfOk result (λ lists. AreGood limits.now records) }
    ensures opening { IfOk result (λ lists. IsOpening limits.now records lists.opening) }
    ensures lists { IfOk result AreLists }
    ensures valid { IfOk result (λ lists. Valid (opened_over None lists.opening)) }
    ensures started { IfOk result (λ lists. IsOpeningState (opened_over None lists.opening)) }
    ensures bad { IfErr result (AreBad limits.now records) }
{
    // A document is bad with which a limit is passed, and what follows it isn't looked at: so one
    // fault is told.
    match records_fault(alloc, &records, limits) {
        Ok(None) => match lists_of_good(alloc, records, limits) {
            Ok(lists) => Ok(lists),
            Err(WantOfMemory) => Err(StartError::Memory),
        },
        Ok(Some(RecordsFault::BadVersion { found })) => Err(StartError::BadVersion { found }),
        Ok(Some(RecordsFault::BadRecord { index })) => Err(StartError::BadRecord { index }),
        Err(WantOfMemory) => Err(StartError::Memory),
    }
}

/// The lists that good records stand for.
fn lists_of_good(alloc: Global, records: Records, limits: &Limits) -> Result<Lists, WantOfMemory>
    requires good { AreGood limits.now records }
    requires made { limits.now.made < 2 ^ 32 }
    requires queued { limits.now.queued < 2 ^ 32 }
    ensures opening { IfOk result (λ lists. IsOpening limits.now records lists.opening) }
    ensures lists { IfOk result AreLists }
    ensures valid { IfOk result (λ lists. Valid (opened_over None lists.opening)) }
    ensures started { IfOk result (λ lists. IsOpeningState (opened_over None lists.opening)) }
{
    let opening = opening::opening_loaded(alloc, records, limits)?;
    good_records_keep_good_entries();
    lists_of_opening(alloc, opening)
}

/// The lists of a valid opening state.
pub fn lists_of_opening(alloc: Global, opening: OpeningState) -> Result<Lists, WantOfMemory>
    requires valid { Valid (opened_over None opening) }
    requires started { IsOpeningState (opened_over None opening) }
    ensures opening { IfOk result (λ lists. lists.opening ≡ opening) }
    ensures lists { IfOk result AreLists }
{
    let items = opening.documents.as_slice();
    let made = opening.made.as_slice();
    let documents = document_records::opening::documents(alloc, items, made, &opening.limits)?;
    let rights = document_records::opening::rights(alloc, items)?;
    let applications = document_records::opening::applications(
        alloc,
        opening.applications.as_slice(),
    )?;
    let entries = copies_of_entries(alloc, opening.entries.as_slice())?;
    valid_entries_are_held();
    let tables = Tables::with_entries(alloc, entries)?;
    let taken = copies(alloc, opening.taken.as_slice())?;
    Ok(Lists {
        opening,
        documents,
        rights,
        applications,
        tables,
        temps: Temps::with_taken(alloc, taken),
    })
}
