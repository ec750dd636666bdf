//! A keeper in memory, which tells what it keeps.

ghost use Rattle.std.specs.Prelude.{◌≡◌, IfOk};
ghost use Rattle.portal_base.specs.Calls.{uncalled};

use crate::changes::make_all;
use crate::keeper::{Keeper, KeeperDone, KeeperLoad};
use portal_base::list::List;
use portal_base::memory::{Replica, WantOfMemory};
use portal_base::outside::CallCount;
use portal_model::records::{DocRecord, EntryRecord, RecordChange, Records};
use std::alloc::Global;
use std::marker::Model;

/// A keeper in memory, some of whose calls fail.
#[derive(Drop)]
pub struct MemoryKeeper {
    alloc: Global,
    // Contracts speak of the records that it began with too.
    began: Records,
    version: u32,
    documents: Vec<DocRecord>,
    entries: Vec<EntryRecord>,
    count: CallCount,
}

impl Model for MemoryKeeper {
    ghost use Rattle.record_keeper.specs.Devices.{KeeperState};

    ghost Value = { KeeperState };

    ghost view = { λ k. record {
      began = k.began;
      records = record {
        version = k.version;
        documents = k.documents.items;
        entries = k.entries.items;
      };
      count = k.count;
    } };
}

impl MemoryKeeper {
    /// A keeper of these records, whose calls of these numbers fail, counted
    /// from 1.
    pub fn new(
        alloc: Global,
        records: Records,
        fails: List<u64>,
    ) -> Result<MemoryKeeper, WantOfMemory>
        ensures { IfOk result (λ keeper. keeper ≡ record {
          began = records;
          records = records;
          count = uncalled fails;
        }) }
    {
        let began = records.replica(alloc)?;
        let Records {
            version,
            documents,
            entries,
        } = records;
        Ok(MemoryKeeper {
            alloc,
            began,
            version,
            documents: documents.into_vec(),
            entries: entries.into_vec(),
            count: CallCount::new(fails),
        })
    }
}

impl Keeper for MemoryKeeper {
    ghost use Rattle.record_keeper.specs.Devices.{keeper_of};

    ghost is = { keeper_of };

    fn load(&mut self) -> KeeperLoad {
        if self.count.next_fails() {
            return KeeperLoad::Failed;
        }
        match copies(self.alloc, self.version, &self.documents, &self.entries) {
            Ok(records) => KeeperLoad::Got(records),
            Err(_) => KeeperLoad::Memory,
        }
    }

    fn apply(&mut self, changes: &List<RecordChange>) -> KeeperDone {
        if self.count.next_fails() {
            return KeeperDone::Failed;
        }
        let Ok(changes) = changes.replica(self.alloc) else {
            return KeeperDone::Memory;
        };
        if reserve(&mut self.documents, &mut self.entries, changes.len()).is_err() {
            return KeeperDone::Memory;
        }
        make_all(
            &mut self.version,
            &mut self.documents,
            &mut self.entries,
            changes,
        );
        KeeperDone::Done
    }
}

ghost use Rattle.std.specs.Prelude.{◌+◌, ◌≤◌, OnOk, vec_len, vec_capacity};

/// Takes room for so many more documents and entries.
fn reserve(
    documents: &mut Vec<DocRecord>,
    entries: &mut Vec<EntryRecord>,
    count: usize,
) -> Result<(), WantOfMemory>
    ensures same { (documents.new.items ≡ documents.old.items)
        × (entries.new.items ≡ entries.old.items) }
    ensures documents { OnOk result (vec_len documents.new + count ≤ vec_capacity documents.new) }
    ensures entries { OnOk result (vec_len entries.new + count ≤ vec_capacity entries.new) }
{
    // Room for all changes is taken ahead of the first: they are then made in place, and none can
    // be refused.
    documents.reserve(count)?;
    entries.reserve(count)?;
    Ok(())
}

/// A copy of the records.
fn copies(
    alloc: Global,
    version: u32,
    documents: &[DocRecord],
    entries: &[EntryRecord],
) -> Result<Records, WantOfMemory>
    ensures { IfOk result (λ records. records ≡ record {
      version = version;
      documents = documents.now;
      entries = entries.now;
    }) }
{
    Ok(Records {
        version,
        documents: copy_of(alloc, documents)?,
        entries: copy_of(alloc, entries)?,
    })
}

/// A copy of a list.
fn copy_of<T: Replica>(alloc: Global, items: &[T]) -> Result<List<T>, WantOfMemory>
    ensures { IfOk result (λ copy. copy ≡ items.now) }
{
    let mut copy = List::new(alloc);
    for item in items {
        copy.push(item.replica(alloc)?)?;
    }
    Ok(copy)
}
