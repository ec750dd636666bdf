//! The records that outlive a run: which of them may be kept, the trait of
//! their keeper by which the portal reaches it, and a keeper in memory.
//!
//! **It promises** that a load gives the records that are kept, and that changes
//! are made all or not at all, each as its definition says: an added document goes
//! last, changed grants and an old entry stay in their place. `Failed` and
//! `Memory` change nothing. An entry of the permission store is told to be sound
//! exactly where it may be kept, as far as that depends on it alone. What is wrong
//! with kept records is told exactly: their version, or the first that is bad. The
//! entries that records keep are read from them, and these alone have such records.
//!
//! | Room | Holds |
//! |---|---|
//! | `keeper` | the trait [`Keeper`] and its answers |
//! | `in_memory` | [`MemoryKeeper`], with its list of failing calls |
//! | `changes` | what each change does to records |
//! | `sound`, `datum` | which entries may be kept, and the value of one |
//! | `entries` | the entries that records keep: [`kept_entries`] |
//! | `sound_document` | which documents may be kept |
//! | `fault` | what is wrong with kept records: [`records_fault`] |
//! | `earlier` | what that check keeps of the records that it has passed |
//! | `name_set` | names that were seen, in order |
//! | `naming` | names as they first come |
//! | `keys` | whether keys rise |
//! | `laws` | what is true of all records |
//!
//! ```text
//! let mut keeper = MemoryKeeper::new(alloc, records, List::new(alloc))?;
//! match keeper.load() { KeeperLoad::Got(records) => .., .. }
//! ```
#![tactic(auto)]

mod changes;
mod datum;
mod earlier;
mod entries;
mod fault;
mod in_memory;
mod keeper;
mod keys;
pub mod laws;
mod name_set;
mod naming;
mod sound;
mod sound_document;

pub use datum::read_datum;
pub use entries::kept_entries;
pub use fault::{FIRST_VERSION, RECORDS_VERSION, RecordsFault, records_fault};
pub use in_memory::MemoryKeeper;
pub use keeper::{Keeper, KeeperDone, KeeperLoad};
pub use name_set::{Name, NameSet};
pub use naming::Named;
pub use sound::is_sound_entry;
pub use sound_document::is_sound_document;
