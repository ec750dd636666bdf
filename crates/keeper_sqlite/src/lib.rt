//! A keeper of records in a SQLite database, which outlives the process.
//!
//! **It promises** that its count of faults rises at each `Failed` and at nothing
//! else, and that it then has what it met ([`SqliteKeeper::last_fault`]): a fault of
//! the database, or changes that can't be kept exactly where the tables have no
//! place for one of them. What the database holds is told by no contract: a real
//! file is outside.
//!
//! All changes of one `apply` are one transaction of the database, whose log is
//! synced before `apply` answers `Done`: a crash at any moment leaves the records
//! of before a call or of after it, and those of after it once it has answered. A
//! `Failed` or `Memory` leaves the records as they were. Where it was the sync
//! that failed, the system may still have written the changes; the database then
//! answers `Failed` to whatever comes, and the next open finds one of the two.
//!
//! | Room | Holds |
//! |---|---|
//! | `keeper` | [`SqliteKeeper`] |
//! | `file`, `log` | whose file a path leads to, seen before SQLite opens it |
//! | `loading` | the tables, made and read |
//! | `kept`, `changes` | which changes can be kept, and making them |
//!
//! The tables, their rows and what may go wrong with them stand in `sqlite_tables`.
//!
//! ```text
//! let mut keeper = SqliteKeeper::open(&rt, "store.db")?;
//! match keeper.load() { KeeperLoad::Got(records) => .., .. }
//! ```
#![tactic(auto)]

mod changes;
mod file;
mod keeper;
mod kept;
mod loading;
mod log;

pub use keeper::SqliteKeeper;
pub use sqlite_tables::fault::{DatabaseFault, KeeperFault};
