//! A keeper of records, as the portal sees it.
//!
//! An implementation may tell contracts what it keeps: one in memory does, a
//! real one doesn't. Its count of faults rises at each `Failed` and at nothing
//! else; it stops at the greatest `u64`. One that tells its calls has the
//! number of those that came and the numbers of those that are to fail,
//! counted from 1.

use portal_base::list::List;
use portal_model::records::{RecordChange, Records};

/// The answer of a load.
#[derive(Debug, Drop)]
pub enum KeeperLoad {
    /// The records that are kept.
    Got(Records),
    /// A fault of the keeper.
    Failed,
    /// There was no memory for the records.
    Memory,
}

/// The answer of changes.
#[derive(Clone, Copy, Debug, PartialEq, Eq)]
pub enum KeeperDone {
    /// All changes are made.
    Done,
    /// A fault of the keeper; no change is made.
    Failed,
    /// There was no memory; no change is made.
    Memory,
}

/// A keeper of records.
pub trait Keeper {
    ghost use Rattle.record_keeper.specs.Keepers.{KeeperIs, Loads, Applies};

    /// What the keeper means.
    ghost is: { Self → KeeperIs };

    /// The records that are kept.
    fn load(&mut self) -> KeeperLoad
        ensures { Loads (is self.old) result (is self.new) };

    /// Makes the changes one after another: all of them, or none.
    fn apply(&mut self, changes: &List<RecordChange>) -> KeeperDone
        ensures { Applies changes.now (is self.old) result (is self.new) };
}
