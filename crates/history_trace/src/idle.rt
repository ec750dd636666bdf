//! A keeper that keeps nothing.

use portal_base::list::List;
use portal_model::records::RecordChange;
use record_keeper::{Keeper, KeeperDone, KeeperLoad};

/// A keeper that takes every change and keeps none: it never fails, and tells
/// nothing.
#[derive(Drop)]
pub(crate) struct IdleKeeper;

impl Keeper for IdleKeeper {
    ghost use Rattle.std.specs.Prelude.{None};
    ghost use Rattle.record_keeper.specs.Keepers.{KeeperIs};

    ghost is = { λ _. record { began = None; told = None; faults = 0; calls = None } };

    fn load(&mut self) -> KeeperLoad {
        KeeperLoad::Memory
    }

    fn apply(&mut self, _changes: &List<RecordChange>) -> KeeperDone {
        KeeperDone::Done
    }
}
