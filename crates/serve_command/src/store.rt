//! A keeper whose failures are told.

ghost use Rattle.std.specs.Prelude.{◌≡◌};
ghost use Rattle.keeper_sqlite.specs.Met.{keeper_of};

use keeper_sqlite::SqliteKeeper;
use portal_base::list::List;
use portal_model::records::RecordChange;
use record_keeper::{Keeper, KeeperDone, KeeperLoad};

/// How many lines tell of failures, and of their ends.
const MOST_LINES: u32 = 16;

/// A keeper that tells on standard error, in one line each, when changes begin to fail and
/// when they are kept again, up to sixteen times.
#[derive(Drop)]
pub struct ToldKeeper<'a> {
    system: &'a HostRuntime,
    keeper: SqliteKeeper,
    fails: bool,
    lines: u32,
}

impl<'a> ToldKeeper<'a> {
    /// The keeper, whose failures are told.
    pub fn new(system: &'a HostRuntime, keeper: SqliteKeeper) -> ToldKeeper<'a> {
        ToldKeeper {
            system,
            keeper,
            fails: false,
            lines: 0,
        }
    }

    /// The keeper itself.
    pub fn keeper(&self) -> &SqliteKeeper
        ensures { result.now ≡ self.now.keeper }
    {
        &self.keeper
    }

    /// Tells of a change's answer where it isn't as the last one's.
    fn tell(&mut self, done: &KeeperDone)
        ensures { self.new.keeper ≡ self.old.keeper }
    {
        let fails = match done {
            KeeperDone::Done => false,
            KeeperDone::Failed => true,
            KeeperDone::Memory => return,
        };
        if fails == self.fails {
            return;
        }
        self.fails = fails;
        if self.lines >= MOST_LINES {
            return;
        }
        self.lines += 1;
        let _ = match self.keeper.last_fault() {
            Some(fault) if fails => {
                eprintln!(self.system; "docportal: store fault, no change is kept: {fault}")
            }
            _ => eprintln!(self.system; "docportal: the store keeps changes again"),
        };
    }
}

impl<'a> Keeper for ToldKeeper<'a> {
    ghost is = { λ k. keeper_of k.keeper };

    fn load(&mut self) -> KeeperLoad {
        self.keeper.load()
    }

    fn apply(&mut self, changes: &List<RecordChange>) -> KeeperDone {
        let done = self.keeper.apply(changes);
        self.tell(&done);
        done
    }
}
