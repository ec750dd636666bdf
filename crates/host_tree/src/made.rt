//! The calls of a tree in memory.

ghost use Rattle.std.specs.Prelude.{◌≡◌, OnOk, OnErr};
ghost use Rattle.portal_base.specs.Calls.{is_to_fail, next_call};
ghost use Rattle.host_tree.specs.Devices.{made, none_made};
ghost use Rattle.host_tree.specs.Trees.{AreNoted};

use crate::tree::TreeCall;
use portal_base::list::List;
use portal_base::memory::WantOfMemory;
use portal_base::outside::CallCount;
use std::alloc::Global;
use std::marker::Model;

/// How many calls came and which of them fail, and the kinds of the first of
/// them, for which room was taken ahead.
#[derive(Drop)]
pub(crate) struct CallsMade {
    count: CallCount,
    kinds: Vec<TreeCall>,
    room: usize,
}

impl Model for CallsMade {
    ghost use Rattle.std.specs.Prelude.{◌≤◌, vec_capacity};
    ghost use Rattle.host_tree.specs.Devices.{CallsMade as Made};
    ghost use Rattle.host_tree.specs.Trees.{AreNoted};

    ghost Value = { Made };

    ghost view = { λ c. record {
      count = c.count;
      noted = record { room = c.room; kinds = c.kinds.items };
    } };

    ghost invariant = { λ c. (c.room ≤ vec_capacity c.kinds)
        × AreNoted (record { room = c.room; kinds = c.kinds.items }) c.count.calls };
}

impl CallsMade {
    /// No call so far; those of these numbers, counted from 1, are to fail.
    pub(crate) fn new(alloc: Global, fails: List<u64>) -> CallsMade
        ensures { result ≡ none_made fails }
    {
        CallsMade {
            count: CallCount::new(fails),
            kinds: Vec::new(alloc),
            room: 0,
        }
    }

    /// Takes room for the kinds of the first `room` calls, before the first of
    /// them.
    pub(crate) fn take_room(&mut self, room: u32) -> Result<(), WantOfMemory>
        requires { self.old.count.calls.made ≡ 0 }
        ensures ok { OnOk result (self.new ≡ record {
          count = self.old.count;
          noted = record { room = room; kinds = self.old.noted.kinds };
        }) }
        ensures err { OnErr result (self.new ≡ self.old) }
    {
        self.kinds.reserve(room as usize)?;
        self.room = room as usize;
        Ok(())
    }

    /// Counts one more call, of this kind, and says whether it fails.
    pub(crate) fn next_fails(&mut self, kind: TreeCall) -> bool
        ensures fails { result ≡ is_to_fail (next_call self.old.count.calls) }
        ensures made { self.new ≡ made kind self.old result }
    {
        if self.kinds.len() < self.room {
            self.kinds.push_reserved(kind);
        }
        self.count.next_fails()
    }

    /// As many kinds are noted as calls were made, up to the room.
    pub(crate) fn known(&self)
        ensures { AreNoted self.now.noted self.now.count.calls }
    {
        let _ = &self.kinds;
    }
}
