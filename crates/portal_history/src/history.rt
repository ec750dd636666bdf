//! The stored history: a list of entries, and what it costs.
//!
//! Every request of a run is kept with what the outside gave it. The cost of
//! the whole has a limit, and memory for further entries can be taken ahead,
//! so that an entry is stored by a call that can't fail, and moves no other.

ghost use Rattle.std.specs.Prelude.{◌≡◌, ◌+◌, ◌-◌, ◌<◌, ◌≤◌, [], ◌∷◌, ◌++◌, length, option_copied, slice_get, IsOk, OnOk, OnErr};
ghost use Rattle.portal_history.specs.Stored.{Stored};
ghost use Rattle.portal_model.specs.History.{cost, cost_of as request_cost};

use crate::blocks::Blocks;
use crate::cost::cost_of;
use portal_base::limits::Limits;
use portal_base::memory::WantOfMemory;
use portal_model::entry::Entry;
use std::alloc::Global;
use std::marker::Model;

/// The entries of a run in their order.
///
/// Contracts see the list, the room for entries that was taken ahead, and the
/// limit of the cost.
#[derive(Drop)]
pub struct History {
    kept: Blocks,
    cost: u64,
    limit: u64,
}

impl Model for History {
    ghost use Rattle.std.specs.Prelude.{◌≡◌, ◌≤◌};
    ghost use Rattle.dbus_types.specs.contracts.types.Value as e;
    ghost use Rattle.std.specs.Coded.{codes};
    ghost use Rattle.portal_history.specs.Stored.{Stored};
    ghost use Rattle.portal_model.specs.History.{cost as total_cost};

    ghost Value = { Stored };

    ghost coded = { Prim.hlevel (codes, e.the_row.coded) };

    ghost view = { λ h. record {
      entries = h.kept.entries;
      spare = h.kept.spare;
      limit = h.limit;
    } };

    ghost invariant = { λ h. (h.cost ≡ total_cost h.kept.entries) × (h.cost ≤ h.limit) };
}

impl History {
    /// A history without an entry, whose cost is limited as `limits` says.
    pub fn new(alloc: Global, limits: &Limits) -> History
        ensures entries { result.entries ≡ [] }
        ensures limit { result.limit ≡ limits.now.history }
    {
        History {
            kept: Blocks::new(alloc),
            cost: 0,
            limit: limits.history,
        }
    }

    /// The number of entries.
    pub fn len(&self) -> u64
        ensures { result ≡ length self.now.entries }
    {
        self.kept.len()
    }

    /// The entry at a place, from 0, in the order of the run.
    pub fn entry(&self, place: u64) -> Option<&Entry>
        ensures { option_copied result ≡ slice_get self.now.entries place }
    {
        self.kept.entry(place)
    }

    /// For how many more entries room was taken ahead.
    pub fn spare(&self) -> u64
        ensures { result ≡ self.now.spare }
    {
        self.kept.spare()
    }

    /// What the entries cost together, in bytes.
    pub fn cost(&self) -> u64
        ensures value { result ≡ cost self.now.entries }
        ensures within { result ≤ self.now.limit }
    {
        self.cost
    }

    /// The limit of the cost, in bytes.
    pub fn limit(&self) -> u64
        ensures { result ≡ self.now.limit }
    {
        self.limit
    }

    /// Takes room for `count` more entries, where there isn't as much; where there is,
    /// no memory is wanted.
    pub fn reserve(&mut self, count: u32) -> Result<(), WantOfMemory>
        ensures ok { OnOk result (count ≤ self.new.spare) }
        ensures reserved { count ≤ self.old.spare → IsOk result }
        ensures err { OnErr result (self.new ≡ self.old) }
        ensures entries { self.new.entries ≡ self.old.entries }
        ensures limit { self.new.limit ≡ self.old.limit }
        ensures spare { self.old.spare ≤ self.new.spare }
    {
        self.kept.reserve(count)
    }

    /// Puts an entry at the end, into room that was taken ahead.
    pub fn push(&mut self, entry: Entry)
        requires room { 0 < self.old.spare }
        requires within { cost self.old.entries + request_cost entry.request ≤ self.old.limit }
        ensures { self.new ≡ record {
          entries = self.old.entries ++ entry ∷ [];
          spare = self.old.spare - 1;
          limit = self.old.limit;
        } }
    {
        // Who pushes has taken the room ahead, so that nothing is left that may fail.
        self.cost += cost_of(&entry.request);
        self.kept.push(entry);
    }
}
