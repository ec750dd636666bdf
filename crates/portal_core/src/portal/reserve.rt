//! Memory that is taken ahead of requests.

ghost use Rattle.std.specs.Prelude.{◌≡◌, ◌≤◌, OnOk};
ghost use Rattle.portal_core.specs.Reserve.{bytes_left};
ghost use Rattle.portal_steps.specs.Story.{IsAsBefore};

use crate::portal::Portal;
use crate::room::make_room;
use host_tree::HostTree;
use portal_base::memory::WantOfMemory;
use portal_base::outside::{Clock, Words};
use record_keeper::Keeper;
use std::alloc::Global;

impl<T: HostTree, K: Keeper, C: Clock, W: Words> Portal<T, K, C, W> {
    /// Takes memory ahead for `count` requests out of LOOKUP in a root, in the folder of all
    /// views or in a document's folder, GETATTR, ACCESS, FLUSH, RELEASE, RELEASEDIR, FORGET
    /// and BATCH_FORGET: the next `count` of them don't want
    /// memory, where no other request comes between, as the clauses `reserved` and `spare`
    /// of [`Portal::ask`] say of each. Nothing else changes; where memory is wanted some may
    /// have been taken, and none is let go.
    ///
    /// **`bytes` is passed over.** It is how many bytes these requests may have together, and
    /// would count where their bytes were copied. But a request brings its own bytes, and is
    /// kept as it came, so these never want memory here, however many they are. The clause
    /// `bytes` says no more than this, that as many are left as a `u64` counts; any body
    /// keeps it.
    ///
    /// From then on each request that is answered takes as much ahead again, as far as there
    /// is memory. No clause says that it does.
    pub fn reserve(&mut self, alloc: Global, count: u32, bytes: u64) -> Result<(), WantOfMemory>
        ensures ok { OnOk result (count ≤ self.new.spare) }
        ensures bytes { OnOk result (bytes ≤ bytes_left self.new) }
        ensures same { IsAsBefore self.old self.new }
        ensures uncounted { self.new.refusals ≡ self.old.refusals }
        ensures more { self.old.spare ≤ self.new.spare }
    {
        let _brought = bytes;
        make_room(&mut self.history, self.connections.as_slice(), count, 0)?;
        self.counts.reserve(count)?;
        self.rooms.reserve(alloc, count)?;
        self.ahead = count;
        Ok(())
    }

    /// For how many more such requests memory was taken ahead.
    pub fn spare(&self) -> u64
        ensures { result ≡ self.now.spare }
    {
        let leaves = self.connections.as_slice().len() as u64;
        let entries = self.history.spare().saturating_sub(leaves);
        let counts = self.counts.room() as u64;
        let looks = self.rooms.len() as u64;
        entries.min(counts).min(looks)
    }
}
