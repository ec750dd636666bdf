//! A portal that begins a new history.

ghost use Rattle.std.specs.Prelude.{◌≡◌, IfErr, OnErr, OnOk};
ghost use Rattle.portal_core.specs.Renewing.{CannotRenew, Renews};
ghost use Rattle.portal_steps.specs.Story.{state_now};

use crate::portal::Portal;
use crate::renewal::{RenewError, least_seat};
use host_tree::HostTree;
use inode_table::InodeTable;
use portal_base::outside::{Clock, Words};
use portal_history::History;
use portal_start::renewed::opening_of;
use record_keeper::Keeper;
use std::alloc::Global;

impl<T: HostTree, K: Keeper, C: Clock, W: Words> Portal<T, K, C, W> {
    /// Begins a new history, in the state that the old one came to. Its cost is 0
    /// again; what was made stays made, the applications keep their numbers, and no
    /// generation that was taken is taken again.
    ///
    /// It is refused exactly where a connection is open, and for want of memory;
    /// then nothing changes.
    pub fn renew(&mut self, alloc: Global) -> Result<(), RenewError>
        ensures ok { OnOk result (Renews T.is self.old self.new) }
        ensures err { OnErr result (self.new ≡ self.old) }
        ensures cause { IfErr result (CannotRenew (state_now self.old.story).connections) }
    {
        if let Some(seat) = least_seat(self.connections.as_slice()) {
            return Err(RenewError::Open { seat });
        }
        let opening = opening_of(
            alloc,
            &self.opening.limits,
            &self.documents,
            &self.rights,
            &self.applications,
            &self.tables,
            self.temps.taken(),
        )?;
        self.tree.settle()?;
        self.history = History::new(alloc, &opening.limits);
        self.counts = InodeTable::new(alloc);
        self.opening = opening;
        self.tree.known();
        Ok(())
    }
}
