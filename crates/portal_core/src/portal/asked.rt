//! What a portal tells of what it was asked: who waits for signals, and how many
//! requests were refused.

ghost use Rattle.std.specs.Prelude.{◌≡◌, OnErr, OnOk};
ghost use Rattle.portal_core.specs.Waiting.{is_waiting};
ghost use Rattle.portal_model.specs.Seated.{rises_by};
ghost use Rattle.portal_steps.specs.Story.{state_now};

use crate::portal::Portal;
use host_tree::HostTree;
use portal_base::outside::{Clock, Words};
use portal_model::reply::{Refused, Reply};
use record_keeper::Keeper;

impl<T: HostTree, K: Keeper, C: Clock, W: Words> Portal<T, K, C, W> {
    /// Whether a seat's connection was not told some changes of the permission store
    /// yet. Only an open one of the host to the bus waits for changes.
    pub fn waiting(&self, seat: u32) -> bool
        ensures { result ≡ is_waiting (state_now self.now.story) seat }
    {
        self.outboxes.waiting(seat)
    }

    /// How many requests were refused, up to the greatest count.
    pub fn refusals(&self) -> u64
        ensures { result ≡ self.now.refusals }
    {
        self.refusals
    }

    /// The count of refusals becomes this, and nothing else changes.
    pub(super) fn count_refusals(&mut self, count: u64)
        ensures { self.new ≡ record self.old { refusals = count } }
    {
        self.refusals = count;
    }
}

/// The count of refusals after an answer.
pub(super) fn refusals_after(count: u64, answered: &Result<Reply, Refused>) -> u64
    ensures ok { OnOk answered.now (result ≡ count) }
    ensures err { OnErr answered.now (result ≡ rises_by count 1) }
{
    match answered {
        Ok(_) => count,
        Err(_) => count.saturating_add(1),
    }
}
