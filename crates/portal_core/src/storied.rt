//! What keeps a history.

ghost use Rattle.std.specs.Prelude.{◌≡◌, ◌<◌, ◌≤◌, ◌^◌, [], length, true, IfErr, IfOk, IsOk, OnErr, OnOk};
ghost use Rattle.portal_desk.specs.Opening.{IsOpeningState};
ghost use Rattle.portal_core.specs.Growth.{GrowsBy, RefusedFor, cost_after};
ghost use Rattle.portal_model.specs.History.{Legal, cost, run};
ghost use Rattle.portal_model.specs.Seated.{is_open, rises_by};

use crate::portal::Portal;
use crate::renewal::RenewError;
use host_tree::HostTree;
use portal_base::outside::{Clock, Words};
use portal_model::reply::{Refused, Reply};
use portal_model::request::Request;
use record_keeper::Keeper;
use std::alloc::Global;

/// What answers requests of seats and keeps them all, as a portal does.
///
/// Contracts see the state that the history began in, and its entries.
pub trait Storied {
    ghost use Rattle.std.specs.Prelude.{List, ℕ};
    ghost use Rattle.portal_model.specs.State.{State};
    ghost use Rattle.portal_model.specs.declared.entry.Entry.{Entry};
    ghost use Rattle.portal_model.specs.declared.request.Request.{Request};

    /// The state that the history began in.
    ghost opening: { Self → State };

    /// The entries, in order.
    ghost entries: { Self → List Entry };

    /// What an answer does, of the value before, its entry and the value
    /// after.
    ghost says: { Self → Entry → Self → Type 0 };

    /// What a refusal may do, of the value before, the request that is
    /// refused and the value after.
    ghost spends: { Self → Request → Self → Type 0 };

    /// How many requests were refused, up to the greatest count.
    ghost refusals: { Self → ℕ };

    /// That a value is as before, but for the count of refusals.
    ghost stays: { Self → Self → Type 0 };

    /// Answers a request of a seat, which is a number from 1.
    ///
    /// The reply is that of one step of the sequential portal, from the state
    /// after the history, which grows by this request; over a tree that
    /// doesn't tell its files it is alike to the step's. A refusal leaves the
    /// history as it was. `Full` comes exactly where the history with this
    /// request would cost more than its limit, and then nothing changes but the
    /// count of refusals; whatever is answered, the history costs no more than that. The Leave of
    /// an open connection is never refused.
    fn ask(&mut self, alloc: Global, seat: u32, request: Request) -> Result<Reply, Refused>
        requires { 1 ≤ seat }

        ensures opening { opening self.new ≡ opening self.old }
        ensures answered { IfOk result
            (GrowsBy (λ e. says self.old e self.new) (opening self.old) (entries self.old)
            (entries self.new) seat request) }
        ensures refused { OnErr result (entries self.new ≡ entries self.old) }
        ensures spent { OnErr result (spends self.old request self.new) }

        // A refusal is counted, and nothing else is.
        ensures uncounted { OnOk result (refusals self.new ≡ refusals self.old) }
        ensures counted { OnErr result (refusals self.new ≡ rises_by (refusals self.old) 1) }

        // Both ways: it is full exactly where the cost would pass the limit.
        ensures full { (opening self.old).limits.history < cost_after (entries self.old) request
            → result ≡ Err (Refused.Full (cost (entries self.old))
            (opening self.old).limits.history) }
        ensures nothing { (opening self.old).limits.history < cost_after (entries self.old) request
            → stays self.old self.new }
        ensures cause { IfErr result (RefusedFor (opening self.old) (entries self.old) request) }

        ensures leave { request ≡ Request.Leave
            → is_open (run (opening self.old) (entries self.old)) seat ≡ true → IsOk result }

        // Whatever it answers.
        ensures started { IsOpeningState (opening self.new) }
        ensures legal { Legal (opening self.new) (entries self.new) }
        ensures within { cost (entries self.new) ≤ (opening self.new).limits.history }
        ensures short { length (entries self.new) < 2 ^ 64 };

    /// The number of entries.
    fn entry_count(&self) -> u64
        ensures { result ≡ length (entries self.now) };

    /// What is true at each moment: the history began in an opening state, is
    /// legal, within its limit and countable.
    fn known(&self)
        ensures started { IsOpeningState (opening self.now) }
        ensures legal { Legal (opening self.now) (entries self.now) }
        ensures within { cost (entries self.now) ≤ (opening self.now).limits.history }
        ensures short { length (entries self.now) < 2 ^ 64 };
}

impl<T: HostTree, K: Keeper, C: Clock, W: Words> Storied for Portal<T, K, C, W> {
    ghost use Rattle.std.specs.Prelude.{◌≡◌};
    ghost use Rattle.portal_steps.specs.Answered.{Spends, Went};
    ghost use Rattle.portal_steps.specs.Story.{OnlyCounts, state_first};

    ghost opening = { λ p. state_first p.story };

    ghost entries = { λ p. p.story.history };

    // Just the calls of the tree that the step reaches were made, and the one of the keeper.
    ghost says = { Went T.is K.is C.reads W.told };

    // The devices may have been asked, and then memory was wanted.
    ghost spends = { Spends T.is K.is C.reads W.told };

    ghost refusals = { λ p. p.refusals };

    ghost stays = { OnlyCounts };

    fn ask(&mut self, alloc: Global, seat: u32, request: Request) -> Result<Reply, Refused> {
        Portal::ask(self, alloc, seat, request)
    }

    fn entry_count(&self) -> u64 {
        self.history().len()
    }

    fn known(&self) {
        Portal::known(self);
    }
}

/// What keeps a history, and may begin a new one.
pub trait Renews: Storied {
    /// Begins a new history, in the state that the old one came to.
    ///
    /// It may be refused where a connection is open, and for want of memory;
    /// then nothing changes.
    fn renew(&mut self, alloc: Global) -> Result<(), RenewError>
        ensures opening { OnOk result (Self.opening self.new
            ≡ run (Self.opening self.old) (Self.entries self.old)) }
        ensures entries { OnOk result (Self.entries self.new ≡ []) }
        ensures refused { OnErr result (self.new ≡ self.old) }
        ensures uncounted { Self.refusals self.new ≡ Self.refusals self.old };

    /// Is there to take memory ahead for so many requests of the kinds that free what others
    /// hold, as far as there is any. It is no answer, and the history is as it was; that any
    /// memory was taken is no clause of it.
    fn keep_ahead(&mut self, alloc: Global, count: u32)
        ensures opening { Self.opening self.new ≡ Self.opening self.old }
        ensures entries { Self.entries self.new ≡ Self.entries self.old }
        ensures uncounted { Self.refusals self.new ≡ Self.refusals self.old };
}

impl<T: HostTree, K: Keeper, C: Clock, W: Words> Renews for Portal<T, K, C, W> {
    fn renew(&mut self, alloc: Global) -> Result<(), RenewError> {
        Portal::renew(self, alloc)
    }

    fn keep_ahead(&mut self, alloc: Global, count: u32) {
        let _reserved = self.reserve(alloc, count, 0);
    }
}
