//! The desk of one seat, on one thread.

ghost use Rattle.std.specs.Prelude.{◌≡◌, ◌≤◌};

use crate::storied::Storied;
use portal_desk::{Desk, TryDesk};
use portal_model::asked::Asked;
use portal_model::reply::{Refused, Reply};
use portal_model::request::Request;
use std::alloc::Global;

/// One seat of a portal that it borrows. No other seat asks meanwhile, so the
/// history grows by entries of this seat alone. It sees the whole history, and
/// counts its own refusals up to the greatest `u64`; the portal's count rises
/// with its own.
#[derive(Drop)]
pub struct LocalDesk<'a, S> {
    portal: &'a mut S,
    seat: u32,
    refusals: u64,
    ghost numbered: { 1 ≤ seat },
}

impl<'a, S: Storied> LocalDesk<'a, S> {
    ghost use Rattle.portal_core.specs.Borrowing.{keeper_of, name_of_keeper, refusals_of, seat_of};

    /// The desk of a seat, which is a number from 1.
    pub fn new(portal: &'a mut S, seat: u32) -> LocalDesk<'a, S>
        requires { 1 ≤ seat }
        ensures same_portal { name_of_keeper result ≡ portal.entry.ghost_name }
        ensures as_it_was { keeper_of result ≡ portal.old }
        ensures seat { seat_of result ≡ seat }
        ensures refusals { refusals_of result ≡ 0 }
    {
        LocalDesk {
            portal,
            seat,
            refusals: 0,
        }
    }

    /// How many of its requests were refused.
    pub fn refusals(&self) -> u64
        ensures { result ≡ refusals_of self.now }
    {
        self.refusals
    }
}

impl<'a, S: Storied> Desk for LocalDesk<'a, S> {
    ghost use Rattle.portal_core.specs.Lending.{GoesOn, goes_further, goes_nowhere, seated_at};
    ghost use Rattle.std.specs.Prelude.{refl};
    ghost use Rattle.std.proofs.Common.{◌∙◌};

    ghost seated = { λ d. seated_at (S.opening d.portal.now)
        (S.entries d.portal.now) d.seat d.refusals };

    ghost goes = { λ d e. (e.portal.ghost_name ≡ d.portal.ghost_name)
        × GoesOn S.says S.spends S.refusals
        d.portal.now (seated_at (S.opening d.portal.now) (S.entries d.portal.now) d.seat
        d.refusals)
        e.portal.now (seated_at (S.opening e.portal.now) (S.entries e.portal.now) e.seat
        e.refusals) };

    fn ask(&mut self, alloc: Global, request: Request) -> Result<Reply, Refused> {
        match self.portal.ask(alloc, self.seat, request) {
            Ok(reply) => Ok(reply),
            Err(refused) => {
                self.refusals = self.refusals.saturating_add(1);
                Err(refused)
            }
        }
    }

    fn known(&self) {
        self.portal.known();
    }

    ghost stands = { λ d. (refl, goes_nowhere S.says S.spends S.refusals _ _) };

    ghost follows = { λ d e f h k. (
      k.0 ∙ h.0,
      goes_further S.says S.spends S.refusals _ _ _ _ _ _ h.1 k.1,
    ) };
}

impl<'a, S: Storied> TryDesk for LocalDesk<'a, S> {
    ghost use Rattle.portal_core.specs.Lending.{GoesOn, goes_further, goes_nowhere, seated_at};
    ghost use Rattle.std.specs.Prelude.{refl};
    ghost use Rattle.std.proofs.Common.{◌∙◌};

    ghost seated = { λ d. seated_at (S.opening d.portal.now)
        (S.entries d.portal.now) d.seat d.refusals };

    // No other seat asks meanwhile, so it is never busy: this count doesn't rise.
    ghost busy = { λ _. 0 };

    ghost goes = { λ d e. (e.portal.ghost_name ≡ d.portal.ghost_name)
        × GoesOn S.says S.spends S.refusals
        d.portal.now (seated_at (S.opening d.portal.now) (S.entries d.portal.now) d.seat
        d.refusals)
        e.portal.now (seated_at (S.opening e.portal.now) (S.entries e.portal.now) e.seat
        e.refusals) };

    fn try_ask(&mut self, alloc: Global, request: Request) -> Asked {
        match self.ask(alloc, request) {
            Ok(reply) => Asked::Answered(reply),
            Err(refused) => Asked::Refused(refused),
        }
    }

    fn known(&self) {
        self.portal.known();
    }

    ghost stands = { λ d. (refl, goes_nowhere S.says S.spends S.refusals _ _) };

    ghost follows = { λ d e f h k. (
      k.0 ∙ h.0,
      goes_further S.says S.spends S.refusals _ _ _ _ _ _ h.1 k.1,
    ) };
}
