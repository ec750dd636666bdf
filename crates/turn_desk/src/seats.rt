//! A turn, its passes and its seats.

ghost use Rattle.std.specs.Prelude.{◌≡◌, ◌≤◌, length};
ghost use Rattle.portal_desk.specs.Knowing.{Known};
ghost use Rattle.turn_desk.specs.Asking.{Looks, Tries};
ghost use Rattle.turn_desk.specs.Sights.{seated_of};

use crate::rule::{Board, Place};
use crate::sleepers::Sleepers;
use crate::steps::{give_same, give_written, look, try_take};
use portal_core::storied::Storied;
use portal_desk::TryDesk;
use portal_model::asked::Asked;
use portal_model::request::Request;
use std::alloc::Global;
use std::marker::Model;
use std::sync::Wait;

/// What seats share: one portal, and whose turn it is. It may be shared among
/// threads.
///
/// Contracts see which turn it is, the portal that it was started with, and
/// for how many seats.
#[derive(Drop)]
pub struct Turn<S: Storied> {
    pub(crate) board: Board<S>,
    pub(crate) seats: u32,
    pub(crate) sleepers: Sleepers,
}

impl<S: Storied> Model for Turn<S> {
    ghost use Rattle.std.specs.Prelude.{◌≡◌, ◌≤◌};
    ghost use Rattle.turn_desk.specs.Sights.{Turned};

    ghost Value = { Turned S };

    ghost view = { λ t. record {
      table = t.board.shared.table_id;
      start = t.board.shared.key.value;
      seats = t.seats;
    } };

    ghost invariant = { λ t. (t.board.shared.table_id.words ≡ 2)
        × (t.board.shared.table_id.slots ≡ 1) × (1 ≤ t.seats) };
}

/// The right to one seat of a turn. It goes from thread to thread, and all of
/// them are needed to close the turn.
///
/// Contracts see of which turn it is, and what its seat knows.
#[derive(Drop)]
pub struct Pass<S: Storied> {
    pub(crate) place: Place<S>,
    pub(crate) number: u32,
}

impl<S: Storied> Model for Pass<S> {
    ghost use Rattle.std.specs.Prelude.{◌≡◌, []};
    ghost use Rattle.dbus_types.specs.contracts.types.Value as e;
    ghost use Rattle.std.specs.Coded.{codes};
    ghost use Rattle.turn_desk.specs.Sights.{Sight};
    ghost use Rattle.turn_desk.specs.Views.{Rests};

    ghost Value = { Sight };

    ghost coded = { Prim.hlevel (codes, e.the_row.coded) };

    ghost view = { λ p. record {
      table = p.place.table_id;
      knows = p.place.me.0;
      refusals = 0;
    } };

    ghost invariant = { λ p. (p.place.me.1 ≡ []) × (p.number ≡ p.place.me.0.number)
        × Rests p.place.me.0 };
}

/// A seat at a turn, which asks and waits for nobody.
///
/// Contracts see of which turn it is, what it knows, and how many of its
/// requests were refused since it sat down.
#[derive(Drop)]
pub struct Seat<'a, S: Storied> {
    turn: &'a Turn<S>,
    place: Place<S>,
    number: u32,
    refusals: u64,
}

impl<'a, S: Storied> Model for Seat<'a, S> {
    ghost use Rattle.std.specs.Prelude.{◌≡◌, []};
    ghost use Rattle.dbus_types.specs.contracts.types.Value as e;
    ghost use Rattle.std.specs.Coded.{codes};
    ghost use Rattle.turn_desk.specs.Sights.{Sight};
    ghost use Rattle.turn_desk.specs.Views.{Rests};

    ghost Value = { Sight };

    ghost coded = { Prim.hlevel (codes, e.the_row.coded) };

    ghost view = { λ s. record {
      table = s.place.table_id;
      knows = s.place.me.0;
      refusals = s.refusals;
    } };

    ghost invariant = { λ s. (s.place.table_id ≡ s.turn.now.table) × (s.place.me.1 ≡ [])
        × (s.number ≡ s.place.me.0.number) × Rests s.place.me.0 };
}

impl<S: Storied> Pass<S> {
    /// The number of its seat, from 1.
    pub fn number(&self) -> u32
        ensures { result ≡ self.now.knows.number }
    {
        self.number
    }

    /// Sits down at the turn, which is the pass's own.
    pub fn sit<'a>(self, turn: &'a Turn<S>) -> Seat<'a, S>
        requires { self.table ≡ turn.now.table }
        ensures { (result.table ≡ self.table) × (result.knows ≡ self.knows)
            × (result.refusals ≡ 0) }
    {
        let Pass { place, number } = self;
        Seat {
            turn,
            place,
            number,
            // The count begins anew each time that a pass sits down; what the seat knows goes on.
            refusals: 0,
        }
    }
}

impl<'a, S: Storied> Seat<'a, S> {
    /// Gives the pass back.
    pub fn leave(self) -> Pass<S>
        ensures { (result.table ≡ self.entry.table) × (result.knows ≡ self.entry.knows) }
    {
        let Seat {
            turn: _,
            place,
            number,
            refusals: _,
        } = self;
        Pass { place, number }
    }

    /// What is true between two calls: a legal history is seen, that began in an
    /// opening state, and the seat's own entries are those of the seat in it.
    pub fn known(&self)
        ensures { Known (seated_of self.now) }
    {
        let _place = &self.place;
    }

    /// The length of the history, as it is read in this call: no less than
    /// what the seat has seen, nor than what it read before.
    pub fn front(&mut self) -> u64
        ensures looks { Looks self.old result self.new }
        ensures far { length self.new.knows.seen ≤ result }
    {
        let turn = self.turn;
        look(&turn.board.shared, &mut self.place)
    }

    /// Asks a request of the seat, and waits for nobody.
    ///
    /// `Answered` is the reply of one step of the sequential portal, or one
    /// alike to it over a tree that doesn't tell its files: the history that
    /// is seen begins with what was seen before and ends with this request,
    /// which alone is new of the seat's own. `Busy` comes only where an
    /// exchange of this call lost; it hands the request back and tells the
    /// seat that held the turn, which is another. `Refused` is counted and
    /// leaves the seat's own entries; the history is then seen to its end, and
    /// it is `Full` exactly where that and this request would cost more than
    /// the limit.
    pub fn try_ask(&mut self, alloc: Global, request: Request) -> Asked
        ensures { Tries self.old request result self.new }
    {
        let number = self.number;
        let turn = self.turn;
        let top = &turn.board.shared;
        // A seat keeps the turn also while a device waits: requests are served one at a time, and
        // who finds the turn taken is told so at once.
        let mut portal = match try_take(top, &mut self.place, u64::from(number)) {
            Ok(portal) => portal,
            Err(holder) => {
                return Asked::Busy {
                    holder: holder as u32,
                    request,
                };
            }
        };
        match portal.ask(alloc, number, request) {
            Ok(reply) => {
                give_written(top, &mut self.place, portal);
                turn.sleepers.wake_one(top);
                Asked::Answered(reply)
            }
            Err(refused) => {
                give_same(top, &mut self.place, portal);
                turn.sleepers.wake_one(top);
                self.refusals = self.refusals.saturating_add(1);
                Asked::Refused(refused)
            }
        }
    }

    /// Waits a while for the turn, which another seat holds. It may return while
    /// that still holds it.
    pub(crate) fn wait_for_turn<R: Wait>(&self, rt: &R) {
        let turn = self.turn;
        turn.sleepers.wait(rt, &turn.board.shared);
    }
}

impl<'a, S: Storied> TryDesk for Seat<'a, S> {
    ghost use Rattle.turn_desk.specs.Sights.{Stays, seated_of};
    ghost use Rattle.turn_desk.specs.Staying.{stays_put, stays_further};

    ghost seated = { seated_of };

    ghost busy = { λ s. s.knows.losses };

    // It is the same seat of the same turn.
    ghost goes = { Stays };

    fn try_ask(&mut self, alloc: Global, request: Request) -> Asked {
        Seat::try_ask(self, alloc, request)
    }

    fn known(&self) {
        Seat::known(self);
    }

    ghost stands = { stays_put };

    ghost follows = { stays_further };
}
