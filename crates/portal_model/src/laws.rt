//! The laws of the sequential portal, for the crates that stand on it.
//!
//! Each function does nothing; its contract is the law.

ghost use Rattle.portal_model.specs.Laws.{
  Beginnings,
  CostsJoin,
  ExchangesJoin,
  HostsAloneWait,
  LegalJoins,
  OpeningsAreValid,
  RunsJoin,
  SeatsJoin,
  SeatsTell,
  StaysValid,
};

/// The state after two histories joined is the one after the second, from the
/// state after the first.
pub fn runs_join()
    ensures { RunsJoin }
{}

/// A legal history that goes on legally is legal, and so is each part of a
/// legal history.
pub fn legal_histories_join()
    ensures { LegalJoins }
{}

/// The cost of two histories joined is the sum of their costs.
pub fn costs_join()
    ensures { CostsJoin }
{}

/// The entries of a seat in two histories joined are those in the first and
/// then those in the second.
pub fn entries_of_a_seat_join()
    ensures { SeatsJoin }
{}

/// What a history begins with: itself, what was there before it grew, and what
/// that began with. Of two histories that one begins with, the longer begins
/// with the shorter.
pub fn histories_begin()
    ensures { Beginnings }
{}

/// The exchanges of a seat in two histories joined are those in the first and
/// then those in the second, from the state after the first. They are of the
/// entries of the seat, in order.
pub fn exchanges_of_a_seat_join()
    ensures { ExchangesJoin }
{}

/// Whether a seat has an open connection after a history, whom it is bound to
/// and what it speaks, is told by the entries of that seat alone.
pub fn seats_tell_their_connections()
    ensures { SeatsTell }
{}

/// Every state that is reached from a valid state by lawful entries is valid.
pub fn states_stay_valid()
    ensures { StaysValid }
{}

/// The state that sound records and files stand for is valid, over a tree that
/// tells its files and over one that tells nothing.
pub fn sound_openings_are_valid()
    ensures { OpeningsAreValid }
{}

/// Nothing waits to be told on a mount or to an application. So a request on a
/// node tells no change of the permission store.
pub fn hosts_alone_wait()
    ensures { HostsAloneWait }
{}
