//! The rule of the turn, and what its steps tell.

use crate::view::View;
use atomic_table::{Join, Play, Seat, Shared, Split, Table, TableRule};
use portal_core::storied::Storied;
use std::alloc::Global;
use std::snapshot::Snapshot;

/// The rule that each step keeps, over the words `turn` and `served`, and one
/// slot with what keeps the history.
pub struct Turning;

impl<S: Storied> TableRule<Option<S>, View, Snapshot<S>> for Turning {
    ghost use Rattle.turn_desk.specs.Rules.{Keeps};
    ghost use Rattle.turn_desk.specs.Knowing.{fresh};

    ghost holds = { λ key. Keeps S.opening S.entries key.value };

    ghost first = { λ key. fresh 1 (S.opening key.value) (S.entries key.value) 1 };
}

/// The exchange of 0 for a seat's number, which takes the turn.
pub(crate) struct Takes;

impl<S: Storied> Play<Option<S>, View> for Takes {
    ghost use Rattle.turn_desk.specs.Plays.{takes};

    ghost then = { takes S.opening S.entries };
}

/// The add that counts an entry.
pub(crate) struct Adds;

impl<S: Storied> Play<Option<S>, View> for Adds {
    ghost use Rattle.turn_desk.specs.Plays.{adds};

    ghost then = { adds S.opening S.entries };
}

/// The swap that gives the turn back.
pub(crate) struct Frees;

impl<S: Storied> Play<Option<S>, View> for Frees {
    ghost use Rattle.turn_desk.specs.Plays.{frees};

    ghost then = { frees S.opening S.entries };
}

/// The load of the length of the history.
pub(crate) struct Looks;

impl<S: Storied> Play<Option<S>, View> for Looks {
    ghost use Rattle.turn_desk.specs.Plays.{loads};

    ghost then = { loads S.opening S.entries };
}

/// The first seat gives a number to a new one.
pub(crate) struct Numbers;

impl Split<View> for Numbers {
    ghost use Rattle.turn_desk.specs.Views.{gave, given};

    ghost left = { gave };

    ghost right = { given };
}

/// A seat takes the view of another in.
pub(crate) struct Gathers;

impl Join<View> for Gathers {
    ghost use Rattle.turn_desk.specs.Knowing.{spent};
    ghost use Rattle.turn_desk.specs.Views.{joined};

    ghost both = { joined };

    ghost spent = { spent };
}

/// The table of a turn.
pub type Board<S> = Table<Option<S>, View, Snapshot<S>, Turning, Global>;

/// What threads share of it.
pub type Top<S> = Shared<Option<S>, View, Snapshot<S>, Turning>;

/// The place of a seat at it.
pub type Place<S> = Seat<Option<S>, View>;
