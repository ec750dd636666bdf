//! The turn of a portal.

use crate::seats::{Pass, Seat, Turn};
use crate::waiting::WaitingSeat;
use portal_core::portal::Portal;

/// A turn over a portal.
pub type PortalTurn<T, K, C, W> = Turn<Portal<T, K, C, W>>;

/// A pass of such a turn.
pub type PortalPass<T, K, C, W> = Pass<Portal<T, K, C, W>>;

/// A seat of such a turn.
pub type PortalSeat<'a, T, K, C, W> = Seat<'a, Portal<T, K, C, W>>;

/// A seat of such a turn, as a desk.
pub type WaitingPortalSeat<'a, R, T, K, C, W> = WaitingSeat<'a, R, Portal<T, K, C, W>>;
