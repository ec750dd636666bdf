//! The turn: seats that ask one portal from threads of their own, one request
//! at a time, and wait for nobody.
//!
//! **It promises** that there is one history for all seats. What a seat has
//! seen is a front of it, which holds all of the seat's own entries; after an
//! answer it ends with that request, answered as one step of the sequential
//! portal answers it. A seat is told that it is busy only where an exchange of
//! this call lost to another seat, and then nothing was asked. Once all passes
//! are brought back, what keeps the history is given back, with each seat's
//! entries and no others.
//!
//! | Room | Holds |
//! |---|---|
//! | `start` | [`seats::Turn::start`]: a turn, and a pass for each seat |
//! | `seats` | [`seats::Turn`], [`seats::Pass`], [`seats::Seat`]: a pass sits down in a thread, asks, and leaves |
//! | `waiting` | [`waiting::WaitingSeat`]: a seat that waits, as a desk |
//! | `sleepers` | how it sleeps until the turn is given back |
//! | `end` | [`end::close`]: what keeps the history, given back |
//! | `portals` | the same of a portal |
//! | `rule`, `view` | the rule that all steps keep, and what it knows of a seat |
//! | `table`, `steps` | the steps |
//!
//! ```text
//! let Started { turn, mut passes } = Turn::start(alloc, portal, 2)?;
//! let mut seat = passes.pop().unwrap().sit(&turn);
//! match seat.try_ask(alloc, request) { Asked::Busy { holder, request } => .. }
//! passes.push_reserved(seat.leave());
//! let portal = close(turn, passes);
//! ```
#![tactic(auto)]

pub mod end;
pub mod portals;
pub mod rule;
pub mod seats;
mod sleepers;
pub mod start;
mod steps;
mod table;
pub mod view;
pub mod waiting;
