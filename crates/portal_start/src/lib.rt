//! The lists that the records of a keeper open a portal with.
//!
//! **It promises** that lists are made exactly where the records are good under the limits,
//! and are then those of the opening state that the records stand for, which is valid; that
//! else the first thing wrong is told, or that the keeper failed, whose count of faults then
//! rose; that a valid opening state gives its own lists; and that these give the opening
//! state of a history that goes on from them.
//!
//! | Room | Holds |
//! |---|---|
//! | `start` | [`start::load`], [`start::lists_of_opening`], and why a portal doesn't start |
//! | `copies` | copies of lists, for each of which room is taken once |
//! | `opening` | the opening state that records stand for |
//! | `laws` | that records of both versions open alike |
//! | `renewed` | [`renewed::opening_of`]: the opening state that lists stand for |
//!
//! ```text
//! let lists = load(alloc, &mut keeper, &limits)?;
//! ```
//!
//! `docs/database.md` says what the records are.
#![tactic(auto)]

mod copies;
pub mod laws;
mod opening;
pub mod renewed;
pub mod start;
