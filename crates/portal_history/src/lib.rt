//! The stored history of a run, and what a request costs it.
//!
//! **It promises** that the history is the list of the entries that were pushed,
//! in order, never above the limit of its cost; and that an entry for which room
//! was taken ahead is pushed without asking for memory.
//!
//! The entries stand in blocks of 1,024, and none is moved when the history
//! grows. Room is taken by whole blocks, so at most one block's is left over
//! beside what was asked for.
//!
//! | Room | Holds |
//! |---|---|
//! | `history` | [`History`]: the entries, their cost and its limit |
//! | `blocks` | the entries in blocks, and the room that was taken ahead |
//! | `cost` | [`cost_of`]: what a request costs, in bytes |
//!
//! ```text
//! let mut history = History::new(alloc, &limits);
//! history.reserve(1)?;
//! if cost_of(&entry.request) <= history.limit() - history.cost() {
//!     history.push(entry);
//! }
//! ```
#![tactic(auto)]

mod blocks;
mod cost;
mod history;

pub use cost::{REQUEST_COST, cost_of};
pub use history::History;
