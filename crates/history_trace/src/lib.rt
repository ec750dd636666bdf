//! The trace of an application in a history.
//!
//! **It promises** that [`trace_of`] gives what the definitions say that an
//! application sees of a legal history: what it holds of the state that the
//! history begins in, and, entry by entry, its own requests and what others
//! change of what it holds. Only want of memory is another answer.
//!
//! The history is replayed on a portal over devices that never fail: the clock
//! shows the moment of each entry, and the words are those that it drew. An
//! entry in which a device failed changed nothing but that its seat was told
//! what it waited for, so in its place its seat collects. Each entry is replayed
//! once.
//!
//! | Room | Holds |
//! |---|---|
//! | `traced` | [`trace_of`], entry by entry |
//! | `replay` | one entry, asked again |
//! | `beginning` | the portal that a replay begins with |
//! | `idle` | a keeper that keeps nothing and never fails |
//! | `specs/Replayed` | what a replay keeps |
//!
//! ```text
//! let trace = trace_of(alloc, &opening, &app, portal.history())?;
//! ```
#![tactic(auto)]

mod beginning;
mod idle;
mod replay;
mod traced;

pub use traced::trace_of;
