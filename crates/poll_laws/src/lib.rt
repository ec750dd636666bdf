//! What the polls of a connection do, and the laws of polls in a row.
//!
//! **Promise**: what two polls, or runs of polls, in a row did is what each did, one
//! behind the other; and what polls did from the first to the one that is ready is a
//! connection served.
//!
//! **Rooms**: [`course`] is how far a connection has come; [`laws`] are the laws. What
//! a poll does is told in this crate's `specs`.
//!
//! ```text
//! let due = course.turn;
//! ```
#![tactic(auto)]

pub mod course;
pub mod laws;
