//! Laws of what connections cost the history: no more than what their streams ask.
//! Here are definitions and laws; nothing runs.
//!
//! **It promises**, over sources that tell their bytes, that what a connection made
//! of the history costs at most what its stream asks: Enter, the requests of its
//! whole items, and Leave. So it is however the connection ended, also where a read
//! or a write failed or there was no memory; and where the history had no room for
//! its Enter, this is within the same sum. What a worker made at all the links of
//! its listener costs at most what these links ask together, where the listener tells
//! them. And a history whose
//! entries are of so many seats costs what those of each seat cost, together.
//!
//! | Room | Holds |
//! |---|---|
//! | `laws` | the laws, a function each |
//! | `specs/Streams` | what a stream asks, and what a connection makes of it |
//! | `specs/Totals` | what several ask together |
//! | `specs/Links` | what the links of a listener ask, and what a worker makes of it |
//! | `specs/Seats` | what the entries of each seat cost |
//! | `examples` | worked cases of what streams ask, computed over the definitions |
//!
//! ```text
//! made_cost made + refused_cost c ended ≤ total      // where the stream asks this total
//! ```
#![tactic(auto)]

pub mod examples;
pub mod laws;
