//! What every crate of the portal shares: lists and texts that contracts see as
//! plain lists, names, limits, and the traits of the outside.
//!
//! **It promises** that a [`list::List`] is a list and a [`text::Text`] its bytes,
//! equal in every place that a call doesn't name; that a value of a name's type
//! keeps the name's rule; and what a source, a sink, a clock and a source of words
//! tell, with a fault exactly where their count of faults rises.
//!
//! | Room | Holds |
//! |---|---|
//! | `list`, `text`, `boxed` | owners that contracts see as what they own |
//! | `memory` | want of memory, and exact copies (`Replica`) |
//! | `names` | host paths, applications' names, identifiers of documents |
//! | `files`, `who`, `limits` | files, callers, and the limits of a portal |
//! | `outside` | sources, sinks, clocks and words: the traits, over std, and in memory |
//! | `split` | where an item of a stream ends |
//!
//! ```text
//! let path = HostPath::read(alloc, b"/home/a.txt")?;
//! match HostPath::read(alloc, b"/home//a.txt") { Err(error) => .. }
//! ```
#![tactic(auto)]

pub mod boxed;
pub mod files;
pub mod limits;
pub mod list;
pub mod memory;
pub mod names;
pub mod outside;
pub mod split;
pub mod text;
pub mod who;
