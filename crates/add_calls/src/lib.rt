//! What an addition of files asks of the outside and does to the records, once
//! its plan stands: the parts of Add, AddFull, AddNamed and AddNamedFull.
//!
//! **It promises** that the tree is asked at the paths that the call looks at, in
//! their order, up to a call that fails; that a limit is tested before a word is
//! drawn; and that the plan is followed with the numbers that are drawn, one for
//! each new document, as the sequential portal does. Where there is no memory, or
//! all of it is taken back, the records are as they were; only the words that were
//! drawn are used up.
//!
//! | Room | Holds |
//! |---|---|
//! | `looks` | [`paths_shown`] and [`look_all`]: the tree is asked |
//! | `kinds` | [`are_of_kind`]: whether it showed what the call needs |
//! | `limit` | [`exceeds`]: whether a plan passes a limit |
//! | `place` | [`place_all`]: documents are made and rights given; [`take_all_back`] |
//! | `give` | rights of one application, given and taken back |
//! | `laws` | that the limits don't wait for the numbers, and what looks are given |
//!
//! ```text
//! let shown = look_all(alloc, &mut tree, paths_shown(alloc, &add, presented, items)?.as_slice())?;
//! if !exceeds(&documents, &applications, &who, &plan) {
//!     let placed = place_all(alloc, &who, &add, &plan, documents, grants, applications, words)?;
//! }
//! ```
//!
//! Source: XDG Desktop Portal documentation,
//! `org.freedesktop.portal.Documents`, `AddFull` and `AddNamedFull`.
#![tactic(auto)]

mod give;
mod kinds;
pub mod laws;
mod limit;
mod looks;
mod place;

pub use kinds::are_of_kind;
pub use limit::exceeds;
pub use looks::{Shown, look_all, paths_shown};
pub use place::{Drawn, PlacedFiles, place_all, take_all_back};
