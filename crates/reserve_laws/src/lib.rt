//! Requests in a row at a portal for which memory was taken ahead.
//!
//! **It promises** that after `Portal::reserve` took memory ahead for so many requests, as many
//! of them in a row don't want memory: where all are of the kinds for which it can be taken, as
//! GETATTR, FLUSH, RELEASE, FORGET, and LOOKUP in a root, in the folder of all views or in a
//! document's folder, at whatever seats they come, whatever bytes they bring, and however little
//! memory there is. Where the history has room for all of them, each
//! is answered. Between them no other request comes.
//!
//! | Room | Holds |
//! |---|---|
//! | `rows` | [`ask_each`]: asks a portal one request after another |
//! | `specs/Rows` | what a row of requests is, and what it comes to |
//!
//! ```text
//! portal.reserve(alloc, count, 0)?;
//! ask_each(alloc, &mut portal, requests)?;       // no more than `count`: never `Memory`
//! ```
#![tactic(auto)]

mod rows;

pub use rows::{SeatRequest, ask_each};
