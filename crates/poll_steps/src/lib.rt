//! The steps of a poll: Enter, the next item, a piece, what is unsent, and Leave.
//!
//! **Promise**: each step is a poll's deed, or says why it isn't done. An item is asked
//! where nothing is unsent, and a desk that is busy leaves it where it is. A piece is
//! read where no whole item is left either.
//!
//! **Rooms**: [`ask`] asks Enter, items and Leave, [`read`] reads pieces, [`send`] sends
//! what answers items, and [`meet`] is how a connection meets its ending.
//!
//! ```text
//! match ask_next(alloc, course, desk) { .. }
//! ```
#![tactic(auto)]

pub mod ask;
pub mod meet;
pub mod read;
pub mod send;
