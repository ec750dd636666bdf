//! Connections that are served poll by poll, so that one that waits holds no
//! thread.
//!
//! **Promise**: each poll asks, in order, the first whole items of what was left
//! and of what it read, each once, and writes what was unsent and then what answers
//! them. It reads only once no whole item is left and nothing is unsent. A poll is
//! pending only where the desk was busy, the source or the sink said "not yet", or
//! as many bytes were read as a poll reads; and it asks to be polled again but for
//! where the source or the sink said so.
//!
//! **Rooms**: [`serve`] goes on by the steps of a poll, [`stages`] are Enter, the items
//! and Leave, and [`poll_session`] is the connection as a future; [`connection`] polls
//! one to its end and gives its parts back.
//!
//! ```text
//! let session = PollSession::new(alloc, desk, who, Kind::Mount, settings, source, sink);
//! ```
#![tactic(auto)]

pub mod connection;
pub mod poll_session;
pub mod serve;
pub mod stages;
