//! Where the bytes of a connection come from and go, of what may say "not yet".
//!
//! **It promises**, of whatever is a [`PollSource`](outside::PollSource) or a
//! [`PollSink`](outside::PollSink), that a read or a write which waits is counted,
//! has registered its task, and took nothing; and that only a fault is counted as
//! one.
//!
//! **Rooms**: [`outside`] has the two traits, [`prompt`] the ends that wait
//! themselves, and so never say it.
//!
//! ```text
//! let source = PromptSource { source: reader };
//! ```
#![tactic(auto)]

pub mod outside;
pub mod prompt;
