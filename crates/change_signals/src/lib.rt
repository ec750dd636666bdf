//! The signals that were not sent yet, for each open connection of a host to the
//! bus.
//!
//! **It promises** that every connection's signals are the list of its definition
//! after every call, and that a call for one connection touches no other. A change
//! that is posted stands last on all connections, or on none where there was no
//! memory; taking the last post back leaves all as they were before it, and takes
//! no memory. Where there is none to copy what a connection takes, that stays
//! unsent. Only the host hears of changes, on its connections to the bus. Whether
//! some are unsent is told exactly.
//!
//! | Room | Holds |
//! |---|---|
//! | `hearing` | [`hearing::hears_of_changes`]: who is told of changes |
//! | `outboxes` | [`Outboxes`]: the unsent signals by seat |
//! | `outbox` | those of one connection: a change is one for all, and copied when it is taken |
//!
//! ```text
//! outboxes.enter(seat)?;
//! outboxes.post(change)?;
//! let signals = outboxes.take(seat)?;
//! ```
//!
//! Source: XDG Desktop Portal documentation,
//! `org.freedesktop.impl.portal.PermissionStore`, signal `Changed`.
#![tactic(auto)]

pub mod hearing;
mod outbox;
pub mod outboxes;

pub use outboxes::Outboxes;
