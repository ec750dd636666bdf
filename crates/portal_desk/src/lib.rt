//! Where a seat asks the portal: the one interface between what speaks to a
//! client and what keeps the history.
//!
//! **It promises**, of whatever is a [`Desk`], that each reply is that of one
//! step of the sequential portal, in a legal history that the seat sees grow by
//! this request alone of its own; and that a refusal is counted and leaves the
//! seat's own entries. A [`TryDesk`] promises the same, and waits for nobody: it
//! may answer that it is busy, which is counted, and hands the request back.
//!
//! ```text
//! let reply = desk.ask(alloc, Request::Enter { who: Who::Host, kind: Kind::Bus })?;
//! ```
//!
//! Source: XDG Desktop Portal documentation,
//! `org.freedesktop.portal.Documents`; `include/uapi/linux/fuse.h`.
#![tactic(auto)]

mod desk;
mod try_desk;

pub use desk::Desk;
pub use try_desk::TryDesk;
