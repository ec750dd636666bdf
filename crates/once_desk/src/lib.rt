//! A desk that waits, and that may also be asked once.
//!
//! **It promises**, of whatever is a [`OnceDesk`], that a request which is asked once
//! is answered as at a desk that waits for nobody; and that the desk is the same, in
//! whichever way it is asked.
//!
//! ```text
//! match desk.ask_once(alloc, Request::Leave) { .. }
//! ```
#![tactic(auto)]

mod once;

pub use once::OnceDesk;
