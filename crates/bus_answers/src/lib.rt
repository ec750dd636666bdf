//! Answers to calls on a bus for which memory is taken before their requests are asked.
//!
//! A call that may change something returns that it is done, a place in its queue, or the
//! identifiers of its files. Its return is begun ahead of its request: the header is written, by
//! the types of the values that the call returns, into a buffer with room for them. Behind the
//! change only the values are put.
//!
//! **Promise**: where a return is begun there is memory for it, and its bytes are those of the
//! reply to the call.
//!
//! | Room | Holds |
//! |---|---|
//! | `kind` | [`kind_of`]: what a method returns; [`is_little`]: the answers that tell little |
//! | `begun` | [`begin`], and [`finish`] |
//! | `put` | what is put into a buffer that has room for it |
//! | `bodies` | places and identifiers behind a header |
//!
//! ```text
//! let begun = begin(alloc, &call, &settings, serial)?;
//! // .. the request is asked, and answered ..
//! if let Some(begun) = begun && is_little(begun.method, &answer) {
//!     sink.write(finish(begun, &answer)?.as_slice());
//! }
//! ```
//!
//! Source: D-Bus Specification, "Message Format" and "Marshaling (Wire Format)".
#![tactic(auto)]

pub mod begun;
mod bodies;
pub mod kind;
mod put;
