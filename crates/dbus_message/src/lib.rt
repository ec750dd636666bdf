//! Messages of D-Bus: cutting them from a stream, reading them in either order
//! of bytes, and writing them.
//!
//! **It promises** that bytes are read as a message exactly where they are one,
//! and otherwise refused for the first rule that they break; and that what is
//! written is the one spelling of the message, and is read as it again. Only want
//! of memory comes in between.
//!
//! | Room | Holds |
//! |---|---|
//! | `split` | [`split::split`]: whether a whole message stands at the front |
//! | `read` | [`read::read_message`]: the message that the bytes are |
//! | `write` | [`write::write_message`]: the bytes of a message |
//! | `rule` | the rules of a message, by number |
//! | `error` | [`error::MessageError`]: the rule that bytes break |
//! | `header`, `fields`, `content` | the fixed part, the fields, the body |
//! | `laws` | that fronts, readings and spellings are one |
//!
//! ```text
//! if let Split::Whole { len } = split(bytes) {
//!     let message = read_message(alloc, &bytes[..len])?;
//! }
//! ```
//!
//! Source: D-Bus Specification, "Message Format".
#![tactic(auto)]

mod content;
pub mod error;
mod fields;
mod header;
pub mod laws;
pub mod read;
pub mod rule;
pub mod split;
pub mod write;
