//! Values of D-Bus as bytes: reading them in either order of bytes, and
//! writing them with the lowest byte first.
//!
//! **It promises** that a value is read exactly where the bytes spell one of the
//! type, whatever follows, and otherwise refused at the first byte where the
//! spelling breaks and for that reason; and that what is written is the one
//! spelling of the value. Only want of memory comes in between.
//!
//! | Room | Holds |
//! |---|---|
//! | `read` | [`read::read_value`]: the value of a type at an offset |
//! | `header` | [`header::read_header`]: the fields of a message's header |
//! | `header_field` | the fields of a header that is written |
//! | `write` | [`write::write_value`]: the spelling of a value behind others, and of several |
//! | `error` | [`error::ReadError`] of `dbus_basic`: where and why a spelling breaks |
//! | `check` | values of which only the place after them is asked |
//! | `flat`, `signature`, `skip`, `put` | what values are spelled with, over the pieces of `dbus_basic` |
//! | `laws` | that each value has a spelling, that bytes are spelled or break, and that spellings move |
//!
//! ```text
//! write_value(&mut out, &value)?;
//! let read = read_value(alloc, Endian::Little, out.as_slice(), 0, &kind)?;
//! ```
//!
//! Source: D-Bus Specification, "Marshaling (Wire Format)".
#![tactic(auto)]

mod check;
mod flat;
pub mod header;
pub mod header_field;
pub mod laws;
mod put;
pub mod read;
mod signature;
mod skip;
pub mod write;

pub use dbus_basic::error;
