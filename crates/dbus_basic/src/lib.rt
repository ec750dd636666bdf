//! The pieces that D-Bus values are spelled with, each read at an offset of the
//! bytes: padding, booleans, numbers in either order of bytes, and runs of bytes.
//!
//! **It promises** that each piece is read exactly where it stands at the offset,
//! that the answer's place is the one behind it, and that otherwise the first
//! byte where it breaks is told, and why: padding is zero bytes, and a boolean is
//! 0 or 1.
//!
//! | Room | Holds |
//! |---|---|
//! | `fields` | [`fields::skip_padding`], [`fields::number_32`] and its like, [`fields::truth`], [`fields::taken`] |
//! | `error` | [`error::ReadError`]: where and why a spelling breaks |
//!
//! ```text
//! let start = skip_padding(bytes, 1, 4)?;                         // 4
//! let (number, next) = number_32(Endian::Little, bytes, start)?;  // next is 8
//! ```
//!
//! Source: D-Bus Specification, "Marshaling (Wire Format)".
#![tactic(auto)]

pub mod error;
pub mod fields;
