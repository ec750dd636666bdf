//! Which values may be the data of an entry of the permission store, how many
//! bytes they count, and whether the entry can be told.
//!
//! **It promises** that a value is found to be data exactly where the definitions
//! of `portal_model` say so, whatever value it is, and that its bytes are those of
//! its spelling in a variant. An entry is found to be one that can be told exactly
//! where the message of the signal that tells of it is no longer than a message may
//! be. Nothing here takes memory, and nothing is spelled.
//!
//! | Room | Holds |
//! |---|---|
//! | `data` | [`is_data`] and [`data_bytes`] |
//! | `lengths`, `ends` | [`can_be_told`] and [`record_can_be_told`]: how long the signal is that tells of an entry |
//! | `values`, `walk` | the walk over a spelling, which counts its bytes and ends where a rule is broken |
//!
//! ```text
//! if is_data(&value) {
//!     let cost = data_bytes(&value);
//! }
//! ```
//!
//! Source: D-Bus Specification, "Type System" and "Marshaling (Wire Format)". That
//! data holds no handle is this project's own rule.
#![tactic(auto)]

mod data;
mod ends;
mod lengths;
mod values;
mod walk;

pub use data::{data_bytes, is_data};
pub use lengths::{can_be_told, record_can_be_told};
