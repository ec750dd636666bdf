//! The types and values of D-Bus, the text of its types, the names that
//! messages carry, and messages as plain data.
//!
//! **It promises** that a text is read as a signature exactly where it is one,
//! and otherwise refused at the first byte with which none goes on; that a name
//! or a path is found to be one exactly where it is; and that types are compared and
//! copied as they are.
//!
//! | Room | Holds |
//! |---|---|
//! | `types` | [`types::WireType`] and [`types::Value`], as trees |
//! | `message` | [`message::Message`] as it is read, [`message::OutMessage`] to be written |
//! | `signature`, `rules` | the text of types, read; which types there are |
//! | `names` | paths of objects, names of interfaces and members |
//! | `equal`, `roles`, `layout` | whether types are equal, where a type may stand, its alignment |
//! | `shared`, `copies` | types that several own, and copies of types and values |
//!
//! ```text
//! let types = read_signature(alloc, b"a{sv}")?;
//! ```
//!
//! Source: D-Bus Specification, "Type System" and "Message Protocol: Valid Names".
#![tactic(auto)]

pub mod copies;
pub mod equal;
pub mod errors;
pub mod layout;
pub mod message;
pub mod names;
pub mod roles;
pub mod rules;
pub mod shared;
pub mod signature;
pub mod types;
