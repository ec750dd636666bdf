//! The rights that an application may have in a document, and their names.
//!
//! **It promises** that [`Rights`] is a set of `read`, `write`,
//! `grant-permissions` and `delete`; that [`read_names`] gives the set of the
//! names, or the place of the first unknown one; and that names come out in one
//! order, whatever way the set was made.
//!
//! | Room | Holds |
//! |---|---|
//! | `rights` | the set, and what is made of two |
//! | `names` | texts to rights, and back |
//!
//! ```text
//! let both = Rights::READ.union(Rights::WRITE);
//! let left = both.minus(Rights::WRITE);       // as Rights::READ
//! ```
//!
//! Source: XDG Desktop Portal documentation,
//! `org.freedesktop.portal.Documents`, `GrantPermissions`.
#![tactic(auto)]

mod names;
mod rights;

pub use names::{UnknownPermission, read_names};
pub use rights::Rights;
