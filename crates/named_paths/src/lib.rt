//! The paths of which an application's view tells.
//!
//! **It promises** that [`knows`] says whether a document in which the application
//! has a right, or an open file of its connections, has a path, or such a document is a
//! folder above it; that [`names`] says whether an open file or a temporary of its connections is
//! this very file; and that [`OpenNumbers`], which [`follow`] keeps entry by entry, have the number of each
//! open handle, so that only open ones are looked at. Only want of memory is another
//! answer.
//!
//! | Room | Holds |
//! |---|---|
//! | `named` | [`knows`] and [`names`] |
//! | `numbers` | [`OpenNumbers`] and [`follow`] |
//! | `specs/OpenNumbers` | when numbers cover what a state has open |
//!
//! ```text
//! let known = knows(documents, rights, handles, &numbers, connections, &app, &path);
//! follow(alloc, &mut numbers, handles, connection, seat, &request)?;
//! ```
#![tactic(auto)]

pub mod named;
pub mod numbers;

pub use named::{is_app, knows, names};
pub use numbers::{OpenNumbers, follow};
