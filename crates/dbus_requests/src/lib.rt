//! What the arguments of a D-Bus call ask the portal.
//!
//! **It promises** that a call of a method asks the one request that its
//! arguments are, and none where they aren't those of the method.
//!
//! | Room | Holds |
//! |---|---|
//! | `request` | [`request::request_in`]: the request of a call |
//! | `arguments` | what an argument is, by its type |
//! | `store_request` | the calls of the permission store |
//!
//! ```text
//! let asked = request_in(alloc, &call, Method::GetMountPoint)?;   // None: it asks nothing
//! ```
//!
//! `docs/calls.md` has the calls of documents, `docs/permission-store.md` those
//! of the permission store.
//!
//! Source: XDG Desktop Portal documentation,
//! "org.freedesktop.portal.Documents" and
//! "org.freedesktop.impl.portal.PermissionStore".
#![tactic(auto)]

pub mod arguments;
pub mod request;
mod store_request;
