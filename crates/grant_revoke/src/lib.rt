//! What a GrantPermissions, a RevokePermissions and a Delete plan to do, over
//! the records of documents and rights.
//!
//! **It promises** that a plan is what the sequential portal does, over any state
//! with these records; and that a refusal is the one that it gives, so the first
//! that applies: an argument, then the document, then the right. Only want of
//! memory may come at any time. Nothing is changed.
//!
//! | Room | Holds |
//! |---|---|
//! | `plan` | [`RightsPlan`], [`RightsKind`], and the refusals |
//! | `change` | [`check`]: rights that are given or taken |
//! | `deletion` | [`check_delete`]: a document that goes |
//! | `arguments`, `lookup` | the arguments of a call, and what its caller reaches |
//!
//! ```text
//! let plan = check(alloc, &documents, &grants, &who, RightsKind::Grant, &call)?;
//! grants.add(&plan.app, plan.id, plan.rights)?;
//! ```
//!
//! Source: XDG Desktop Portal documentation,
//! `org.freedesktop.portal.Documents`, `GrantPermissions`, `RevokePermissions`
//! and `Delete`.
#![tactic(auto)]

mod arguments;
mod change;
mod deletion;
mod lookup;
mod plan;

pub use change::check;
pub use deletion::check_delete;
pub use plan::{RightsError, RightsKind, RightsPlan};
