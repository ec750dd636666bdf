//! What an addition of files plans to do, over the records of documents and
//! rights.
//!
//! **It promises** that a plan, followed with the numbers that are drawn, comes
//! file by file to what the sequential portal does; and that a refusal is the one
//! that it gives ahead of the tree, so the first that applies: an argument, then
//! a right. Only want of memory may come at any time. Nothing is changed.
//!
//! | Room | Holds |
//! |---|---|
//! | `plan` | [`AddPlan`], [`PlanItem`], [`PlanUse`], and the refusals |
//! | `add` | [`plan_add`] |
//! | `arguments`, `flags` | the arguments of a call |
//! | `files` | what becomes of each file |
//!
//! ```text
//! let plan = plan_add(alloc, &documents, &grants, &who, &add, &presented)?;
//! for item in plan.items.as_slice() { match item.place { PlanUse::New => .., .. } }
//! ```
//!
//! Source: XDG Desktop Portal documentation,
//! `org.freedesktop.portal.Documents`, `AddFull` and `AddNamedFull`.
#![tactic(auto)]

mod add;
mod arguments;
mod files;
mod flags;
mod plan;

pub use add::plan_add;
pub use flags::{exports, persists};
pub use plan::{AddError, AddPlan, PlanItem, PlanUse};
