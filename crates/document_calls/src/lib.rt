//! The calls on documents but for the Add family, over the portal's own lists
//! and a keeper of the records that outlive a run.
//!
//! **It promises** that a call is answered as the sequential portal answers it, in
//! every state with these lists, and leaves them as those of the state after; that
//! the keeper is asked once where the records change, and else not at all; that
//! where it fails the answer is `Failed` and the lists are as before; and that want
//! of memory changes nothing. Where the keeper tells its records, they then stand
//! for the state after.
//!
//! | Room | Holds |
//! |---|---|
//! | `presented` | [`present`]: a file joins the queue of its connection |
//! | `granting`, `revocation` | [`grant`] and [`revoke`]: rights are given or taken |
//! | `deletion` | [`delete_document`]: a document goes |
//! | `lookup`, `inquiry` | [`lookup_document`] and [`info`], which change nothing |
//! | `listing` | [`list_documents`], which changes nothing either |
//! | `keeping` | the one call of the keeper: [`keep`] and [`keep_change`] |
//! | `served` | [`ServedCall`]: what a call was given, and its answer |
//! | `arguments` | paths, as they come |
//!
//! ```text
//! let call = revoke(alloc, &documents, &mut grants, &mut keeper, &who, &call)?;
//! let entry = Entry { seat, request, given: call.given };
//! ```
//!
//! Source: XDG Desktop Portal documentation,
//! `org.freedesktop.portal.Documents`.
#![tactic(auto)]

mod arguments;
mod deletion;
mod granting;
mod inquiry;
mod keeping;
mod listing;
mod lookup;
mod presented;
mod revocation;
mod served;

pub use deletion::delete_document;
pub use granting::grant;
pub use inquiry::info;
pub use keeping::{fault_if, keep, keep_change};
pub use listing::list_documents;
pub use lookup::lookup_document;
pub use presented::present;
pub use revocation::revoke;
pub use served::{ServedCall, answered, done, full, outside};
