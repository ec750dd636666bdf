//! The plain data of the portal, and the sequential portal itself: what is
//! asked, what is answered, what the outside gave, and in `specs/` what one step
//! makes of them.
//!
//! **It promises** that a history is legal exactly where each of its entries is
//! lawful at its place, that every state which it comes to from a valid one is
//! valid, and that legal histories join. Whoever answers as one step answers,
//! from the end of a legal history, has all laws of histories.
//!
//! | Room | Holds |
//! |---|---|
//! | `request`, `reply`, `entry` | what is asked, what is answered, and one request with what the outside gave it |
//! | `asked` | what a seat is answered that waits for nobody |
//! | `state`, `rights`, `handle`, `place` | the items of the portal's lists, the four rights, open handles, the numbers of nodes |
//! | `naming`, `temporary` | names below exported folders, and files that are renamed later |
//! | `opening`, `records` | what a run begins with, and the records that outlive it |
//! | `store`, `datum` | the calls of the permission store, its entries and their data |
//! | `errno` | the numbers of errors on nodes |
//! | `laws`, `document_laws`, `node_laws`, `save_laws`, `store_laws` | laws of histories, of requests on documents and on nodes, of what is renamed, and of data |
//! | `examples`, `document_examples`, `file_examples`, `folder_examples`, `save_examples`, `store_examples` | cases that are worked out by hand, computed over the definitions |
//!
//! ```text
//! let asked = Request::Enter { who: Who::Host, kind: Kind::Bus };
//! let kept = asked.replica(alloc)?;
//! ```
//!
//! Source: XDG Desktop Portal documentation,
//! `org.freedesktop.portal.Documents`; `include/uapi/linux/fuse.h`.
#![tactic(auto)]

pub mod asked;
pub mod datum;
pub mod document_examples;
pub mod document_laws;
pub mod entry;
pub mod errno;
pub mod examples;
pub mod file_examples;
pub mod folder_examples;
pub mod handle;
pub mod laws;
pub mod naming;
pub mod node_laws;
pub mod opening;
pub mod place;
pub mod records;
pub mod reply;
pub mod request;
pub mod rights;
pub mod save_examples;
pub mod save_laws;
pub mod state;
pub mod store;
pub mod store_examples;
pub mod store_laws;
pub mod temporary;
