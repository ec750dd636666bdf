//! The real tree of files: std's files below a root folder.
//!
//! **It promises** what every tree of files does, and tells nothing of what it
//! holds: `Failed` comes exactly where the count of faults rises, and a read gives
//! at most as many bytes as were asked for. What the system holds is outside what
//! any contract says.
//!
//! | Room | Holds |
//! |---|---|
//! | `tree` | [`RealTree`], and its calls as a tree of files |
//! | `below` | the calls on files below the root |
//! | `listing` | the names in a folder |
//! | `opener` | opens that don't hold up the one who asks |
//! | `kept`, `made` | the files that are kept open, and those that were made here |
//! | `aside`, `stored` | the folder of the files that aren't present, and which lie in it |
//! | `writing` | the file of the last write, which stays open to write until it rests |
//! | `system` | what the tree takes of the system |
//! | `descriptors` | how many files may be kept open |
//!
//! ```text
//! let mut tree = RealTree::open(rt, alloc, "/srv/files", 512)?;
//! tree.look(&path);                           // Is(File { .. }), of a file at /srv/files/PATH
//! ```
#![tactic(auto)]

mod aside;
mod below;
mod descriptors;
mod kept;
mod listing;
mod made;
mod opener;
mod stored;
mod system;
mod tree;
mod writing;

pub use descriptors::files_beside;
pub use host_folders::error::OpenError;
pub use system::{System, Waiter};
pub use tree::RealTree;
