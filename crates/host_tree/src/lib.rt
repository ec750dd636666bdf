//! The tree of files on the host: the trait by which the portal reaches it,
//! and trees in memory.
//!
//! **It promises**, of each call, what it answers in both directions, and what the
//! files are afterwards, equal in every other place. `Failed`, `NotFile` and
//! `Memory` change nothing; a call of a tree that tells its calls fails exactly
//! where its number is among those that are to. Which method was called is seen
//! of the first calls, as many as a tree has room to note. `settle`, which
//! is no call, begins a tree anew with the files as they are.
//!
//! | Room | Holds |
//! |---|---|
//! | `tree` | the trait [`HostTree`] and its answers |
//! | `in_memory` | [`MemoryTree`], whose told calls fail, and [`QuietTree`], which never fails |
//! | `names` | the names in a folder as they are found |
//! | `held`, `files`, `hidden` | the files of a tree in memory: the present ones by path, and those beside them |
//! | `made` | the calls of a tree in memory |
//!
//! ```text
//! let mut tree = QuietTree::new(alloc);
//! tree.create(&path, 5);                      // Done: an empty file of the moment 5
//! ```
#![tactic(auto)]

mod files;
mod held;
mod hidden;
mod in_memory;
mod made;
pub mod names;
mod tree;

pub use in_memory::{MemoryTree, QuietTree};
pub use portal_base::files::ChildName;
pub use tree::{AttrAnswer, HostTree, ListAnswer, LookAnswer, TreeCall, TreeDone, TreeRead};
