//! The files of a tree that tells them, found by their paths.
//!
//! **It promises** that [`TreeFiles`] has its files after every call: the present ones,
//! of which each path has one at most, in the order of their paths, and those beside
//! them; and that what it finds is what these lists have: a file by its path or its
//! name, whether a path is a folder, and the files in one. Of n present files each other
//! call takes about log n steps, beside the bytes that it writes and a step for each
//! file that isn't present where it goes by a name. Only want of memory is another
//! answer, and changes nothing.
//!
//! | Room | Holds |
//! |---|---|
//! | `files` | [`TreeFiles`] |
//! | `kept` | [`KeptFile`] and [`HiddenFile`]: what is kept of a file |
//!
//! ```text
//! let mut files = TreeFiles::new(alloc);
//! files.create(alloc, &path, 5)?;
//! files.write(&name, 0, b"text", 6)?;
//! ```
#![tactic(auto)]

pub mod files;
pub mod kept;

pub use files::TreeFiles;
pub use kept::{HiddenFile, KeptFile};
