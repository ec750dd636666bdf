//! The way down from a root folder to a file, by folders that are open.
//!
//! **It promises** that a read gives at most as many bytes as were asked for. What the
//! system holds is outside what any contract says.
//!
//! | Room | Holds |
//! |---|---|
//! | `way`, `folder` | the one way down to a name: [`way::Way`], and [`folder::Folder`] |
//! | `mounts`, `own` | what is mounted, and the devices and names that no way leads to |
//! | `sight` | what stands at a name, and which file it is |
//! | `numbers` | the numbers by which files and paths are told apart |
//! | `content` | the bytes of a file that is open |
//! | `error` | why a call gave nothing, and why no tree was opened |
//!
//! ```text
//! let mut way = Way::open(system, alloc, "/srv/files")?;
//! way.to(&path)?;                             // Some(place), in a folder below /srv/files
//! ```
#![tactic(auto)]

pub mod content;
pub mod error;
pub mod folder;
mod mounts;
pub mod numbers;
pub mod own;
pub mod sight;
pub mod way;
