//! The files that wait to be renamed onto a document's name, by connection and
//! number.
//!
//! **It promises** that each connection's temporaries are the list of its definition
//! after every call, and that no call touches those of another. Numbers run from 1
//! on each connection, and none is given again on it. `Full` comes exactly where a
//! connection has 64; a refusal changes nothing; after a granted `reserve` the next
//! `add` is done. The last generation of a path rises by one with each temporary that
//! is added, and by no other call.
//!
//! | Room | Holds |
//! |---|---|
//! | `temps` | [`Temps`]: the connections by seat |
//! | `own` | the temporaries of one connection |
//! | `taken` | the last generations that were taken, by path |
//!
//! ```text
//! temps.enter(seat)?;
//! temps.reserve(seat)?;
//! let k = temps.add(seat, temp)?;
//! temps.rename(seat, k, b"b.tmp")?;
//! ```
//!
//! Source: `include/uapi/linux/fuse.h`, where FUSE_CREATE answers a number of a node, and
//! FUSE_RENAME and FUSE_RENAME2 give a file another name.
#![tactic(auto)]

mod own;
mod taken;
pub mod temps;

pub use own::TempError;
pub use portal_model::temporary::Temp;
pub use temps::Temps;
