//! The answers to requests on nodes of the file view that change no file, open none and give no
//! name a number, over the lists that the portal lends and a tree of files.
//!
//! **It promises** that a request is answered as the sequential portal answers it,
//! in every valid state with these lists and over every connection of this caller;
//! that what it took from the outside is what such a request takes, with the fault
//! at its place where a call of the tree fails, which is EIO; that the tree was
//! called for nothing else; and that want of memory changes no handle. A LOOKUP, a
//! GETATTR and an ACCESS want no memory where room for a look was taken ahead, and a
//! FLUSH, a RELEASE, a RELEASEDIR, a FORGET and a BATCH_FORGET never do.
//!
//! Served are FUSE_LOOKUP, FUSE_ACCESS, FUSE_GETATTR, FUSE_READ, FUSE_FLUSH,
//! FUSE_FSYNC and FUSE_READDIR, FUSE_FORGET and FUSE_BATCH_FORGET, FUSE_RELEASE and
//! FUSE_RELEASEDIR. What goes by a handle goes by the rights that it was opened with,
//! and that of a strict document by those too that there are now.
//!
//! | Room | Holds |
//! |---|---|
//! | `entry` | [`lookup`]: a name in a folder, but for those at and below documents that are folders; [`OwnFile`]: a temporary of that name |
//! | `checked` | [`access`]: what the caller may do at a node |
//! | `described` | [`get_attr`]: the attributes of a node, or of an open file |
//! | `contents` | [`read`]: the bytes of an open file |
//! | `synced` | [`flush`] and [`fsync`]: what was written to an open file is to be kept |
//! | `listed` | [`read_dir`]: the entries of an open folder |
//! | `forgotten` | [`forget`]: what the kernel no longer remembers |
//! | `released` | [`release`] and [`release_dir`]: an open handle is closed |
//! | `handed` | handles that are handed out |
//! | `sight` | what the caller sees at a node |
//! | `names` | names of documents and of applications |
//! | `attributes` | the attributes of files and of folders |
//! | `asked` | requests for which the tree is asked once at most |
//! | `rooms` | [`LookRooms`]: room for looks that is taken ahead of requests |
//! | `served` | [`NodeCall`]: a request and who asks it; [`ByNumber`]: what its connection has by a number; [`NodeDone`]: what it was given, and its answer |
//!
//! ```text
//! let place = seen_place(&book, who, request.node, ByNumber { naming: None, temp: None });
//! let done = lookup(alloc, &mut rooms, &book, &mut tree, who, request, place, None, name)?;
//! ```
//!
//! Source: `include/uapi/linux/fuse.h`.
#![tactic(auto)]

pub mod asked;
pub mod attributes;
mod checked;
mod contents;
mod described;
pub mod entry;
mod forgotten;
pub mod handed;
mod listed;
mod names;
mod released;
pub mod rooms;
pub mod served;
pub mod sight;
mod synced;

pub use checked::access;
pub use contents::read;
pub use described::get_attr;
pub use entry::{OwnFile, lookup};
pub use forgotten::forget;
pub use listed::read_dir;
pub use released::{release, release_dir};
pub use rooms::LookRooms;
pub use served::{ByNumber, FileBook, NodeCall, NodeDone};
pub use synced::{flush, fsync};
