//! The answers to requests on nodes of the file view, over the lists that the
//! portal lends and a tree of files.
//!
//! **It promises** that a request is answered as the sequential portal answers it, in
//! every valid state with these lists and over every connection of this caller; that
//! what it took from the outside is what such a request takes, with the fault at its
//! place where a call of the tree fails, which is EIO; that the tree was called for
//! nothing else; that names below folders that are documents, and the temporaries in
//! documents' folders, have numbers by connection; and that want of memory changes no
//! file, no handle, no name and no temporary, and doesn't come to a GETATTR, ACCESS,
//! FLUSH, RELEASE, RELEASEDIR, FORGET or BATCH_FORGET for which room was taken ahead,
//! nor to such a LOOKUP in a root, in the folder of all views or in a document's
//! folder.
//!
//! Served are FUSE_LOOKUP, FUSE_ACCESS, FUSE_GETATTR, FUSE_READ, FUSE_FLUSH,
//! FUSE_FSYNC and FUSE_READDIR, which change nothing, FUSE_FORGET and
//! FUSE_BATCH_FORGET, FUSE_OPEN, FUSE_OPENDIR, FUSE_RELEASE and FUSE_RELEASEDIR,
//! FUSE_WRITE and FUSE_SETATTR, which change a file, FUSE_CREATE, which makes one and
//! opens it, and FUSE_RENAME and FUSE_UNLINK of temporaries: every request of the file
//! view. [`serve_node`] answers any of them.
//!
//! | Room | Holds |
//! |---|---|
//! | `serve` | [`serve_node`]: any request on a node |
//! | `folders` | [`open_dir`]: a folder is opened, with the entries that it has then |
//! | `opening` | [`open`]: a file is opened |
//! | `written` | [`write`]: bytes over those of an open file |
//! | `created` | a document's file is made, and opened |
//! | `beside` | a temporary is made in a document's folder, and opened |
//! | `renamed` | a temporary has another name, or its file becomes the document's |
//! | `unlinked` | a temporary is gone |
//! | `homes` | what is seen at the folders of temporaries |
//! | `temporaries`, `temps_listed` | the temporaries of a seat, and their entries |
//! | `children` | names in a folder that is a document, or lies below one |
//! | `numbered` | the numbers of such names |
//! | `resized` | [`set_attr`]: the length of a file |
//! | `opened` | looks at open files, by their names |
//! | `tried` | requests that may end with a call which changes or makes a file |
//!
//! Requests that change no file and open none are served in `node_looks`, and named here too.
//!
//! ```text
//! let done = serve_node(
//!     alloc, &mut rooms, &book, &mut handles, &mut namings, &mut temps, &mut tree, &mut clock,
//!     &call,
//! )?;
//! ```
//!
//! Source: `include/uapi/linux/fuse.h`.
#![tactic(auto)]

mod beside;
mod children;
mod created;
mod folders;
mod homes;
mod numbered;
mod opened;
mod opening;
mod renamed;
mod resized;
mod serve;
mod temporaries;
mod temps_listed;
mod tried;
mod unlinked;
mod written;

pub use folders::open_dir;
pub use node_looks::{
    ByNumber, FileBook, LookRooms, NodeCall, NodeDone, access, flush, forget, fsync, get_attr,
    lookup, read, read_dir, release, release_dir,
};
pub use opening::open;
pub use resized::set_attr;
pub use serve::serve_node;
pub use written::write;
