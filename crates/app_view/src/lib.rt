//! The file view as each caller sees it: which place a node's number names, who
//! sees it, and which entries a folder has.
//!
//! **It promises** that [`place_of`] and [`node_of`] are the arithmetic of node
//! numbers, each the way back of the other; that [`resolve`] answers a place
//! exactly where the caller sees it, and takes no memory; that [`reach_at`] answers
//! exactly the rights that the subject of a view has in a document, and [`allowed_now`]
//! what an open file may do: what it was opened to do, and where its document is strict
//! that alone which there are rights for; and that [`listing`] gives the entries with
//! which FUSE_OPENDIR opens a folder, for which one look at the tree is enough, and
//! [`listing_below`] those of a folder that is a document, or lies below one. None of
//! them changes anything.
//!
//! | Room | Holds |
//! |---|---|
//! | `nodes` | [`place_of`] and [`node_of`]: numbers to places, and back |
//! | `book` | [`ViewBook`]: the lists that all is answered from; [`Subject`]: whose rights count in a view |
//! | `sight` | [`resolve`], [`seen_document`], [`seen_naming`] and [`seen_temp`]: what a caller sees |
//! | `rights_now` | [`reach_at`]: the rights by which handles of strict documents go |
//! | `opened` | [`OpenFile`]: an open file; [`allowed_now`]: what it may do now |
//! | `entries` | [`listing`] and [`listing_below`]: the entries of a folder |
//! | `order` | what is listed, in its order |
//!
//! ```text
//! let book = ViewBook { documents: &documents, grants: &grants, applications: &applications };
//! let place = resolve(&book, &who, request.node, None, None)?;
//! let names = listing(alloc, &book, &who, place, look)?;
//! ```
//!
//! Source: `include/uapi/linux/fuse.h`, where requests name nodes by numbers that
//! the file system chooses.
#![tactic(auto)]

mod book;
mod entries;
mod nodes;
mod opened;
mod order;
mod rights_now;
mod sight;

pub use book::{Subject, ViewBook, may_read, may_write, subject_of};
pub use entries::{listing, listing_below};
pub use nodes::{id_of, node_of, place_of};
pub use opened::{Allowed, OpenFile, allowed_now, open_file};
pub use rights_now::{Reach, reach_at};
pub use sight::{
    SeenBelow, SeenDocument, SeenTemp, is_folder, resolve, seen_document, seen_naming, seen_temp,
};
