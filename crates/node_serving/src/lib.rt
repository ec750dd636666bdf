//! Requests of seats on nodes of the file view, over the lists that the portal
//! lends, the open handles, a tree of files, a clock, and the counts of what the
//! kernel was told of.
//!
//! **It promises** that a request of a seat is answered by one step of the
//! sequential portal, in every valid state with these lists, these open handles and
//! the files of the tree, and that these are then those of the state behind it; that
//! what it took from the outside is lawful there, and just those calls of the tree
//! were made; that EIO comes only where one of them failed; and that a node is
//! counted where its entry was answered. Want of memory leaves the lists and the
//! open handles as they were, and doesn't come to a request of a kind for which all
//! room can be taken ahead, and was.
//!
//! | Room | Holds |
//! |---|---|
//! | `seat` | [`serve`]: a request of a seat |
//! | `numbered` | the last number that a connection was given |
//! | `counted` | the nodes that the kernel was told of |
//!
//! ```text
//! let done = serve(alloc, &mut rooms, &book, &mut connections, &mut handles, &mut namings,
//!     &mut temps, &mut counts, &mut tree, &mut clock, seat, &request)?;
//! ```
//!
//! Source: `include/uapi/linux/fuse.h`.
#![tactic(auto)]

mod counted;
mod numbered;
mod seat;

pub use seat::serve;
