//! The names below exported folders, to which connections give nodes.
//!
//! **It promises** that each connection's namings are the list of its definition
//! after every call, and that no call touches those of another. Naming k of a
//! connection is the k-th that it made, from 1, and what was named once keeps its
//! number; `Full` comes exactly where a connection has 65,536 and names another.
//! A refusal changes nothing; after a granted `reserve` the next `name` of that
//! naming is done. The path of a child is the joined path, or none exactly where
//! the name is `.` or `..` or the joined path is no path on the host.
//!
//! | Room | Holds |
//! |---|---|
//! | `namings` | [`Namings`]: the connections by seat |
//! | `named` | what one connection named |
//! | `child` | [`child_path`]: the path of a name in a folder |
//!
//! ```text
//! namings.enter(seat)?;
//! namings.reserve(seat, &naming)?;
//! let k = namings.name(seat, naming)?;
//! ```
//!
//! Source: `include/uapi/linux/fuse.h`, where FUSE_LOOKUP answers a number of a node
//! (`nodeid`), by which later requests name it.
#![tactic(auto)]

pub mod child;
mod named;
pub mod namings;

pub use child::child_path;
pub use named::NamingError;
pub use namings::Namings;
pub use portal_model::naming::Naming;
