//! Links over Unix sockets.
//!
//! **It promises** what every listener does, and tells nothing of the links: a fault
//! of accepting comes exactly where the count of faults rises, and no listener of
//! these closes. Who may connect to a socket's path, and when one stands there, is
//! outside what any contract says.
//!
//! | Room | Holds |
//! |---|---|
//! | `folder` | [`SocketFolder`], in which sockets are made out of sight and then put in their places |
//! | `listener` | [`SocketListener`], whose links are connections to a socket, and [`Watch`], who is told what it meets |
//! | `bell` | [`Bell`], at which links end, and listeners give links of the program's own |
//! | `link` | [`LinkReader`] and [`LinkWriter`], the ends of a link |
//! | `client` | [`ClientReader`] and [`ClientWriter`], the ends of a client's link, which share its connection and the answers that weren't sent yet |
//! | `eagerness` | how eagerly a client is waited for |
//! | `patient` | [`Patient`], a reader that is called again where it is interrupted |
//! | `error` | why a socket can't stand somewhere |
//!
//! ```text
//! let folder = SocketFolder::take(system, "/run/user/1000/docportal")?;
//! let socket = folder.bind(system, 0, "/run/user/1000/docportal/host.bus")?;
//! let bell = Bell::new(system)?;
//! let first = SocketListener::new(&socket, &bell, &watch, false)?;
//! let second = SocketListener::new(&socket, &bell, &watch, false)?;     // for a second worker
//! folder.show(system, 0, "/run/user/1000/docportal/host.bus")?;
//! ```
#![tactic(auto)]

mod bell;
mod client;
mod eagerness;
mod error;
mod folder;
mod link;
mod listener;
mod patient;

pub use bell::Bell;
pub use client::{ClientReader, ClientWriter};
pub use error::BindError;
pub use folder::SocketFolder;
pub use link::{LinkReader, LinkWriter};
pub use listener::{SocketListener, Watch};
pub use patient::Patient;
