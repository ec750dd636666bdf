//! Connections: from the bytes of a client to the bytes that answer it.
//!
//! A stream is cut into items: on a bus the zero byte, the lines of the
//! handshake and then messages (D-Bus Specification, "Authentication Protocol"
//! and "Message Protocol"), on a mount frames (`include/uapi/linux/fuse.h`).
//! Each item is asked of a desk and answered, in order.
//!
//! **Promise**: every whole item of what came is asked and answered once, in
//! order, and the items are the same in whatever pieces the stream comes. What a
//! host wasn't told yet is told ahead of the next answer, or at once where its
//! session is pushed, which leaves its items as they are. Each ending says what
//! was read, asked and written. Behind a request on a node there is memory for its
//! answer, but for bytes and names, and so behind a call that may change something,
//! where no signal rides ahead of its return. What an application is replied is a function of
//! its trace: over a tree that tells its files with all bytes, and over any other
//! but for the bytes that a READ shows, and their number.
//!
//! **Rooms**, from the bytes inwards: [`parts`] has parts of bytes, [`phase`] says
//! what is due and cuts the next item, [`item`] reads it, [`act`] is what it asks,
//! [`frame`] has the frames and [`speech`] the messages that answer it, [`room`] the
//! memory for an answer, which is taken ahead, [`answer`] parts what is asked from how it is
//! answered, and [`serve`] asks and writes. [`session`] is
//! one connection that is fed piece by piece, [`connection`] serves one over a source to
//! its end, and [`served`] has the answers of both. [`laws`] are the laws of streams and
//! of answers, for the crates above.
//!
//! ```ignore
//! let mut session = Session::begin(alloc, &mut desk, &who, Kind::Mount, &settings)?;
//! let fed = session.feed(alloc, &mut desk, piece, &mut sink);
//! let served = session.end(alloc, &mut desk);
//! ```
#![tactic(auto)]

pub mod act;
pub mod answer;
pub mod connection;
pub mod frame;
pub mod item;
pub mod laws;
pub mod parts;
pub mod phase;
pub mod room;
pub mod serve;
pub mod served;
pub mod session;
pub mod speech;
