//! Workers: each accepts the links of one listener and serves them at one desk,
//! one after another.
//!
//! **It promises** that a worker's link is one served connection, polled or not, over
//! a desk and a sink that pass every call on unchanged. What a link was answered that is
//! polled is told in bytes, and not in which pieces they were written. The links that are taken back
//! are those that were given, in order, each once; what the desk's seat asked
//! meanwhile falls into one part per link. A worker ends as its listener ends, or
//! by the first link for which the history has no room, and then the seat has no
//! open connection.
//!
//! | Room | Holds |
//! |---|---|
//! | `gate` | [`gate::Gate`]: who is told of a worker's steps; [`gate::GateDesk`] and [`gate::GateSink`] tell it |
//! | `listener` | [`listener::Listener`]: where links come from |
//! | `in_memory` | [`in_memory::MemoryListener`]: a listener of links that are known |
//! | `polled` | [`polled::serve_polled`]: one connection, poll by poll |
//! | `worker` | [`worker::Post`], [`worker::work`] |
//!
//! ```text
//! let mut post = Post { listener, who: Who::Host, kind: Kind::Mount, polled: false };
//! let end = work(alloc, rt, 1, &mut desk, &mut post, &settings, &OpenGate);
//! ```
#![tactic(auto)]

pub mod gate;
pub mod in_memory;
pub mod listener;
pub mod polled;
pub mod worker;
