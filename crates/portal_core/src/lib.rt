//! The portal: it answers requests one at a time, over the tree of files and the
//! records that a keeper loads, and keeps the history of all that it answered.
//!
//! **It promises** that an answer is that of one step of the sequential portal, at
//! the end of one legal history which grows by this one entry; that just the calls
//! of its devices were made that the step reaches, and the keeper's records are
//! those that stand for the state; that each connection of the host to the bus is told
//! each change of the permission store once, in the order of the history; that a
//! refusal changes nothing but how often the tree and the keeper were asked, whether
//! the clock was read, which words come next, and what memory is taken ahead; that the
//! Leave of an open connection is never refused; that refusals are counted; and that who
//! waits for signals is told exactly. An OPEN goes by the rights of its moment, and what goes
//! by the number of a handle by the handle that was opened by that number; what an
//! application does by a handle of a strict document is done only as far as it has the
//! rights then. It starts exactly where the records are good, and else says what is wrong
//! and hands the devices back; and it opens with any state for which its devices stand.
//! What it lends is what the state after the history has. Where no connection is open
//! it begins a new history, in the state that the old one came to.
//!
//! **Memory can be taken ahead** of requests by which what is held becomes free:
//! [`portal::Portal::reserve`] takes it for so many, and [`portal::Portal::spare`] tells for
//! how many it is there. Where it is there for one, a LOOKUP in a root, in the folder of all
//! views or in a document's folder, a GETATTR, ACCESS, FLUSH, RELEASE, RELEASEDIR, FORGET or
//! BATCH_FORGET for which the history has room is answered, and takes
//! what is for one request at most; so as many of them in a row are answered. The Leave of an
//! open connection takes none of it. A refusal leaves all of it, but at a request on a node,
//! which may let go of what is for one request. After other answers nothing is promised of
//! it: the portal takes as much ahead again with each request, where there is memory.
//!
//! | Room | Holds |
//! |---|---|
//! | `portal` | [`portal::Portal`]: the state as lists, and `ask` |
//! | `portal/asked` | who waits for signals, and the count of refusals |
//! | `portal/lent` | the clock and the words, lent |
//! | `portal/renewed` | a new history |
//! | `portal/reopened` | a portal that opens with any state |
//! | `portal/reserve` | memory that is taken ahead |
//! | `portal/shown` | the history, and the state after it as the lists that hold it |
//! | `renewal` | [`renewal::RenewError`]: why no new history begins |
//! | `room` | room that is taken ahead of a request |
//! | `storied` | [`storied::Storied`] and [`storied::Renews`]: what keeps a history promises |
//! | `local_desk` | [`local_desk::LocalDesk`]: the desk of one seat, on one thread |
//!
//! What it starts with is made in `portal_start`, and single requests are served in
//! `portal_steps`.
//!
//! ```text
//! let mut portal = Portal::start(alloc, tree, keeper, clock, words, limits)?;
//! let reply = portal.ask(alloc, 1, Request::Enter { who: Who::Host, kind: Kind::Bus })?;
//! ```
#![tactic(auto)]

pub mod local_desk;
pub mod portal;
pub mod renewal;
mod room;
pub mod storied;

pub use portal_start::start;
