//! Serving posts: one worker and one seat per post, over one portal.
//!
//! **It promises** that each post is served as its worker says: the links that
//! come back to its listener are those that were given, in order, each once;
//! each is one served connection, with an ending that it allows; and all that
//! the portal's history has of the worker's seat is what these connections
//! asked, link by link. The seat has no open connection then. The history is
//! legal. The posts come back in their order, each with the end of its last
//! worker.
//!
//! A post whose worker ended since the history had no room is served on in a
//! further turn, once all workers have ended and the portal is renewed. All that
//! is promised is true of each turn. All turns together made one legal history,
//! of which the portal that comes back has the last part. One turn is enough where
//! listeners and sources tell what is to come, and the requests of all that cost at
//! most the history's limit together.
//!
//! | Room | Holds |
//! |---|---|
//! | `serve` | [`serve::serve`] |
//! | `status` | [`status::ServeStatus`]: what serving came to |
//! | `housed` | what keeps a history, in a box |
//! | `shift` | the same over any value that keeps a history, turn by turn |
//! | `worker` | workers, each in its seat at its post |
//!
//! ```text
//! match serve(alloc, &rt, posts, tree, keeper, clock, words, &settings, &OpenGate) {
//!     ServeStatus::Ended { posts, ends, portal, rounds } => ..,
//!     ServeStatus::Refused(refusal) => ..,
//!     ServeStatus::Memory => ..,
//! }
//! ```
#![tactic(auto)]

mod housed;
pub mod serve;
mod shift;
pub mod status;
mod worker;
