//! What a single entry of a history is in the trace of an application.
//!
//! **It promises** that [`foresee`] finds the items that the definitions say that an
//! entry tells the application, in every state that has the lists that are lent, and
//! how the entry changes the files; and that [`come`] appends the items and lets the
//! files be those behind the entry, by whether it was done. Only want of memory is
//! another answer.
//!
//! | Room | Holds |
//! |---|---|
//! | `coming` | [`foresee`] and [`come`], and [`Awaited`]: what comes of an entry |
//! | `lent` | [`Lent`]: the lists that a portal lends ahead of an entry |
//! | `own`, `touches`, `adds` | the items of own entries, of others' calls on rights, and of additions |
//! | `nodes`, `changes` | how requests on nodes change the files |
//! | `specs/Awaited` | what is promised of an entry |
//!
//! ```text
//! let awaited = foresee(alloc, &lent, &app, &entry)?;
//! come(alloc, &mut items, &mut files, awaited, is_done(&reply.answer))?;
//! ```
#![tactic(auto)]

mod adds;
pub mod changes;
pub mod coming;
pub mod lent;
mod nodes;
mod own;
mod touches;

pub use changes::FileUpdate;
pub use coming::{Awaited, News, come, foresee, is_done};
pub use lent::Lent;
