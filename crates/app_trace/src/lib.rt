//! What an application holds of a state, and its trace in a history, as plain data; and
//! whether two traces are the same.
//!
//! **It promises** that [`view_of`] gives what the definitions say that an
//! application holds of the state that a portal opens with, in the order of the
//! definitions; and that [`same_trace`] answers `Same` exactly where the opening
//! views and all items are equal, `Opening` exactly where the views differ, and
//! else the first item that differs or that one of the two lacks. It takes no
//! memory.
//!
//! | Room | Holds |
//! |---|---|
//! | `view` | [`AppView`] and its parts: what an application holds |
//! | `trace` | [`Trace`] and [`TraceItem`]: what happens to an application |
//! | `viewed` | [`view_of`], with `held` and `contents` below it |
//! | `files` | [`files_of`]: the files that a portal opens over |
//! | `matching` | [`same_trace`], with `same` and its like below it: whether two values are the same |
//! | `specs/Told` | what the plain data stand for, in the definitions of `app_world` |
//! | `specs/Matches` | what is answered of two traces |
//!
//! ```text
//! let first = view_of(alloc, &opening, &app)?;
//! match same_trace(&trace, &other) { TraceMatch::At(item) => .. }
//! ```
#![tactic(auto)]

pub mod contents;
mod files;
mod held;
mod matching;
mod same;
mod same_data;
mod same_request;
mod same_store;
pub mod trace;
pub mod view;
mod viewed;

pub use files::files_of;
pub use matching::{TraceMatch, same_trace};
pub use trace::{Trace, TraceItem};
pub use view::{
    AppView, Content, HeldDocument, Holding, NamedFile, OwnConnection, OwnHandle, PathBelow,
    PathContent,
};
pub use viewed::view_of;
