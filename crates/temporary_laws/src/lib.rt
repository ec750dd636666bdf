//! The law of temporaries over every legal history: the files that a connection makes
//! beside a document's own, to be renamed onto its name. Here are definitions and the
//! law; nothing runs.
//!
//! **It promises** that nothing that an application sees is of a temporary of another's
//! connection: neither an open file nor a temporary of its own names that file, and it
//! stands at no path of which the application is told. What changes of a file that an
//! application hasn't is not told to it.
//!
//! | Room | Holds |
//! |---|---|
//! | `laws` | the law |
//! | `specs/Temporaries` | what an application doesn't see of a temporary, and who is told of it |
//!
//! ```text
//! // org.ed makes a.txt~ beside a.txt of document 0000000a, and writes it.
//! org.view, which has a.txt open, is told nothing.
//! RENAME a.txt~ to a.txt   // org.view is told that another file stands there
//! ```
//!
//! Source: `FUSE_CREATE` and `FUSE_RENAME` of `include/uapi/linux/fuse.h`.
#![tactic(auto)]

pub mod laws;
