//! The lines of scripts as plain data, and the reader of one line.
//!
//! A line has one of ten forms: `file PATH HEX`, `doc ID FLAGS PATH GRANTS`,
//! `entry TABLE ID HEX ROWS`, `fail tree K`, `fail keeper K`, `word HEX`,
//! `now N`, `open N KIND WHO`, `data N HEX` and `close N`.
//!
//! **It promises** that the words of a line are read as the one line that they are, or as
//! none where they are none. Only want of memory is another answer.
//!
//! | Room | Holds |
//! |---|---|
//! | `script` | the lines of a script, as plain data |
//! | `line` | the reader of one line |
//! | `words`, `grants`, `rows` | its words, the rights of a document, the rows of an entry |
//!
//! ```text
//! let line = read_line(alloc, b"now 5")?;
//! ```
//!
//! `docs/scripts.md` says what each line means.
#![tactic(auto)]

pub mod grants;
pub mod line;
pub mod rows;
pub mod script;
pub mod words;
