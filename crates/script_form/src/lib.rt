//! Scripts: the lines that a run is described by, read from a text and written
//! as one.
//!
//! A line has one of ten forms: `file PATH HEX`, `doc ID FLAGS PATH GRANTS`,
//! `entry TABLE ID HEX ROWS`, `fail tree K`, `fail keeper K`, `word HEX`,
//! `now N`, `open N KIND WHO`, `data N HEX` and `close N`.
//!
//! **It promises** that a text is read as the one script that it is, or that its
//! first line is named that is none of a script; that what is written of a script
//! is read as that script again; that the state that a script opens with is valid,
//! and that no record of it is bad, by the definition by which kept records are.
//!
//! | Room | Holds |
//! |---|---|
//! | `reader`, `error` | [`read_script`](reader::read_script), and why no script was read |
//! | `writer`, `joined` | [`write_script`](writer::write_script) |
//! | `preceding`, `paths` | the lines so far, and what they say of the next one |
//! | `opening` | the state that a script opens with |
//! | `outside` | the words of a script, and the calls that fail in it |
//! | `devices` | the tree, the keeper and the words of its run |
//! | `laws` | what is true of every script |
//!
//! The lines themselves, and the reader of one line, stand in `script_lines`.
//!
//! ```text
//! let script = read_script(alloc, b"now 5\nclose 1\n");    // Err(AtLine(2)): nothing is open
//! let text = write_script(alloc, &script)?;
//! ```
#![tactic(auto)]

pub mod devices;
pub mod error;
mod joined;
pub mod laws;
pub mod opening;
pub mod outside;
mod paths;
mod preceding;
pub mod reader;
pub mod writer;

pub use script_lines::script;
pub use script_lines::words::read_number;
