//! A script, run line by line over a portal with devices in memory.
//!
//! **It promises** that at `Done` the output is the one that the script has, over one
//! legal history; that a line is run exactly as the definitions say; and that each other
//! status but want of memory has its cause.
//!
//! | Room | Holds |
//! |---|---|
//! | `replay`, `status` | a script's lines, one after another, and how that ends |
//! | `line`, `error` | one line, and why it isn't run |
//! | `seats`, `connections` | the sessions of a script, each at its seat of the portal |
//! | `start`, `counted` | the portal that a script opens, over devices in memory, and what became of its requests |
//! | `settings`, `output` | what a run is set to; the lines of the output |
//!
//! `docs/scripts.md` says what scripts are and what is printed, `docs/statuses.md` how a run
//! ends.
#![tactic(auto)]

pub mod connections;
pub mod counted;
pub mod error;
pub mod line;
pub mod output;
pub mod replay;
pub mod seats;
pub mod settings;
pub mod start;
pub mod status;
