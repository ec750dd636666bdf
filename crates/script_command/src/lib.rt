//! The commands that run scripts, and what the program tells of itself.
//!
//! **It promises** (`run`) that at `Done` the output is the one that the script
//! has, over one legal history, and that the replies to each application are those
//! of its own machine over its trace; that of two scripts it is how an application's
//! traces in their histories compare, and that the replies to it are the same where
//! its traces are; that of a generated load it is five lines over the history of the
//! load's script; and that each other status but want of memory has its cause.
//!
//! | Room | Holds |
//! |---|---|
//! | `answer` | what the program does for its words, and how it tells of it |
//! | `about` | what `--help` and `--version` print |
//! | `command` | the words of the program |
//! | `input` | the input, read to its end |
//! | `run` | the whole of a run |
//! | `generate` | a load of requests |
//! | `worlds`, `world`, `compared` | two scripts, compared; one of them, run; the line that tells of it |
//! | `opening`, `parting` | the state that a script opens with, as plain data; the parts of a text |
//!
//! How a run ends (`status`) and its lines, one after another, stand in `script_replay`.
//!
//! ```text
//! let number = answer(rt, words);                             // the one that the program
//! ends with let status = run(alloc, words, &mut source, &mut sink);    // Done, Usage, ..
//! ```
//!
//! `docs/scripts.md` says what it reads and prints, `docs/statuses.md` how it ends.
#![tactic(auto)]

mod about;
pub mod answer;
mod command;
mod compared;
mod generate;
mod input;
mod opening;
mod parting;
pub mod run;
mod world;
mod worlds;

pub use script_replay::status;
