//! The notation of lines of vectors.
//!
//! The programs of vectors read lines from standard input. A line names a call
//! and what the call is given; its answer is printed as a line.
//!
//! **It promises** nothing by contract: what it reads and prints is shown by the
//! lines of the programs above it.
//!
//! | Room | Holds |
//! |---|---|
//! | `notation` | words of a line, and numbers, texts and bytes in them |
//! | `output` | [`Output`](output::Output): the answer, put together part by part |
//! | `values` | values of D-Bus in an answer |
//! | `error` | why a line is not understood, and why it has no other answer |
//! | `program` | what a program does: lines are read, and their answers printed |
//!
//! ```text
//! let (call, rest) = cut("split 6c01 \"a\\r\\n\"");    // "split", and two words
//! let bytes = bytes(alloc, rest)?;                      // 6c 01 61 0d 0a
//! ```
#![tactic(auto)]

pub mod error;
pub mod notation;
pub mod output;
pub mod program;
pub mod values;
