//! The generated load: a script with as many requests as wanted, the same in
//! each run.
//!
//! Sixteen files and a document of each, four applications with a mount each,
//! and the host on a bus; then requests, each drawn from the next number of a
//! linear congruential generator.
//!
//! **It promises** that the script is the load of that many requests, line by
//! line: what is drawn of each number (`specs/Draws.antt`), the frame that asks
//! it by `fuse.h` (`specs/Frames.antt`) or the call that does by the D-Bus
//! Specification (`specs/Calls.antt`), and the lines ahead of them
//! (`specs/Lines.antt`). A load is a script, and its frames are read as what was
//! drawn.
//!
//! | Room | Holds |
//! |---|---|
//! | `load` | [`generate`](load::generate) |
//! | `ahead` | the lines ahead of the requests |
//! | `draw` | the numbers, and what is drawn of each |
//! | `frame`, `call` | the frame and the call of a request |
//! | `laws` | what is true of every load |
//!
//! ```text
//! let load = generate(alloc, 1000)?;
//! ```
#![tactic(auto)]

mod ahead;
mod call;
pub mod draw;
mod frame;
pub mod laws;
pub mod load;
