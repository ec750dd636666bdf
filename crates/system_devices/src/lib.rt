//! The clock of the system, and words drawn at random.
//!
//! **It promises** what every clock and every source of words does, and tells
//! nothing: which second it is, and which words come, is outside what any contract
//! says.
//!
//! | Room | Holds |
//! |---|---|
//! | `clock` | [`SystemClock`], over the runtime's clock |
//! | `words` | [`SystemWords`], over the generator of the crate `rand` |
//!
//! ```text
//! let mut clock = SystemClock::new(rt);
//! let mut words = SystemWords::open(&rt)?;
//! clock.now();                                // 1795933358
//! ```
#![tactic(auto)]

mod clock;
mod words;

pub use clock::SystemClock;
pub use words::{NoSeed, SystemWords};
