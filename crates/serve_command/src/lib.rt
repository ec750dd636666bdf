//! `docportal serve`: a service of the system.
//!
//! **It promises** what `serve_start` does of which end comes, over what the system gives:
//! an end that tells of the system comes only where that was counted. What the system gives
//! is outside what any contract says.
//!
//! | Room | Holds |
//! |---|---|
//! | `answer` | what the program does for its words, and the number that it ends with |
//! | `system` | what the system gives a service: its files, threads, sockets and devices |
//! | `standing` | what its posts share: when the sockets stand, and what is told |
//! | `rounds` | what the history has cost, and how a round ends |
//! | `spend` | a request that spends what the history has left |
//! | `root` | the folder of its files, opened ahead of all else |
//! | `descriptors`, `threads` | how many files may be open, and whether there are threads enough |
//! | `store` | [`store::ToldKeeper`]: a keeper whose failures are told |
//! | `line` | a word or a path as it is printed, on one line |
//!
//! ```text
//! let number = answer(rt, system, words);    // the one that the program ends with
//! ```
//!
//! Its words are read in `serve_words`. `docs/serve.md` is for one who runs it,
//! `docs/statuses.md` has its statuses.
#![tactic(auto)]

pub mod answer;
pub mod descriptors;
mod line;
mod root;
mod rounds;
mod spend;
pub mod standing;
pub mod store;
mod system;
mod threads;
