//! Laws of what the outside gave to the entries of a history.
//!
//! **It promises** that over a tree that tells its files a request has one lawful
//! entry in which no device failed, by the moment of now and the words that were
//! to come; and that an entry in which a device failed changes nothing, but that
//! its seat is told what it waited for, as by a Collect. So a history can be gone
//! through again from its requests, the moments and the words alone.
//!
//! | Room | Holds |
//! |---|---|
//! | `laws` | the laws, a function each |
//! | `specs/OneGiven` | that there is at most one lawful entry without a fault |
//! | `specs/Faulted` | what an entry with a fault does, and a history with a Collect in its place |
//!
//! ```text
//! run s h ≡ run s (map without_fault h)      // where h is legal from s
//! ```
#![tactic(auto)]

pub mod laws;
