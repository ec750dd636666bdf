//! One request over the portal's lists: what serves it is what its step of the sequential
//! portal gives.
//!
//! **It promises** that each call on documents, each call of the permission store, and the
//! beginning of a connection answers as the step of the sequential portal does over these
//! lists, and leaves the lists as those of the state behind that step; that want of memory
//! leaves them as they were; and that each connection of the host to the bus, and no other,
//! gets a box for changes.
//!
//! | Room | Holds |
//! |---|---|
//! | `entries` | the entries of requests, and the replies to them |
//! | `lists` | what is looked up among connections |
//! | `seats` | the connections of seats, each with its open handles and its temporaries |
//! | `documents` | the requests on documents that neither ask the tree nor draw a word |
//! | `additions` | Add |
//! | `store` | the calls of the permission store |
//!
//! ```text
//! seats::enter(&mut connections, &mut handles, &mut namings, &mut temps, &mut outboxes,
//!     connection)?;
//! ```
//!
//! Its `specs` say what contracts see of a portal (`Story`), which devices a request may have
//! asked (`Devices`, `TreeCalls`), and what an answer is (`Answered`). `portal_core` stands on
//! it, and promises of each request what is proved here of its parts.
#![tactic(auto)]

pub mod additions;
pub mod documents;
pub mod entries;
pub mod lists;
pub mod seats;
pub mod store;
