//! The start of a service, over whatever it is opened from.
//!
//! **It promises**, of `docportal serve` and of a service in memory alike: which end comes of which
//! words. An opening is told as refused only where what opens counted a refusal in this call
//! ([`openers::Openers`]); else the posts of a service were served, as `serve_posts` says. They
//! listen at the paths of the sockets, of the host and then of each application, a bus and
//! a mount of each, and are bound as these are: a path tells whose a socket is and what it
//! speaks. Of the descriptors that a service needs it says which limit is the least that
//! suffices, if its parts open no more than is counted; what they open is counted by hand.
//!
//! | Room | Holds |
//! |---|---|
//! | `obey` | [`obey::obey`]: what the words behind `serve` come to |
//! | `run` | [`run::run`]: the service that they ask for |
//! | `openers` | what a service is opened from |
//! | `prepare` | its posts and its devices, opened |
//! | `in_memory` | openers in memory |
//! | `files` | how many files may have to be open at once |
//! | `sockets` | the sockets of a service: the path of each, whose it is, and what it speaks |
//! | `settings`, `guid` | what the portal of a service is set to |
//! | `laws` | a path tells whose a socket is |
//! | `end`, `status` | how a service ended: its number, and its line |
//!
//! ```text
//! match obey(alloc, &rt, words, &mut openers, &gate) {
//!     Obeyed::Told(text) => ..,
//!     Obeyed::Ended(end) => end.number(),
//! }
//! ```
#![tactic(auto)]

pub mod end;
pub mod files;
mod guid;
pub mod in_memory;
pub mod laws;
pub mod obey;
pub mod openers;
mod prepare;
pub mod run;
pub mod settings;
pub mod sockets;
pub mod status;
