//! What the portal is to one application: what it holds, what it is told, and what
//! it is answered by that alone. Here are definitions and laws; nothing runs.
//!
//! **It promises** that the replies to an application are a function of its trace:
//! in every legal history over a tree that tells its files they are what the
//! application's own machine, which knows its view and its requests alone, replies
//! to the trace.
//!
//! | Room | Holds |
//! |---|---|
//! | `laws` | the laws, a function each: isolation, one step, each kind of request, the frame, and who has which right |
//! | `examples` | worked cases, computed over the definitions; the last ones give a part by code |
//! | `specs/View`, `specs/Effect` | what an application holds, and what others change of it |
//! | `specs/World` | its own machine, its trace, and what the machine replies to it |
//! | `specs/Add` and its like | a file for each kind of request: in the view of who asks, and what it touches in another's |
//! | `specs/RightsTold` | the rights in a document, as a history tells them |
//!
//! ```text
//! replies app s h ≡ app_run (trace app s h)      // where h is legal from s, which tells its files
//! ```
#![tactic(auto)]

pub mod examples;
pub mod laws;
