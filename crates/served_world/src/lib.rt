//! What a served application is answered by: its own world over any tree of files,
//! be it one that tells contracts what it has, or the real one, which doesn't. Here
//! are definitions, laws and worked examples; nothing runs.
//!
//! **It promises** that the replies to an application are a function of its trace,
//! but for the bytes that a READ shows, and their number: in every legal history they
//! are alike to what the application's own machine replies to the trace. That machine
//! knows the application's documents, rights and connections, and of the tree what it
//! showed to the very request that is answered: at files of documents in which the
//! application has `read`, at files that it has open, and for an Add in its own folder.
//! What the tree showed to another's request stands in no trace.
//!
//! | Room | Holds |
//! |---|---|
//! | `laws` | the laws, a function each: one step, what a trace holds, where its looks lie, and a whole history |
//! | `examples` | worked cases, computed over the definitions; the last ones give a part by code |
//! | `specs/ServedOwn`, `specs/ServedItem` | an own request with its looks, and what others change |
//! | `specs/ServedWorld` | the application's own machine, its trace, and what the machine replies to it |
//! | `specs/OwnPlaces` | where the tree is asked for an own request, and where it may be |
//! | `specs/Laws` | the other statements |
//!
//! ```text
//! // where h is legal from s, over any tree, and t is served_trace app s h
//! AreAlike false (requests_in t) (served_run t) (replies app s h)
//! ```
#![tactic(auto)]

pub mod examples;
pub mod laws;
