//! Laws of the connections of an application that were served: what its client can
//! learn by the replies and by the bytes. Here are definitions and laws; nothing
//! runs.
//!
//! **It promises** that the replies given on a connection of an application are those
//! of the application's own machine over its trace, to which its other connections
//! belong; and that two connections with one trace, one stream and the same refusals
//! are written the same bytes and end alike, be it at two portals that have nothing
//! else in common. Over a tree that tells its files this holds of all bytes. Over any
//! tree it holds of those of a bus; and of those of a mount but for the frames of READs
//! that show a content, and of these too where the contents are the same.
//!
//! As far as two traces are the same, so are the replies, and the bytes of each item that
//! is answered: over a tree that tells all bytes of each that is answered whole, and over
//! any but for contents, also of an answer that is cut. And over a tree that tells what an
//! application **may not read** is in no reply to it, and in no byte that its client is
//! written: of such a file the length and the moment of the last change alone are in sight.
//!
//! | Room | Holds |
//! |---|---|
//! | `laws` | the laws, a function each |
//! | `specs/OwnPlaces` | what the application's own machine replies to one of its seats |
//! | `specs/Served` | a connection that was served, as `serve_connection` says of it; its replies and bytes over a tree that tells |
//! | `specs/ServedBytes` | the same over any tree, but for the contents of READs |
//! | `specs/SoFar` | what was told up to a moment, over a tree that tells |
//! | `specs/ServedSoFar` | the same over any tree, but for the contents of READs |
//! | `specs/Blinded` | which files an application may read now, and a view without the bytes of all others |
//! | `specs/BlindedTrace` | a trace without bytes, but of what is in sight |
//! | `specs/Unread` | what an application may not read |
//! | `examples` | worked cases of what is in sight, and of a READ, computed over the definitions |
//!
//! ```text
//! replies_seen app after ≡ replies_seen app before ++ replied made
//! ```
#![tactic(auto)]

pub mod examples;
pub mod laws;
