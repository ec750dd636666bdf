//! The words of `docportal serve`.
//!
//! **It promises** that what words ask for is what `clap` finds in them: the paths of the
//! root, the store and the sockets, none of them empty; 1 to 8 posts a listener, and a
//! history of at most 4,294,967,296 bytes, in decimal digits without leading zeros; and at
//! most 64 applications, each by a name of one and none twice. Words are faulty only where
//! `clap` doesn't take them, or where no service is asked for so.
//!
//! | Room | Holds |
//! |---|---|
//! | `words` | [`words::read_words`]: the words, read |
//! | `form` | what `clap` is told of them |
//!
//! ```text
//! match read_words(alloc, words)? { ServeAsk::Serve(words) => .., ServeAsk::Tell(text) => .. }
//! ```
//!
//! `docs/serve.md` says what each word means.
#![tactic(auto)]

mod form;
pub mod words;
