//! The call Add, over the portal's own lists, a tree of files, words to draw
//! identifiers from, and a keeper of the records that outlive a run: Add,
//! AddFull, AddNamed and AddNamedFull.
//!
//! **It promises** that a call is answered as the sequential portal answers it, in
//! every state with these lists, and leaves them as those of the state after: the
//! presented files that it takes leave the queue, also where a later rule refuses
//! it, and stay there where a device failed. The tree is asked at the paths that
//! the call looks at, up to a call that fails; a limit is met before a word is
//! drawn; the keeper is asked once where the records change, and else not at all.
//! Where the keeper fails, or there is no memory, the lists are as before, and only
//! the words that were drawn are used up.
//!
//! | Room | Holds |
//! |---|---|
//! | `calls` | [`add`] |
//! | `placing` | the files of a plan placed and kept, or all taken back |
//! | `changes` | the changes of the records, and whether there are any |
//! | `outcomes` | what a call was given, and its answer |
//! | `queue` | the presented files that a call takes |
//!
//! ```text
//! let call = add(
//!     alloc, &mut documents, &mut grants, &mut applications, &mut tree, &mut words, &mut keeper,
//!     &mut queue, &who, &request,
//! )?;
//! let entry = Entry { seat, request: Request::Add(request), given: call.given };
//! ```
//!
//! Source: XDG Desktop Portal documentation,
//! `org.freedesktop.portal.Documents`, `Add`, `AddFull`, `AddNamed` and
//! `AddNamedFull`.
#![tactic(auto)]

mod calls;
mod changes;
mod outcomes;
mod placing;
mod queue;

pub use calls::add;
