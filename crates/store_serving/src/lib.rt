//! A call of the permission store, over the portal's own tables, the signals that
//! aren't sent yet, and a keeper of the records that outlive a run.
//!
//! **It promises** that a call is answered as the sequential portal answers it, in
//! every state with these entries and signals, and leaves them as those of the
//! state after; that each open connection of the host to the bus is told a change
//! once, behind what it was not told before; that the keeper is asked once where
//! the records change, and else not at all; and that where it fails, or there is no
//! memory, tables and signals are as before. Where the keeper tells its records,
//! they then stand for the state after.
//!
//! | Room | Holds |
//! |---|---|
//! | `calls` | [`serve`] |
//! | `arguments` | why a call is refused ahead of the tables |
//! | `settling` | what the tables answered, told and kept, or taken back |
//! | `records` | the change of the records, and whether there is any |
//!
//! ```text
//! let call = serve(alloc, &mut tables, &mut outboxes, &mut keeper, &who, &call)?;
//! let entry = Entry { seat, request: Request::Store(call), given: call.given };
//! ```
//!
//! Source: XDG Desktop Portal documentation,
//! `org.freedesktop.impl.portal.PermissionStore`.
#![tactic(auto)]

mod arguments;
mod calls;
mod records;
mod settling;

pub use calls::serve;
