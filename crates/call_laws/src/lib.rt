//! Laws of the calls that ask the portal, over the steps of the portal.
//!
//! **It promises** that what the portal answers a call can be told to its
//! caller, and so can the changes that ride ahead of it; that a call asks a
//! request on documents or on entries of the permission store; and that this
//! costs the history little for the length of the call; and that the values which a
//! call returns have the signature that the documentation of its interface gives them.
//!
//! | Room | Holds |
//! |---|---|
//! | `answers` | laws of what calls ask, and of the answers |
//! | `returns` | laws of the signatures of returns |
#![tactic(auto)]

pub mod answers;
pub mod returns;
