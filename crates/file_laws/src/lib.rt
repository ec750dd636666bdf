//! The laws of open files over every legal history, and of what the entries of
//! others tell an application. Here are definitions, laws and worked examples;
//! nothing runs.
//!
//! **It promises** that an application opens no file by a right that was taken from
//! it and not given again, and that whatever goes by the number of a handle goes by
//! the handle that was opened by that number, whatever was revoked or deleted since,
//! until its own connection releases it or ends; that what goes by a handle of a
//! strict document follows the rights in it; and that of what others ask an
//! application is told the files that change at paths which its view names, or at
//! and below its folders, and its rights in documents, and nothing else. What is
//! done was allowed.
//!
//! | Room | Holds |
//! |---|---|
//! | `laws` | the laws, a function each |
//! | `examples` | worked cases, computed over the definitions; the last ones give a part by code |
//! | `specs/Revocations` | an OPEN that is done, and a right that is taken and given again |
//! | `specs/KeptHandles` | the entries that open, use and end a handle |
//! | `specs/StrictHandles` | what goes by a handle of a strict document, and the rights at that moment |
//! | `specs/Touches` | the file that a request changes, and what is told of it and of rights |
//! | `specs/OnlyAllowed` | that what is done was allowed |
//!
//! ```text
//! // org.ed opens document 0000000a to read and write: handle 1. The host revokes both rights.
//! READ of handle 1     // gives the bytes
//! OPEN of the file     // ENOENT, until read is granted again
//! ```
//!
//! Source: XDG Desktop Portal documentation,
//! `org.freedesktop.portal.Documents`; `include/uapi/linux/fuse.h`.
#![tactic(auto)]

pub mod examples;
pub mod laws;
