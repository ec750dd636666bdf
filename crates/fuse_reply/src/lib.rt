//! Replies of the FUSE protocol, as a kernel reads them.
//!
//! The frames are those of `include/uapi/linux/fuse.h`: a `fuse_out_header` of
//! 16 bytes, and then the body of what was asked. Every number is
//! little-endian.
//!
//! **Promise**: the frame of an answer is the struct of its kind, field by field
//! (`specs/Replies.antt`), and what no field is said to hold is 0; there is none
//! exactly where the answer is quiet. It is written in one buffer of its length.
//!
//! **Rooms**: [`reply`] writes the frame of an answer, [`dirent`] the entries of a
//! folder that fit into a size, and [`field`] a struct's numbers one after
//! another.
//!
//! ```ignore
//! let answer = NodeAnswer::Error { errno: ENOENT };
//! if let Some(frame) = reply::write_reply(alloc, unique, &answer)? {
//!     sink.write(frame.as_slice());
//! }
//! ```
#![tactic(auto)]

pub mod dirent;
pub mod field;
pub mod reply;
