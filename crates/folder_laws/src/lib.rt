//! The laws of exported folders: of the tree below them, and of the numbers that
//! connections give to what lies there. Here are definitions, laws and worked
//! examples; nothing runs.
//!
//! **It promises** that no request adds or removes a folder, nor changes what is at
//! another path than that of the one file that it changes; that what a connection
//! named below an exported folder keeps its number until the connection ends, and is
//! nothing to another connection; that a node of such a number is the asking
//! connection's own naming of that number; and that whatever is named was named in a
//! document that was made, below its path while it is live.
//!
//! | Room | Holds |
//! |---|---|
//! | `laws` | the laws, a function each |
//! | `examples` | worked cases, computed over the definitions; the last ones give a part by code |
//! | `specs/Folders` | the file that an entry changes, and what it leaves of all others |
//! | `specs/Namings` | what a seat has named, how that grows, and what it is of |
//! | `specs/Nodes` | the nodes that are answered below an exported folder, and what is seen at them |
//!
//! ```text
//! // seats 1 and 2 are mounts of org.ed; document 00000020 is the folder /home/p
//! LOOKUP a.txt in /home/p, by seat 1     // node 4 * 2^32 + 1
//! CREATE b in /home/p, by seat 1         // node 4 * 2^32 + 2
//! LOOKUP b in /home/p, by seat 2         // node 4 * 2^32 + 1
//! ```
//!
//! Source: XDG Desktop Portal documentation,
//! `org.freedesktop.portal.Documents`, the flag `export-directory` of AddFull;
//! `include/uapi/linux/fuse.h`. The numbers of nodes are this project's own.
#![tactic(auto)]

pub mod examples;
pub mod laws;
