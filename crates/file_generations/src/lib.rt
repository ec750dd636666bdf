//! The files of a tree by their generations. Here are definitions; nothing runs.
//!
//! **It says** what it means that a file isn't present: it stands at no path and no
//! look or list shows it, and it is reached by its path and generation alone. It
//! says how such a file is made beside the present ones, and how it becomes the one
//! that is present at its path, while the former one stays and keeps its name.
//!
//! | Room | Holds |
//! |---|---|
//! | `specs/Generations` | the files, present or not, and their changes |
//!
//! Source: XDG Desktop Portal documentation, `org.freedesktop.portal.Documents`;
//! rename(2).
#![tactic(auto)]
