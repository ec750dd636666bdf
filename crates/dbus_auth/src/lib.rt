//! The server's side of the D-Bus handshake (D-Bus Specification,
//! "Authentication Protocol"), with the mechanism `EXTERNAL` alone.
//!
//! A connection gives its lines to [`Auth`] one by one, each without its CR
//! LF, and is told for each what to write, or that messages follow.
//! `docs/handshake.md` has the whole table.
//!
//! **Promise**: each line is answered, and the state goes on, exactly as the
//! table says (`specs/Handshake.antt`), whatever came before; want of memory
//! leaves the state as it was.
//!
//! **Rooms**: `command` tells which command a line is, `handshake` has the states
//! and one step, `reply` the lines that are said.
//!
//! ```ignore
//! let mut auth = Auth::new(&guid);
//! match auth.step(alloc, line)? {
//!     AuthAnswer::Say(reply) => sink.write(reply.as_slice()),
//!     AuthAnswer::Begin => messages_follow(),
//!     AuthAnswer::Early => end_connection(),
//! }
//! ```
#![tactic(auto)]

mod command;
mod handshake;
mod reply;

pub use crate::handshake::{Auth, AuthAnswer, AuthState, LONGEST_LINE, longest_line_is_told};
