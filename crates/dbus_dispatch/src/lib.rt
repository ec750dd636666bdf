//! What a D-Bus call asks, and its answers.
//!
//! **It promises** that each message asks one thing, as the tables of objects,
//! interfaces, methods and signatures say; that a refused call gets the first
//! error in their order; and that what is answered here can be written.
//!
//! | Room | Holds |
//! |---|---|
//! | `ask` | [`ask::request_of`]: what a message asks |
//! | `object`, `interface`, `method`, `call` | the tables and what a call names, of `dbus_calls` |
//! | `reply`, `body` | [`reply::reply_message`]: what an answer of the portal is told as |
//! | `signal` | [`signal::signal_message`]: what a host is told of a change |
//! | `properties`, `refused` | answers that need no portal |
//! | `error_name` | the names of errors, of `dbus_calls` |
//! | `laws` | laws of these answers |
//!
//! ```text
//! match request_of(alloc, &message, &settings)? {
//!     Ask::Local(answer) => ..,               // Ping, Properties, an error
//!     Ask::Ignore => ..,                      // no call
//!     Ask::Portal(request) => ..,             // a call that asks the portal
//! }
//! ```
//!
//! `docs/calls.md` has the objects, their interfaces and calls, and the names
//! of errors; `docs/permission-store.md` has the calls of the permission store.
#![tactic(auto)]

pub mod ask;
pub mod body;
pub mod laws;
pub mod properties;
pub mod refused;
pub mod reply;
pub mod signal;

pub use dbus_calls::{call, error_name, interface, method, object};
