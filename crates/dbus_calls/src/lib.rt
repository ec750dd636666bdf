//! Which method a D-Bus call asks for, by the tables of objects, interfaces,
//! methods and signatures, or which refusal comes first.
//!
//! **It promises** that each call is given the one method of its object that it
//! names and whose signature it has, or the first refusal that applies: of the
//! object, of the interface, of the method, of the signature.
//!
//! | Room | Holds |
//! |---|---|
//! | `call` | [`call::called`]: the method that a call names, or its first refusal |
//! | `object`, `interface`, `method` | the tables |
//! | `signature` | whether the types of a call are those of its method |
//! | `error_name` | [`error_name::ErrorName`]: the errors and their names |
//! | `laws` | that the tables tell their names apart |
//!
//! ```text
//! match called(&message) {
//!     Ok(method) => ..,                                   // Method::LookupDocument
//!     Err(error) => error.answer_to(alloc, &message)?,    // UnknownMethod
//! }
//! ```
//!
//! `docs/calls.md` has the objects, their interfaces and calls, and the names
//! of errors.
//!
//! Source: D-Bus Specification, "Header Fields" and "Method Calls".
#![tactic(auto)]

pub mod call;
pub mod error_name;
pub mod interface;
pub mod laws;
pub mod method;
pub mod object;
mod signature;
