//! Values of D-Bus: the rules that they keep, their types and depth, and their spellings.
//!
//! **It promises** that a value is found to keep the rules, and to have a type and a depth,
//! exactly where it does; that the text of types is written as the one that is read as them;
//! and that at each offset a value of a type has one spelling.
//!
//! | Room | Holds |
//! |---|---|
//! | `keeping`, `typing`, `nesting` | whether a value keeps the rules, its type, its depth |
//! | `write` | the text of types, written |
//! | `laws` | what a spelling is, for the crates above |
//!
//! ```text
//! let good = keeps_rules(&value);
//! ```
//!
//! Source: D-Bus Specification, "Type System" and "Marshaling (Wire Format)".
#![tactic(auto)]

pub mod keeping;
pub mod laws;
pub mod nesting;
pub mod typing;
pub mod write;
