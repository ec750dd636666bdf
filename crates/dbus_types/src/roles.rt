//! Where a type may stand.

/// Where a type may stand.
///
/// Source: D-Bus Specification, "Type System": a single complete type; a
/// basic type; a dict entry, which "can only occur as array element type".
#[derive(Clone, Copy, Debug, PartialEq, Eq)]
pub enum Role {
    /// Anywhere; it is a basic type.
    Basic,
    /// Anywhere but as the key of a dict entry.
    Single,
    /// As the element of an array alone: a dict entry.
    Entry,
    /// Nowhere: the type breaks a rule.
    Nowhere,
}
