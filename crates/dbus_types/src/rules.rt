//! Where a type may stand, and how deep it goes. Nothing here takes memory.
//!
//! Source: D-Bus Specification, "Type System".

ghost use Rattle.std.specs.Prelude.{◌≡◌, ◌≤◌, IsTrue, ◌↔◌, map};
ghost use Rattle.dbus_types.specs.Types.{role, is_single as stands_alone, members_role, greatest, arrays_deep, brackets_deep};

use crate::roles::Role;
use crate::types::WireType;

/// Where a type may stand.
#[cycle(roles)]
pub fn role_of(kind: &WireType) -> Role
    ensures { result ≡ role kind.now }
{
    match kind {
        WireType::Variant => Role::Single,
        WireType::Array(element) => match role_of(element.get()) {
            Role::Nowhere => Role::Nowhere,
            _ => Role::Single,
        },
        WireType::Struct(members) => {
            if members.is_empty() {
                return Role::Nowhere;
            }
            role_of_members(members.as_slice())
        }
        WireType::DictEntry { key, value } => match (role_of(key.get()), role_of(value.get())) {
            (Role::Basic, Role::Basic | Role::Single) => Role::Entry,
            _ => Role::Nowhere,
        },
        _ => Role::Basic,
    }
}

#[cycle(roles)]
fn role_of_members(kinds: &[WireType]) -> Role
    ensures { result ≡ members_role (map role kinds.now) }
{
    for kind in kinds {
        match role_of(kind) {
            Role::Basic | Role::Single => {}
            _ => return Role::Nowhere,
        }
    }
    Role::Single
}

/// Says whether at most so many arrays of a type stand in each other.
#[cycle(arrays)]
pub fn arrays_within(kind: &WireType, limit: u32) -> bool
    ensures { IsTrue result ↔ (arrays_deep kind.now ≤ limit) }
{
    match kind {
        WireType::Array(element) => limit > 0 && arrays_within(element.get(), limit - 1),
        WireType::Struct(members) => all_arrays_within(members.as_slice(), limit),
        WireType::DictEntry { key, value } => {
            arrays_within(key.get(), limit) && arrays_within(value.get(), limit)
        }
        _ => true,
    }
}

#[cycle(arrays)]
fn all_arrays_within(kinds: &[WireType], limit: u32) -> bool
    ensures { IsTrue result ↔ (greatest (map arrays_deep kinds.now) ≤ limit) }
{
    for kind in kinds {
        if !arrays_within(kind, limit) {
            return false;
        }
    }
    true
}

/// Says whether at most so many parentheses and braces of a type stand in
/// each other.
#[cycle(brackets)]
pub fn brackets_within(kind: &WireType, limit: u32) -> bool
    ensures { IsTrue result ↔ (brackets_deep kind.now ≤ limit) }
{
    match kind {
        WireType::Array(element) => brackets_within(element.get(), limit),
        WireType::Struct(members) => limit > 0
            && all_brackets_within(members.as_slice(), limit - 1),
        WireType::DictEntry { key, value } => {
            limit > 0
                && brackets_within(key.get(), limit - 1)
                && brackets_within(value.get(), limit - 1)
        }
        _ => true,
    }
}

#[cycle(brackets)]
fn all_brackets_within(kinds: &[WireType], limit: u32) -> bool
    ensures { IsTrue result ↔ (greatest (map brackets_deep kinds.now) ≤ limit) }
{
    for kind in kinds {
        if !brackets_within(kind, limit) {
            return false;
        }
    }
    true
}

/// Says whether a type of this role stands alone, as a single complete type.
pub fn is_single(role: Role) -> bool
    ensures { result ≡ stands_alone role }
{
    matches!(role, Role::Basic | Role::Single)
}
