//! How deep values go. Nothing here takes memory.
//!
//! Source: D-Bus Specification, "Valid Signatures" and "Message Protocol".

ghost use Rattle.std.specs.Prelude.{◌≡◌, map, min};
ghost use Rattle.dbus_types.specs.declared.types.Value.TheVariants as V;
ghost use Rattle.dbus_types.specs.Types.{greatest};
ghost use Rattle.dbus_values.specs.Values.{nesting as nesting_in, one_around};

use dbus_types::types::Value;

/// In how many arrays, structs, dict entries and variants a value may stand.
pub const MOST_NESTED: u32 = 64;

/// In how many arrays, structs, dict entries and variants of a value the
/// innermost of those inside it stands, or 4,294,967,295 where it stands in
/// more: 0 where nothing is inside, as in an empty array.
#[cycle(nesting)]
pub fn nesting(value: &Value) -> u32
    ensures { result ≡ min (nesting_in value.now) 4_294_967_295 }
{
    // Counting stops at the greatest `u32`, so that no limit on values is asked for.
    match value {
        Value::Variant(inner) => nesting(inner.get()).saturating_add(1),
        Value::Bytes(bytes) => around_bytes(bytes.as_slice()),
        Value::Array { items, .. } => around(items.as_slice()),
        Value::Struct(members) => around(members.as_slice()),
        Value::DictEntry { key, value } => nesting(key.get())
            .max(nesting(value.get()))
            .saturating_add(1),
        _ => 0,
    }
}

/// How deep an array of these bytes goes.
fn around_bytes(bytes: &[u8]) -> u32
    ensures { result ≡ min (nesting_in (V.Bytes bytes.now)) 4_294_967_295 }
{
    if bytes.is_empty() {
        return 0;
    }
    1
}

/// How deep a container of some values goes, or 4,294,967,295.
#[cycle(nesting)]
fn around(values: &[Value]) -> u32
    ensures { result ≡ min (one_around (map nesting_in values.now)) 4_294_967_295 }
{
    if values.is_empty() {
        return 0;
    }
    deepest(values).saturating_add(1)
}

/// How deep the deepest of some values goes, or 4,294,967,295.
#[cycle(nesting)]
fn deepest(values: &[Value]) -> u32
    ensures { result ≡ min (greatest (map nesting_in values.now)) 4_294_967_295 }
{
    let mut most = 0;
    for value in values {
        most = nesting(value).max(most);
    }
    most
}
