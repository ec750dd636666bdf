//! Whether a value may be data, and how many bytes it counts.

ghost use Rattle.std.specs.Prelude.{◌≡◌, ◌-◌, ◌^◌, min, true, false, length, MatchOption};
ghost use Rattle.dbus_types.specs.declared.types.Endian.TheVariants.{Little};
ghost use Rattle.dbus_types.specs.declared.types.Value.TheVariants as V;
ghost use Rattle.dbus_values.specs.Spelling.{spelling};
ghost use Rattle.portal_model.specs.Data.{data_bytes as bytes_of_data, is_data as may_be_data, is_spelled};

use crate::values::{signature_end, value_end};
use crate::walk::Walk;
use dbus_types::types::Value;
use dbus_values::keeping::keeps_rules;
use dbus_values::nesting::{MOST_NESTED, nesting};
use portal_model::datum::holds_handle;

/// Whether a value may be the data of an entry: it keeps the rules of values and of
/// their spelling, as a variant, and holds no handle.
pub fn is_data(datum: &Value) -> bool
    ensures { result ≡ may_be_data datum.now }
{
    spelled_bytes(datum).is_some() && !holds_handle(datum)
}

/// How many bytes the data has as a variant, but at most the greatest `u64`: none
/// where it breaks a rule.
pub fn data_bytes(datum: &Value) -> u64
    ensures { result ≡ min (bytes_of_data datum.now) (2 ^ 64 - 1) }
{
    spelled_bytes(datum).unwrap_or(0)
}

/// How many bytes a value has as a variant, but at most the greatest `u64`; `None`
/// where it breaks a rule.
fn spelled_bytes(datum: &Value) -> Option<u64>
    ensures { MatchOption result (is_spelled datum.now ≡ false)
        (λ bytes. (is_spelled datum.now ≡ true)
        × (bytes ≡ min (length (spelling Little 0 (V.Variant datum.now))) (2 ^ 64 - 1))) }
{
    if nesting(datum) >= MOST_NESTED {
        return None;
    }
    if !keeps_rules(datum) {
        return None;
    }
    let inside = signature_end(Walk { bytes: 0, phase: 0 }, datum)?;
    let end = value_end(inside, datum)?;
    Some(end.bytes)
}
