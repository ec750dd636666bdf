//! The data of an entry of the permission store.

ghost use Rattle.std.specs.Prelude.{◌≡◌, false, map};
ghost use Rattle.std.specs.List.{list_any};
ghost use Rattle.portal_model.specs.Changed.{holds_handle as holds_handle_in};

use dbus_types::types::Value;
use portal_base::memory::{Replica, WantOfMemory};
use std::alloc::Global;
use std::marker::Model;

/// The data of an entry: a value that is no handle and holds none, since a file
/// descriptor means nothing beyond the message that brought it.
#[derive(Debug, Drop)]
pub struct Datum {
    value: Value,
}

impl Model for Datum {
    ghost use Rattle.std.specs.Prelude.{◌≡◌, false};
    ghost use Rattle.dbus_types.specs.declared.types.Value.{Value as Value'};
    ghost use Rattle.dbus_types.specs.contracts.types.Value as e;
    ghost use Rattle.std.specs.Coded.{codes};
    ghost use Rattle.portal_model.specs.Changed.{holds_handle};

    ghost Value = { Value' };

    ghost coded = { Prim.hlevel (codes, e.the_row.coded) };

    ghost view = { λ a. a.value };

    ghost invariant = { λ a. holds_handle a.value ≡ false };
}

impl Datum {
    /// A value that holds no handle.
    pub fn new(value: Value) -> Datum
        requires { holds_handle_in value ≡ false }
        ensures { result ≡ value }
    {
        Datum { value }
    }

    /// The byte 0, which a new entry has until it is given data.
    pub fn zero() -> Datum
        ensures { result ≡ V.Byte 0 }
    {
        Datum {
            value: Value::Byte(0),
        }
    }

    /// The value, which holds no handle.
    pub fn value(&self) -> &Value
        ensures value { result.now ≡ self.now }
        ensures sound { holds_handle_in self.now ≡ false }
    {
        &self.value
    }

    /// The value itself, which holds no handle.
    pub fn into_value(self) -> Value
        ensures value { result ≡ self }
        ensures sound { holds_handle_in self ≡ false }
    {
        let Datum { value } = self;
        value
    }
}

ghost use Rattle.dbus_types.specs.declared.types.Value.TheVariants as V;

impl Replica for Datum {
    fn replica(&self, alloc: Global) -> Result<Datum, WantOfMemory> {
        Ok(Datum {
            value: self.value.replica(alloc)?,
        })
    }
}

/// Whether a value of type `h` stands in a value, or it is one. An empty array
/// of `h` holds none.
#[cycle(handles)]
pub fn holds_handle(value: &Value) -> bool
    ensures { result ≡ holds_handle_in value.now }
{
    // Packed bytes hold none, nor does an array without items, whatever its type.
    match value {
        Value::Handle(_) => true,
        Value::Variant(inner) => holds_handle(inner.get()),
        Value::Array { items, .. } => one_holds_handle(items.as_slice()),
        Value::Struct(members) => one_holds_handle(members.as_slice()),
        Value::DictEntry { key, value } => holds_handle(key.get()) || holds_handle(value.get()),
        _ => false,
    }
}

/// Whether one of several values holds a handle.
#[cycle(handles)]
fn one_holds_handle(values: &[Value]) -> bool
    ensures { result ≡ list_any (λ b. b) (map holds_handle_in values.now) }
{
    for value in values {
        if holds_handle(value) {
            return true;
        }
    }
    false
}
