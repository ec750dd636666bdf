//! Exact copies of types and values.

ghost use Rattle.std.specs.Prelude.{◌≡◌, IfOk};

use crate::types::{Value, WireType};
use portal_base::boxed::Boxed;
use portal_base::list::List;
use portal_base::memory::{Replica, WantOfMemory};
use std::alloc::Global;

#[cycle(type_copies)]
fn copy_type(alloc: Global, kind: &WireType) -> Result<WireType, WantOfMemory>
    ensures { IfOk result (λ copy. copy ≡ kind.now) }
{
    match kind {
        WireType::Byte => Ok(WireType::Byte),
        WireType::Bool => Ok(WireType::Bool),
        WireType::I16 => Ok(WireType::I16),
        WireType::U16 => Ok(WireType::U16),
        WireType::I32 => Ok(WireType::I32),
        WireType::U32 => Ok(WireType::U32),
        WireType::I64 => Ok(WireType::I64),
        WireType::U64 => Ok(WireType::U64),
        WireType::Double => Ok(WireType::Double),
        WireType::Str => Ok(WireType::Str),
        WireType::ObjectPath => Ok(WireType::ObjectPath),
        WireType::Signature => Ok(WireType::Signature),
        WireType::Handle => Ok(WireType::Handle),
        WireType::Variant => Ok(WireType::Variant),
        WireType::Array(element) => Ok(WireType::Array(element.share()?)),
        WireType::Struct(members) => {
            let members = copy_types(alloc, members.as_slice())?;
            Ok(WireType::Struct(members))
        }
        WireType::DictEntry { key, value } => {
            let key = copy_type(alloc, key.get())?;
            let value = copy_type(alloc, value.get())?;
            Ok(WireType::DictEntry {
                key: Boxed::new(alloc, key)?,
                value: Boxed::new(alloc, value)?,
            })
        }
    }
}

#[cycle(type_copies)]
fn copy_types(alloc: Global, kinds: &[WireType]) -> Result<List<WireType>, WantOfMemory>
    ensures { IfOk result (λ copy. copy ≡ kinds.now) }
{
    let mut copies = List::new(alloc);
    for kind in kinds {
        copies.push(copy_type(alloc, kind)?)?;
    }
    Ok(copies)
}

impl Replica for WireType {
    fn replica(&self, alloc: Global) -> Result<WireType, WantOfMemory> {
        copy_type(alloc, self)
    }
}

/// A value equal to this one.
#[cycle(value_copies)]
fn copy_value(alloc: Global, value: &Value) -> Result<Value, WantOfMemory>
    ensures { IfOk result (λ copy. copy ≡ value.now) }
{
    match value {
        Value::Byte(number) => Ok(Value::Byte(*number)),
        Value::Bool(truth) => Ok(Value::Bool(*truth)),
        Value::I16(number) => Ok(Value::I16(*number)),
        Value::U16(number) => Ok(Value::U16(*number)),
        Value::I32(number) => Ok(Value::I32(*number)),
        Value::U32(number) => Ok(Value::U32(*number)),
        Value::I64(number) => Ok(Value::I64(*number)),
        Value::U64(number) => Ok(Value::U64(*number)),
        Value::Double(bits) => Ok(Value::Double(*bits)),
        Value::Str(text) => Ok(Value::Str(text.replica(alloc)?)),
        Value::ObjectPath(text) => Ok(Value::ObjectPath(text.replica(alloc)?)),
        Value::Signature(text) => Ok(Value::Signature(text.replica(alloc)?)),
        Value::Handle(index) => Ok(Value::Handle(*index)),
        Value::Variant(inner) => {
            let inner = copy_value(alloc, inner.get())?;
            Ok(Value::Variant(Boxed::new(alloc, inner)?))
        }
        Value::Bytes(bytes) => Ok(Value::Bytes(List::copied(alloc, bytes.as_slice())?)),
        Value::Array { element, items } => {
            let items = copy_values(alloc, items.as_slice())?;
            Ok(Value::Array {
                element: element.share()?,
                items,
            })
        }
        Value::Struct(members) => {
            let members = copy_values(alloc, members.as_slice())?;
            Ok(Value::Struct(members))
        }
        Value::DictEntry { key, value } => {
            let key = copy_value(alloc, key.get())?;
            let value = copy_value(alloc, value.get())?;
            Ok(Value::DictEntry {
                key: Boxed::new(alloc, key)?,
                value: Boxed::new(alloc, value)?,
            })
        }
    }
}

/// Values equal to these.
#[cycle(value_copies)]
fn copy_values(alloc: Global, values: &[Value]) -> Result<List<Value>, WantOfMemory>
    ensures { IfOk result (λ copies. copies ≡ values.now) }
{
    let mut copies = List::new(alloc);
    for value in values {
        copies.push(copy_value(alloc, value)?)?;
    }
    Ok(copies)
}

impl Replica for Value {
    fn replica(&self, alloc: Global) -> Result<Value, WantOfMemory> {
        copy_value(alloc, self)
    }
}
