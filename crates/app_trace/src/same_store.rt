//! Whether two values of D-Bus, or two calls of the permission store, are the
//! same.

ghost use Rattle.std.specs.Prelude.{◌≡◌, IsTrue, ◌↔◌};

use crate::same::Same;
use dbus_types::equal::same_type;
use dbus_types::types::Value;
use portal_model::records::Row;
use portal_model::store::StoreCall;

impl Same for Row {
    fn is_same(&self, other: &Row) -> bool {
        self.app.is_same(&other.app) && self.names.is_same(&other.names)
    }
}

impl Same for Value {
    fn is_same(&self, other: &Value) -> bool {
        same_value(self, other)
    }
}

/// Says whether two values are the same.
#[cycle(same_values)]
fn same_value(a: &Value, b: &Value) -> bool
    ensures { IsTrue result ↔ (a.now ≡ b.now) }
{
    match a {
        Value::Byte(x) => matches!(b, Value::Byte(y) if *x == *y),
        Value::Bool(x) => matches!(b, Value::Bool(y) if *x == *y),
        Value::I16(x) => matches!(b, Value::I16(y) if *x == *y),
        Value::U16(x) => matches!(b, Value::U16(y) if *x == *y),
        Value::I32(x) => matches!(b, Value::I32(y) if *x == *y),
        Value::U32(x) => matches!(b, Value::U32(y) if *x == *y),
        Value::I64(x) => matches!(b, Value::I64(y) if *x == *y),
        Value::U64(x) => matches!(b, Value::U64(y) if *x == *y),
        Value::Double(x) => matches!(b, Value::Double(y) if *x == *y),
        Value::Str(x) => matches!(b, Value::Str(y) if x.is_same(y)),
        Value::ObjectPath(x) => matches!(b, Value::ObjectPath(y) if x.is_same(y)),
        Value::Signature(x) => matches!(b, Value::Signature(y) if x.is_same(y)),
        Value::Handle(x) => matches!(b, Value::Handle(y) if *x == *y),
        Value::Variant(x) => match b {
            Value::Variant(y) => same_value(x.get(), y.get()),
            _ => false,
        },
        Value::Bytes(x) => matches!(b, Value::Bytes(y) if x.is_same(y)),
        Value::Array { element, items } => match b {
            Value::Array {
                element: other,
                items: others,
            } => {
                same_type(element.get(), other.get())
                    && same_values(items.as_slice(), others.as_slice())
            }
            _ => false,
        },
        Value::Struct(members) => match b {
            Value::Struct(others) => same_values(members.as_slice(), others.as_slice()),
            _ => false,
        },
        Value::DictEntry { key, value } => match b {
            Value::DictEntry { key: k, value: v } => {
                same_value(key.get(), k.get()) && same_value(value.get(), v.get())
            }
            _ => false,
        },
    }
}

#[cycle(same_values)]
fn same_values(a: &[Value], b: &[Value]) -> bool
    ensures { IsTrue result ↔ (a.now ≡ b.now) }
{
    if a.len() != b.len() {
        return false;
    }
    for index in 0..a.len() {
        if !same_value(&a[index], &b[index]) {
            return false;
        }
    }
    true
}

impl Same for StoreCall {
    fn is_same(&self, other: &StoreCall) -> bool {
        match self {
            StoreCall::Lookup { table, id } => match other {
                StoreCall::Lookup { table: t, id: i } => table.is_same(t) && id.is_same(i),
                _ => false,
            },
            StoreCall::Set {
                table,
                create,
                id,
                rows,
                datum,
            } => match other {
                StoreCall::Set {
                    table: t,
                    create: c,
                    id: i,
                    rows: r,
                    datum: d,
                } => {
                    table.is_same(t)
                        && *create == *c
                        && id.is_same(i)
                        && rows.is_same(r)
                        && datum.is_same(d)
                }
                _ => false,
            },
            StoreCall::Delete { table, id } => match other {
                StoreCall::Delete { table: t, id: i } => table.is_same(t) && id.is_same(i),
                _ => false,
            },
            StoreCall::SetValue {
                table,
                create,
                id,
                datum,
            } => match other {
                StoreCall::SetValue {
                    table: t,
                    create: c,
                    id: i,
                    datum: d,
                } => table.is_same(t) && *create == *c && id.is_same(i) && datum.is_same(d),
                _ => false,
            },
            StoreCall::SetPermission {
                table,
                create,
                id,
                app,
                names,
            } => match other {
                StoreCall::SetPermission {
                    table: t,
                    create: c,
                    id: i,
                    app: a,
                    names: n,
                } => {
                    table.is_same(t)
                        && *create == *c
                        && id.is_same(i)
                        && app.is_same(a)
                        && names.is_same(n)
                }
                _ => false,
            },
            StoreCall::DeletePermission { table, id, app } => match other {
                StoreCall::DeletePermission {
                    table: t,
                    id: i,
                    app: a,
                } => table.is_same(t) && id.is_same(i) && app.is_same(a),
                _ => false,
            },
            StoreCall::GetPermission { table, id, app } => match other {
                StoreCall::GetPermission {
                    table: t,
                    id: i,
                    app: a,
                } => table.is_same(t) && id.is_same(i) && app.is_same(a),
                _ => false,
            },
            StoreCall::List { table } => match other {
                StoreCall::List { table: t } => table.is_same(t),
                _ => false,
            },
        }
    }
}
