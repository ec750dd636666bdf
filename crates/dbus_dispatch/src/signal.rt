//! What a host is told of a change of the permission store.
//!
//! Source: XDG Desktop Portal documentation,
//! "org.freedesktop.impl.portal.PermissionStore".

ghost use Rattle.std.specs.Prelude.{◌≡◌, [], ◌∷◌, ◌++◌, true, IfOk, IsUtf8};
ghost use Rattle.dbus_types.specs.declared.types.Value.TheVariants as V;
ghost use Rattle.portal_model.specs.Valid.{is_sound_change};
ghost use Rattle.dbus_dispatch.specs.Signals.{changed_body, signal_of};
ghost use Rattle.dbus_dispatch.specs.Writable.{IsChangeInUtf8, IsWritable};

use crate::body::{rows_value, text_value};
use dbus_types::message::OutMessage;
use dbus_types::types::Value;
use portal_base::boxed::Boxed;
use portal_base::list::List;
use portal_base::memory::{Replica, WantOfMemory};
use portal_base::text::Text;
use portal_model::reply::Change;
use std::alloc::Global;

/// The signal that tells of a change. Where the entry that it tells of is, or
/// was, as entries are, it can be written, with each serial that isn't 0.
pub fn signal_message(alloc: Global, change: &Change) -> Result<OutMessage, WantOfMemory>
    ensures tells { IfOk result (λ signal. signal ≡ signal_of change.now) }
    ensures writable { is_sound_change change.now ≡ true → IfOk result IsWritable }
{
    signal_of(alloc, change)
}

/// The same, and what is told is in UTF-8.
fn signal_of(alloc: Global, change: &Change) -> Result<OutMessage, WantOfMemory>
    ensures tells { IfOk result (λ signal. signal ≡ signal_of change.now) }
    ensures utf8 { IfOk result (λ signal. IsChangeInUtf8 change.now) }
{
    let path = Text::copied(alloc, "/org/freedesktop/impl/portal/PermissionStore")?;
    let interface = Text::copied(alloc, "org.freedesktop.impl.portal.PermissionStore")?;
    let member = Text::copied(alloc, "Changed")?;
    let body = changed_body(alloc, change)?;
    Ok(OutMessage::Signal {
        path,
        interface,
        member,
        body,
    })
}

/// The values that the signal carries.
fn changed_body(alloc: Global, change: &Change) -> Result<List<Value>, WantOfMemory>
    ensures tells { IfOk result (λ body. body ≡ changed_body change.now) }
    ensures utf8 { IfOk result (λ body. IsChangeInUtf8 change.now) }
{
    let front = named_entry(alloc, change)?;
    let inside = change.datum.replica(alloc)?.into_value();
    let rows = rows_value(alloc, change.rows.as_slice())?;
    with_content(alloc, front, inside, rows)
}

/// The entry that a change names, and whether it is gone.
fn named_entry(alloc: Global, change: &Change) -> Result<List<Value>, WantOfMemory>
    ensures tells { IfOk result (λ front. front ≡ V.Str change.now.table
        ∷ V.Str change.now.id ∷ V.Bool change.now.deleted ∷ []) }
    ensures table { IfOk result (λ front. IsUtf8 change.now.table) }
    ensures id { IfOk result (λ front. IsUtf8 change.now.id) }
{
    let table = text_value(alloc, &change.table)?;
    let id = text_value(alloc, &change.id)?;
    let mut front = List::new(alloc);
    front.push(table)?;
    front.push(id)?;
    front.push(Value::Bool(change.deleted))?;
    Ok(front)
}

/// Values with data, as a variant, and rows behind them.
fn with_content(
    alloc: Global,
    mut values: List<Value>,
    inside: Value,
    rows: Value,
) -> Result<List<Value>, WantOfMemory>
    ensures { IfOk result (λ body. body ≡ values ++ V.Variant inside ∷ rows ∷ []) }
{
    values.push(Value::Variant(Boxed::new(alloc, inside)?))?;
    values.push(rows)?;
    Ok(values)
}
