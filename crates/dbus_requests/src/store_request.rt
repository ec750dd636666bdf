//! The requests to the permission store that calls are.
//!
//! Source: XDG Desktop Portal documentation,
//! "org.freedesktop.impl.portal.PermissionStore".

ghost use Rattle.std.specs.Prelude.{◌≡◌, IfOk};
ghost use Rattle.std.specs.Option.{option_map};
ghost use Rattle.portal_model.specs.declared.request.Request.{Request as ARequest};
ghost use Rattle.dbus_requests.specs.Arguments.{lookup_call, set_call, delete_call, list_call, set_value_call, set_permission_call, delete_permission_call, get_permission_call};

use crate::arguments::{flag_of, inside_of, items_of, rows_in, text_alone, text_of, texts_in};
use dbus_types::types::Value;
use portal_base::memory::{Replica, WantOfMemory};
use portal_model::request::Request;
use portal_model::store::StoreCall;
use std::alloc::Global;

pub(crate) fn lookup_entry(
    alloc: Global,
    arguments: &[Value],
) -> Result<Option<Request>, WantOfMemory>
    ensures { IfOk result (λ request. request ≡ option_map ARequest.Store
        (lookup_call arguments.now)) }
{
    let [table, id] = arguments else {
        return Ok(None);
    };
    match (text_of(table), text_of(id)) {
        (Some(table), Some(id)) => Ok(Some(Request::Store(StoreCall::Lookup {
            table: table.replica(alloc)?,
            id: id.replica(alloc)?,
        }))),
        _ => Ok(None),
    }
}

pub(crate) fn set_entry(alloc: Global, arguments: &[Value]) -> Result<Option<Request>, WantOfMemory>
    ensures { IfOk result (λ request. request ≡ option_map ARequest.Store
        (set_call arguments.now)) }
{
    let [table, create, id, rows, datum] = arguments else {
        return Ok(None);
    };
    match (
        text_of(table),
        flag_of(create),
        text_of(id),
        items_of(rows),
        inside_of(datum),
    ) {
        (Some(table), Some(create), Some(id), Some(rows), Some(datum)) => {
            Ok(Some(Request::Store(StoreCall::Set {
                table: table.replica(alloc)?,
                create,
                id: id.replica(alloc)?,
                rows: rows_in(alloc, rows.as_slice())?,
                datum: datum.replica(alloc)?,
            })))
        }
        _ => Ok(None),
    }
}

pub(crate) fn delete_entry(
    alloc: Global,
    arguments: &[Value],
) -> Result<Option<Request>, WantOfMemory>
    ensures { IfOk result (λ request. request ≡ option_map ARequest.Store
        (delete_call arguments.now)) }
{
    let [table, id] = arguments else {
        return Ok(None);
    };
    match (text_of(table), text_of(id)) {
        (Some(table), Some(id)) => Ok(Some(Request::Store(StoreCall::Delete {
            table: table.replica(alloc)?,
            id: id.replica(alloc)?,
        }))),
        _ => Ok(None),
    }
}

pub(crate) fn set_value(alloc: Global, arguments: &[Value]) -> Result<Option<Request>, WantOfMemory>
    ensures { IfOk result (λ request. request ≡ option_map ARequest.Store
        (set_value_call arguments.now)) }
{
    let [table, create, id, datum] = arguments else {
        return Ok(None);
    };
    match (
        text_of(table),
        flag_of(create),
        text_of(id),
        inside_of(datum),
    ) {
        (Some(table), Some(create), Some(id), Some(datum)) => {
            Ok(Some(Request::Store(StoreCall::SetValue {
                table: table.replica(alloc)?,
                create,
                id: id.replica(alloc)?,
                datum: datum.replica(alloc)?,
            })))
        }
        _ => Ok(None),
    }
}

pub(crate) fn set_permission(
    alloc: Global,
    arguments: &[Value],
) -> Result<Option<Request>, WantOfMemory>
    ensures { IfOk result (λ request. request ≡ option_map ARequest.Store
        (set_permission_call arguments.now)) }
{
    let [table, create, id, app, names] = arguments else {
        return Ok(None);
    };
    match (
        text_of(table),
        flag_of(create),
        text_of(id),
        text_of(app),
        items_of(names),
    ) {
        (Some(table), Some(create), Some(id), Some(app), Some(names)) => {
            Ok(Some(Request::Store(StoreCall::SetPermission {
                table: table.replica(alloc)?,
                create,
                id: id.replica(alloc)?,
                app: app.replica(alloc)?,
                names: texts_in(alloc, names.as_slice())?,
            })))
        }
        _ => Ok(None),
    }
}

pub(crate) fn delete_permission(
    alloc: Global,
    arguments: &[Value],
) -> Result<Option<Request>, WantOfMemory>
    ensures { IfOk result (λ request. request ≡ option_map ARequest.Store
        (delete_permission_call arguments.now)) }
{
    let [table, id, app] = arguments else {
        return Ok(None);
    };
    match (text_of(table), text_of(id), text_of(app)) {
        (Some(table), Some(id), Some(app)) => {
            Ok(Some(Request::Store(StoreCall::DeletePermission {
                table: table.replica(alloc)?,
                id: id.replica(alloc)?,
                app: app.replica(alloc)?,
            })))
        }
        _ => Ok(None),
    }
}

pub(crate) fn get_permission(
    alloc: Global,
    arguments: &[Value],
) -> Result<Option<Request>, WantOfMemory>
    ensures { IfOk result (λ request. request ≡ option_map ARequest.Store
        (get_permission_call arguments.now)) }
{
    let [table, id, app] = arguments else {
        return Ok(None);
    };
    match (text_of(table), text_of(id), text_of(app)) {
        (Some(table), Some(id), Some(app)) => Ok(Some(Request::Store(StoreCall::GetPermission {
            table: table.replica(alloc)?,
            id: id.replica(alloc)?,
            app: app.replica(alloc)?,
        }))),
        _ => Ok(None),
    }
}

pub(crate) fn list_entries(
    alloc: Global,
    arguments: &[Value],
) -> Result<Option<Request>, WantOfMemory>
    ensures { IfOk result (λ request. request ≡ option_map ARequest.Store
        (list_call arguments.now)) }
{
    match text_alone(arguments) {
        Some(table) => Ok(Some(Request::Store(StoreCall::List {
            table: table.replica(alloc)?,
        }))),
        None => Ok(None),
    }
}
