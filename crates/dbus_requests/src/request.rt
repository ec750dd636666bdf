//! The requests to the portal that calls are.
//!
//! Source: XDG Desktop Portal documentation,
//! "org.freedesktop.portal.Documents" and
//! "org.freedesktop.impl.portal.PermissionStore".

ghost use Rattle.std.specs.Prelude.{◌≡◌, [], ◌∷◌, IfOk};
ghost use Rattle.std.specs.Option.{option_map};
ghost use Rattle.portal_model.specs.declared.request.Request.{Request as ARequest};
ghost use Rattle.dbus_requests.specs.Arguments.{texts_in, text_alone, bytes_alone, rights_call, flags_of, adds_one, add_call, add_named_call, adds_full, add_full_call, adds_named, add_named_full_call, request_in};

use crate::arguments::{
    bytes_alone, bytes_of, flag_of, handle_of, handles_in, items_of, number_of, text_alone,
    text_of, texts_in,
};
use crate::store_request::{
    delete_entry, delete_permission, get_permission, list_entries, lookup_entry, set_entry,
    set_permission, set_value,
};
use dbus_calls::method::Method;
use dbus_types::message::Message;
use dbus_types::types::Value;
use portal_base::list::{ByteList, List};
use portal_base::memory::WantOfMemory;
use portal_base::text::Text;
use portal_model::request::{AddRequest, Request, RightsCall};
use std::alloc::Global;

/// What a call of a method asks the portal. `None` for a method that asks it
/// nothing, and where the arguments aren't those of the method.
pub fn request_in(
    alloc: Global,
    call: &Message,
    method: Method,
) -> Result<Option<Request>, WantOfMemory>
    ensures { IfOk result (λ request. request ≡ request_in call.now method) }
{
    let arguments = call.body.as_slice();
    match method {
        Method::Present => present(alloc, arguments),
        Method::Add => add(alloc, call.fds, arguments),
        Method::AddNamed => add_named(alloc, call.fds, arguments),
        Method::AddFull => add_full(alloc, call.fds, arguments),
        Method::AddNamedFull => add_named_full(alloc, call.fds, arguments),
        Method::GrantPermissions => grant(alloc, arguments),
        Method::RevokePermissions => revoke(alloc, arguments),
        Method::DeleteDocument => delete(alloc, arguments),
        Method::LookupDocument => lookup(alloc, arguments),
        Method::Info => info(alloc, arguments),
        Method::ListDocuments => list(alloc, arguments),
        Method::LookupEntry => lookup_entry(alloc, arguments),
        Method::SetEntry => set_entry(alloc, arguments),
        Method::DeleteEntry => delete_entry(alloc, arguments),
        Method::SetValue => set_value(alloc, arguments),
        Method::SetPermission => set_permission(alloc, arguments),
        Method::DeletePermission => delete_permission(alloc, arguments),
        Method::GetPermission => get_permission(alloc, arguments),
        Method::ListEntries => list_entries(alloc, arguments),
        Method::GetMountPoint | Method::Get | Method::GetAll | Method::Ping => Ok(None),
    }
}

fn present(alloc: Global, arguments: &[Value]) -> Result<Option<Request>, WantOfMemory>
    ensures { IfOk result (λ request. request
        ≡ option_map ARequest.Present (bytes_alone arguments.now)) }
{
    match bytes_alone(arguments) {
        Some(path) => Ok(Some(Request::Present {
            path: List::copied(alloc, path.as_slice())?,
        })),
        None => Ok(None),
    }
}

fn lookup(alloc: Global, arguments: &[Value]) -> Result<Option<Request>, WantOfMemory>
    ensures { IfOk result (λ request. request
        ≡ option_map ARequest.LookupDocument (bytes_alone arguments.now)) }
{
    match bytes_alone(arguments) {
        Some(path) => Ok(Some(Request::LookupDocument {
            path: List::copied(alloc, path.as_slice())?,
        })),
        None => Ok(None),
    }
}

/// The bytes of a text.
fn text_bytes(alloc: Global, text: &Text) -> Result<ByteList, WantOfMemory>
    ensures { IfOk result (λ bytes. bytes ≡ text.now) }
{
    List::copied(alloc, text.as_bytes())
}

fn delete(alloc: Global, arguments: &[Value]) -> Result<Option<Request>, WantOfMemory>
    ensures { IfOk result (λ request. request ≡ option_map ARequest.DeleteDocument
        (text_alone arguments.now)) }
{
    match text_alone(arguments) {
        Some(doc) => Ok(Some(Request::DeleteDocument {
            doc: text_bytes(alloc, doc)?,
        })),
        None => Ok(None),
    }
}

fn info(alloc: Global, arguments: &[Value]) -> Result<Option<Request>, WantOfMemory>
    ensures { IfOk result (λ request. request ≡ option_map ARequest.Info
        (text_alone arguments.now)) }
{
    match text_alone(arguments) {
        Some(doc) => Ok(Some(Request::Info {
            doc: text_bytes(alloc, doc)?,
        })),
        None => Ok(None),
    }
}

fn list(alloc: Global, arguments: &[Value]) -> Result<Option<Request>, WantOfMemory>
    ensures { IfOk result (λ request. request ≡ option_map ARequest.ListDocuments
        (text_alone arguments.now)) }
{
    match text_alone(arguments) {
        Some(app) => Ok(Some(Request::ListDocuments {
            app: text_bytes(alloc, app)?,
        })),
        None => Ok(None),
    }
}

fn grant(alloc: Global, arguments: &[Value]) -> Result<Option<Request>, WantOfMemory>
    ensures { IfOk result (λ request. request ≡ option_map ARequest.Grant
        (rights_call arguments.now)) }
{
    match rights_call(alloc, arguments)? {
        Some(call) => Ok(Some(Request::Grant(call))),
        None => Ok(None),
    }
}

fn revoke(alloc: Global, arguments: &[Value]) -> Result<Option<Request>, WantOfMemory>
    ensures { IfOk result (λ request. request ≡ option_map ARequest.Revoke
        (rights_call arguments.now)) }
{
    match rights_call(alloc, arguments)? {
        Some(call) => Ok(Some(Request::Revoke(call))),
        None => Ok(None),
    }
}

/// What a GrantPermissions or a RevokePermissions names.
fn rights_call(alloc: Global, arguments: &[Value]) -> Result<Option<RightsCall>, WantOfMemory>
    ensures { IfOk result (λ call. call ≡ rights_call arguments.now) }
{
    let [doc, app, names] = arguments else {
        return Ok(None);
    };
    match (text_of(doc), text_of(app), items_of(names)) {
        (Some(doc), Some(app), Some(names)) => Ok(Some(RightsCall {
            doc: text_bytes(alloc, doc)?,
            app: text_bytes(alloc, app)?,
            names: texts_in(alloc, names.as_slice())?,
        })),
        _ => Ok(None),
    }
}

/// The flags of AddFull that the arguments of an Add say.
fn flags_of(reuse: bool, persistent: bool) -> u32
    ensures { result ≡ flags_of reuse persistent }
{
    match (reuse, persistent) {
        (false, false) => 0,
        (true, false) => 1,
        (false, true) => 2,
        (true, true) => 3,
    }
}

/// One file for no application, with its name where it is named.
fn adds_one(
    alloc: Global,
    fds: u32,
    named: bool,
    file: u32,
    name: &[u8],
    flags: u32,
) -> Result<AddRequest, WantOfMemory>
    ensures { IfOk result (λ add. add ≡ adds_one fds named file name.now flags) }
{
    Ok(AddRequest {
        named,
        full: false,
        handles: List::copied(alloc, &[file])?,
        fds,
        name: List::copied(alloc, name)?,
        flags,
        app: List::new(alloc),
        names: List::new(alloc),
    })
}

fn add(alloc: Global, fds: u32, arguments: &[Value]) -> Result<Option<Request>, WantOfMemory>
    ensures { IfOk result (λ request. request ≡ option_map ARequest.Add
        (add_call fds arguments.now)) }
{
    let [file, reuse, persistent] = arguments else {
        return Ok(None);
    };
    match (handle_of(file), flag_of(reuse), flag_of(persistent)) {
        (Some(file), Some(reuse), Some(persistent)) => {
            let flags = flags_of(reuse, persistent);
            Ok(Some(Request::Add(adds_one(alloc, fds, false, file, &[], flags)?)))
        }
        _ => Ok(None),
    }
}

fn add_named(alloc: Global, fds: u32, arguments: &[Value]) -> Result<Option<Request>, WantOfMemory>
    ensures { IfOk result (λ request. request ≡ option_map ARequest.Add
        (add_named_call fds arguments.now)) }
{
    let [file, name, reuse, persistent] = arguments else {
        return Ok(None);
    };
    match (
        handle_of(file),
        bytes_of(name),
        flag_of(reuse),
        flag_of(persistent),
    ) {
        (Some(file), Some(name), Some(reuse), Some(persistent)) => {
            let flags = flags_of(reuse, persistent);
            let name = name.as_slice();
            Ok(Some(Request::Add(adds_one(alloc, fds, true, file, name, flags)?)))
        }
        _ => Ok(None),
    }
}

/// Files that are named by their handles.
fn adds_full(
    alloc: Global,
    fds: u32,
    files: &[Value],
    flags: u32,
    app: &Text,
    names: &[Value],
) -> Result<AddRequest, WantOfMemory>
    ensures { IfOk result (λ add. add ≡ adds_full fds files.now flags app.now names.now) }
{
    Ok(AddRequest {
        named: false,
        full: true,
        handles: handles_in(alloc, files)?,
        fds,
        name: List::new(alloc),
        flags,
        app: text_bytes(alloc, app)?,
        names: texts_in(alloc, names)?,
    })
}

fn add_full(alloc: Global, fds: u32, arguments: &[Value]) -> Result<Option<Request>, WantOfMemory>
    ensures { IfOk result (λ request. request ≡ option_map ARequest.Add
        (add_full_call fds arguments.now)) }
{
    let [files, flags, app, names] = arguments else {
        return Ok(None);
    };
    match (
        items_of(files),
        number_of(flags),
        text_of(app),
        items_of(names),
    ) {
        (Some(files), Some(flags), Some(app), Some(names)) => {
            let add = adds_full(alloc, fds, files.as_slice(), flags, app, names.as_slice())?;
            Ok(Some(Request::Add(add)))
        }
        _ => Ok(None),
    }
}

/// One file that is named in its folder.
fn adds_named(
    alloc: Global,
    fds: u32,
    file: u32,
    name: &[u8],
    flags: u32,
    app: &Text,
    names: &[Value],
) -> Result<AddRequest, WantOfMemory>
    ensures { IfOk result (λ add. add ≡ adds_named fds file name.now flags app.now names.now) }
{
    Ok(AddRequest {
        named: true,
        full: true,
        handles: List::copied(alloc, &[file])?,
        fds,
        name: List::copied(alloc, name)?,
        flags,
        app: text_bytes(alloc, app)?,
        names: texts_in(alloc, names)?,
    })
}

fn add_named_full(
    alloc: Global,
    fds: u32,
    arguments: &[Value],
) -> Result<Option<Request>, WantOfMemory>
    ensures { IfOk result (λ request. request ≡ option_map ARequest.Add
        (add_named_full_call fds arguments.now)) }
{
    let [file, name, flags, app, names] = arguments else {
        return Ok(None);
    };
    match (
        handle_of(file),
        bytes_of(name),
        number_of(flags),
        text_of(app),
        items_of(names),
    ) {
        (Some(file), Some(name), Some(flags), Some(app), Some(names)) => {
            let (name, names) = (name.as_slice(), names.as_slice());
            let add = adds_named(alloc, fds, file, name, flags, app, names)?;
            Ok(Some(Request::Add(add)))
        }
        _ => Ok(None),
    }
}
