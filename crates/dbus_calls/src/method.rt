//! The methods of the interfaces.

ghost use Rattle.std.specs.Prelude.{◌≡◌, ◌++◌};
ghost use Rattle.std.specs.List.{flat_map};
ghost use Rattle.dbus_calls.specs.Tables.{interfaces_of, methods_of, row};
ghost use Rattle.dbus_calls.specs.Calls.{method_among};

use crate::interface::Interface;
use crate::object::Object;

/// A method of one of the interfaces.
#[derive(Clone, Copy, PartialEq, Eq)]
pub enum Method {
    /// Documents: where the file view is mounted.
    GetMountPoint,
    /// Documents: adds one presented file.
    Add,
    /// Documents: adds one file by the folder that it is to stand in.
    AddNamed,
    /// Documents: adds presented files, with permissions for an application.
    AddFull,
    /// Documents: the same of one file by the folder that it is to stand in.
    AddNamedFull,
    /// Documents: gives an application permissions.
    GrantPermissions,
    /// Documents: takes permissions from an application.
    RevokePermissions,
    /// Documents: `Delete` removes a document.
    DeleteDocument,
    /// Documents: `Lookup` finds the document of a path.
    LookupDocument,
    /// Documents: a document's path and permissions.
    Info,
    /// Documents: `List` gives the documents of an application.
    ListDocuments,
    /// PermissionStore: `Lookup` gives an entry.
    LookupEntry,
    /// PermissionStore: `Set` replaces an entry.
    SetEntry,
    /// PermissionStore: `Delete` removes an entry.
    DeleteEntry,
    /// PermissionStore: replaces an entry's data.
    SetValue,
    /// PermissionStore: replaces one application's permissions.
    SetPermission,
    /// PermissionStore: removes one application's permissions.
    DeletePermission,
    /// PermissionStore: one application's permissions.
    GetPermission,
    /// PermissionStore: `List` gives the identifiers in a table.
    ListEntries,
    /// Files1: puts a file to the end of the connection's queue.
    Present,
    /// Properties: one property.
    Get,
    /// Properties: all properties.
    GetAll,
    /// Peer: an empty return.
    Ping,
}

impl Method {
    /// The signature of what the method takes.
    pub fn takes(self) -> &'static [u8]
        ensures { result.now ≡ (row self).takes }
    {
        match self {
            Method::GetMountPoint | Method::Ping => b"",
            Method::Add => b"hbb",
            Method::AddNamed => b"haybb",
            Method::AddFull => b"ahusas",
            Method::AddNamedFull => b"hayusas",
            Method::GrantPermissions | Method::RevokePermissions => b"ssas",
            Method::DeleteDocument
            | Method::Info
            | Method::ListDocuments
            | Method::ListEntries
            | Method::GetAll => b"s",
            Method::LookupDocument | Method::Present => b"ay",
            Method::LookupEntry | Method::DeleteEntry | Method::Get => b"ss",
            Method::SetEntry => b"sbsa{sas}v",
            Method::SetValue => b"sbsv",
            Method::SetPermission => b"sbssas",
            Method::DeletePermission | Method::GetPermission => b"sss",
        }
    }
}

/// The method of this name that an interface has.
pub fn method_named(interface: Interface, member: &[u8]) -> Option<Method>
    ensures { result ≡ method_among (methods_of interface) member.now }
{
    match interface {
        Interface::Documents => documents_method(member),
        Interface::PermissionStore => store_method(member),
        Interface::Files => files_method(member),
        Interface::Properties => properties_method(member),
        Interface::Peer => peer_method(member),
    }
}

/// The method of this name that one of an object's interfaces has.
pub fn method_at(object: Object, member: &[u8]) -> Option<Method>
    ensures { result ≡ method_among (flat_map methods_of (interfaces_of object)) member.now }
{
    match object {
        Object::Documents => documents_method(member).or(shared_method(member)),
        Object::PermissionStore => store_method(member).or(shared_method(member)),
        Object::Files => files_method(member).or(shared_method(member)),
        Object::Nothing => peer_method(member),
    }
}

fn documents_method(member: &[u8]) -> Option<Method>
    ensures { result ≡ method_among (methods_of Interface.Documents) member.now }
{
    if member == b"GetMountPoint".as_slice() {
        Some(Method::GetMountPoint)
    } else if member == b"Add".as_slice() {
        Some(Method::Add)
    } else if member == b"AddNamed".as_slice() {
        Some(Method::AddNamed)
    } else if member == b"AddFull".as_slice() {
        Some(Method::AddFull)
    } else if member == b"AddNamedFull".as_slice() {
        Some(Method::AddNamedFull)
    } else if member == b"GrantPermissions".as_slice() {
        Some(Method::GrantPermissions)
    } else if member == b"RevokePermissions".as_slice() {
        Some(Method::RevokePermissions)
    } else if member == b"Delete".as_slice() {
        Some(Method::DeleteDocument)
    } else if member == b"Lookup".as_slice() {
        Some(Method::LookupDocument)
    } else if member == b"Info".as_slice() {
        Some(Method::Info)
    } else if member == b"List".as_slice() {
        Some(Method::ListDocuments)
    } else {
        None
    }
}

fn store_method(member: &[u8]) -> Option<Method>
    ensures { result ≡ method_among (methods_of Interface.PermissionStore) member.now }
{
    if member == b"Lookup".as_slice() {
        Some(Method::LookupEntry)
    } else if member == b"Set".as_slice() {
        Some(Method::SetEntry)
    } else if member == b"Delete".as_slice() {
        Some(Method::DeleteEntry)
    } else if member == b"SetValue".as_slice() {
        Some(Method::SetValue)
    } else if member == b"SetPermission".as_slice() {
        Some(Method::SetPermission)
    } else if member == b"DeletePermission".as_slice() {
        Some(Method::DeletePermission)
    } else if member == b"GetPermission".as_slice() {
        Some(Method::GetPermission)
    } else if member == b"List".as_slice() {
        Some(Method::ListEntries)
    } else {
        None
    }
}

fn files_method(member: &[u8]) -> Option<Method>
    ensures { result ≡ method_among (methods_of Interface.Files) member.now }
{
    if member == b"Present".as_slice() {
        Some(Method::Present)
    } else {
        None
    }
}

fn properties_method(member: &[u8]) -> Option<Method>
    ensures { result ≡ method_among (methods_of Interface.Properties) member.now }
{
    if member == b"Get".as_slice() {
        Some(Method::Get)
    } else if member == b"GetAll".as_slice() {
        Some(Method::GetAll)
    } else {
        None
    }
}

fn peer_method(member: &[u8]) -> Option<Method>
    ensures { result ≡ method_among (methods_of Interface.Peer) member.now }
{
    if member == b"Ping".as_slice() {
        Some(Method::Ping)
    } else {
        None
    }
}

/// A method that each object has.
fn shared_method(member: &[u8]) -> Option<Method>
    ensures { result ≡ method_among (methods_of Interface.Properties
        ++ methods_of Interface.Peer) member.now }
{
    if member == b"Get".as_slice() {
        Some(Method::Get)
    } else if member == b"GetAll".as_slice() {
        Some(Method::GetAll)
    } else {
        peer_method(member)
    }
}
