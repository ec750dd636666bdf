//! The objects of a bus connection.

ghost use Rattle.std.specs.Prelude.{◌≡◌};
ghost use Rattle.dbus_calls.specs.Calls.{object_at};

/// What stands at a path.
#[derive(Clone, Copy, PartialEq, Eq)]
pub enum Object {
    /// The document portal.
    Documents,
    /// The permission store.
    PermissionStore,
    /// The files that a connection presents.
    Files,
    /// No object: any other path. Ping alone is answered there.
    Nothing,
}

/// The object at a path.
pub fn object_at(path: &[u8]) -> Object
    ensures { result ≡ object_at path.now }
{
    if path == b"/org/freedesktop/portal/documents".as_slice() {
        Object::Documents
    } else if path == b"/org/freedesktop/impl/portal/PermissionStore".as_slice() {
        Object::PermissionStore
    } else if path == b"/local/docportal/files".as_slice() {
        Object::Files
    } else {
        Object::Nothing
    }
}
