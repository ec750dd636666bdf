//! The interfaces of the objects.

ghost use Rattle.std.specs.Prelude.{◌≡◌, [], ◌∷◌};
ghost use Rattle.dbus_calls.specs.Calls.{interface_among, interface_named};

use crate::object::Object;

/// An interface.
#[derive(Clone, Copy, PartialEq, Eq)]
pub enum Interface {
    /// `org.freedesktop.portal.Documents`
    Documents,
    /// `org.freedesktop.impl.portal.PermissionStore`
    PermissionStore,
    /// `local.docportal.Files1`
    Files,
    /// `org.freedesktop.DBus.Properties`
    Properties,
    /// `org.freedesktop.DBus.Peer`
    Peer,
}

/// The interface of this name that an object has.
pub fn interface_named(object: Object, name: &[u8]) -> Option<Interface>
    ensures { result ≡ interface_named object name.now }
{
    match object {
        Object::Documents if name == b"org.freedesktop.portal.Documents".as_slice() => {
            Some(Interface::Documents)
        }
        Object::PermissionStore
            if name == b"org.freedesktop.impl.portal.PermissionStore".as_slice() => {
            Some(Interface::PermissionStore)
        }
        Object::Files if name == b"local.docportal.Files1".as_slice() => Some(Interface::Files),
        Object::Nothing => peer_named(name),
        _ => shared_named(name),
    }
}

/// An interface that each object has.
fn shared_named(name: &[u8]) -> Option<Interface>
    ensures { result ≡ interface_among (Interface.Properties ∷ Interface.Peer ∷ []) name.now }
{
    if name == b"org.freedesktop.DBus.Properties".as_slice() {
        Some(Interface::Properties)
    } else {
        peer_named(name)
    }
}

/// The interface that every path has.
fn peer_named(name: &[u8]) -> Option<Interface>
    ensures { result ≡ interface_among (Interface.Peer ∷ []) name.now }
{
    if name == b"org.freedesktop.DBus.Peer".as_slice() {
        Some(Interface::Peer)
    } else {
        None
    }
}
