//! The names of the errors that a bus connection gives.

ghost use Rattle.std.specs.Prelude.{◌≡◌, IfOk};
ghost use Rattle.dbus_calls.specs.Errors.{error_name, error_to};

use dbus_types::message::{Message, OutMessage};
use portal_base::memory::WantOfMemory;
use portal_base::text::Text;
use std::alloc::Global;

/// An error, which has one name on the wire.
#[derive(Clone, Copy, Debug, PartialEq, Eq)]
pub enum ErrorName {
    /// There is no object at the path.
    UnknownObject,
    /// The object has no such interface.
    UnknownInterface,
    /// The interface has no such method.
    UnknownMethod,
    /// The interface has no such property.
    UnknownProperty,
    /// The arguments aren't of the types that the method takes.
    InvalidArgs,
    /// The caller may not call the method.
    AccessDenied,
    /// A limit would be passed.
    LimitsExceeded,
    /// There was no memory.
    NoMemory,
    /// There is no such document or entry, or none that the caller may know.
    NotFound,
    /// The caller hasn't the right.
    NotAllowed,
    /// An argument is of the right type, and makes no sense.
    InvalidArgument,
    /// A device failed.
    Failed,
}

impl ErrorName {
    /// The name.
    pub fn name(self) -> &'static str
        ensures { result.now ≡ error_name self }
    {
        match self {
            ErrorName::UnknownObject => "org.freedesktop.DBus.Error.UnknownObject",
            ErrorName::UnknownInterface => "org.freedesktop.DBus.Error.UnknownInterface",
            ErrorName::UnknownMethod => "org.freedesktop.DBus.Error.UnknownMethod",
            ErrorName::UnknownProperty => "org.freedesktop.DBus.Error.UnknownProperty",
            ErrorName::InvalidArgs => "org.freedesktop.DBus.Error.InvalidArgs",
            ErrorName::AccessDenied => "org.freedesktop.DBus.Error.AccessDenied",
            ErrorName::LimitsExceeded => "org.freedesktop.DBus.Error.LimitsExceeded",
            ErrorName::NoMemory => "org.freedesktop.DBus.Error.NoMemory",
            ErrorName::NotFound => "org.freedesktop.portal.Error.NotFound",
            ErrorName::NotAllowed => "org.freedesktop.portal.Error.NotAllowed",
            ErrorName::InvalidArgument => "org.freedesktop.portal.Error.InvalidArgument",
            ErrorName::Failed => "org.freedesktop.portal.Error.Failed",
        }
    }

    /// The error message that answers a call.
    pub fn answer_to(self, alloc: Global, call: &Message) -> Result<OutMessage, WantOfMemory>
        ensures { IfOk result (λ reply. reply ≡ error_to call.now self) }
    {
        Ok(OutMessage::Error {
            to: call.serial,
            name: Text::copied(alloc, self.name())?,
        })
    }
}
