//! Why no message was read.

ghost use Rattle.std.specs.Prelude.{◌≡◌};
ghost use Rattle.dbus_message.specs.declared.error.MessageError.TheVariants.{Memory};
ghost use Rattle.dbus_message.specs.Errors.{error_of};

use dbus_marshal::error::ReadError;
use portal_base::memory::WantOfMemory;
use thiserror::Error;

/// Why no message was read.
#[derive(Clone, Copy, Debug, PartialEq, Eq, Error)]
pub enum MessageError {
    /// The bytes break this rule, and none ahead of it.
    #[error("the message breaks rule {rule}")]
    Bad {
        /// The number of the rule.
        rule: u32,
    },
    /// There was no memory for the message.
    #[error("there is no memory for the message")]
    Memory,
}

impl From<WantOfMemory> for MessageError {
    ghost from_gives = { λ _ e. e ≡ Memory };

    fn from(_error: WantOfMemory) -> MessageError {
        MessageError::Memory
    }
}

/// What is answered where a value of a message was not read, and a rule says
/// that one is there.
pub(crate) fn broken(rule: u32, error: ReadError) -> MessageError
    ensures { result ≡ error_of rule error }
{
    match error {
        ReadError::Memory => MessageError::Memory,
        _ => MessageError::Bad { rule },
    }
}
