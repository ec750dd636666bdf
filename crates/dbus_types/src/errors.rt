//! Why a text is no signature.

ghost use Rattle.std.specs.Prelude.{◌≡◌};
ghost use Rattle.dbus_types.specs.declared.errors.SignatureError.TheVariants.{Memory};

use portal_base::memory::WantOfMemory;
use thiserror::Error;

/// Why a text was not read as a signature.
#[derive(Clone, Copy, Debug, PartialEq, Eq, Error)]
pub enum SignatureError {
    /// No signature begins with the bytes up to this one, or the text ends
    /// here too soon, or it goes on past 255 bytes.
    #[error("no signature goes on as the text does at byte {at}")]
    BadSignature {
        /// The place of the byte, from 0.
        at: u32,
    },
    /// This byte opens more than 32 arrays, or more than 32 parentheses and
    /// braces, in each other.
    #[error("the signature nests too deep at byte {at}")]
    TooDeep {
        /// The place of the byte, from 0.
        at: u32,
    },
    /// There was no memory for the types.
    #[error("there is no memory for the types of a signature")]
    Memory,
}

impl From<WantOfMemory> for SignatureError {
    ghost from_gives = { λ _ e. e ≡ Memory };

    fn from(_error: WantOfMemory) -> SignatureError {
        SignatureError::Memory
    }
}
