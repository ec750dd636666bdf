//! Why no value was read.

ghost use Rattle.std.specs.Prelude.{◌≡◌};
ghost use Rattle.dbus_basic.specs.declared.error.ReadError.TheVariants.{Memory};

use portal_base::memory::WantOfMemory;
use std::alloc::AllocError;
use thiserror::Error;

/// Why no value was read, and the index of the first byte where the spelling
/// breaks.
#[derive(Clone, Copy, Debug, PartialEq, Eq, Error)]
pub enum ReadError {
    /// The bytes end before the field that begins here is whole.
    #[error("the bytes end inside the field at byte {at}")]
    Short {
        /// The index of the byte.
        at: usize,
    },
    /// A byte of padding that isn't zero.
    #[error("byte {at} is padding and is not zero")]
    Padding {
        /// The index of the byte.
        at: usize,
    },
    /// A boolean that is neither 0 nor 1.
    #[error("the boolean at byte {at} is neither 0 nor 1")]
    BadBool {
        /// The index of the byte.
        at: usize,
    },
    /// A text that isn't UTF-8, has a zero byte or is no path of an object,
    /// where it must be; or the byte after a text that isn't zero.
    #[error("no text goes on at byte {at}")]
    BadText {
        /// The index of the byte.
        at: usize,
    },
    /// An array whose stated length is above 67,108,864 bytes.
    #[error("the array at byte {at} is longer than 64 MiB")]
    TooLong {
        /// The index of the byte.
        at: usize,
    },
    /// A text that is no signature, or, in a variant, not that of one type; or
    /// the byte after a signature that isn't zero.
    #[error("no signature goes on at byte {at}")]
    BadSignature {
        /// The index of the byte.
        at: usize,
    },
    /// A value in more than 64 others, or a signature of more than 32 arrays or
    /// parentheses in each other.
    #[error("too many values or types stand in each other at byte {at}")]
    TooDeep {
        /// The index of the byte.
        at: usize,
    },
    /// A field of an array's element that doesn't fit the array's length.
    #[error("the field at byte {at} passes the end of its array")]
    BadArray {
        /// The index of the byte.
        at: usize,
    },
    /// There was no memory for the value.
    #[error("there is no memory for the value")]
    Memory,
}

impl From<WantOfMemory> for ReadError {
    ghost from_gives = { λ _ e. e ≡ Memory };

    fn from(_error: WantOfMemory) -> ReadError {
        ReadError::Memory
    }
}

impl From<AllocError> for ReadError {
    ghost from_gives = { λ _ e. e ≡ Memory };

    fn from(_error: AllocError) -> ReadError {
        ReadError::Memory
    }
}
