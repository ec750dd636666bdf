//! Why a line is not understood, and why it has no other answer.

ghost use Rattle.std.specs.Prelude.{◌≡◌, IfOk, Ok};

use crate::notation::debug;
use dbus_types::errors::SignatureError;
use hex::FromHexError;
use portal_base::memory::WantOfMemory;
use portal_base::names::NameError;
use std::alloc::{AllocError, Global};
use std::fmt::Debug;
use thiserror::Error;

/// Why a line is not understood.
#[derive(Clone, Copy, Debug, PartialEq, Eq, Error)]
pub enum LineError {
    /// The line is of no form that there is.
    #[error("the line is of no form that there is")]
    BadLine,
    /// There was no memory.
    #[error("there is no memory for the line")]
    Memory,
}

impl From<AllocError> for LineError {
    fn from(_error: AllocError) -> LineError {
        LineError::Memory
    }
}

impl From<WantOfMemory> for LineError {
    fn from(_error: WantOfMemory) -> LineError {
        LineError::Memory
    }
}

impl From<NameError> for LineError {
    fn from(error: NameError) -> LineError {
        match error {
            NameError::Memory => LineError::Memory,
            NameError::BadName { .. } => LineError::BadLine,
        }
    }
}

impl From<SignatureError> for LineError {
    fn from(error: SignatureError) -> LineError {
        match error {
            SignatureError::Memory => LineError::Memory,
            _ => LineError::BadLine,
        }
    }
}

impl From<FromHexError> for LineError {
    fn from(error: FromHexError) -> LineError {
        match error {
            FromHexError::OutOfMemory => LineError::Memory,
            _ => LineError::BadLine,
        }
    }
}

/// Why a line has no other answer.
#[derive(Debug, Drop)]
pub enum VectorError {
    /// The line isn't understood.
    Line(LineError),
    /// A call refused what it was given: its error, as a programmer sees it.
    Refused(String),
}

impl VectorError {
    /// What is printed of it.
    pub fn told(self, alloc: Global) -> Result<String, AllocError> {
        match self {
            VectorError::Line(error) => debug(alloc, &error),
            VectorError::Refused(text) => Ok(text),
        }
    }
}

impl From<LineError> for VectorError {
    fn from(error: LineError) -> VectorError {
        VectorError::Line(error)
    }
}

impl From<AllocError> for VectorError {
    fn from(_error: AllocError) -> VectorError {
        VectorError::Line(LineError::Memory)
    }
}

impl From<WantOfMemory> for VectorError {
    fn from(_error: WantOfMemory) -> VectorError {
        VectorError::Line(LineError::Memory)
    }
}

/// A line that isn't understood.
pub fn bad<T>() -> Result<T, VectorError> {
    Err(VectorError::Line(LineError::BadLine))
}

/// What a call gave, or the error with which it refused.
pub fn given<T: Drop, E: Debug + Drop>(
    alloc: Global,
    answer: Result<T, E>,
) -> Result<T, VectorError>
    ensures { IfOk result (λ value. answer ≡ Ok value) }
{
    match answer {
        Ok(value) => Ok(value),
        Err(error) => Err(VectorError::Refused(debug(alloc, &error)?)),
    }
}
