//! What a line is answered, put together part by part.

use crate::error::LineError;
use std::alloc::Global;
use std::fmt::{Debug, Display, Write};

/// The text of an answer, to which parts are added at its end.
///
/// Adding a part fails for nobody: where there is no memory for one, that is what the
/// whole comes to. So who adds parts has nothing to hand on between them.
#[derive(Drop)]
pub struct Output {
    alloc: Global,
    text: String,
    lacks_memory: bool,
}

impl Output {
    /// No part yet.
    pub fn new(alloc: Global) -> Output {
        Output {
            alloc,
            text: String::new(alloc),
            lacks_memory: false,
        }
    }

    /// The whole.
    pub fn into_text(self) -> Result<String, LineError> {
        let Output {
            alloc: _,
            text,
            lacks_memory,
        } = self;
        if lacks_memory {
            drop(text);
            return Err(LineError::Memory);
        }
        Ok(text)
    }

    /// Adds a text.
    pub fn text(&mut self, text: &str) {
        if self.text.push_str(text).is_err() {
            self.lacks_memory = true;
        }
    }

    /// Adds a value as a user sees it.
    pub fn shown<T: Display>(&mut self, value: &T) {
        if write!(self.text, "{value}").is_err() {
            self.lacks_memory = true;
        }
    }

    /// Adds a value as a programmer sees it.
    pub fn debug<T: Debug>(&mut self, value: &T) {
        if write!(self.text, "{value:?}").is_err() {
            self.lacks_memory = true;
        }
    }

    /// Adds a number in decimal digits.
    pub fn number(&mut self, number: u64) {
        self.shown(&number);
    }

    /// Adds a number of a document in its eight hexadecimal digits.
    pub fn id(&mut self, number: u32) {
        if write!(self.text, "{number:08x}").is_err() {
            self.lacks_memory = true;
        }
    }

    /// Adds a byte in its two hexadecimal digits, behind `0x`.
    pub fn byte(&mut self, byte: u8) {
        if write!(self.text, "0x{byte:02x}").is_err() {
            self.lacks_memory = true;
        }
    }

    /// Adds eight bytes in their sixteen hexadecimal digits, behind `0x`.
    pub fn bits(&mut self, bits: u64) {
        if write!(self.text, "0x{bits:016x}").is_err() {
            self.lacks_memory = true;
        }
    }

    /// Adds bytes in hexadecimal digits.
    pub fn digits(&mut self, bytes: &[u8]) {
        match hex::encode(self.alloc, bytes) {
            Ok(digits) => self.text(digits.as_str()),
            Err(_) => self.lacks_memory = true,
        }
    }

    /// Adds bytes as a text; what is no UTF-8 is replaced.
    pub fn lossy(&mut self, bytes: &[u8]) {
        match String::from_utf8_lossy(self.alloc, bytes) {
            Ok(text) => self.text(text.as_str()),
            Err(_) => self.lacks_memory = true,
        }
    }

    /// Adds bytes as a text between quotes, as a programmer sees it; what is no UTF-8 is replaced.
    pub fn quoted(&mut self, bytes: &[u8]) {
        match String::from_utf8_lossy(self.alloc, bytes) {
            Ok(text) => self.debug(&text),
            Err(_) => self.lacks_memory = true,
        }
    }
}
