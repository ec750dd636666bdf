//! A reader that is called again where it is interrupted.

use std::io;
use std::io::{ErrorKind, Read};

/// A reader whose reads are made again where a signal interrupts them.
#[derive(Drop)]
pub struct Patient<R> {
    reader: R,
}

impl<R> Patient<R> {
    /// The reader, called again where it is interrupted.
    pub fn new(reader: R) -> Patient<R> {
        Patient { reader }
    }
}

impl<R: Read> Read for Patient<R> {
    fn read(&mut self, buffer: &mut [u8]) -> io::Result<usize> {
        for _ in 0..u64::MAX {
            match self.reader.read(buffer) {
                Err(error) if error.kind() == ErrorKind::Interrupted => {}
                answer => return answer,
            }
        }
        Err(io::Error::from(ErrorKind::Interrupted))
    }
}
