//! A reader and a writer that do at each call what a line says.

use portal_base::list::{ByteList, List};
use std::io;
use std::io::{ErrorKind, Read, Write};

/// What a call of a reader or of a writer does.
#[derive(Clone, Copy)]
pub enum Act {
    /// It takes at most so many bytes.
    Take(usize),
    /// It is interrupted, and is to be called again.
    Interrupt,
    /// It fails.
    Fail,
}

/// What calls do one after another; behind the last, each takes all.
#[derive(Drop)]
pub struct Acts {
    acts: List<Act>,
    at: usize,
}

impl Acts {
    /// These acts, from the first on.
    pub fn new(acts: List<Act>) -> Acts {
        Acts { acts, at: 0 }
    }

    /// How many bytes the next call takes, at most.
    fn next(&mut self) -> io::Result<usize> {
        let act = self.acts.get(self.at).copied();
        self.at = self.at.saturating_add(1);
        match act {
            Some(Act::Take(most)) => Ok(most),
            Some(Act::Interrupt) => Err(io::Error::from(ErrorKind::Interrupted)),
            Some(Act::Fail) => Err(io::Error::from(ErrorKind::Other)),
            None => Ok(usize::MAX),
        }
    }
}

/// A reader of the letter `x`, of as many at a call as its act says; none behind
/// the last act.
#[derive(Drop)]
pub struct Reader {
    pub acts: Acts,
}

impl Read for Reader {
    fn read(&mut self, buffer: &mut [u8]) -> io::Result<usize> {
        let most = self.acts.next()?;
        if most == usize::MAX {
            return Ok(0);
        }
        let len = most.min(buffer.len());
        buffer[..len].fill(b'x');
        Ok(len)
    }
}

/// A writer that keeps what it takes, and a flush of its own acts.
#[derive(Drop)]
pub struct Writer<'a> {
    pub acts: Acts,
    pub flushes: Acts,
    pub written: &'a mut ByteList,
}

impl<'a> Writer<'a> {
    /// Keeps the bytes.
    fn keep(&mut self, bytes: &[u8]) -> io::Result<()> {
        match self.written.extend_from_slice(bytes) {
            Ok(()) => Ok(()),
            Err(_) => Err(io::Error::from(ErrorKind::OutOfMemory)),
        }
    }
}

impl<'a> Write for Writer<'a> {
    fn write(&mut self, bytes: &[u8]) -> io::Result<usize> {
        let len = self.acts.next()?.min(bytes.len());
        self.keep(&bytes[..len])?;
        Ok(len)
    }

    fn flush(&mut self) -> io::Result<()> {
        self.flushes.next()?;
        Ok(())
    }
}
