//! The two ends of a link: a client's, or one of the program's own.

use crate::client::{ClientReader, ClientWriter};
use crate::listener::Watch;
use crate::patient::Patient;
use std::io;
use std::io::{Read, Write};

/// Where the bytes of a link come from.
#[derive(Drop)]
pub enum LinkReader<'a, W> {
    /// From a client.
    Client(Patient<ClientReader<'a>>),
    /// From the watch.
    Watch(&'a W),
    /// From nowhere: it ends at once.
    Nobody,
}

impl<'a, W: Watch> Read for LinkReader<'a, W> {
    fn read(&mut self, buffer: &mut [u8]) -> io::Result<usize> {
        match self {
            LinkReader::Client(reader) => reader.read(buffer),
            LinkReader::Watch(watch) => Ok(watch.spend(buffer).min(buffer.len())),
            LinkReader::Nobody => Ok(0),
        }
    }
}

/// Where the answers of a link go.
#[derive(Drop)]
pub enum LinkWriter<'a> {
    /// To a client.
    Client(ClientWriter<'a>),
    /// To nobody.
    Nobody,
}

impl<'a> Write for LinkWriter<'a> {
    fn write(&mut self, buffer: &[u8]) -> io::Result<usize> {
        match self {
            LinkWriter::Client(writer) => writer.write(buffer),
            LinkWriter::Nobody => Ok(buffer.len()),
        }
    }

    fn flush(&mut self) -> io::Result<()> {
        Ok(())
    }
}
