//! Sockets, and the folders in which they are made.

use crate::folder::mode_of;
use std::cell::Cell;
use std::fmt::Display;
use std::fs::Permissions;
use std::io::{ErrorKind, Read};
use std::os::unix::fs::PermissionsExt;
use std::os::unix::net::{UnixListener, UnixStream};
use std::{fs, io};
use unix_links::{BindError, Patient, SocketFolder};
use vector_lines::error::{VectorError, given};
use vector_lines::output::Output;

/// `bind PATH`: the mode of the socket that is made in this folder and put at a path, or
/// why none is. It stays when the listener has gone.
pub fn bind(system: &HostRuntime, out: &mut Output, path: &str) {
    match placed(system, path) {
        Ok(_) => mode_of(system, out, path),
        Err(error) => out.shown(&error),
    }
}

/// A socket that is made in this folder, and stands at a path.
pub(crate) fn placed(system: &HostRuntime, path: &str) -> Result<UnixListener, BindError> {
    let folder = SocketFolder::take(system, ".")?;
    let socket = placed_in(system, &folder, path);
    folder.clear(system);
    socket
}

fn placed_in(
    system: &HostRuntime,
    folder: &SocketFolder,
    path: &str,
) -> Result<UnixListener, BindError> {
    let socket = folder.bind(system, 0, path)?;
    folder.show(system, 0, path)?;
    Ok(socket)
}

/// `live PATH`: what a second listener at a path is told while the first is there.
pub fn live(system: &HostRuntime, out: &mut Output, path: &str) {
    let first = placed(system, path);
    bind(system, out, path);
    drop(first);
}

/// `take FOLDER`: the mode of a folder of sockets that is taken, and what a second one is
/// told meanwhile; or why it isn't taken.
pub fn take(system: &HostRuntime, out: &mut Output, path: &str) {
    match SocketFolder::take(system, path) {
        Ok(folder) => {
            mode_of(system, out, path);
            out.text(", ");
            put_refusal(out, SocketFolder::take(system, path));
            folder.clear(system);
        }
        Err(error) => out.shown(&error),
    }
}

/// `hidden PATH`: whether nobody connects at a path to which a socket is bound, before it
/// is put there.
pub fn hidden(system: &HostRuntime, out: &mut Output, path: &str) {
    match SocketFolder::take(system, ".") {
        Ok(folder) => {
            match folder.bind(system, 0, path) {
                Ok(_) => put_refusal(out, UnixStream::connect(system, path)),
                Err(error) => out.shown(&error),
            }
            folder.clear(system);
        }
        Err(error) => out.debug(&error),
    }
}

/// `open FOLDER`: what one is told who takes a folder that its group may write in.
pub fn open(system: &HostRuntime, out: &mut Output, path: &str) -> Result<(), VectorError> {
    let alloc = system.alloc();
    given(alloc, fs::create_dir(system, path))?;
    let open = Permissions::from_mode(0o770);
    given(alloc, fs::set_permissions(system, path, open))?;
    take(system, out, path);
    Ok(())
}

/// Adds why a call refused, or that it didn't.
pub(crate) fn put_refusal<T: Drop, E: Display + Drop>(out: &mut Output, answer: Result<T, E>) {
    match answer {
        Ok(_) => out.text("done"),
        Err(error) => out.shown(&error),
    }
}

/// A reader that is interrupted so many times, and then gives the letter `x`.
#[derive(Drop)]
struct Interrupted {
    times: Cell<u32>,
}

impl Read for Interrupted {
    fn read(&mut self, buffer: &mut [u8]) -> io::Result<usize> {
        let times = self.times.get();
        if times > 0 {
            self.times.set(times - 1);
            return Err(io::Error::from(ErrorKind::Interrupted));
        }
        let Some(first) = buffer.first_mut() else {
            return Ok(0);
        };
        *first = b'x';
        Ok(1)
    }
}

/// `patient`: what a read gives of a reader that is interrupted twice.
pub fn patient(out: &mut Output) {
    let mut reader = Patient::new(Interrupted {
        times: Cell::new(2),
    });
    out.debug(&reader.read(&mut [0; 4]));
}
