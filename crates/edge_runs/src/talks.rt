//! What a client and the service at a socket are told of each other, and when.

use crate::links::placed;
use libc::net::{SHUT_RDWR, shutdown};
use portal_base::outside::{ReadAnswer, Sink, Source, WriteAnswer};
use std::alloc::Global;
use std::cell::Cell;
use std::io;
use std::io::{ErrorKind, Read, Write};
use std::os::fd::AsRawFd;
use std::os::unix::net::{UnixListener, UnixStream};
use unix_links::{Bell, SocketListener, Watch};
use vector_lines::error::{VectorError, given};
use vector_lines::notation::cut;
use vector_lines::output::Output;
use worker_gate::listener::{Accepted, Listener};

/// How often a client is written to that doesn't read, at most.
const WRITES: u32 = 100;

/// A watch that lets listeners begin, and notes by which error of the system one ended.
#[derive(Drop)]
struct Noting {
    code: Cell<Option<i32>>,
}

impl Watch for Noting {
    fn begin(&self) -> bool {
        true
    }

    fn hold_up(&self, _error: &io::Error) {}

    fn end(&self, error: &io::Error) {
        self.code.set(error.raw_os_error());
    }
}

/// Lines of a socket that is made at a path; the service has the second of two listeners at it.
///
/// - `talk PATH TEXT ANSWER`: what a client and the service hear of each other, up to the end that
///   the service makes.
/// - `leave PATH TEXT`: what the service hears of a client that leaves behind a text, what becomes
///   of an answer to it, and what the next read gives.
/// - `keep PATH`: what the service hears of a client, and what the client is told by when: behind
///   two answers, behind a read, how many bytes behind each of three long answers, and behind the
///   end.
/// - `ring PATH`: what the service hears of a client once it was answered and the bell rings, what
///   the client is told, and what becomes of answers that it doesn't read.
/// - `shut PATH`: the error by which a listener ends whose socket was shut down.
pub fn over_socket(
    system: &HostRuntime,
    out: &mut Output,
    kind: &str,
    rest: &str,
) -> Result<(), VectorError> {
    let alloc = system.alloc();
    let (path, rest) = cut(rest);
    let socket = given(alloc, placed(system, path))?;
    if kind == "shut" {
        shutdown(socket.as_raw_fd(), SHUT_RDWR);
    }
    let outcome = over_listeners(system, out, &socket, kind, path, rest);
    drop(socket);
    given(alloc, outcome)
}

/// What the line tells, and then the error by which a listener ended, if one did.
fn over_listeners(
    system: &HostRuntime,
    out: &mut Output,
    socket: &UnixListener,
    kind: &str,
    path: &str,
    rest: &str,
) -> io::Result<()> {
    let bell = Bell::new(system)?;
    let watch = Noting {
        code: Cell::new(None),
    };
    let first = SocketListener::new(socket, &bell, &watch, false)?;
    let outcome = match SocketListener::new(socket, &bell, &watch, false) {
        Ok(mut second) => put_line(system, out, &mut second, &bell, kind, path, rest),
        Err(error) => Err(error),
    };
    drop(first);
    match watch.code.get() {
        None => {}
        code => out.debug(&code),
    }
    outcome
}

fn put_line<L: Listener>(
    system: &HostRuntime,
    out: &mut Output,
    listener: &mut L,
    bell: &Bell,
    kind: &str,
    path: &str,
    rest: &str,
) -> io::Result<()> {
    let alloc = system.alloc();
    let (text, answer) = match rest {
        "" => ("ask", ""),
        _ => cut(rest),
    };
    match kind {
        "shut" => put_left(alloc, out, listener),
        "leave" => {
            drop(asking(system, path, text)?);
            put_left(alloc, out, listener);
        }
        _ => {
            let mut client = asking(system, path, text)?;
            put_served(alloc, out, listener, &mut client, bell, kind, answer);
            drop(client);
        }
    }
    Ok(())
}

/// A client that has sent a text, and doesn't wait for what it reads.
fn asking(system: &HostRuntime, path: &str, text: &str) -> io::Result<UnixStream> {
    let mut client = UnixStream::connect(system, path)?;
    client.set_nonblocking(true)?;
    client.write_all(text.as_bytes())?;
    Ok(client)
}

/// What the service hears of a client that has left, and nothing where none comes.
fn put_left<L: Listener>(alloc: Global, out: &mut Output, listener: &mut L) {
    match listener.accept(alloc) {
        Accepted::Link {
            mut source,
            mut sink,
        } => {
            out.text("heard ");
            put_heard(out, &mut source);
            out.text(", ");
            put_heard(out, &mut source);
            out.text(", ");
            out.debug(&sink.write(b"late"));
            out.text(", ");
            put_heard(out, &mut source);
            listener.done(source, sink);
        }
        Accepted::Closed | Accepted::Failed | Accepted::Memory => {}
    }
}

/// What the service and a client that stays hear of each other, and nothing where none comes.
fn put_served<L: Listener>(
    alloc: Global,
    out: &mut Output,
    listener: &mut L,
    client: &mut UnixStream,
    bell: &Bell,
    kind: &str,
    answer: &str,
) {
    match listener.accept(alloc) {
        Accepted::Link {
            mut source,
            mut sink,
        } => {
            out.text("heard ");
            put_heard(out, &mut source);
            match kind {
                "keep" => put_kept(out, &mut source, &mut sink, client),
                "ring" => put_rung(out, &mut source, &mut sink, client, bell),
                _ => put_answered(out, &mut sink, answer),
            }
            listener.done(source, sink);
            if kind != "ring" {
                put_told(out, client);
                // The end adds nothing.
                put_told(out, client);
            }
        }
        Accepted::Closed | Accepted::Failed | Accepted::Memory => {}
    }
}

fn put_answered<K: Sink>(out: &mut Output, sink: &mut K, answer: &str) {
    out.text(", ");
    out.debug(&sink.write(answer.as_bytes()));
    out.text(", told ");
}

fn put_kept<S: Source, K: Sink>(
    out: &mut Output,
    source: &mut S,
    sink: &mut K,
    client: &mut UnixStream,
) {
    sink.write(b"one");
    sink.write(b"two");
    out.text(", told ");
    put_told(out, client);
    out.text(", heard ");
    if client.write_all(b"more").is_ok() {
        put_heard(out, source);
    }
    out.text(", told ");
    put_told(out, client);
    out.text(", then ");
    put_counts(out, sink, client);
    sink.write(b"three");
    out.text(", and ");
}

/// How many bytes come behind each of three answers: two that have room alone, and one that
/// has none.
fn put_counts<K: Sink>(out: &mut Output, sink: &mut K, client: &mut UnixStream) {
    sink.write(&[0; 40_000]);
    out.number(count(client));
    out.text(", ");
    sink.write(&[0; 40_000]);
    out.number(count(client));
    out.text(", ");
    sink.write(&[0; 70_000]);
    out.number(count(client));
}

fn put_rung<S: Source, K: Sink>(
    out: &mut Output,
    source: &mut S,
    sink: &mut K,
    client: &mut UnixStream,
    bell: &Bell,
) {
    sink.write(b"one");
    bell.ring();
    out.text(", ");
    put_heard(out, source);
    out.text(", told ");
    put_told(out, client);
    out.text(", then ");
    out.debug(&given_up(sink));
    bell.still();
}

/// What the last of many answers comes to that nobody reads.
fn given_up<K: Sink>(sink: &mut K) -> WriteAnswer {
    for _ in 0..WRITES {
        if sink.write(&[0; 40_000]) == WriteAnswer::Failed {
            return WriteAnswer::Failed;
        }
    }
    WriteAnswer::Done
}

/// The text that the service's next read gives, or why it gives none.
fn put_heard<S: Source>(out: &mut Output, source: &mut S) {
    let mut buffer = [0; 64];
    match source.read(&mut buffer) {
        ReadAnswer::Got(len) => out.lossy(buffer.as_slice().get(..len).unwrap_or(b"")),
        answer => out.debug(&answer),
    }
}

/// The text that has come to a client, or that nothing has.
fn put_told(out: &mut Output, client: &mut UnixStream) {
    let mut buffer = [0; 64];
    match client.read(&mut buffer) {
        Ok(len) => out.lossy(buffer.as_slice().get(..len).unwrap_or(b"")),
        Err(error) if error.kind() == ErrorKind::WouldBlock => out.text("nothing"),
        Err(error) => out.debug(&error),
    }
}

/// How many bytes have come to a client.
fn count(client: &mut UnixStream) -> u64 {
    let mut buffer = [0; 4096];
    let mut count = 0_u64;
    for _ in 0..u64::MAX {
        match client.read(&mut buffer) {
            Ok(len) if len > 0 => count = count.saturating_add(len as u64),
            _ => return count,
        }
    }
    count
}
