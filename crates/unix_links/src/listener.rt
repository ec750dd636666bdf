//! A listener whose links are connections to a Unix socket.

ghost use Rattle.std.specs.Prelude.{◌≡◌, IfOk};

use crate::bell::Bell;
use crate::client::{Ends, ends};
use crate::link::{LinkReader, LinkWriter};
use crate::patient::Patient;
use libc::net::POLLIN;
use portal_base::outside::{StdSink, StdSource};
use std::alloc::Global;
use std::io;
use std::io::ErrorKind;
use std::marker::Model;
use std::os::fd::AsRawFd;
use std::os::unix::net::UnixListener;
use worker_gate::listener::{Accepted, Listener};

/// The process, and the system, may open no further file (accept(2)).
const NO_DESCRIPTOR: [i32; 2] = [libc::EMFILE, ENFILE];

/// The client went before it was accepted, or another listener at the socket has it.
const CLIENT_GONE: [i32; 3] = [libc::ECONNABORTED, EPROTO, libc::EAGAIN];

/// The system is short of something that others give back.
const SHORT_OF_MEMORY: [i32; 2] = [libc::ENOMEM, ENOBUFS];

// Numbers of Linux that the kit has no names for.
const ENFILE: i32 = 23;

const EPROTO: i32 = 71;

const ENOBUFS: i32 = 105;

/// Who is told what listeners meet, and lets them wait.
pub trait Watch {
    /// A listener is about to accept for the first time: whether it may.
    fn begin(&self) -> bool;

    /// No connection can be taken for now. It returns when that may be tried again.
    fn hold_up(&self, error: &io::Error);

    /// A listener gives no connection any more.
    fn end(&self, error: &io::Error);

    /// The bell rings, and a listener is about to give a link of the program's own, which may
    /// be one that spends. It may wait ahead of that.
    fn give(&self, _spends: bool) {}

    /// The next bytes of a link of the program's own that spends: how many were put at the
    /// front of the buffer. With none it ends.
    fn spend(&self, _buffer: &mut [u8]) -> usize {
        0
    }
}

/// A listener at a Unix socket, which contracts see as its count of faults.
///
/// Each connection is a link, and `done` closes it. What an accept meets that mends
/// itself is no fault: a client that has gone is passed over, and where descriptors or
/// memory are wanting it waits and goes on. It keeps one descriptor in spare, so that a
/// client is taken also where nobody may open a file. Each other error is a fault, and so
/// is it where the socket was shut down, or the watch lets it not begin. It never closes.
///
/// While the bell rings it takes no client, and each of its links is one of the program's own:
/// one that ends at once, or one whose bytes come from the watch.
#[derive(Drop)]
pub struct SocketListener<'a, W> {
    socket: &'a UnixListener,
    spare: Option<UnixListener>,
    bell: &'a Bell,
    watch: &'a W,
    spends: bool,
    begun: bool,
    faults: u64,
}

impl<'a, W> Model for SocketListener<'a, W> {
    ghost use Rattle.std.specs.Prelude.{ℕ};

    ghost Value = { ℕ };

    ghost view = { λ l. l.faults };
}

impl<'a, W: Watch> SocketListener<'a, W> {
    /// A listener at a socket, without faults so far, whose links of the program's own may be
    /// those that spend. Of several at one socket a connection comes to one.
    pub fn new(
        socket: &'a UnixListener,
        bell: &'a Bell,
        watch: &'a W,
        spends: bool,
    ) -> io::Result<SocketListener<'a, W>>
        ensures { IfOk result (λ listener. listener ≡ 0) }
    {
        // It waits at the bell too.
        socket.set_nonblocking(true)?;
        let spare = socket.try_clone()?;
        Ok(SocketListener {
            socket,
            spare: Some(spare),
            bell,
            watch,
            spends,
            begun: false,
            faults: 0,
        })
    }

    /// Whether it may accept, which is asked before the first time.
    fn may_begin(&mut self) -> bool
        ensures { self.new ≡ self.old }
    {
        if self.begun {
            return true;
        }
        self.begun = true;
        self.watch.begin()
    }

    /// Both ends of the next connection, or none where the bell rings.
    fn next_ends(&mut self, alloc: Global) -> io::Result<Option<Ends<'a>>>
        ensures { self.new ≡ self.old }
    {
        if self.spare.is_none() {
            self.spare = self.socket.try_clone().ok();
        }
        for _ in 0..u64::MAX {
            let waited = self.bell.wait(self.socket.as_raw_fd(), POLLIN);
            if waited.is_rung {
                return Ok(None);
            }
            if waited.is_over {
                // What an accept that waits says of a socket that is shut down. One that doesn't
                // wait says for ever that nobody has come (accept(2)), and no wait is one then.
                return Err(io::Error::from_raw_os_error(libc::EINVAL));
            }
            let accepted = match self.socket.accept() {
                Ok((stream, _)) => ends(alloc, stream, self.bell),
                Err(error) => Err(error),
            };
            match accepted {
                Ok(ends) => return Ok(Some(ends)),
                Err(error) => self.meet(error)?,
            }
        }
        Err(io::Error::from(ErrorKind::Other))
    }

    /// Both ends of a link of this client, or of the program's own.
    fn ends_of(&self, client: Option<Ends<'a>>) -> (LinkReader<'a, W>, LinkWriter<'a>) {
        match client {
            Some((reader, writer)) => (
                LinkReader::Client(Patient::new(reader)),
                LinkWriter::Client(writer),
            ),
            None => {
                self.watch.give(self.spends);
                let reader = match self.spends {
                    true => LinkReader::Watch(self.watch),
                    false => LinkReader::Nobody,
                };
                (reader, LinkWriter::Nobody)
            }
        }
    }

    /// Goes on from an error of accepting where it mends itself.
    fn meet(&mut self, error: io::Error) -> io::Result<()>
        ensures { self.new ≡ self.old }
    {
        match error.raw_os_error() {
            Some(code) if CLIENT_GONE.contains(&code) => Ok(()),
            Some(code) if NO_DESCRIPTOR.contains(&code) => {
                // The spare one is free for the client then; with it gone one has to wait.
                if self.spare.take().is_none() {
                    self.watch.hold_up(&error);
                }
                Ok(())
            }
            Some(code) if !SHORT_OF_MEMORY.contains(&code) => Err(error),
            None if error.kind() != ErrorKind::OutOfMemory => Err(error),
            _ => {
                self.watch.hold_up(&error);
                Ok(())
            }
        }
    }
}

impl<'a, W: Watch> Listener for SocketListener<'a, W> {
    ghost use Rattle.std.specs.Prelude.{None};

    type In = StdSource<LinkReader<'a, W>>;

    type Out = StdSink<LinkWriter<'a>>;

    ghost links = { λ _. None };

    ghost ends = { λ _. 0 };

    ghost faults = { λ count. count };

    ghost room = { λ _. 1 };

    fn accept(&mut self, alloc: Global) -> Accepted<Self::In, Self::Out> {
        if !self.may_begin() {
            self.faults = self.faults.saturating_add(1);
            return Accepted::Failed;
        }
        match self.next_ends(alloc) {
            Ok(client) => {
                let (reader, writer) = self.ends_of(client);
                Accepted::Link {
                    source: StdSource::new(reader),
                    sink: StdSink::new(writer),
                }
            }
            Err(error) => {
                self.watch.end(&error);
                self.faults = self.faults.saturating_add(1);
                Accepted::Failed
            }
        }
    }

    fn done(&mut self, _source: Self::In, _sink: Self::Out) {}
}
