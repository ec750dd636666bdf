//! A bell, which ends what threads wait for at sockets.

use libc::net::{POLLERR, POLLHUP, POLLIN, POLLNVAL, poll};
use libc::types::pollfd;
use std::io;
use std::io::{PipeReader, PipeWriter, Read, Write};
use std::os::fd::{AsRawFd, RawFd};
use std::sync::atomic::{AtomicBool, Ordering};

/// What poll(2) tells of a descriptor that isn't served any more.
const OVER: i16 = POLLHUP | POLLERR | POLLNVAL;

/// A bell that is heard by any number of threads while they wait for a client. It rings until
/// it is stilled.
///
/// While it rings, links end, and listeners give links of the program's own.
#[derive(Drop)]
pub struct Bell {
    // There is a byte in the pipe while it rings, which ends each poll(2).
    ears: PipeReader,
    rope: PipeWriter,
    // So that whoever needn't wait hears it without a system call.
    rings: AtomicBool,
}

/// What ended a wait: one of both, or both, or neither where a signal came.
#[derive(Clone, Copy)]
pub(crate) struct Waited {
    /// The bell rings.
    pub(crate) is_rung: bool,
    /// The descriptor is ready.
    pub(crate) is_ready: bool,
    /// It was shut down, has failed, or isn't open: it stays ready (poll(2)).
    pub(crate) is_over: bool,
}

impl Bell {
    /// A bell that is still.
    pub fn new(system: &HostRuntime) -> io::Result<Bell> {
        let (ears, rope) = io::pipe(system)?;
        Ok(Bell {
            ears,
            rope,
            rings: AtomicBool::new(false),
        })
    }

    /// Begins to ring. It has to be still.
    pub fn ring(&self) {
        // Ahead of the byte: whoever that wakes finds that it rings.
        self.rings.store(true, Ordering::SeqCst);
        // A pipe that is empty takes a byte at once.
        let _ = (&self.rope).write(&[0]);
    }

    /// Stops ringing. It has to ring, or this waits until it does.
    pub fn still(&self) {
        let _ = (&self.ears).read(&mut [0]);
        self.rings.store(false, Ordering::SeqCst);
    }

    /// Whether it rings.
    pub(crate) fn rings(&self) -> bool {
        self.rings.load(Ordering::SeqCst)
    }

    /// Waits until a descriptor is ready for such events or the bell rings.
    pub(crate) fn wait(&self, descriptor: RawFd, events: i16) -> Waited {
        let mut asked = [ask(descriptor, events), ask(self.ears.as_raw_fd(), POLLIN)];
        poll(&mut asked, -1);
        let [first, second] = asked;
        Waited {
            is_rung: second.revents != 0,
            is_ready: first.revents != 0,
            is_over: first.revents & OVER != 0,
        }
    }
}

/// Whether a descriptor is ready for such events within so many milliseconds.
pub(crate) fn is_ready(descriptor: RawFd, events: i16, milliseconds: i32) -> bool {
    let mut asked = [ask(descriptor, events)];
    poll(&mut asked, milliseconds);
    let [first] = asked;
    first.revents != 0
}

fn ask(fd: RawFd, events: i16) -> pollfd {
    pollfd {
        fd,
        events,
        revents: 0,
    }
}
