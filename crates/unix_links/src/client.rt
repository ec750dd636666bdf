//! The two ends of a link to a client, which share its connection.

ghost use Rattle.std.specs.Io.{ReadsAtMost, WritesAtMost};
ghost use Rattle.std.specs.Prelude.{◌≤◌, length};

use crate::bell::{Bell, is_ready};
use crate::eagerness::Eagerness;
use libc::net::{POLLIN, POLLOUT};
use std::alloc::Global;
use std::hint::spin_loop;
use std::io;
use std::io::{BufWriter, ErrorKind, Read, Write};
use std::os::fd::AsRawFd;
use std::os::unix::net::UnixStream;
use std::sync::{Arc, Mutex, MutexGuard};

/// How many bytes of answers are kept at most. An answer that is as long is never copied.
const MOST_KEPT: usize = 65_536;

/// The system hands on what a client sends at once in parts of so many bytes: 32 KiB in pages of
/// their own, and what has room in one page beside its header. Behind a last part of this length
/// more is under way.
const PART: usize = 36_544;

/// How often a read looks at most for what stands behind such parts.
const LOOKS_BEHIND: u32 = 64;

/// How long the writes to a client that doesn't read may wait once the bell rings, in
/// milliseconds.
const GRACE: i32 = 200;

/// The way to a client, on which a write waits while that doesn't read.
///
/// While the bell rings a write goes on where it needn't wait, and waits once for a short while.
/// Behind a write that failed nothing is sent any more.
#[derive(Drop)]
struct Outlet<'a> {
    stream: Arc<UnixStream>,
    bell: &'a Bell,
    had_grace: bool,
    is_lost: bool,
}

impl<'a> Outlet<'a> {
    fn send_now(&self, bytes: &[u8]) -> io::Result<usize>
        ensures { WritesAtMost result bytes.now }
    {
        let mut stream: &UnixStream = &*self.stream;
        stream.write(bytes)
    }

    /// Sends a front of the bytes, once the client takes one.
    fn send(&mut self, bytes: &[u8]) -> io::Result<usize>
        ensures { WritesAtMost result bytes.now }
    {
        for _ in 0..u64::MAX {
            match self.send_now(bytes) {
                Err(error) if error.kind() == ErrorKind::WouldBlock => {
                    if !self.client_reads() {
                        return Err(error);
                    }
                }
                Err(error) if error.kind() == ErrorKind::Interrupted => {}
                answer => return answer,
            }
        }
        Err(io::Error::from(ErrorKind::WouldBlock))
    }

    /// Waits until the client reads: whether it does.
    fn client_reads(&mut self) -> bool {
        let descriptor = self.stream.as_raw_fd();
        let waited = self.bell.wait(descriptor, POLLOUT);
        if waited.is_ready || !waited.is_rung {
            return true;
        }
        if self.had_grace {
            return false;
        }
        self.had_grace = true;
        is_ready(descriptor, POLLOUT, GRACE)
    }
}

impl<'a> Write for Outlet<'a> {
    fn write(&mut self, bytes: &[u8]) -> io::Result<usize> {
        if self.is_lost {
            return Err(io::Error::from(ErrorKind::BrokenPipe));
        }
        let sent = self.send(bytes);
        self.is_lost = sent.is_err();
        sent
    }

    fn flush(&mut self) -> io::Result<()> {
        Ok(())
    }
}

// A lock, since the ends of a link are values of their own, which may move between threads. No
// thread ever waits for it.
/// The answers to a client that weren't sent yet. They are sent where the last end of its link is
/// dropped, too.
type Answers<'a> = Mutex<BufWriter<Outlet<'a>>>;

/// The answers, which one end at a time has. Both having them is a fault.
fn taken<'b, 'a>(answers: &'b Answers<'a>) -> io::Result<MutexGuard<'b, BufWriter<Outlet<'a>>>> {
    match answers.try_lock() {
        Some(answers) => Ok(answers),
        None => Err(io::Error::from(ErrorKind::ResourceBusy)),
    }
}

/// The end of a client's link from which its bytes come.
///
/// A read sends the answers first, since it may wait for what the client sends behind them. While
/// the bell rings it is told that the input ends.
#[derive(Drop)]
pub struct ClientReader<'a> {
    stream: Arc<UnixStream>,
    bell: &'a Bell,
    answers: Arc<Answers<'a>>,
    eagerness: Eagerness,
    /// What was met behind the bytes of the last read, which the next one tells.
    met: Option<io::Error>,
}

impl<'a> ClientReader<'a> {
    fn read_now(&self, buffer: &mut [u8]) -> io::Result<usize>
        ensures { ReadsAtMost result buffer.new }
    {
        let mut stream: &UnixStream = &*self.stream;
        stream.read(buffer)
    }

    /// The next bytes that come, once there are some, or none where the bell rings.
    fn read_next(&mut self, buffer: &mut [u8]) -> io::Result<usize>
        ensures { ReadsAtMost result buffer.new }
    {
        let looks = self.eagerness.looks();
        for look in 0..u64::MAX {
            if self.bell.rings() {
                return Ok(0);
            }
            match self.read_now(buffer) {
                Err(error) if error.kind() == ErrorKind::WouldBlock => {
                    if look < looks {
                        spin_loop();
                    } else {
                        self.eagerness.waits();
                        self.bell.wait(self.stream.as_raw_fd(), POLLIN);
                    }
                }
                answer => {
                    self.eagerness.is_served(look, looks);
                    return answer;
                }
            }
        }
        Err(io::Error::from(ErrorKind::WouldBlock))
    }

    /// Reads the parts behind the first bytes of the buffer, of which so many came: how many there
    /// are then. What is met instead is told by the next read.
    fn read_behind(&mut self, buffer: &mut [u8], came: usize) -> usize
        ensures { result ≤ length buffer.new }
    {
        let mut held = came;
        for _ in 0..LOOKS_BEHIND {
            let Some(room) = buffer.get_mut(held..) else {
                break;
            };
            if held % PART != 0 || room.is_empty() {
                break;
            }
            match self.read_now(room) {
                Ok(0) => break,
                Ok(more) => held = held.saturating_add(more),
                Err(error) if error.kind() == ErrorKind::WouldBlock => spin_loop(),
                Err(error) => {
                    self.met = Some(error);
                    break;
                }
            }
        }
        held.min(buffer.len())
    }
}

impl<'a> Read for ClientReader<'a> {
    fn read(&mut self, buffer: &mut [u8]) -> io::Result<usize> {
        if let Some(error) = self.met.take() {
            return Err(error);
        }
        taken(&*self.answers)?.flush()?;
        match self.read_next(buffer) {
            // An item that comes in parts has to be put together by a copy, which costs more than
            // to look for them.
            Ok(came) if came >= PART => Ok(self.read_behind(buffer, came)),
            answer => answer,
        }
    }
}

/// The end of a client's link to which its answers go.
///
/// It keeps them for as long as there is room, so that those to requests that came together go
/// together too, and none of them costs a system call of its own.
#[derive(Drop)]
pub struct ClientWriter<'a> {
    answers: Arc<Answers<'a>>,
}

impl<'a> Write for ClientWriter<'a> {
    fn write(&mut self, answer: &[u8]) -> io::Result<usize> {
        taken(&*self.answers)?.write(answer)
    }

    /// Sends nothing: the other end does that, ahead of its next read.
    fn flush(&mut self) -> io::Result<()> {
        Ok(())
    }
}

/// Both ends of a client's link.
pub(crate) type Ends<'a> = (ClientReader<'a>, ClientWriter<'a>);

/// Both ends of a connection to a client.
pub(crate) fn ends<'a>(alloc: Global, stream: UnixStream, bell: &'a Bell) -> io::Result<Ends<'a>> {
    stream.set_nonblocking(true)?;
    let stream = Arc::new(alloc, stream)?;
    let outlet = Outlet {
        stream: Arc::try_clone(&stream)?,
        bell,
        had_grace: false,
        is_lost: false,
    };
    let answers = Mutex::new(BufWriter::with_capacity(alloc, MOST_KEPT, outlet)?);
    let answers = Arc::new(alloc, answers)?;
    let writer = ClientWriter {
        answers: Arc::try_clone(&answers)?,
    };
    let reader = ClientReader {
        stream,
        bell,
        answers,
        eagerness: Eagerness::new(),
        met: None,
    };
    Ok((reader, writer))
}
