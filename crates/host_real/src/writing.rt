//! The file that is being written.
//!
//! A WRITE opens its file by a thread, which costs more than the write. So the file of the
//! last write stays open, and the next write to it opens nothing. A file that is open for
//! writing can't be run (execve(2), ETXTBSY), and who watches it isn't told that its writer
//! is done (inotify(7), IN_CLOSE_WRITE): so a thread closes it once it rests.

use crate::system::{System, Waiter};
use host_folders::error::OpenError;
use std::alloc::Global;
use std::fs::File;
use std::sync::{Arc, Condvar, Mutex, Wait};
use std::thread;
use std::thread::Threads;
use std::time::{Clock, Duration};

/// How long a file rests before it is closed, in milliseconds, and at most twice as long.
const REST: u64 = 20;

/// The file of the last write.
#[derive(Drop)]
struct Written {
    generation: u64,
    file: File,
}

/// What those who write and the thread tell each other.
#[derive(Drop)]
struct State {
    last: Option<Written>,
    /// How often a file was put here.
    puts: u64,
    /// Whether the thread waits for a file.
    is_asleep: bool,
    /// Whether there won't be another.
    is_closed: bool,
}

/// Where they meet.
#[derive(Drop)]
struct Meeting {
    state: Mutex<State>,
    wake: Condvar,
}

/// The file of the last write, open to write until it rests.
pub struct LastWritten<R: Waiter> {
    rt: R,
    meeting: Arc<Meeting, Global>,
}

impl<R: Waiter> LastWritten<R> {
    /// No file yet, and the thread that closes those that rest.
    pub fn new(rt: R, alloc: Global) -> Result<LastWritten<R>, OpenError>
    where
        R: System,
    {
        let state = State {
            last: None,
            puts: 0,
            is_asleep: false,
            is_closed: false,
        };
        let meeting = Arc::new(
            alloc,
            Meeting {
                state: Mutex::new(state),
                wake: Condvar::new(),
            },
        )?;
        let theirs = Arc::try_clone(&meeting)?;
        match thread::spawn(&rt, move || close_what_rests(&rt, &theirs)) {
            Ok(_) => Ok(LastWritten { rt, meeting }),
            Err(_) => Err(OpenError::NoThread),
        }
    }

    /// The file of a generation, where it is the one that was put here last and is open.
    pub fn take(&self, generation: u64) -> Option<File> {
        let mut state = self.meeting.state.lock(&self.rt);
        let last = state.last.take()?;
        if last.generation == generation {
            return Some(last.file);
        }
        state.last = Some(last);
        None
    }

    /// Keeps a file open, which was written by now. The one before is closed.
    pub fn put(&self, generation: u64, file: File) {
        let mut state = self.meeting.state.lock(&self.rt);
        let former = state.last.replace(Written { generation, file });
        state.puts = state.puts.wrapping_add(1);
        if state.is_asleep {
            state.is_asleep = false;
            self.meeting.wake.notify_one();
        }
        drop(state);
        drop(former);
    }
}

impl<R: Waiter> Drop for LastWritten<R> {
    fn drop(self) {
        let LastWritten { rt, meeting } = self;
        meeting.state.lock(&rt).is_closed = true;
        meeting.wake.notify_one();
    }
}

/// Closes each file that rests, until there won't be another.
fn close_what_rests<R: Wait + Clock>(rt: &R, meeting: &Meeting) {
    for _ in rt.forever() {
        let mut state = meeting.state.lock(rt);
        if state.last.is_none() {
            state.is_asleep = true;
        }
        let state = meeting
            .wake
            .wait_while(rt, state, |state| state.is_asleep && !state.is_closed);
        let puts = state.puts;
        let (mut state, _) = meeting.wake.wait_timeout_while(
            rt,
            state,
            Duration::from_millis(REST),
            |state| !state.is_closed,
        );
        let rests = state.puts == puts;
        let last = if rests || state.is_closed {
            state.last.take()
        } else {
            None
        };
        let is_closed = state.is_closed;
        drop(state);
        // To close a file may take long: nobody waits for it.
        drop(last);
        if is_closed {
            return;
        }
    }
}
