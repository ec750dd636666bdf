//! Opens that don't hold up the one who asks.
//!
//! An open may take for ever: of a pipe that took a file's place, or of a file on a system
//! that is gone. So a thread makes it, and who asks waits for it for a short while. A
//! thread that doesn't come back is left, and another is asked from then on. All of them
//! are started with the tree.

use crate::system::{System, Waiter};
use host_folders::error::OpenError;
use std::alloc::Global;
use std::fs::{File, OpenOptions};
use std::io::ErrorKind;
use std::sync::{Arc, Condvar, Mutex, MutexGuard, Wait};
use std::thread::Threads;
use std::time::Duration;
use std::{io, mem, thread};

/// How long one who asks waits before he looks how far an open is, in milliseconds.
const PATIENCE: u64 = 100;

/// How often he waits for a thread that didn't begin: where others have all processors.
const MOST_WAITS: usize = 20;

/// How many threads there are, where the system gives so many.
const THREADS: usize = 8;

/// The most bytes of a path.
const MOST_BYTES: usize = 4_200;

/// What a file is opened for.
#[derive(Clone, Copy, PartialEq, Eq)]
pub enum Purpose {
    /// To read it.
    Read,
    /// To write to it; nothing is cut.
    Write,
}

/// How far an open is.
#[derive(Clone, Copy, PartialEq, Eq)]
enum Stage {
    /// There is none.
    Idle,
    /// It was asked for.
    Asked,
    /// A thread makes it.
    Begun,
    /// It is made, or failed.
    Done,
    /// Nobody waits for it any more.
    Left,
    /// There won't be another.
    Closed,
}

/// What one who asks and a thread tell each other.
#[derive(Drop)]
struct Request {
    stage: Stage,
    path: String,
    purpose: Purpose,
    opened: Option<io::Result<File>>,
}

/// Where one who asks and a thread meet.
#[derive(Drop)]
struct Mailbox {
    request: Mutex<Request>,
    asked: Condvar,
    done: Condvar,
}

/// A thread, and for whom it was asked last.
#[derive(Drop)]
struct Helper {
    mailbox: Arc<Mailbox, Global>,
    owner: u64,
}

impl Helper {
    /// Says whether it has nothing to do.
    fn is_idle<R: Waiter>(&self, rt: &R) -> bool {
        self.mailbox.request.lock(rt).stage == Stage::Idle
    }
}

/// The threads that open files.
pub struct Opener<R: Waiter> {
    rt: R,
    system: HostRuntime,
    helpers: Vec<Helper>,
    /// Whether it was told that no thread is left.
    was_told: bool,
}

impl<R: Waiter> Opener<R> {
    /// All threads, or as many as the system gives, at least one.
    pub fn new(rt: R, system: HostRuntime, alloc: Global) -> Result<Opener<R>, OpenError>
    where
        R: System,
    {
        let mut helpers = Vec::with_capacity(alloc, THREADS)?;
        helpers.push(new_helper(rt, system, alloc)?)?;
        for _ in 1..THREADS {
            let Ok(more) = new_helper(rt, system, alloc) else {
                break;
            };
            helpers.push(more)?;
        }
        Ok(Opener {
            rt,
            system,
            helpers,
            was_told: false,
        })
    }

    /// The file at a path, opened for an owner of files. An owner who has a thread that
    /// doesn't come back gets no other: so nobody keeps all of them.
    pub fn open(&mut self, path: &str, purpose: Purpose, owner: u64) -> io::Result<File> {
        let rt = self.rt;
        match self.free_helper(owner) {
            Some(helper) => {
                helper.owner = owner;
                ask(&rt, &helper.mailbox, path, purpose)
            }
            None => Err(io::Error::from(ErrorKind::TimedOut)),
        }
    }

    /// A thread that has nothing to do, where an owner may have one.
    fn free_helper(&mut self, owner: u64) -> Option<&mut Helper> {
        let mut free = None;
        for (at, helper) in self.helpers.iter().enumerate() {
            if helper.is_idle(&self.rt) {
                free = Some(at);
            } else if helper.owner == owner {
                return None;
            }
        }
        if free.is_none() && !self.was_told {
            tell(&self.system);
        }
        self.was_told = free.is_none();
        self.helpers.get_mut(free?)
    }
}

impl<R: Waiter> Drop for Opener<R> {
    fn drop(self) {
        let Opener {
            rt,
            system: _,
            helpers,
            was_told: _,
        } = self;
        for helper in helpers.iter() {
            helper.mailbox.request.lock(&rt).stage = Stage::Closed;
            helper.mailbox.asked.notify_one();
        }
    }
}

/// Tells that no thread is left.
fn tell(system: &HostRuntime) {
    let _ = system.eprintln("docportal: opens of files don't come back; no more are made");
}

/// A new thread that waits for what is asked.
fn new_helper<R>(rt: R, system: HostRuntime, alloc: Global) -> Result<Helper, OpenError>
where
    R: Threads + Wait + Copy + Send + 'static,
{
    let request = Request {
        stage: Stage::Idle,
        path: String::with_capacity(alloc, MOST_BYTES)?,
        purpose: Purpose::Read,
        opened: None,
    };
    let mailbox = Arc::new(
        alloc,
        Mailbox {
            request: Mutex::new(request),
            asked: Condvar::new(),
            done: Condvar::new(),
        },
    )?;
    let theirs = Arc::try_clone(&mailbox)?;
    match thread::spawn(&rt, move || work(&rt, &system, alloc, &theirs)) {
        Ok(_) => Ok(Helper { mailbox, owner: 0 }),
        Err(_) => Err(OpenError::NoThread),
    }
}

/// Makes each open that is asked for, until there won't be another.
fn work<R: Wait>(rt: &R, system: &HostRuntime, alloc: Global, mailbox: &Mailbox) {
    for _ in rt.forever() {
        let Some((path, purpose)) = next(rt, alloc, mailbox) else {
            return;
        };
        let opened = opened(system, path.as_str(), purpose);
        let mut request = mailbox.request.lock(rt);
        request.path = path;
        match request.stage {
            Stage::Begun => {
                request.opened = Some(opened);
                request.stage = Stage::Done;
            }
            // What nobody waits for is closed.
            Stage::Left => request.stage = Stage::Idle,
            _ => {}
        }
        drop(request);
        mailbox.done.notify_one();
    }
}

/// What is asked next.
fn next<R: Wait>(rt: &R, alloc: Global, mailbox: &Mailbox) -> Option<(String, Purpose)> {
    let mut request = mailbox.asked.wait_while(
        rt,
        mailbox.request.lock(rt),
        |request| waits_for_work(request.stage),
    );
    if request.stage == Stage::Closed {
        return None;
    }
    request.stage = Stage::Begun;
    let path = mem::replace(&mut request.path, String::new(alloc));
    Some((path, request.purpose))
}

fn waits_for_work(stage: Stage) -> bool {
    stage != Stage::Asked && stage != Stage::Closed
}

/// Asks for an open, and waits for it for a while.
fn ask<R: Waiter>(rt: &R, mailbox: &Mailbox, path: &str, purpose: Purpose) -> io::Result<File> {
    let mut request = mailbox.request.lock(rt);
    request.path.clear();
    request.path.push_str(path)?;
    request.purpose = purpose;
    request.opened = None;
    request.stage = Stage::Asked;
    mailbox.asked.notify_one();
    let mut request = wait_for(rt, mailbox, request);
    match request.stage {
        Stage::Done => {}
        Stage::Begun => {
            request.stage = Stage::Left;
            return Err(io::Error::from(ErrorKind::TimedOut));
        }
        // No thread took it, and none will.
        _ => {
            request.stage = Stage::Idle;
            return Err(io::Error::from(ErrorKind::TimedOut));
        }
    }
    request.stage = Stage::Idle;
    match request.opened.take() {
        Some(opened) => opened,
        None => Err(io::Error::from(ErrorKind::TimedOut)),
    }
}

/// Waits until an open is done, or the thread that makes it had the time of one wait and
/// didn't come back.
fn wait_for<'a, R: Waiter>(
    rt: &R,
    mailbox: &'a Mailbox,
    request: MutexGuard<'a, Request>,
) -> MutexGuard<'a, Request> {
    let mut request = request;
    for _ in 0..MOST_WAITS {
        let had_begun = request.stage == Stage::Begun;
        let patience = Duration::from_millis(PATIENCE);
        let (guard, _) = mailbox.done.wait_timeout_while(
            rt,
            request,
            patience,
            |request| is_under_way(request.stage),
        );
        request = guard;
        if had_begun || !is_under_way(request.stage) {
            break;
        }
    }
    request
}

fn is_under_way(stage: Stage) -> bool {
    stage == Stage::Asked || stage == Stage::Begun
}

/// The file at a path. None is made, and none is cut.
fn opened(system: &HostRuntime, path: &str, purpose: Purpose) -> io::Result<File> {
    let mut how = OpenOptions::new();
    match purpose {
        Purpose::Read => how.read(true),
        Purpose::Write => how.write(true),
    };
    how.open(system, path)
}
