//! What the posts of a service share: when its sockets stand, and what is told.

use crate::line::on_one_line;
use crate::rounds::Rounds;
use portal_base::list::List;
use portal_base::outside::{Sink, StdSink};
use portal_base::text::Text;
use portal_model::reply::Refused;
use std::os::unix::net::UnixListener;
use std::sync::OnceLock;
use std::sync::atomic::{AtomicBool, AtomicU64, Ordering};
use std::time::Duration;
use std::{fs, io, thread};
use unix_links::{SocketFolder, Watch};
use worker_gate::gate::{Gate, Point};

/// How many milliseconds a post waits that can take no connection, before it tries again.
const PAUSE: u64 = 100;

/// How many milliseconds a post that is about to accept waits at most for the others.
const PATIENCE: u64 = 60_000;

/// After how many milliseconds at most it looks again whether all are: at first after one, and each
/// time after twice as many as before.
const LONGEST_STEP: u64 = 100;

/// A socket that is made, and is to stand at its path.
#[derive(Drop)]
pub struct Place {
    /// Where it is to stand.
    pub path: Text,
    /// The socket itself.
    pub listener: UnixListener,
}

/// The sockets of a service, which were made in a folder.
#[derive(Drop)]
pub struct Hall {
    /// The folder.
    pub folder: SocketFolder,
    /// Its path.
    pub path: Text,
    /// The sockets.
    pub places: List<Place>,
}

/// What a start came to.
#[derive(Drop)]
enum Outcome {
    /// The sockets stand.
    Stands,
    /// One couldn't be put in its place, and none stands.
    NoPlace {
        /// The number of the place, from 0.
        number: usize,
        /// What the system says.
        error: io::Error,
    },
    /// Some posts have no thread, and no socket was put in its place.
    FewThreads,
}

/// What the posts of a service share.
///
/// Their sockets are put in their places when the last post is about to accept for the
/// first time, and then one line on standard output tells that they stand. Where one
/// can't be, none stays, and all posts end; and so it is where the last post doesn't come to
/// that within a minute, since some have no thread.
///
/// No post accepts before it is known what the start came to.
#[derive(Drop)]
pub struct Standing<'a> {
    system: &'a HostRuntime,
    hall: OnceLock<Hall>,
    posts: AtomicU64,
    to_begin: AtomicU64,
    /// Who sets this is the one who finds out what the start comes to.
    is_claimed: AtomicBool,
    outcome: OnceLock<Outcome>,
    told_wait: AtomicBool,
    rounds: Rounds<'a>,
}

impl<'a> Standing<'a> {
    /// What posts share, before there are sockets.
    pub fn new(system: &'a HostRuntime) -> Standing<'a> {
        Standing {
            system,
            hall: OnceLock::new(),
            posts: AtomicU64::new(0),
            to_begin: AtomicU64::new(0),
            is_claimed: AtomicBool::new(false),
            outcome: OnceLock::new(),
            told_wait: AtomicBool::new(false),
            rounds: Rounds::new(system),
        }
    }

    /// The rounds of the service.
    pub(crate) fn rounds(&self) -> &Rounds<'a> {
        &self.rounds
    }

    /// Takes the sockets that were made. They are handed back where there are some already.
    pub fn take(&self, hall: Hall) -> Result<(), Hall> {
        match self.hall.try_set(hall) {
            Ok(_) => Ok(()),
            Err(hall) => Err(hall),
        }
    }

    /// The socket that was made for a path.
    pub fn socket_at(&self, path: &Text) -> Option<&UnixListener> {
        let hall = self.hall.get()?;
        let mut places = hall.places.as_slice().iter();
        let place = places.find(|place| place.path.as_str() == path.as_str())?;
        Some(&place.listener)
    }

    /// So many posts are to begin before the sockets are put in their places.
    pub fn expect(&self, posts: u64) {
        self.posts.store(posts, Ordering::SeqCst);
        self.to_begin.store(posts, Ordering::SeqCst);
        self.rounds.expect(posts);
    }

    /// The socket that couldn't be put in its place, where there was one, and why.
    pub fn fault(&self) -> Option<(&Place, &io::Error)> {
        match self.outcome.get()? {
            Outcome::NoPlace { number, error } => {
                let place = self.hall.get()?.places.get(*number)?;
                Some((place, error))
            }
            Outcome::Stands | Outcome::FewThreads => None,
        }
    }

    /// How many posts there are, where some have no thread.
    pub fn lacks_threads(&self) -> Option<u64> {
        match self.outcome.get()? {
            Outcome::FewThreads => Some(self.posts.load(Ordering::SeqCst)),
            Outcome::Stands | Outcome::NoPlace { .. } => None,
        }
    }

    /// Takes the sockets away that were made and don't stand.
    pub fn clear(&self) {
        if let Some(hall) = self.hall.get() {
            hall.folder.clear(self.system);
        }
    }

    /// Whether the sockets stand.
    fn stands(&self) -> bool {
        match self.outcome.get() {
            Some(Outcome::Stands) => true,
            _ => false,
        }
    }

    /// Puts the sockets in their places, unless the start was given up, and tells that they stand.
    fn show(&self) {
        if self.is_claimed.swap(true, Ordering::SeqCst) {
            return;
        }
        let outcome = self.placed();
        let _ = self.outcome.try_set(outcome);
        if self.stands() {
            self.tell_ready();
        }
    }

    /// Puts each socket in its place. Where one can't be, those are taken away again that stand.
    fn placed(&self) -> Outcome {
        let Some(hall) = self.hall.get() else {
            return Outcome::Stands;
        };
        for (number, place) in hall.places.as_slice().iter().enumerate() {
            let path = place.path.as_str();
            if let Err(error) = hall.folder.show(self.system, number, path) {
                self.take_away(hall, number);
                return Outcome::NoPlace { number, error };
            }
        }
        hall.folder.clear(self.system);
        Outcome::Stands
    }

    /// Takes so many sockets away again, the first, that stand already.
    fn take_away(&self, hall: &Hall, shown: usize) {
        for place in hall.places.as_slice().iter().take(shown) {
            let _ = fs::remove_file(self.system, place.path.as_str());
        }
    }

    /// Gives the start up, unless its sockets are being put in their places.
    fn give_up(&self) {
        if !self.is_claimed.swap(true, Ordering::SeqCst) {
            let _ = self.outcome.try_set(Outcome::FewThreads);
        }
    }

    /// Waits until it is known what the start came to. Where the last post isn't about to accept
    /// within a minute, it is given up.
    fn await_outcome(&self) {
        let mut step = 1_u64;
        let mut waited = 0_u64;
        for _ in 0..u64::MAX {
            if self.outcome.get().is_some() {
                return;
            }
            if waited >= PATIENCE {
                self.give_up();
            }
            thread::sleep(self.system, Duration::from_millis(step));
            waited = waited.saturating_add(step);
            step = step.saturating_mul(2).min(LONGEST_STEP);
        }
    }

    /// Tells on standard output that the sockets stand.
    fn tell_ready(&self) {
        let Some(hall) = self.hall.get() else {
            return;
        };
        // Who waits for the line may be gone, or there is no memory for it: the sockets are served
        // all the same.
        let alloc = self.system.alloc();
        let count = hall.places.len();
        let Ok(folder) = on_one_line(alloc, hall.path.as_str()) else {
            return;
        };
        if let Ok(line) = format!(in alloc; "docportal: {count} sockets stand in {folder}\n") {
            StdSink::new(self.system.stdout()).write(line.as_bytes());
        }
    }
}

impl<'a> Watch for Standing<'a> {
    fn begin(&self) -> bool {
        if self.to_begin.fetch_sub(1, Ordering::SeqCst) == 1 {
            self.show();
        }
        // A post that has no thread of its own begins only once another has ended.
        self.await_outcome();
        self.stands()
    }

    fn hold_up(&self, error: &io::Error) {
        if !self.told_wait.swap(true, Ordering::SeqCst) {
            let _ = eprintln!(self.system;
                "docportal: connections have to wait: {error} (told once)"
            );
        }
        thread::sleep(self.system, Duration::from_millis(PAUSE));
    }

    fn end(&self, error: &io::Error) {
        let _ = eprintln!(self.system; "docportal: a post ends, it can't accept: {error}");
    }

    fn give(&self, spends: bool) {
        self.rounds.give(spends);
    }

    fn spend(&self, buffer: &mut [u8]) -> usize {
        self.rounds.fill(buffer)
    }
}

impl<'a> Gate for Standing<'a> {
    fn at(&self, _worker: u32, _point: Point) {}

    fn answered(&self, _worker: u32, cost: u64) {
        self.rounds.spend(cost);
    }

    fn refused(&self, _worker: u32, why: &Refused) {
        if let Refused::Full { cost: _, limit: _ } = why {
            self.rounds.end();
        }
    }

    fn renewed(&self, turns: u64) {
        self.rounds.begin(turns);
    }
}
