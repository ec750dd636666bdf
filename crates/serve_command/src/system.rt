//! What the system gives a service.

ghost use Rattle.std.specs.Prelude.{◌≡◌, IfErr, MatchResult};
ghost use Rattle.portal_base.specs.Outside.{HasRisen};
ghost use Rattle.serve_start.specs.declared.end.ServeEnd.TheVariants.{Memory};
ghost use Rattle.serve_start.specs.Openings.{IsOfSocket, Opens, Refuses};

use crate::descriptors::{MOST_FILES, files_allowed};
use crate::root::Root;
use crate::standing::{Hall, Place, Standing};
use crate::store::ToldKeeper;
use crate::threads::{TREE_THREADS, TrialError, gives_threads};
use host_real::{OpenError, RealTree, System, Waiter};
use keeper_sqlite::{DatabaseFault, SqliteKeeper};
use portal_base::list::List;
use portal_base::memory::WantOfMemory;
use portal_base::text::Text;
use portal_base::who::{Kind, Who};
use portal_start::start::StartError;
use serve_start::end::ServeEnd;
use serve_start::openers::Openers;
use serve_start::sockets::Socket;
use serve_words::words::ServeWords;
use std::io::ErrorKind;
use std::marker::Model;
use std::{fmt, io};
use system_devices::{SystemClock, SystemWords};
use unix_links::{BindError, SocketFolder, SocketListener};

/// What the begin of a connection costs the history at most, in bytes: 128, and an
/// application's name.
const COST_OF_CONNECTION: u64 = 383;

/// A listener at a socket of a service.
pub(crate) type SystemListener<'v, 'a> = SocketListener<'v, Standing<'a>>;

/// What the system gives a service, which contracts see as its count of refusals.
#[derive(Drop)]
pub(crate) struct SystemOpeners<'v, 'a, R: Waiter> {
    rt: &'v R,
    system: &'a HostRuntime,
    standing: &'v Standing<'a>,
    /// How many files were open before the folder of the service's files.
    held: u64,
    /// That folder, until it is handed over.
    root: Option<Root<R>>,
    faults: u64,
}

impl<'v, 'a, R: Waiter> Model for SystemOpeners<'v, 'a, R> {
    ghost use Rattle.std.specs.Prelude.{ℕ};

    ghost Value = { ℕ };

    ghost view = { λ o. o.faults };
}

impl<'v, 'a, R: Waiter> SystemOpeners<'v, 'a, R> {
    /// What the system gives to posts that share this, of which nothing was refused so far, with
    /// the folder of the files.
    pub(crate) fn new(
        rt: &'v R,
        system: &'a HostRuntime,
        standing: &'v Standing<'a>,
        held: u64,
        root: Option<Root<R>>,
    ) -> SystemOpeners<'v, 'a, R>
        ensures { result ≡ 0 }
    {
        SystemOpeners {
            rt,
            system,
            standing,
            held,
            root,
            faults: 0,
        }
    }

    /// Counts a refusal.
    fn count(&mut self)
        ensures { HasRisen self.old self.new }
    {
        self.faults = self.faults.saturating_add(1);
    }

    /// Counts a refusal, and says why. Without memory to say so nothing is counted.
    fn refusal<E: fmt::Display>(&mut self, error: &E) -> Result<String, ServeEnd>
        ensures { MatchResult result (λ _. HasRisen self.old self.new)
            (λ end. (end ≡ Memory) × (self.new ≡ self.old)) }
    {
        match reason(self.system, error) {
            Ok(why) => {
                self.count();
                Ok(why)
            }
            Err(WantOfMemory) => Err(ServeEnd::Memory),
        }
    }

    /// The end of a service of which a socket can't be made.
    fn no_socket<E: fmt::Display>(&mut self, path: &Text, error: &E) -> ServeEnd
        ensures refuses { Refuses self.old result self.new }
        ensures end { IsOfSocket result }
    {
        let Ok(path) = Text::copied(self.system.alloc(), path.as_str()) else {
            return ServeEnd::Memory;
        };
        match self.refusal(error) {
            Ok(why) => ServeEnd::NoSocket { path, why },
            Err(end) => end,
        }
    }

    /// The sockets, made out of sight in their folder.
    fn places(&mut self, folder: &SocketFolder, sockets: &[Socket]) -> Result<List<Place>, ServeEnd>
        ensures opens { Opens self.old result self.new }
        ensures end { IfErr result IsOfSocket }
    {
        let mut places = List::new(self.system.alloc());
        for socket in sockets {
            let path = &socket.path;
            let listener = match folder.bind(self.system, places.len(), path.as_str()) {
                Ok(listener) => listener,
                Err(error) => return Err(self.no_socket(path, &error)),
            };
            let path = Text::copied(self.system.alloc(), path.as_str())?;
            places.push(Place { path, listener })?;
        }
        Ok(places)
    }

    /// The sockets, made in a folder that was taken. Where one can't be, none is left.
    fn hall(
        &mut self,
        folder: SocketFolder,
        path: &Text,
        sockets: &[Socket],
    ) -> Result<Hall, ServeEnd>
        ensures opens { Opens self.old result self.new }
        ensures end { IfErr result IsOfSocket }
    {
        let places = match self.places(&folder, sockets) {
            Ok(places) => places,
            Err(end) => {
                folder.clear(self.system);
                return Err(end);
            }
        };
        match Text::copied(self.system.alloc(), path.as_str()) {
            Ok(path) => Ok(Hall {
                folder,
                path,
                places,
            }),
            Err(WantOfMemory) => {
                folder.clear(self.system);
                Err(ServeEnd::Memory)
            }
        }
    }
}

/// Whether the service's own links at a socket spend what a history has left: those at the host's
/// mount do.
fn spends(socket: &Socket) -> bool {
    match (&socket.who, socket.kind) {
        (Who::Host, Kind::Mount) => true,
        _ => false,
    }
}

/// What an error says of itself.
fn reason<E: fmt::Display>(system: &HostRuntime, error: &E) -> Result<String, WantOfMemory> {
    Ok(format!(in system.alloc(); "{error}")?)
}

impl<'v, 'a, R: System> Openers<
    SystemListener<'v, 'a>,
    RealTree<R>,
    ToldKeeper<'a>,
    SystemClock<&'a HostRuntime>,
    SystemWords,
> for SystemOpeners<'v, 'a, R> {
    ghost faults = { λ count. count };

    ghost at = { λ _ _. Unit {0} };

    fn files_open(&self) -> u64 {
        self.held.min(MOST_FILES)
    }

    fn see_files(&mut self, wanted: u64) -> Result<(), ServeEnd> {
        match files_allowed() {
            Some(allowed) if allowed < wanted => {
                self.count();
                Err(ServeEnd::FewFiles { wanted, allowed })
            }
            _ => Ok(()),
        }
    }

    fn see_threads(&mut self, posts: usize) -> Result<(), ServeEnd> {
        let wanted = posts + TREE_THREADS;
        // A tree that is open has its threads.
        let missing = match &self.root {
            Some(Ok(_)) => posts,
            _ => wanted,
        };
        match gives_threads(self.rt, self.system, missing) {
            Ok(true) => Ok(()),
            Ok(false) => {
                self.count();
                Err(ServeEnd::FewThreads {
                    wanted: wanted as u64,
                })
            }
            Err(TrialError::Memory) => Err(ServeEnd::Memory),
            Err(TrialError::System(error)) => Err(ServeEnd::NoTrial {
                why: self.refusal(&error)?,
            }),
        }
    }

    fn open_root(&mut self, _root: &Text, _beside: u64) -> Result<RealTree<R>, ServeEnd> {
        match self.root.take() {
            Some(Ok(tree)) => Ok(tree),
            // Without memory to read the words nothing was opened.
            Some(Err(OpenError::Memory)) | None => Err(ServeEnd::Memory),
            Some(Err(error)) => Err(ServeEnd::NoRoot {
                why: self.refusal(&error)?,
            }),
        }
    }

    fn open_words(&mut self) -> Result<SystemWords, ServeEnd> {
        match SystemWords::open(self.system) {
            Ok(words) => Ok(words),
            Err(error) => Err(ServeEnd::NoSeed {
                why: self.refusal(&error)?,
            }),
        }
    }

    fn clock(&self) -> SystemClock<&'a HostRuntime> {
        SystemClock::new(self.system)
    }

    fn tell(&self, words: &ServeWords) {
        let history = words.history;
        self.standing.rounds().limit(history);
        if history < COST_OF_CONNECTION {
            let _ = eprintln!(self.system;
                "docportal: a history of {history} bytes is too small for a connection, which \
                costs up to {COST_OF_CONNECTION}"
            );
        }
    }

    fn make_sockets(&mut self, folder: &Text, sockets: &[Socket]) -> Result<(), ServeEnd> {
        let taken = match SocketFolder::take(self.system, folder.as_str()) {
            Ok(taken) => taken,
            Err(error) => return Err(self.no_socket(folder, &error)),
        };
        let hall = self.hall(taken, folder, sockets)?;
        match self.standing.take(hall) {
            Ok(()) => Ok(()),
            Err(_) => Err(self.no_socket(folder, &BindError::Live)),
        }
    }

    fn listen(&mut self, socket: &Socket) -> Result<SystemListener<'v, 'a>, ServeEnd> {
        let standing = self.standing;
        let Some(made) = standing.socket_at(&socket.path) else {
            return Err(self.no_socket(&socket.path, &io::Error::from(ErrorKind::NotFound)));
        };
        let bell = match standing.rounds().bell() {
            Ok(bell) => bell,
            Err(error) => return Err(self.no_socket(&socket.path, error)),
        };
        match SocketListener::new(made, bell, standing, spends(socket)) {
            Ok(listener) => Ok(listener),
            Err(error) => Err(self.no_socket(&socket.path, &error)),
        }
    }

    fn open_store(&mut self, store: &Text) -> Result<ToldKeeper<'a>, ServeEnd> {
        match SqliteKeeper::open(self.system, store.as_str()) {
            Ok(keeper) => Ok(ToldKeeper::new(self.system, keeper)),
            Err(DatabaseFault::Memory) => Err(ServeEnd::Memory),
            Err(error) => Err(ServeEnd::KeeperFault {
                why: self.refusal(&error)?,
            }),
        }
    }

    fn expect(&mut self, posts: u64) {
        self.standing.expect(posts);
    }

    fn close(&mut self) -> Result<(), ServeEnd> {
        let standing = self.standing;
        if let Some(posts) = standing.lacks_threads() {
            self.count();
            return Err(ServeEnd::FewThreads {
                wanted: posts.saturating_add(TREE_THREADS as u64),
            });
        }
        match standing.fault() {
            Some((place, error)) => Err(self.no_socket(&place.path, error)),
            None => Ok(()),
        }
    }

    fn fault_of(&self, keeper: &ToldKeeper<'a>) -> Result<String, WantOfMemory> {
        match keeper.keeper().last_fault() {
            Some(fault) => reason(self.system, &fault),
            None => reason(self.system, &StartError::KeeperFault),
        }
    }
}
