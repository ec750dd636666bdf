//! Openers in memory.

ghost use Rattle.std.specs.Prelude.{◌≡◌, false, true};
ghost use Rattle.std.specs.Option.{ForSome};
ghost use Rattle.std.proofs.Props.{props};
ghost use Rattle.portal_base.specs.Outside.{HasRisen};
ghost use Rattle.portal_start.specs.Loading.{BeganFirst};

use crate::end::ServeEnd;
use crate::openers::Openers;
use crate::sockets::Socket;
use host_tree::HostTree;
use portal_base::list::List;
use portal_base::memory::WantOfMemory;
use portal_base::outside::SetClock;
use portal_base::text::Text;
use serve_words::words::ServeWords;
use std::alloc::Global;
use std::vec;
use worker_gate::listener::{Accepted, Listener};

/// An opening, as one that is to be refused.
#[derive(Clone, Copy, Debug, PartialEq, Eq)]
pub enum Opening {
    /// Files that may be open.
    Files,
    /// Threads.
    Threads,
    /// The folder of the files.
    Root,
    /// Random words.
    Seed,
    /// The sockets.
    Sockets,
    /// The store.
    Store,
    /// A listener at a socket.
    Listener,
    /// That the sockets stand.
    Close,
}

/// A listener at a path.
#[derive(Drop)]
pub struct PathListener<L> {
    /// The path.
    pub path: Text,
    /// What gives its links.
    pub listener: L,
}

impl<L: Listener> Listener for PathListener<L> {
    type In = L::In;

    type Out = L::Out;

    ghost links = { λ l. L.links l.listener };

    ghost ends = { λ l. L.ends l.listener };

    ghost faults = { λ l. L.faults l.listener };

    ghost room = { λ l. L.room l.listener };

    fn accept(&mut self, alloc: Global) -> Accepted<L::In, L::Out> {
        self.listener.accept(alloc)
    }

    fn done(&mut self, source: L::In, sink: L::Out) {
        self.listener.done(source, sink);
    }
}

/// Openers that hand out what they were given: a tree, a keeper and words once, and listeners one
/// after another, each for the socket that asks for one. One opening may be refused, and so is
/// what was handed out already.
#[derive(Drop)]
pub struct MemoryOpeners<L, T: HostTree, K, W> {
    alloc: Global,
    refused: Option<Opening>,
    tree: Option<T>,
    keeper: Option<K>,
    words: Option<W>,
    listeners: vec::IntoIter<L>,
    faults: u64,
    ghost fresh: { ForSome tree (λ t. (T.is t).told ≡ (T.is t).began) },
    ghost first: { ForSome tree (λ t. BeganFirst (T.is t).began) } by { Prim.hlevel props },
}

impl<L, T: HostTree, K, W> MemoryOpeners<L, T, K, W> {
    /// Openers of these devices and listeners, which refuse this opening, or none.
    pub fn new(
        alloc: Global,
        refused: Option<Opening>,
        tree: T,
        keeper: K,
        words: W,
        listeners: List<L>,
    ) -> MemoryOpeners<L, T, K, W>
        requires fresh { (T.is tree).told ≡ (T.is tree).began }
        requires first { BeganFirst (T.is tree).began }
        ensures { result.faults ≡ 0 }
    {
        MemoryOpeners {
            alloc,
            refused,
            tree: Some(tree),
            keeper: Some(keeper),
            words: Some(words),
            listeners: listeners.into_vec().into_iter(),
            faults: 0,
        }
    }

    /// Whether an opening is to be refused, which is counted then.
    fn refuses(&mut self, opening: Opening) -> bool
        ensures counted { result ≡ true → HasRisen self.old.faults self.new.faults }
        ensures left { result ≡ false → self.new ≡ self.old }
    {
        if self.refused != Some(opening) {
            return false;
        }
        self.count();
        true
    }

    /// Counts a refusal.
    fn count(&mut self)
        ensures { HasRisen self.old.faults self.new.faults }
    {
        self.faults = self.faults.saturating_add(1);
    }

    /// Why an opening is refused.
    fn why(&self) -> String {
        String::new(self.alloc)
    }
}

impl<L: Drop, T: HostTree + Drop, K: Drop, W: Drop> Openers<PathListener<L>, T, K, SetClock, W>
    for MemoryOpeners<L, T, K, W> {
    ghost faults = { λ o. o.faults };

    ghost at = { λ l path. l.path ≡ path };

    fn files_open(&self) -> u64 {
        0
    }

    fn see_files(&mut self, wanted: u64) -> Result<(), ServeEnd> {
        // No service wants less than one file.
        if wanted == 0 || !self.refuses(Opening::Files) {
            return Ok(());
        }
        Err(ServeEnd::FewFiles { wanted, allowed: 0 })
    }

    fn see_threads(&mut self, posts: usize) -> Result<(), ServeEnd> {
        if self.refuses(Opening::Threads) {
            return Err(ServeEnd::FewThreads {
                wanted: posts as u64,
            });
        }
        Ok(())
    }

    fn open_root(&mut self, _root: &Text, _beside: u64) -> Result<T, ServeEnd> {
        if self.refuses(Opening::Root) {
            return Err(ServeEnd::NoRoot { why: self.why() });
        }
        match self.tree.take() {
            Some(tree) => Ok(tree),
            None => {
                self.count();
                Err(ServeEnd::NoRoot { why: self.why() })
            }
        }
    }

    fn open_words(&mut self) -> Result<W, ServeEnd> {
        if self.refuses(Opening::Seed) {
            return Err(ServeEnd::NoSeed { why: self.why() });
        }
        match self.words.take() {
            Some(words) => Ok(words),
            None => {
                self.count();
                Err(ServeEnd::NoSeed { why: self.why() })
            }
        }
    }

    fn clock(&self) -> SetClock {
        SetClock::new(0)
    }

    fn tell(&self, _words: &ServeWords) {}

    fn make_sockets(&mut self, folder: &Text, _sockets: &[Socket]) -> Result<(), ServeEnd> {
        let path = Text::copied(self.alloc, folder.as_str())?;
        if self.refuses(Opening::Sockets) {
            return Err(ServeEnd::NoSocket {
                path,
                why: self.why(),
            });
        }
        Ok(())
    }

    fn listen(&mut self, socket: &Socket) -> Result<PathListener<L>, ServeEnd> {
        let path = Text::copied(self.alloc, socket.path.as_str())?;
        if self.refuses(Opening::Listener) {
            return Err(ServeEnd::NoSocket {
                path,
                why: self.why(),
            });
        }
        match self.listeners.next() {
            Some(listener) => Ok(PathListener { path, listener }),
            None => {
                self.count();
                Err(ServeEnd::NoSocket {
                    path,
                    why: self.why(),
                })
            }
        }
    }

    fn open_store(&mut self, _store: &Text) -> Result<K, ServeEnd> {
        if self.refuses(Opening::Store) {
            return Err(ServeEnd::KeeperFault { why: self.why() });
        }
        match self.keeper.take() {
            Some(keeper) => Ok(keeper),
            None => {
                self.count();
                Err(ServeEnd::KeeperFault { why: self.why() })
            }
        }
    }

    fn expect(&mut self, _posts: u64) {}

    fn close(&mut self) -> Result<(), ServeEnd> {
        let path = Text::copied(self.alloc, "the sockets")?;
        if self.refuses(Opening::Close) {
            return Err(ServeEnd::NoSocket {
                path,
                why: self.why(),
            });
        }
        Ok(())
    }

    fn fault_of(&self, _keeper: &K) -> Result<String, WantOfMemory> {
        Ok(self.why())
    }
}
