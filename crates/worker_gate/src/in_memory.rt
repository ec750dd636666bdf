//! A listener in memory, which tells its links.

ghost use Rattle.std.specs.Prelude.{◌≡◌, [], ◌≤◌, Some};
ghost use Rattle.worker_gate.specs.InMemory.{ends_of, links_of, room_of};
ghost use Rattle.worker_gate.specs.Listening.{links};

use crate::listener::{Accepted, Link, Listener};
use portal_base::list::List;
use portal_base::outside::{Sink, Source};
use std::alloc::Global;
use std::vec;

/// A listener that gives the links of a list, one after another, and keeps
/// those that come back.
#[derive(Drop)]
pub struct MemoryListener<S, K> {
    coming: vec::IntoIter<Link<S, K>>,
    back: Vec<Link<S, K>>,
    ends: u64,
}

impl<S: Source, K: Sink> MemoryListener<S, K> {
    /// A listener of these links, of which none came back so far.
    pub fn new(alloc: Global, coming: List<Link<S, K>>) -> MemoryListener<S, K>
        ensures links { links_of result ≡ links coming [] }
        ensures ends { ends_of result ≡ 0 }
    {
        MemoryListener {
            coming: coming.into_vec().into_iter(),
            back: Vec::new(alloc),
            ends: 0,
        }
    }

    /// The links that came back, in order.
    pub fn back(&self) -> &[Link<S, K>]
        ensures { result.now ≡ (links_of self.now).back }
    {
        self.back.as_slice()
    }
}

impl<S: Source, K: Sink> Listener for MemoryListener<S, K> {
    type In = S;

    type Out = K;

    ghost links = { λ l. Some (links_of l) };

    ghost ends = { λ l. l.ends };

    // It has no faults.
    ghost faults = { λ _. 0 };

    ghost room = { room_of };

    fn accept(&mut self, _alloc: Global) -> Accepted<S, K> {
        if self.coming.len() > 0 && self.back.reserve(1).is_err() {
            return Accepted::Memory;
        }
        match self.coming.next() {
            Some(Link { source, sink }) => Accepted::Link { source, sink },
            None => {
                self.ends = self.ends.saturating_add(1);
                Accepted::Closed
            }
        }
    }

    fn done(&mut self, source: S, sink: K) {
        self.back.push_reserved(Link { source, sink });
    }
}
