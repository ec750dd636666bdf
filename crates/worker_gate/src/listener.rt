//! Where links come from.

ghost use Rattle.std.specs.Prelude.{◌≡◌, ◌≤◌, ℕ, Option};
ghost use Rattle.worker_gate.specs.Listening.{Accepts, AcceptCounts, Links, MakesRoom, returned};

use portal_base::outside::{Sink, Source};
use std::alloc::Global;

/// A link to a client: where its bytes come from, and where the answers go.
#[derive(Debug, Drop)]
pub struct Link<S, K> {
    /// The bytes that come.
    pub source: S,
    /// The pieces that go.
    pub sink: K,
}

/// The answer of an accept.
#[derive(Debug, Drop)]
pub enum Accepted<S, K> {
    /// The next link.
    Link {
        /// The bytes that come.
        source: S,
        /// The pieces that go.
        sink: K,
    },
    /// No link comes any more.
    Closed,
    /// A fault of accepting.
    Failed,
    /// There was no memory.
    Memory,
}

/// Where links come from, and where those that ended go back to.
///
/// A listener may tell contracts which links are to come and which were taken
/// back: one in memory does, a real one doesn't. Its two counts rise at each
/// end and at each fault, and at nothing else.
pub trait Listener {
    /// The bytes of a link that come.
    type In: Source;

    /// The pieces of a link that go.
    type Out: Sink;

    /// The links to come and those taken back, where the listener tells them.
    ghost links: { Self → Option (Links Self.In Self.Out) };

    /// How many times no link was to come any more.
    ghost ends: { Self → ℕ };

    /// How many accepts failed.
    ghost faults: { Self → ℕ };

    /// For how many links there is room to be taken back.
    ghost room: { Self → ℕ };

    /// Accepts the next link, and makes room to take it back.
    ///
    /// It may wait for a client. Of a listener that tells, the first link to
    /// come is given, and `Closed` comes only where there is none.
    fn accept(&mut self, alloc: Global) -> Accepted<Self::In, Self::Out>
        ensures accepts { Accepts (links self.old) result (links self.new) }
        ensures counts { AcceptCounts (ends self.old) (faults self.old) result (ends self.new)
            (faults self.new) }
        ensures room { MakesRoom result (room self.new) };

    // Both ends are moved in, so no body can hand one back twice.
    /// Takes a link back that ended, into the room that was made for it.
    fn done(&mut self, source: Self::In, sink: Self::Out)
        requires { 1 ≤ room self.old }
        ensures links { links self.new ≡ returned (links self.old) source sink }
        ensures ends { ends self.new ≡ ends self.old }
        ensures faults { faults self.new ≡ faults self.old };
}
